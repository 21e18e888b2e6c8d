// The lines that answer a call.
use sets::refusal::Refusal;
use std::io;
use std::io::{BufWriter, Stdout, Write};

// The line with what it was refused with: number and layer, then glyph and variation as far as they are concerned.
pub fn show_refused(out: &mut BufWriter<Stdout>, line: &str, refusal: Refusal) -> io::Result<()> {
    writeln!(out, "{line}: {refusal}")
}

pub fn show_answer(
    out: &mut BufWriter<Stdout>,
    line: &str,
    answer: Result<(), Refusal>,
) -> io::Result<()> {
    match answer {
        Ok(()) => writeln!(out, "{line}: granted"),
        Err(refusal) => show_refused(out, line, refusal),
    }
}
