// The answers as text.
use counts::cells::CountCell;
use sets::refusal::Refusal;
use std::io::{BufWriter, Stdout, Write};
use std::{fmt, io};

// The number, and the glyph and the variation concerned.
pub fn show_refusal(out: &mut BufWriter<Stdout>, refusal: Refusal) -> io::Result<()> {
    write!(out, " refused {}", refusal.number())?;
    if let Some(glyph) = refusal.glyph() {
        write!(out, " glyph {glyph}")?;
    }
    if let Some(variation) = refusal.variation() {
        write!(out, " variation {variation}")?;
    }
    Ok(())
}

// How many calls were accepted, or why one of them was not.
pub fn show_calls(out: &mut BufWriter<Stdout>, answer: Result<u16, Refusal>) -> io::Result<()> {
    match answer {
        Ok(accepted) => write!(out, " {accepted}"),
        Err(refusal) => show_refusal(out, refusal),
    }
}

// The length of a table, or why there is none.
pub fn show_compiled(
    out: &mut BufWriter<Stdout>,
    answer: Result<usize, Refusal>,
) -> io::Result<()> {
    write!(out, " |")?;
    match answer {
        Ok(length) => write!(out, " compiled {length}"),
        Err(refusal) => show_refusal(out, refusal),
    }
}

// What became of the count cells at a compile.
#[derive(Clone, Copy)]
pub enum Cells {
    Zeros,
    Same,
    Changed,
}

// Whether two cells tell the same: a cell shows a rank, an order and a mark.
fn tell_same(a: &CountCell, b: &CountCell) -> bool {
    (a.rank(), a.order(), a.is_marked()) == (b.rank(), b.order(), b.is_marked())
}

impl Cells {
    pub fn since(before: &[CountCell], after: &[CountCell]) -> Cells {
        let zeros = CountCell::zeros();
        if after.iter().all(|cell| tell_same(cell, &zeros)) {
            Cells::Zeros
        } else if before.iter().zip(after).all(|(b, a)| tell_same(b, a)) {
            Cells::Same
        } else {
            Cells::Changed
        }
    }
}

impl fmt::Display for Cells {
    fn fmt<W: fmt::Write>(&self, f: &mut fmt::Formatter<W>) -> fmt::Result {
        match self {
            Cells::Zeros => f.write_str(", cells zeros"),
            Cells::Same => f.write_str(", cells same"),
            Cells::Changed => f.write_str(", cells changed"),
        }
    }
}
