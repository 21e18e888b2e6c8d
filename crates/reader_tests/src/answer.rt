// The reader's answer on one line: the entries of a glyph, or the refusal.
use printed::entry_tents::Tents;
use reader::entry::Entry;
use reader::slot::open_glyph;
use std::io::{BufWriter, Stdout, Write};
use std::{fmt, io};

// Each move after a space: the point, x and y.
#[derive(Clone, Copy)]
struct Moves<'a>(Entry<'a>);

impl fmt::Display for Moves<'_> {
    fn fmt<W: fmt::Write>(&self, f: &mut fmt::Formatter<W>) -> fmt::Result {
        for m in self.0.moves() {
            write!(f, " {}:{}:{}", m.point, m.x, m.y)?;
        }
        Ok(())
    }
}

pub fn show_answer(
    out: &mut BufWriter<Stdout>,
    bytes: &[u8],
    glyph: u16,
    points: u16,
) -> io::Result<()> {
    let slot = match open_glyph(bytes, glyph, points) {
        Ok(slot) => slot,
        Err(fault) => return write!(out, "{fault}"),
    };
    let entries = slot.len();
    write!(out, "entries {entries}")?;
    for entry in slot {
        write!(out, " | {} moves{}", Tents(entry), Moves(entry))?;
    }
    Ok(())
}
