// A glyph of a table as text.
use crate::entry_tents::Tents;
use crate::moves::MoveLines;
use reader::slot::Slot;
use std::fmt;

// A glyph that has so many points, with its entries and their moves, each on a line.
#[derive(Clone, Copy)]
pub struct GlyphLines<'a> {
    pub glyph: u16,
    pub points: u16,
    pub slot: Slot<'a>,
}

impl fmt::Display for GlyphLines<'_> {
    fn fmt<W: fmt::Write>(&self, f: &mut fmt::Formatter<W>) -> fmt::Result {
        let GlyphLines {
            glyph,
            points,
            slot,
        } = *self;
        let entries = slot.len();
        writeln!(f, "glyph {glyph} points {points} entries {entries}")?;
        for (number, entry) in slot.enumerate() {
            writeln!(f, "entry {number} {}", Tents(entry))?;
            write!(f, "{}", MoveLines(entry))?;
        }
        Ok(())
    }
}
