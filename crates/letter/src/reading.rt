// Reads a glyph of the table back, and compares it with what was handed in.
use crate::compare::first_difference;
use crate::script::Line;
use crate::session::Session;
use printed::glyph::GlyphLines;
use reader::slot::{Slot, open_glyph};
use sets::set::Set;
use sets::view::Span;
use std::io;
use std::io::{BufWriter, Stdout, Write};

// The variations of a glyph among the first so many of the set.
fn span_within(set: &Set<'_>, glyph: u16, variations: usize) -> Span {
    let none = Span { first: 0, count: 0 };
    set.span(glyph as usize).map_or(
        none,
        |span| Span {
            count: span.count.min(variations.saturating_sub(span.first)),
            ..span
        },
    )
}

// Prints the first difference of each entry, or that there is none.
fn compare_glyph(
    out: &mut BufWriter<Stdout>,
    set: &Set<'_>,
    span: Span,
    mut slot: Slot<'_>,
) -> io::Result<()> {
    let given = span.count;
    let entries = slot.len();
    if entries as usize != given {
        return writeln!(out, "differs: {given} variations, {entries} entries");
    }
    let mut same = true;
    for (number, place) in (0..entries).zip(span.first..) {
        let (Some(variation), Some(entry)) = (set.view(place), slot.next()) else {
            same = false;
            writeln!(out, "differs: no entry {number}")?;
            continue;
        };
        if let Some(difference) = first_difference(variation, entry) {
            same = false;
            writeln!(out, "differs: variation {number}: {difference}")?;
        }
    }
    if same {
        writeln!(out, "agrees")?;
    }
    Ok(())
}

impl Session<'_> {
    // Prints the glyph with so many points of the kept table, and whether it is what was handed in before the compile.
    pub fn read(&mut self, line: Line<'_>, glyph: u16, points: u16) -> io::Result<()> {
        let Line { number, text } = line;
        let Some((table, variations)) = self.kept.table() else {
            return writeln!(self.out, "line {number}: no table is compiled to a buffer");
        };
        let slot = match open_glyph(table, glyph, points) {
            Ok(slot) => slot,
            Err(fault) => return writeln!(self.out, "{text}: {fault}"),
        };
        writeln!(self.out, "{text}: granted")?;
        let lines = GlyphLines {
            glyph,
            points,
            slot,
        };
        write!(self.out, "{lines}")?;
        let set = &self.lent.set;
        let span = span_within(set, glyph, variations);
        compare_glyph(self.out, set, span, slot)
    }
}
