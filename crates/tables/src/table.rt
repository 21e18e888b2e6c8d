// A table of some parts in one form: where its parts begin, and how long its slots are.
ghost use Rattle.std.specs.Prelude.{◌≡◌, ◌+◌, ◌<◌, ◌≤◌, length};
ghost use Rattle.format.specs.Table.{padded};
ghost use Rattle.tables.specs.Forms.{halves};
ghost use Rattle.tables.specs.Parts.{glyph_at, peaks_data, slots_from, offsets_data};

use crate::form::OffsetForm;
use crate::parts::TableParts;

// The size of all that stands before the offsets.
pub(crate) const HEAD_SIZE: usize = 20;

// The parts, and the form of their offsets.
#[derive(Drop)]
pub struct Table<'p, P> {
    pub parts: &'p P,
    pub form: OffsetForm,
}

impl<'p, P: TableParts> Table<'p, P> {
    // Where the shared peaks begin: after the head and the offsets.
    pub fn peaks_start(&self) -> usize
        ensures is { result ≡ 20 + length (offsets_data (halves self.now.form) 0 (slots_from (halves self.now.form) (P.glyphs self.now.parts.now) 0)) }
        ensures small { result ≤ 262164 }
    {
        HEAD_SIZE + self.form.width() * (self.parts.glyph_count() + 1)
    }

    // The size of the shared peaks.
    fn peaks_size(&self) -> usize
        ensures is { result ≡ length (peaks_data (P.glyphs self.now.parts.now)) }
        ensures small { result ≤ 536731650 }
    {
        2 * (usize::from(self.parts.axis_count()) * self.parts.shared_count())
    }

    // Where the slots begin: after the shared peaks.
    pub fn slots_start(&self) -> usize
        ensures is { result ≡ 20 + (length (offsets_data (halves self.now.form) 0 (slots_from (halves self.now.form) (P.glyphs self.now.parts.now) 0)) + length (peaks_data (P.glyphs self.now.parts.now))) }
        ensures small { result ≤ 536993814 }
    {
        self.peaks_start() + self.peaks_size()
    }

    // The size of the slot of the glyph n.
    pub(crate) fn slot_size(&self, n: usize) -> usize
        requires { n < length (P.glyphs self.now.parts.now) }
        ensures is { result ≡ length (padded (halves self.now.form) (glyph_at (P.glyphs self.now.parts.now) n)) }
        ensures small { result ≤ 17179869184 }
    {
        let size = self.parts.glyph_size(n);
        size + usize::from(self.form.pads(size))
    }
}
