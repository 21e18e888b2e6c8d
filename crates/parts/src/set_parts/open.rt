// What the parts of a table find in the set.
ghost use Rattle.std.specs.Prelude.{◌≡◌, ◌<◌, [], slice_index_or};
ghost use Rattle.format.specs.Glyphs.{peaks_seen, shared_peaks};
ghost use Rattle.format.specs.Table.{variations_of};
ghost use Rattle.parts.specs.OfParts.{parts_glyphs};
ghost use Rattle.parts.specs.OfStore.{store_peaks, store_variations};

use super::SetParts;
use crate::store::GlyphStore;
use sets::view::Span;
use tuples::tuple::Tuple;

impl<'s, 'a> SetParts<'s, 'a> {
    // The glyph with the number; one without variations where none has it.
    pub fn store_of(&self, n: usize) -> GlyphStore<'_, 'a>
        ensures peaks { store_peaks result ≡ peaks_seen (parts_glyphs self.now) }
        ensures variations { store_variations result ≡ variations_of n (parts_glyphs self.now) }
    {
        let none = Span { first: 0, count: 0 };
        let span = self.set.span(n).unwrap_or(none);
        GlyphStore { parts: *self, span }
    }

    // A shared peak.
    pub(crate) fn shared_peak(&self, r: usize) -> Tuple<'_>
        requires { r < self.now.peaks }
        ensures { result.values.now ≡ slice_index_or (shared_peaks (peaks_seen (parts_glyphs self.now))) r [] }
    {
        let first = self.set.view(self.cells[r].order()).unwrap();
        Tuple { values: first.peak }
    }
}
