// How a glyph is found by its number: by chains in the glyph cells.
ghost use Rattle.std.specs.Prelude.{◌≡◌, ℕ, ◌<◌, length, take, MatchOption, ◌≢◌};
ghost use Rattle.format.specs.Account.{begun};
ghost use Rattle.sets.specs.Cells.{number_at};
ghost use Rattle.sets.specs.Index.{previous};
ghost use Rattle.sets.specs.OfSet.{glyphs_of};

use super::Set;
use crate::cells::GlyphCell;

impl<'a> Set<'a> {
    // The cells of the glyphs begun.
    pub(crate) fn glyph_cells(&self) -> &[GlyphCell]
        ensures are { result.now ≡ take self.now.begun self.now.glyphs.now }
        ensures len { length result.now ≡ self.now.begun }
    {
        &self.glyphs[..self.begun]
    }

    // The place of the last glyph in a bucket: its head, unless no glyph has written that.
    pub(crate) fn chain(&self, bucket: usize) -> Option<usize>
        requires { bucket < length self.now.glyphs.now }
        ensures { result ≡ previous (number_at self.now.glyphs.now) (length self.now.glyphs.now) bucket self.now.begun }
    {
        let at = self.glyphs[bucket].head.item()?;
        let cell = self.glyph_cells().get(at)?;
        if usize::from(cell.number) % self.glyphs.len() == bucket {
            Some(at)
        } else {
            None
        }
    }

    // The place of the glyph with the number. Numbers that leave the same remainder modulo the number n of cells are
    // looked at; of those below 65,535 there are at most 65,535 / n + 1, and no more than n, so 256 at most.
    pub(crate) fn find(&self, number: usize) -> Option<usize>
        ensures { MatchOption result ((g : ℕ) → g < self.now.begun → number_at self.now.glyphs.now g ≢ number) (λ p. (p < self.now.begun) × (number_at self.now.glyphs.now p ≡ number)) }
    {
        let bucket = number.checked_rem(self.glyphs.len())?;
        let mut at = self.chain(bucket);
        while let Some(place) = at {
            let cell = self.glyphs[place];
            if usize::from(cell.number) == number {
                return Some(place);
            }
            at = cell.next.item();
        }
        None
    }

    // Whether a glyph with the number is begun.
    pub fn has(&self, number: usize) -> bool
        ensures { result ≡ begun number (glyphs_of self.now) }
    {
        self.find(number).is_some()
    }
}
