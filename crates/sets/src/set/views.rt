// What a set holds, lent.
ghost use Rattle.std.specs.Prelude.{◌≡◌, ◌+◌, ◌*◌, ◌<◌, ◌≤◌, true, false, length, get_or, take, drop, MatchOption, slice_index_or};
ghost use Rattle.format.specs.Account.{begun, most_axes, ShortSet};
ghost use Rattle.format.specs.Glyphs.{peaks_seen};
ghost use Rattle.format.specs.Table.{variation_count, numbers_full};
ghost use Rattle.variations.specs.Deltas.{deltas_of};
ghost use Rattle.sets.specs.OfSet.{account_of, glyphs_of};
ghost use Rattle.sets.specs.Rows.{rows};
ghost use Rattle.sets.specs.Views.{all_variations, no_variation, Shows, Spans, Lies};

use super::Set;
use crate::view::{GlyphDeltas, Span};
use variations::delta::GlyphDelta;

impl<'a> Set<'a> {
    pub fn axis_count(&self) -> u16
        ensures is { result ≡ (account_of self.now).axes }
        ensures few { result ≤ most_axes }
    {
        self.axes.get()
    }

    // How many glyphs are begun.
    pub fn glyph_count(&self) -> usize
        ensures is { result ≡ length (glyphs_of self.now) }
        ensures few { true ≡ numbers_full (glyphs_of self.now) → result ≤ 65535 }
        ensures short { ShortSet (glyphs_of self.now) }
    {
        self.begun
    }

    // How many variations all glyphs have together.
    pub fn variation_count(&self) -> usize
        ensures is { result ≡ variation_count (glyphs_of self.now) }
        ensures all { result ≡ length (all_variations (glyphs_of self.now)) }
    {
        self.added
    }

    // How many values each variation has: a peak, a start and an end on each axis.
    pub(crate) fn values_each(&self) -> usize
        ensures is { result ≡ 3 * self.now.axes.count }
        ensures few { result ≤ 192 }
    {
        3 * usize::from(self.axis_count())
    }

    // The axis values of variation i: its peak, then its starts, then its ends.
    fn tents_at(&self, i: usize) -> &[i16]
        requires { i < self.now.added }
        ensures { result.now ≡ take (3 * self.now.axes.count) (drop (3 * self.now.axes.count * i) self.now.values.now) }
    {
        let each = self.values_each();
        &self.values[each * i..each * i + each]
    }

    // The n deltas from the place `start` on.
    fn deltas_from(&self, start: usize, n: usize) -> &[GlyphDelta]
        requires { start + n ≤ length self.now.deltas.now }
        ensures { result.now ≡ take n (drop start self.now.deltas.now) }
    {
        &self.deltas[start..start + n]
    }

    // The deltas of variation i.
    fn deltas_at(&self, i: usize) -> &[GlyphDelta]
        requires { i < self.now.added }
        ensures { deltas_of result.now ≡ (get_or (all_variations (glyphs_of self.now)) i no_variation).deltas }
    {
        let cell = self.variations[i];
        self.deltas_from(cell.start, usize::from(cell.deltas))
    }

    // Variation i, which there is.
    fn shown(&self, i: usize) -> GlyphDeltas<'_>
        requires { i < self.now.added }
        ensures { Shows (account_of self.now).axes result (slice_index_or (all_variations (glyphs_of self.now)) i no_variation) }
    {
        let axes = usize::from(self.axis_count());
        let (peak, bounds) = self.tents_at(i).split_at(axes);
        let (starts, ends) = bounds.split_at(axes);
        GlyphDeltas {
            peak,
            starts,
            ends,
            deltas: self.deltas_at(i),
            stored: self.variations[i].stored,
        }
    }

    // Variation i in the order of the accepted calls.
    pub fn view(&self, i: usize) -> Option<GlyphDeltas<'_>>
        ensures { MatchOption result (length (all_variations (glyphs_of self.now)) ≤ i) (λ v. (i < length (all_variations (glyphs_of self.now))) × Shows (account_of self.now).axes v (slice_index_or (all_variations (glyphs_of self.now)) i no_variation)) }
    {
        if i >= self.variation_count() {
            return None;
        }
        Some(self.shown(i))
    }

    // The variations of the glyph with the number.
    pub fn span(&self, number: usize) -> Option<Span>
        ensures { MatchOption result (false ≡ begun number (glyphs_of self.now)) (λ p. Spans (glyphs_of self.now) number p) }
    {
        let place = self.find(number)?;
        let cell = self.glyphs[place];
        Some(cell.span())
    }

    // The variations of the glyph at a place, in the order in which the glyphs were begun.
    pub fn span_at(&self, at: usize) -> Option<Span>
        ensures { MatchOption result (length (glyphs_of self.now) ≤ at) (λ p. Lies (glyphs_of self.now) at p) }
    {
        let cell = self.glyph_cells().get(at)?;
        Some(cell.span())
    }

    // The axis values of all variations. The peak of variation i is the first value for each axis from 3 × axes × i on.
    pub fn axis_values(&self) -> &[i16]
        ensures long { length result.now ≡ 3 * (account_of self.now).axes * variation_count (glyphs_of self.now) }
        ensures rows { rows (account_of self.now).axes result.now (variation_count (glyphs_of self.now)) ≡ peaks_seen (glyphs_of self.now) }
    {
        &self.values[..self.values_each() * self.variation_count()]
    }
}
