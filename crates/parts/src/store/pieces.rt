// The header and the data of each variation of a glyph.
ghost use Rattle.std.specs.Prelude.{◌≡◌, ℕ, ◌+◌, ◌^◌, ◌<◌, ◌≤◌, true, false, length, MatchOption, slice_index_or};
ghost use Rattle.format.specs.Glyphs.{peak, shared_index};
ghost use Rattle.variations.specs.Deltas.{deltas_of};
ghost use Rattle.tuples.specs.Data.{data_of};
ghost use Rattle.counts.specs.Cells.{blank};
ghost use Rattle.tuples.specs.Headers.{index_of, header_of};
ghost use Rattle.sets.specs.OfSet.{account_of};
ghost use Rattle.sets.specs.Views.{Shows};
ghost use Rattle.stores.specs.Parts.{variation_at, header_in, data_in};
ghost use Rattle.counting.specs.Counted.{marks};
ghost use Rattle.parts.specs.OfStore.{store_peaks, store_variations};

use super::GlyphStore;
use counts::cells::CountCell;
use sets::view::GlyphDeltas;
use tuples::data::VariationData;
use tuples::header::{TupleVariationHeader, stores_region};

impl<'s, 'a> GlyphStore<'s, 'a> {
    // Variation j of the glyph, which there is.
    pub(crate) fn variation(&self, j: usize) -> GlyphDeltas<'_>
        requires { j < self.now.span.count }
        ensures { Shows (account_of self.now.parts.set.now).axes result (variation_at (store_variations self.now) j) }
    {
        self.parts.set.view(self.span.first + j).unwrap()
    }

    // Its cell.
    fn cell(&self, j: usize) -> &CountCell
        requires { j < self.now.span.count }
        ensures { result.now ≡ slice_index_or self.now.parts.cells.now (self.now.span.first + j) blank }
    {
        let cells = self.parts.cells;
        &cells[self.span.first + j]
    }

    // Whether it has the points that the glyph shares.
    fn is_shared(&self, j: usize) -> bool
        requires { j < self.now.span.count }
        ensures { result ≡ slice_index_or (marks (store_variations self.now)) j false }
    {
        self.cell(j).is_marked()
    }

    // The first variation with the points that the glyph shares.
    pub(crate) fn first_shared(&self) -> Option<usize>
        ensures { MatchOption result ((j : ℕ) → j < self.now.span.count → slice_index_or (marks (store_variations self.now)) j false ≡ false) (λ j. (j < self.now.span.count) × (slice_index_or (marks (store_variations self.now)) j false ≡ true)) }
    {
        (0..self.span.count).find(|j| self.is_shared(*j))
    }

    // The index of its peak among the shared ones; none where it is not shared.
    fn index(&self, j: usize) -> Option<u16>
        requires { j < self.now.span.count }
        ensures { index_of result ≡ shared_index (store_peaks self.now) (peak (variation_at (store_variations self.now) j)) }
    {
        let rank = self.cell(j).rank();
        (rank < self.parts.peaks).then(|| rank as u16)
    }

    // The number of bytes of its data, from the sizes that the set keeps.
    pub(crate) fn data_length(&self, j: usize) -> usize
        requires { j < self.now.span.count }
        ensures size { result ≡ length (data_in (store_variations self.now) (variation_at (store_variations self.now) j)) }
        ensures most { result ≤ 2 ^ 20 }
    {
        let stored = self.variation(j).stored;
        if self.is_shared(j) {
            stored.values
        } else {
            stored.points + stored.values
        }
    }

    // Its data, with its own points unless these are shared.
    pub(crate) fn data(&self, j: usize) -> VariationData<'_>
        requires { j < self.now.span.count }
        ensures { data_of result.shared result.all (deltas_of result.deltas.now) ≡ data_in (store_variations self.now) (variation_at (store_variations self.now) j) }
    {
        let v = self.variation(j);
        VariationData {
            deltas: v.deltas,
            all: v.stored.all,
            shared: self.is_shared(j),
        }
    }

    // Its header.
    pub(crate) fn header(&self, j: usize) -> TupleVariationHeader<'_>
        requires { j < self.now.span.count }
        ensures { header_of result.variation_data_size result.index result.region result.shared result.peak.now result.start.now result.end.now ≡ header_in (store_peaks self.now) (store_variations self.now) (variation_at (store_variations self.now) j) }
    {
        let v = self.variation(j);
        TupleVariationHeader {
            variation_data_size: self.data_length(j),
            index: self.index(j),
            region: stores_region(v.peak, v.starts, v.ends),
            shared: self.is_shared(j),
            peak: v.peak,
            start: v.starts,
            end: v.ends,
        }
    }
}
