// A glyph of a set as what a store is made from.
ghost use Rattle.parts.specs.OfStore.{store_peaks, store_variations};

use super::GlyphStore;
use stores::variations::TupleVariations;
use tuples::data::point_numbers;
use write::piece::FontWrite;
use write::sink::{Sink, SinkError};

impl<'s, 'a> TupleVariations for GlyphStore<'s, 'a> {
    ghost peaks = { λ s. store_peaks s };

    ghost variations = { λ s. store_variations s };

    fn count(&self) -> usize {
        self.span.count
    }

    // The variations that share points have those of the first of them.
    fn shared_size(&self) -> usize {
        let Some(first) = self.first_shared() else {
            return 0;
        };
        self.variation(first).stored.points
    }

    fn feed_shared<S: Sink>(&self, sink: &mut S) -> Result<(), SinkError> {
        let Some(first) = self.first_shared() else {
            return Ok(());
        };
        let v = self.variation(first);
        point_numbers(v.deltas, v.stored.all).feed(sink)
    }

    fn header_size(&self, j: usize) -> usize {
        self.header(j).size()
    }

    fn feed_header<S: Sink>(&self, j: usize, sink: &mut S) -> Result<(), SinkError> {
        self.header(j).feed(sink)
    }

    fn data_size(&self, j: usize) -> usize {
        self.data_length(j)
    }

    fn feed_data<S: Sink>(&self, j: usize, sink: &mut S) -> Result<(), SinkError> {
        self.data(j).feed(sink)
    }
}
