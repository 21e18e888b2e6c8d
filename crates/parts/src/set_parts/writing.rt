// A set as what a table is written from.
ghost use Rattle.parts.specs.OfParts.{parts_axes, parts_glyphs};

use super::SetParts;
use stores::feed::feed_store;
use stores::size::exact_size;
use tables::parts::TableParts;
use write::piece::FontWrite;
use write::sink::{Sink, SinkError};

impl<'s, 'a> TableParts for SetParts<'s, 'a> {
    ghost axes = { λ s. parts_axes s };

    ghost glyphs = { λ s. parts_glyphs s };

    fn axis_count(&self) -> u16 {
        self.set.axis_count()
    }

    fn glyph_count(&self) -> usize {
        self.set.glyph_count()
    }

    fn shared_count(&self) -> usize {
        self.peaks
    }

    fn feed_shared_peaks<S: Sink>(&self, sink: &mut S) -> Result<(), SinkError> {
        for r in 0..self.peaks {
            self.shared_peak(r).feed(sink)?;
        }
        Ok(())
    }

    fn glyph_size(&self, n: usize) -> usize {
        exact_size(&self.store_of(n))
    }

    fn feed_glyph<S: Sink>(&self, n: usize, sink: &mut S) -> Result<(), SinkError> {
        feed_store(&self.store_of(n), sink)
    }
}
