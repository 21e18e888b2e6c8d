// The four stores that a caller lends to a set.
use crate::cells::{GlyphCell, VariationCell};
use variations::delta::GlyphDelta;

#[derive(Drop)]
pub struct Stores<'a> {
    pub glyphs: &'a mut [GlyphCell],
    pub variations: &'a mut [VariationCell],
    // three values for each axis of a variation: its peak, then its starts, then its ends
    pub values: &'a mut [i16],
    pub deltas: &'a mut [GlyphDelta],
}
