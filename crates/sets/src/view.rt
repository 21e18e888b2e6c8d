// What a set shows of its variations.
use tuples::choice::StoredPoints;
use variations::delta::GlyphDelta;

// A variation as it lies in the stores: a peak, a start and an end for each axis, the deltas, and which points the table stores.
#[derive(Clone, Copy)]
pub struct GlyphDeltas<'s> {
    pub peak: &'s [i16],
    pub starts: &'s [i16],
    pub ends: &'s [i16],
    pub deltas: &'s [GlyphDelta],
    pub stored: StoredPoints,
}

// Where the variations of a glyph lie among those of the set: the place of the first, and how many there are.
#[derive(Clone, Copy, PartialEq, Eq, Debug)]
pub struct Span {
    pub first: usize,
    pub count: usize,
}
