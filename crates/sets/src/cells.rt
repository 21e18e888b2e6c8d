// The cells of the lent stores.
ghost use Rattle.std.specs.Prelude.{◌≡◌};
ghost use Rattle.sets.specs.Cells.{blank_glyph, blank_variation};

use crate::view::Span;
use links::link::Link;
use tuples::choice::StoredPoints;

#[derive(Clone, Copy, PartialEq, Eq, Debug)]
pub struct GlyphCell {
    pub number: u16,
    // how many variations the glyph has, and the place of the first
    pub variations: u16,
    pub first: usize,
    // to the last glyph in the bucket of this cell's place, once that bucket has one; before that, anywhere
    pub head: Link,
    // to the glyph before this one in its bucket
    pub next: Link,
}

#[derive(Clone, Copy, PartialEq, Eq, Debug)]
pub struct VariationCell {
    // how many deltas the variation has, and the place of the first
    pub deltas: u16,
    pub start: usize,
    // which points the table stores, with their sizes
    pub stored: StoredPoints,
}

impl GlyphCell {
    // A cell to lend. A set believes nothing of what the cells hold when they are lent.
    pub fn blank() -> GlyphCell
        ensures { result ≡ blank_glyph }
    {
        GlyphCell {
            number: 0,
            variations: 0,
            first: 0,
            head: Link::NONE,
            next: Link::NONE,
        }
    }

    // Where the glyph's variations lie.
    pub(crate) fn span(&self) -> Span
        ensures { result ≡ record { first = self.now.first; count = self.now.variations } }
    {
        Span {
            first: self.first,
            count: usize::from(self.variations),
        }
    }
}

impl VariationCell {
    // A cell to lend.
    pub fn blank() -> VariationCell
        ensures { result ≡ blank_variation }
    {
        VariationCell {
            deltas: 0,
            start: 0,
            stored: StoredPoints {
                all: false,
                points: 0,
                values: 0,
            },
        }
    }
}
