// What a variation says of one point.
ghost use Rattle.std.specs.Prelude.{◌≡◌, true, false};
ghost use Rattle.variations.specs.Deltas.{coordinate_of, NextStored};

// How far a point moves, and whether the movement must be stored: one that is not required may be left out.
#[derive(Clone, Copy, PartialEq, Eq, Debug)]
pub struct GlyphDelta {
    pub x: i16,
    pub y: i16,
    pub required: bool,
}

#[derive(Clone, Copy, PartialEq, Eq, Debug)]
pub enum Coordinate {
    X,
    Y,
}

impl GlyphDelta {
    // A delta that is always stored.
    pub fn required(x: i16, y: i16) -> GlyphDelta
        ensures { result ≡ record { x = x; y = y; required = true } }
    {
        GlyphDelta {
            x,
            y,
            required: true,
        }
    }

    // A delta that may be left out.
    pub fn optional(x: i16, y: i16) -> GlyphDelta
        ensures { result ≡ record { x = x; y = y; required = false } }
    {
        GlyphDelta {
            x,
            y,
            required: false,
        }
    }

    pub(crate) fn coordinate(self, coordinate: Coordinate) -> i16
        ensures { result ≡ coordinate_of coordinate self }
    {
        match coordinate {
            Coordinate::X => self.x,
            Coordinate::Y => self.y,
        }
    }
}

// The place of the first delta from a place on that is stored: of all, or of those that are required.
pub(crate) fn next_stored(deltas: &[GlyphDelta], all: bool, place: usize) -> Option<usize>
    ensures { NextStored all deltas.now place result }
{
    if all {
        return (place < deltas.len()).then_some(place);
    }
    for i in place..deltas.len() {
        if deltas[i].required {
            return Some(i);
        }
    }
    None
}
