// Gaps between the required points of a variation, and their runs.
ghost use Rattle.std.specs.Prelude.{◌≡◌, length};
ghost use Rattle.variations.specs.Gaps.{gaps_from};

use crate::delta::{GlyphDelta, next_stored};
use crate::runs::{Packed, Run, Runs, Step};
use kinds::point::PointKind;

// The points whose deltas are required, as the gaps between them.
#[derive(Clone, Copy)]
pub struct RequiredPoints<'a> {
    pub(crate) deltas: &'a [GlyphDelta],
}

pub type PointRun = Run<PointKind>;

pub type PointRuns<'a> = Runs<RequiredPoints<'a>>;

impl<'a> Packed for RequiredPoints<'a> {
    type Kind = PointKind;

    ghost values = { λ p. gaps_from p.deltas.now };

    ghost places = { λ p. length p.deltas.now };

    // The point before is the one before the place: a gap does not start again from 0 with each run.
    fn step(&self, place: usize) -> Option<Step<usize>> {
        let point = next_stored(self.deltas, false, place)?;
        Some(Step {
            value: point - place.saturating_sub(1),
            after: point + 1,
        })
    }
}

impl<'a> PointRuns<'a> {
    // The runs of the points whose deltas are required.
    pub fn new(deltas: &'a [GlyphDelta]) -> PointRuns<'a>
        ensures deltas { result.values.deltas.now ≡ deltas.now }
        ensures place { result.place ≡ 0 }
    {
        Runs {
            values: RequiredPoints { deltas },
            place: 0,
        }
    }
}
