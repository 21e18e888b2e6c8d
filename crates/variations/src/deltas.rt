// Packed deltas: one coordinate of a variation's deltas, read in place.
ghost use Rattle.std.specs.Prelude.{◌≡◌, ◌*◌, ◌≤◌, length};
ghost use Rattle.format.specs.Packed.{packed_deltas};
ghost use Rattle.variations.specs.Deltas.{values_from};

use crate::delta::{Coordinate, GlyphDelta, next_stored};
use crate::runs::{Packed, Run, Runs, Step};
use kinds::delta::DeltaKind;
use write::batch::Batch;
use write::piece::FontWrite;
use write::sink::{Sink, SinkError};

// The most bytes of a run: the control byte, and two for each of 64 values.
const MAX_RUN_BYTES: usize = 129;

// One coordinate of all the deltas, or of the required ones.
#[derive(Clone, Copy)]
pub struct PackedDeltas<'a> {
    pub deltas: &'a [GlyphDelta],
    pub coordinate: Coordinate,
    pub all: bool,
}

pub type DeltaRun = Run<DeltaKind>;

pub type DeltaRuns<'a> = Runs<PackedDeltas<'a>>;

impl<'a> Packed for PackedDeltas<'a> {
    type Kind = DeltaKind;

    ghost values = { values_from };

    ghost places = { λ c. length c.deltas.now };

    fn step(&self, place: usize) -> Option<Step<i16>> {
        let at = next_stored(self.deltas, self.all, place)?;
        Some(Step {
            value: self.deltas[at].coordinate(self.coordinate),
            after: at + 1,
        })
    }
}

impl<'a> PackedDeltas<'a> {
    // The runs of these values, from the first.
    pub fn iter_runs(&self) -> DeltaRuns<'a>
        ensures values { result.values ≡ self.now }
        ensures place { result.place ≡ 0 }
    {
        Runs {
            values: *self,
            place: 0,
        }
    }

    // The number of bytes of the packed values.
    pub fn compute_size(&self) -> usize
        ensures size { result ≡ length (packed_deltas (values_from self.now 0)) }
        ensures most { result ≤ 3 * length self.now.deltas.now }
    {
        self.iter_runs().size()
    }
}

impl<'a> FontWrite for PackedDeltas<'a> {
    ghost bytes = { λ p. packed_deltas (values_from p 0) };

    fn size(&self) -> usize {
        self.compute_size()
    }

    fn feed<S: Sink>(&self, sink: &mut S) -> Result<(), SinkError> {
        self.iter_runs().feed(Batch::<MAX_RUN_BYTES>::new(), sink)
    }
}
