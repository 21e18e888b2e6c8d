// A variation's data: its points unless they are shared, then the x and the y of its deltas.
ghost use Rattle.std.specs.Prelude.{◌≡◌, ◌+◌, ◌*◌, ◌≤◌, length};
ghost use Rattle.write.specs.Sinks.{Fed};
ghost use Rattle.variations.specs.Deltas.{deltas_of};
ghost use Rattle.variations.specs.PointSets.{points_of, deltas_in};
ghost use Rattle.tuples.specs.Choice.{kept_points};
ghost use Rattle.tuples.specs.Data.{points_part, data_of};

use crate::choice::values_size;
use variations::delta::{Coordinate, GlyphDelta};
use variations::deltas::PackedDeltas;
use variations::points::PackedPointNumbers;
use write::piece::FontWrite;
use write::sink::{Sink, SinkError};

// The points that are stored: all, or those whose deltas are required.
pub fn point_numbers<'a>(deltas: &'a [GlyphDelta], all: bool) -> PackedPointNumbers<'a>
    ensures points { points_of result ≡ kept_points all (deltas_of deltas.now) }
    ensures most { deltas_in result ≤ length deltas.now }
{
    if all {
        PackedPointNumbers::All
    } else {
        PackedPointNumbers::Required(deltas)
    }
}

// The number of bytes of the points, none where they are shared.
fn points_size(deltas: &[GlyphDelta], all: bool, shared: bool) -> usize
    ensures size { result ≡ length (points_part shared all (deltas_of deltas.now)) }
    ensures most { result ≤ 3 * length deltas.now + 2 }
{
    if shared {
        return 0;
    }
    point_numbers(deltas, all).compute_size()
}

// Hands over the points, unless they are shared.
fn feed_points<S: Sink>(
    deltas: &[GlyphDelta],
    all: bool,
    shared: bool,
    sink: &mut S,
) -> Result<(), SinkError>
    ensures { Fed S.step (points_part shared all (deltas_of deltas.now)) (S.stands sink.old) (S.stands sink.new) result }
{
    if shared {
        return Ok(());
    }
    point_numbers(deltas, all).feed(sink)
}

// The data of a variation that stores all points or the required ones, with points of its own or the shared ones.
#[derive(Clone, Copy)]
pub struct VariationData<'a> {
    pub deltas: &'a [GlyphDelta],
    pub all: bool,
    pub shared: bool,
}

impl<'a> FontWrite for VariationData<'a> {
    ghost bytes = { λ v. data_of v.shared v.all (deltas_of v.deltas.now) };

    fn size(&self) -> usize {
        points_size(self.deltas, self.all, self.shared) + values_size(self.deltas, self.all)
    }

    fn feed<S: Sink>(&self, sink: &mut S) -> Result<(), SinkError> {
        feed_points(self.deltas, self.all, self.shared, sink)?;
        let xs = PackedDeltas {
            deltas: self.deltas,
            coordinate: Coordinate::X,
            all: self.all,
        };
        xs.feed(sink)?;
        let ys = PackedDeltas {
            deltas: self.deltas,
            coordinate: Coordinate::Y,
            all: self.all,
        };
        ys.feed(sink)
    }
}
