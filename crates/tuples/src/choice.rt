// Which points a variation stores: all, or the required ones where these take fewer bytes.
ghost use Rattle.std.specs.Prelude.{◌≡◌, ◌*◌, ◌≤◌, length};
ghost use Rattle.format.specs.Glyphs.{coordinates};
ghost use Rattle.variations.specs.Deltas.{deltas_of};
ghost use Rattle.tuples.specs.Choice.{kept_deltas, StoredAs};

use variations::delta::{Coordinate, GlyphDelta};
use variations::deltas::PackedDeltas;
use variations::points::{PackedPointNumbers, required_count};
use write::piece::FontWrite;
use write::sink::{Sink, SinkError};

// Whether all points are stored, the size of the packed points, and that of the packed coordinates.
#[derive(Clone, Copy, PartialEq, Eq, Debug)]
pub struct StoredPoints {
    pub all: bool,
    pub points: usize,
    pub values: usize,
}

// Both coordinates of a variation's deltas, the x before the y: of all deltas, or of the required ones.
#[derive(Clone, Copy)]
pub struct Coordinates<'a> {
    pub deltas: &'a [GlyphDelta],
    pub all: bool,
}

impl<'a> Coordinates<'a> {
    #[inline]
    fn packed(&self, coordinate: Coordinate) -> PackedDeltas<'a>
        ensures { result ≡ record { deltas = self.now.deltas; coordinate = coordinate; all = self.now.all } }
    {
        PackedDeltas {
            deltas: self.deltas,
            coordinate,
            all: self.all,
        }
    }

    // The number of bytes of both.
    #[inline]
    pub fn compute_size(&self) -> usize
        ensures size { result ≡ length (coordinates (kept_deltas self.now.all (deltas_of self.now.deltas.now))) }
        ensures most { result ≤ 6 * length self.now.deltas.now }
    {
        let xs = self.packed(Coordinate::X);
        let ys = self.packed(Coordinate::Y);
        xs.compute_size() + ys.compute_size()
    }
}

impl<'a> FontWrite for Coordinates<'a> {
    ghost bytes = { λ c. coordinates (kept_deltas c.all (deltas_of c.deltas.now)) };

    fn size(&self) -> usize {
        self.compute_size()
    }

    #[inline]
    fn feed<S: Sink>(&self, sink: &mut S) -> Result<(), SinkError> {
        self.packed(Coordinate::X).feed(sink)?;
        self.packed(Coordinate::Y).feed(sink)
    }
}

// What a variation with these deltas stores. All points have no list of points, only one byte that says so.
pub fn stored_points(deltas: &[GlyphDelta]) -> StoredPoints
    ensures { StoredAs (deltas_of deltas.now) result }
{
    let required = required_count(deltas);
    let whole = Coordinates { deltas, all: true }.compute_size();
    let every = StoredPoints {
        all: true,
        points: 1,
        values: whole,
    };
    if required == 0 || required == deltas.len() {
        return every;
    }
    let points = PackedPointNumbers::Required(deltas).compute_size();
    let values = Coordinates { deltas, all: false }.compute_size();
    if 1 + whole <= points + values {
        return every;
    }
    StoredPoints {
        all: false,
        points,
        values,
    }
}
