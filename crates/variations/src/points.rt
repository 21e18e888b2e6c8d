// Packed point numbers: their size, and their bytes into a sink.
ghost use Rattle.std.specs.Prelude.{◌≡◌, ◌+◌, ◌*◌, ◌≤◌, length};
ghost use Rattle.write.specs.Sinks.{Fed};
ghost use Rattle.format.specs.Packed.{packed_points, count_bytes};
ghost use Rattle.format.specs.Glyphs.{required_from};
ghost use Rattle.variations.specs.Deltas.{deltas_of};
ghost use Rattle.variations.specs.PointSets.{points_of, deltas_in, required_bytes};

use crate::delta::GlyphDelta;
use crate::gaps::PointRuns;
use write::batch::Batch;
use write::piece::FontWrite;
use write::sink::{Sink, SinkError};

// The bit of the first byte of a count that says that the count takes a word.
const COUNT_IS_WORD: u8 = 0x80;

// The most bytes of a run: the control byte, and two for each of 128 gaps.
const MAX_RUN_BYTES: usize = 257;

// All points of a glyph, or those whose deltas are required.
#[derive(Clone, Copy)]
pub enum PackedPointNumbers<'a> {
    All,
    Required(&'a [GlyphDelta]),
}

// How many points are required.
pub fn required_count(deltas: &[GlyphDelta]) -> usize
    ensures { result ≡ length (required_from 0 (deltas_of deltas.now)) }
{
    deltas.iter().map(|d| usize::from(d.required)).sum()
}

fn count_size(count: usize) -> usize
    ensures size { result ≡ length (count_bytes count) }
    ensures most { result ≤ 2 }
{
    if count <= 127 { 1 } else { 2 }
}

// Hands over the number of points.
fn put_count<S: Sink>(count: usize, sink: &mut S) -> Result<(), SinkError>
    ensures { Fed S.step (count_bytes count) (S.stands sink.old) (S.stands sink.new) result }
{
    let [.., high, low] = count.to_be_bytes();
    if count <= 127 {
        sink.take(&[low])
    } else {
        sink.take(&[high.wrapping_add(COUNT_IS_WORD), low])
    }
}

// The number of bytes of the required points, packed.
fn required_size(deltas: &[GlyphDelta]) -> usize
    ensures size { result ≡ length (required_bytes deltas.now) }
    ensures most { result ≤ 3 * length deltas.now + 2 }
{
    count_size(required_count(deltas)) + PointRuns::new(deltas).size()
}

// Hands over the required points, packed.
fn feed_required<S: Sink>(deltas: &[GlyphDelta], sink: &mut S) -> Result<(), SinkError>
    ensures { Fed S.step (required_bytes deltas.now) (S.stands sink.old) (S.stands sink.new) result }
{
    put_count(required_count(deltas), sink)?;
    PointRuns::new(deltas).feed(Batch::<MAX_RUN_BYTES>::new(), sink)
}

impl<'a> PackedPointNumbers<'a> {
    // The number of bytes of the packed points.
    pub fn compute_size(&self) -> usize
        ensures size { result ≡ length (packed_points (points_of self.now)) }
        ensures most { result ≤ 3 * deltas_in self.now + 2 }
    {
        match *self {
            PackedPointNumbers::All => 1,
            PackedPointNumbers::Required(deltas) => required_size(deltas),
        }
    }
}

impl<'a> FontWrite for PackedPointNumbers<'a> {
    ghost bytes = { λ p. packed_points (points_of p) };

    fn size(&self) -> usize {
        self.compute_size()
    }

    fn feed<S: Sink>(&self, sink: &mut S) -> Result<(), SinkError> {
        match *self {
            PackedPointNumbers::All => sink.take(&[0]),
            PackedPointNumbers::Required(deltas) => feed_required(deltas, sink),
        }
    }
}
