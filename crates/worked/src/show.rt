// Values and points, packed and read back.
use anyhow::Context;
use printed::bytes::Bytes;
use streams::deltas::DeltaCursor;
use streams::fault::StreamFault;
use streams::points::{PointCursor, read_count};
use variations::delta::{Coordinate, GlyphDelta};
use variations::deltas::PackedDeltas;
use variations::points::PackedPointNumbers;
use write::buffer::Buffer;
use write::piece::FontWrite;

// How many items are read back in order, and the place past them.
#[derive(Clone, Copy)]
struct Back {
    same: usize,
    past: usize,
}

// How many of the items `next` gives in order; none if it fails or gives more of them or fewer.
fn same_items<T: PartialEq + Copy, F: FnMut() -> Result<Option<T>, StreamFault>>(
    items: &[T],
    mut next: F,
) -> Option<usize>
    requires { F.IsAlwaysCallable next }
{
    let mut same = 0usize;
    for item in items {
        if next().ok()?? == *item {
            same = same.saturating_add(1);
        }
    }
    next().ok()?.is_none().then_some(same)
}

// Prints the bytes, and how much of them `back` reads back.
fn show_bytes<F: FnOnce(&[u8]) -> Option<Back>>(
    rt: &HostRuntime,
    bytes: &[u8],
    back: F,
) -> anyhow::Result<()>
    requires { F.IsAlwaysCallable back }
{
    print!(rt; "{}", Bytes(bytes))?;
    match back(bytes) {
        Some(Back { same, past }) => println!(rt; "; {same} read back to {past}")?,
        None => println!(rt; "; not read back")?,
    }
    Ok(())
}

// Prints the size of the piece, and its bytes with what is read back of them.
fn show_piece<P: FontWrite, F: FnOnce(&[u8]) -> Option<Back>>(
    rt: &HostRuntime,
    piece: &P,
    back: F,
) -> anyhow::Result<()>
    requires { F.IsAlwaysCallable back }
{
    let size = piece.size();
    print!(rt; ", {size} bytes:")?;
    let mut memory = [0xEE; 256];
    let mut buffer = Buffer::new(&mut memory);
    piece
        .write_into(&mut buffer)
        .ok()
        .context("the buffer is full")?;
    show_bytes(rt, buffer.taken(), back)
}

fn deltas_back(bytes: &[u8], values: &[i16]) -> Option<Back> {
    let count = u16::try_from(values.len()).ok()?;
    let mut cursor = DeltaCursor::new(bytes, 0, count);
    let same = same_items(values, || cursor.next())?;
    let past = cursor.place();
    Some(Back { same, past })
}

// The values as the x of required deltas.
pub fn show_deltas(rt: &HostRuntime, values: &[i16]) -> anyhow::Result<()> {
    let deltas: Vec<GlyphDelta> = values
        .iter()
        .map(|x| GlyphDelta::required(*x, 0))
        .collect(rt.alloc())?;
    let piece = PackedDeltas {
        deltas: deltas.as_slice(),
        coordinate: Coordinate::X,
        all: true,
    };
    print!(rt; "{} deltas", values.len())?;
    show_piece(rt, &piece, |bytes| deltas_back(bytes, values))
}

fn points_back(bytes: &[u8], p: u16, points: &[u16]) -> Option<Back> {
    let head = read_count(bytes, 0).ok()?;
    if head.count == 0 {
        return Some(Back {
            same: 0,
            past: head.past,
        });
    }
    let mut cursor = PointCursor::new(bytes, head.past, p, head.count);
    let same = same_items(points, || cursor.next())?;
    let past = cursor.place();
    Some(Back { same, past })
}

// The points as those of p deltas that are required.
pub fn show_points(rt: &HostRuntime, p: u16, points: &[u16]) -> anyhow::Result<()> {
    let deltas: Vec<GlyphDelta> = (0..p)
        .map(|q| GlyphDelta {
            x: 0,
            y: 0,
            required: points.contains(&q),
        })
        .collect(rt.alloc())?;
    let piece = PackedPointNumbers::Required(deltas.as_slice());
    print!(rt; "{} points of {p}", points.len())?;
    show_piece(rt, &piece, |bytes| points_back(bytes, p, points))
}
