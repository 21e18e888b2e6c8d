// A stream of packed points.
ghost use Rattle.std.specs.Prelude.{◌≡◌, ℕ, drop};
ghost use Rattle.format.specs.Account.{Declined};
ghost use Rattle.format.specs.Streams.{point_runs, read_points};
ghost use Rattle.streams.specs.Ahead.{read_ahead};
ghost use Rattle.streams.specs.Points.{count_in, after_count, gap_in, point_form, points_from, points_ahead, PastPoints, PastPointRuns};

use crate::fault::StreamFault;
use crate::runs::{Packing, RunCursor, Unpacked};
use crate::words::word_at;
use kinds::point::PointKind;

// Each point is a gap from the last one: the last one, and the least that may follow. All are below p.
#[derive(Clone, Copy)]
pub struct PointPacking {
    pub(crate) p: u16,
    pub(crate) from: u16,
    pub(crate) low: u16,
}

pub type PointCursor<'a> = RunCursor<'a, PointPacking, PointKind>;

// How many points are listed, 0 for every point, and the place past that count.
#[derive(Clone, Copy, PartialEq, Eq, Debug)]
pub struct PointCount {
    pub count: u16,
    pub past: usize,
}

// How many points a stream stands for, and the place past it.
#[derive(Clone, Copy, PartialEq, Eq, Debug)]
pub struct PointSet {
    pub size: u16,
    pub past: usize,
}

// The count at the place `at` of the table.
pub fn read_count(table: &[u8], at: usize) -> Result<PointCount, StreamFault>
    ensures count { result ≡ count_in (drop at table.now) at }
    ensures read { (d : ℕ → ℕ → Declined) (p : ℕ) → read_points d p (drop at table.now) at ≡ after_count d p table.now result }
{
    let Some(&first) = table.get(at) else {
        return Err(StreamFault::Points(at));
    };
    if first < 128 {
        return Ok(PointCount {
            count: first as u16,
            past: at + 1,
        });
    }
    let Some(&second) = table.get(at + 1) else {
        return Err(StreamFault::Points(at));
    };
    let count = u16::from_be_bytes([first - 128, second]);
    if count == 0 {
        return Err(StreamFault::Points(at));
    }
    Ok(PointCount {
        count,
        past: at + 2,
    })
}

// The gap of a run at the place `at`, and the place past it, if its bytes are there.
fn gap_at(table: &[u8], at: usize, kind: PointKind) -> Option<(u16, usize)>
    ensures { result ≡ gap_in kind (drop at table.now) at }
{
    match kind {
        PointKind::Bytes => Some((*table.get(at)? as u16, at + 1)),
        PointKind::Words => Some((word_at(table, at)?, at + 2)),
    }
}

impl Packing for PointPacking {
    type Kind = PointKind;

    type Value = u16;

    ghost form = { point_form };

    fn begin(control: u8) -> Option<(PointKind, u8)> {
        let kind = if control < 128 {
            PointKind::Bytes
        } else {
            PointKind::Words
        };
        Some((kind, control % 128))
    }

    fn blame(at: usize) -> StreamFault {
        StreamFault::Points(at)
    }

    fn unpack(
        self,
        kind: PointKind,
        table: &[u8],
        at: usize,
    ) -> Option<Unpacked<u16, PointPacking>> {
        let (gap, past) = gap_at(table, at, kind)?;
        let point = self.from.checked_add(gap)?;
        if point < self.low || point >= self.p {
            return None;
        }
        Some(Unpacked {
            value: point,
            past,
            packing: PointPacking {
                p: self.p,
                from: point,
                low: point + 1,
            },
        })
    }
}

impl<'a> RunCursor<'a, PointPacking, PointKind> {
    // Over `count` points below p, from the place `at` of the table on.
    pub fn new(table: &'a [u8], at: usize, p: u16, count: u16) -> PointCursor<'a>
        ensures table { result.table.now ≡ table.now }
        ensures ahead { points_ahead result ≡ points_from p table.now count at }
        ensures read { (d : ℕ → ℕ → Declined) → read_ahead d table.now (points_ahead result) ≡ point_runs d count p count 0 0 (drop at table.now) at }
    {
        let packing = PointPacking { p, from: 0, low: 0 };
        RunCursor::over(table, at, count, packing)
    }
}

// The place past `count` points from the place `at` of the table on.
fn past_runs(table: &[u8], at: usize, p: u16, count: u16) -> Result<usize, StreamFault>
    ensures { PastPointRuns table.now at p count result }
{
    PointCursor::new(table, at, p, count).past()
}

// The points, count and all, from the place `at` of the table on.
pub fn past_points(table: &[u8], at: usize, p: u16) -> Result<PointSet, StreamFault>
    ensures { PastPoints table.now at p result }
{
    let head = read_count(table, at)?;
    if head.count == 0 {
        return Ok(PointSet {
            size: p,
            past: head.past,
        });
    }
    let past = past_runs(table, head.past, p, head.count)?;
    Ok(PointSet {
        size: head.count,
        past,
    })
}
