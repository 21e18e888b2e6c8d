// The points of an entry, one after another.
ghost use Rattle.std.specs.Prelude.{ℕ, List};
ghost use Rattle.format.specs.Packed.{Points};
ghost use Rattle.format.specs.Reader.{points_of};
ghost use Rattle.reader.specs.PointWalks.{ListRead, PointsLeft, Came};

use streams::points::{PointCursor, read_count};

// Where a list of points is.
#[derive(Clone, Copy)]
pub struct PointList<'a> {
    pub(crate) bytes: &'a [u8],
    pub(crate) at: usize,
}

// Every point from one on, below p, or those of a list.
#[derive(Clone, Copy)]
pub enum PointWalk<'a> {
    Every(u16, u16),
    Listed(PointCursor<'a>),
}

impl<'a> PointWalk<'a> {
    // The points of a list that was read without fault, or every point where there is none.
    pub(crate) fn new(list: Option<PointList<'a>>, p: u16) -> PointWalk<'a>
        ensures { (set : Points) → ListRead list.entry p set → PointsLeft result (points_of p set) }
    {
        let Some(list) = list else {
            return PointWalk::Every(0, p);
        };
        match read_count(list.bytes, list.at) {
            Err(_) => PointWalk::Every(0, p),
            Ok(head) => {
                if head.count == 0 {
                    return PointWalk::Every(0, p);
                }
                PointWalk::Listed(PointCursor::new(list.bytes, head.past, p, head.count))
            }
        }
    }

    // The next point, if one is left.
    pub(crate) fn next(&mut self) -> Option<u16>
        ensures { (qs : List ℕ) → PointsLeft self.old qs → Came qs result self.new }
    {
        match *self {
            PointWalk::Every(q, p) => {
                if q >= p {
                    return None;
                }
                *self = PointWalk::Every(q + 1, p);
                Some(q)
            }
            PointWalk::Listed(old) => {
                let mut cursor = old;
                let point = cursor.next().unwrap_or(None);
                *self = PointWalk::Listed(cursor);
                point
            }
        }
    }
}
