// One entry of a slot: its peak, its region and its moves.
ghost use Rattle.std.specs.Prelude.{◌≡◌, is_some};
ghost use Rattle.format.specs.Reader.{Entry as ReadEntry, is_regional};
ghost use Rattle.reader.specs.Tuples.{Holds};
ghost use Rattle.reader.specs.MoveWalks.{MovesLeft};
ghost use Rattle.reader.specs.SlotWalks.{Shows, Bounds};

use crate::moves::Moves;
use crate::points::{PointList, PointWalk};
use crate::table::Table;
use crate::tuple::{Region, Tuple, tuple_at};
use slots::entry::Parts;
use slots::headers::{Head, is_embedded, is_regional, peak_index, tuple_words};
use streams::deltas::DeltaCursor;

// The header, in a slot of the table, and the table up to the end of the data, with the places of its parts.
#[derive(Clone, Copy)]
pub struct Entry<'a> {
    pub(crate) table: Table<'a>,
    pub(crate) slot: &'a [u8],
    pub(crate) head: Head,
    pub(crate) bytes: &'a [u8],
    pub(crate) parts: Parts,
    pub(crate) list: Option<PointList<'a>>,
    pub(crate) p: u16,
}

impl<'a> Entry<'a> {
    // The peak, in the header or among the shared ones.
    pub fn peak(&self) -> Tuple<'a>
        ensures { (x : ReadEntry) → Shows self.now x → Holds self.now.table result x.peak }
    {
        let axes = self.table.head.axes;
        if is_embedded(self.head.index) {
            let size = 2 * tuple_words(axes, self.head.index) as usize;
            return tuple_at(self.slot, self.head.past.saturating_sub(size), axes);
        }
        let before = axes as usize * peak_index(self.head.index) as usize;
        tuple_at(
            self.table.bytes,
            self.table.head.peaks_at as usize + 2 * before,
            axes,
        )
    }

    // The starts and ends, if a region is stored; otherwise `implied_start` and `implied_end` of the peak give them.
    pub fn region(&self) -> Option<Region<'a>>
        ensures stored { is_some result ≡ is_regional self.now.head.index }
        ensures bounds { (x : ReadEntry) → Shows self.now x → Bounds self.now.table x result }
    {
        if !is_regional(self.head.index) {
            return None;
        }
        let axes = self.table.head.axes;
        let start = self.head.past.saturating_sub(4 * axes as usize);
        let end = self.head.past.saturating_sub(2 * axes as usize);
        Some(Region {
            start: tuple_at(self.slot, start, axes),
            end: tuple_at(self.slot, end, axes),
        })
    }

    // The moves, one for each point.
    pub fn moves(&self) -> Moves<'a>
        ensures { (x : ReadEntry) → Shows self.now x → MovesLeft result x.moves }
    {
        Moves {
            points: PointWalk::new(self.list, self.p),
            xs: DeltaCursor::new(self.bytes, self.parts.x, self.parts.points),
            ys: DeltaCursor::new(self.bytes, self.parts.y, self.parts.points),
        }
    }
}
