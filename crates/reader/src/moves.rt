// The moves of an entry: its points with x and y in step.
ghost use Rattle.std.specs.Prelude.{List, ℤ};
ghost use Rattle.std.specs.Iterator.{at_most};
ghost use Rattle.reader.specs.MoveWalks.{DeltasLeft, DeltaCame, Falls, deltas_bound, moves_bound, MoveStep};

use crate::points::PointWalk;
use streams::deltas::DeltaCursor;

// A point, and by how much it moves.
#[derive(Clone, Copy, PartialEq, Eq, Debug)]
pub struct Move {
    pub point: u16,
    pub x: i16,
    pub y: i16,
}

// The moves that are still to come.
#[derive(Clone, Copy)]
pub struct Moves<'a> {
    pub(crate) points: PointWalk<'a>,
    pub(crate) xs: DeltaCursor<'a>,
    pub(crate) ys: DeltaCursor<'a>,
}

// The next delta, if one is left.
fn next_delta<'a>(cursor: &mut DeltaCursor<'a>) -> Option<i16>
    ensures came { (vs : List ℤ) → DeltasLeft cursor.old vs → DeltaCame vs result cursor.new }
    ensures falls { Falls result (deltas_bound cursor.old) (deltas_bound cursor.new) }
{
    cursor.next().unwrap_or(None)
}

impl<'a> Iterator for Moves<'a> {
    type Item = Move;

    ghost next_gives = { MoveStep };

    ghost remaining = { λ m. at_most (moves_bound m) };

    // The next move, if one is left.
    fn next(&mut self) -> Option<Move> {
        let point = self.points.next()?;
        let x = next_delta(&mut self.xs)?;
        let y = next_delta(&mut self.ys)?;
        Some(Move { point, x, y })
    }
}
