// The data of one entry: points, x, y, and nothing more.
ghost use Rattle.std.specs.Prelude.{◌≡◌, length};
ghost use Rattle.format.specs.Packed.{Points};
ghost use Rattle.format.specs.Reader.{points_of};
ghost use Rattle.slots.specs.Entries.{PointsFound, Parted};

use crate::fault::EntryFault;
use streams::deltas::past_deltas;
use streams::fault::StreamFault;
use streams::points::{PointSet, past_points};

// How many points an entry moves, and where its x and its y start.
#[derive(Clone, Copy)]
pub struct Parts {
    pub points: u16,
    pub x: usize,
    pub y: usize,
}

// The points at the place `at`: a list of its own there, or the `shared` ones.
pub(crate) fn entry_points(
    table: &[u8],
    at: usize,
    p: u16,
    shared: u16,
    private: bool,
) -> Result<PointSet, StreamFault>
    ensures { (s : Points) → length (points_of p s) ≡ shared → PointsFound table.now at p s private result }
{
    if private {
        past_points(table, at, p)
    } else {
        Ok(PointSet {
            size: shared,
            past: at,
        })
    }
}

// The entry whose data go from the place `at` to the end of the table.
pub(crate) fn entry_parts(
    table: &[u8],
    at: usize,
    p: u16,
    shared: u16,
    private: bool,
) -> Result<Parts, EntryFault>
    ensures { (s : Points) → length (points_of p s) ≡ shared → Parted table.now at p s private result }
{
    let set = entry_points(table, at, p, shared, private)?;
    let y = past_deltas(table, set.past, set.size)?;
    let end = past_deltas(table, y, set.size)?;
    if end < table.len() {
        return Err(EntryFault::LeftOver(end));
    }
    Ok(Parts {
        points: set.size,
        x: set.past,
        y,
    })
}
