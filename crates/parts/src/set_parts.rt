// A set whose numbers are full, with the cells in which its peaks and points are counted.
ghost use Rattle.std.specs.Prelude.{◌≡◌, true};
ghost use Rattle.format.specs.Glyphs.{peaks_seen, shared_count};
ghost use Rattle.format.specs.Table.{numbers_full};
ghost use Rattle.sets.specs.OfSet.{glyphs_of};
ghost use Rattle.counting.specs.Counted.{Counted};

use counts::cells::CountCell;
use sets::set::Set;

pub mod open;
pub mod writing;

// A cell has the rank of its variation's peak, and whether its variation has the points that its glyph shares; the cell
// of a rank has the first variation with the peak of that rank. Whoever writes one down proves all this of it.
#[derive(Clone, Copy)]
pub struct SetParts<'s, 'a> {
    pub set: &'s Set<'a>,
    pub cells: &'s [CountCell],
    // how many peaks are shared
    pub peaks: usize,
    ghost full: { true ≡ numbers_full (glyphs_of set.now) },
    ghost counted: { Counted (glyphs_of set.now) cells.now },
    ghost shared: { peaks ≡ shared_count (peaks_seen (glyphs_of set.now)) },
}
