// The peaks of all variations are counted and ranked, and glyph by glyph the variations are marked whose points the glyph shares.
ghost use Rattle.std.specs.Prelude.{◌≡◌, ℕ, ◌+◌, ◌<◌, ◌≤◌, false, length, MatchOption, slice_index_or};
ghost use Rattle.format.specs.Glyphs.{peaks_seen, shared_count};
ghost use Rattle.format.specs.Table.{variation_count};
ghost use Rattle.counts.specs.Cells.{marked_at};
ghost use Rattle.sets.specs.OfSet.{glyphs_of};
ghost use Rattle.sets.specs.Views.{all_variations};
ghost use Rattle.counting.specs.Counted.{marks, RanksHeld, OrdersHeld, MarksHeld, Counted};
ghost use Rattle.counting.specs.Marked.{KeepsRanks, MarkedFrom, MarkedTo};
ghost use Rattle.counting.specs.PointSets.{spanned};

use crate::point_sets::PointSets;
use counts::cells::CountCell;
use counts::items::{Items, Ranked};
use counts::peaks::Peaks;
use counts::table::CountTable;
use sets::set::Set;
use sets::view::Span;

// At most so many peaks are shared.
const MOST_SHARED: usize = 4095;

// Counts and ranks the peaks; how many are shared.
fn count_peaks(set: &Set, cells: &mut [CountCell]) -> usize
    requires { length (all_variations (glyphs_of set.now)) ≤ length cells.old }
    ensures shared { result ≡ shared_count (peaks_seen (glyphs_of set.now)) }
    ensures ranks { RanksHeld (peaks_seen (glyphs_of set.now)) cells.new }
    ensures orders { OrdersHeld (peaks_seen (glyphs_of set.now)) cells.new }
{
    let n = set.variation_count();
    let peaks = Peaks::over(set.axis_values(), set.axis_count() as usize, n);
    let mut table = CountTable::over(cells);
    table.fill(&peaks).unwrap();
    let repeated = table.repeated(n);
    table.rank(&peaks);
    repeated.min(MOST_SHARED)
}

// Marks those of a glyph's variations whose points it shares, in cells of their own.
fn mark_part(points: &PointSets, cells: &mut [CountCell])
    requires { points.now.span.count ≤ length cells.old }
    ensures marks { (i : ℕ) → i < points.now.span.count → marked_at cells.new i ≡ slice_index_or (marks (spanned (glyphs_of points.now.set.now) points.now.span)) i false }
    ensures rest { KeepsRanks cells.old cells.new }
{
    let mut table = CountTable::over(cells);
    table.fill(points).unwrap();
    table.mark_best(points);
}

// The same among the cells of all variations.
fn mark_span(set: &Set, span: Span, cells: &mut [CountCell])
    requires few { span.count ≤ 4095 }
    requires inside { span.first + span.count ≤ length (all_variations (glyphs_of set.now)) }
    requires within { span.first + span.count ≤ length cells.old }
    ensures marks { MarkedFrom (glyphs_of set.now) span cells.new }
    ensures before { (k : ℕ) → k < span.first → marked_at cells.new k ≡ marked_at cells.old k }
    ensures rest { KeepsRanks cells.old cells.new }
{
    let points = PointSets::over(set, span);
    let Span { first, count } = span;
    mark_part(&points, &mut cells[first..first + count]);
}

// The same for the glyph at a place, when those before it are done.
fn mark_glyph(set: &Set, at: usize, cells: &mut [CountCell])
    requires glyph { at < length (glyphs_of set.now) }
    requires within { length (all_variations (glyphs_of set.now)) ≤ length cells.old }
    requires done { MarkedTo (glyphs_of set.now) at cells.old }
    ensures done { MarkedTo (glyphs_of set.now) (at + 1) cells.new }
    ensures rest { KeepsRanks cells.old cells.new }
{
    let span = set.span_at(at).unwrap();
    mark_span(set, span, cells);
}

// Marks the variations whose points their glyphs share.
fn mark_glyphs(set: &Set, cells: &mut [CountCell])
    requires { length (all_variations (glyphs_of set.now)) ≤ length cells.old }
    ensures marks { MarksHeld (glyphs_of set.now) cells.new }
    ensures rest { KeepsRanks cells.old cells.new }
{
    for at in 0..set.glyph_count() {
        mark_glyph(set, at, cells);
    }
}

// Counts the peaks and the point sets of a set; how many peaks are shared. Leaves the cells alone where there are fewer than variations.
pub fn count_all(set: &Set, cells: &mut [CountCell]) -> Option<usize>
    ensures counted { MatchOption result ((length cells.old < variation_count (glyphs_of set.now)) × (cells.new ≡ cells.old)) (λ shared. (shared ≡ shared_count (peaks_seen (glyphs_of set.now))) × Counted (glyphs_of set.now) cells.new) }
    ensures long { length cells.new ≡ length cells.old }
{
    if cells.len() < set.variation_count() {
        return None;
    }
    let shared = count_peaks(set, cells);
    mark_glyphs(set, cells);
    Some(shared)
}
