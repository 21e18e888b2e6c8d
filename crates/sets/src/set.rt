// The set: the glyphs begun with their variations, in four stores that the caller lends.
ghost use Rattle.std.specs.Prelude.{◌≡◌, ◌*◌, ◌≤◌, length, take};
ghost use Rattle.sets.specs.Cells.{variations_in, deltas_in, number_at};
ghost use Rattle.sets.specs.Index.{Apart, Low};
ghost use Rattle.sets.specs.Sound.{Firsts, Starts, Chained, Few, Chosen, ShortCells};

use super::axis::AxisCount;
use super::cells::{GlyphCell, VariationCell};
use variations::delta::GlyphDelta;

pub mod add;
pub mod begin;
pub mod full;
pub mod index;
pub mod views;

#[derive(Drop)]
pub struct Set<'a> {
    axes: AxisCount,
    glyphs: &'a mut [GlyphCell],
    variations: &'a mut [VariationCell],
    // three values for each axis of a variation: its peak, then its starts, then its ends
    values: &'a mut [i16],
    deltas: &'a mut [GlyphDelta],
    // how many glyph cells, variation cells and deltas are in use
    begun: usize,
    added: usize,
    moved: usize,
    ghost within: { (begun ≤ length glyphs.now) × (added ≤ length variations.now) × (3 * axes.count * added ≤ length values.now) × (moved ≤ length deltas.now) },
    ghost counted: { (variations_in (take begun glyphs.now) ≡ added) × (deltas_in (take added variations.now) ≡ moved) },
    ghost placed: { Firsts begun glyphs.now × Starts added variations.now },
    ghost chained: { Chained begun glyphs.now },
    ghost numbered: { Apart (number_at glyphs.now) begun × Low (number_at glyphs.now) begun },
    ghost few: { Few begun glyphs.now added variations.now },
    ghost chosen: { Chosen (take added variations.now) (take moved deltas.now) },
    ghost short: { ShortCells (take (3 * axes.count * added) values.now) (take moved deltas.now) },
}
