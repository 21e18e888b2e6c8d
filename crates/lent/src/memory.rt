// Cells of each kind, as many as are asked for.
ghost use Rattle.std.specs.Prelude.{◌≡◌, IfOk, length};
ghost use Rattle.format.specs.Account.{opened};
ghost use Rattle.sets.specs.OfSet.{account_of};
ghost use Rattle.lent.specs.Sizes.{sizes_of};

use counts::cells::CountCell;
use sets::axis::AxisCount;
use sets::cells::{GlyphCell, VariationCell};
use sets::set::Set;
use sets::stores::Stores;
use std::alloc::{AllocError, Global};
use variations::delta::GlyphDelta;

// How many cells of each kind.
#[derive(Clone, Copy, PartialEq, Eq, Debug)]
pub struct Sizes {
    pub glyphs: usize,
    pub variations: usize,
    pub values: usize,
    pub deltas: usize,
    pub counts: usize,
}

// The cells of a set, and those that a compile counts in.
#[derive(Drop)]
pub struct Memory {
    pub glyphs: Vec<GlyphCell>,
    pub variations: Vec<VariationCell>,
    pub values: Vec<i16>,
    pub deltas: Vec<GlyphDelta>,
    pub counts: Vec<CountCell>,
}

// A set over lent cells, with those that its compiles count in.
#[derive(Drop)]
pub struct Opened<'a> {
    pub set: Set<'a>,
    pub counts: &'a mut [CountCell],
}

impl Memory {
    // Cells that nothing is kept in yet.
    pub fn blank(alloc: Global, sizes: Sizes) -> Result<Memory, AllocError>
        ensures { IfOk result (λ m. sizes_of m ≡ sizes) }
    {
        Ok(Memory {
            glyphs: vec![in alloc; GlyphCell::blank(); sizes.glyphs]?,
            variations: vec![in alloc; VariationCell::blank(); sizes.variations]?,
            values: vec![in alloc; 0; sizes.values]?,
            deltas: vec![in alloc; GlyphDelta::optional(0, 0); sizes.deltas]?,
            counts: vec![in alloc; CountCell::zeros(); sizes.counts]?,
        })
    }

    // A set without glyphs over the cells.
    pub fn open(&mut self, axes: AxisCount) -> Opened<'_>
        ensures set { account_of result.set ≡ opened axes.count (record { glyph = length self.old.glyphs.items; variation = length self.old.variations.items; axis = length self.old.values.items; delta = length self.old.deltas.items }) }
        ensures counts { result.counts.now ≡ self.old.counts.items }
    {
        Opened {
            set: Set::open(
                axes,
                Stores {
                    glyphs: self.glyphs.as_mut_slice(),
                    variations: self.variations.as_mut_slice(),
                    values: self.values.as_mut_slice(),
                    deltas: self.deltas.as_mut_slice(),
                },
            ),
            counts: self.counts.as_mut_slice(),
        }
    }
}
