// The memory that the cases lend.
use crate::words::parsed;
use counts::cells::CountCell;
use counts::peaks::Peaks;
use counts::table::CountTable;
use lent::memory::{Memory, Sizes};
use links::link::Link;
use sets::cells::{GlyphCell, VariationCell};
use std::alloc::{AllocError, Global};
use std::str::SplitWhitespace;
use tuples::choice::StoredPoints;
use variations::delta::GlyphDelta;

// A cell that seems to be in use, with links to other cells.
fn odd_glyph(i: usize) -> GlyphCell {
    GlyphCell {
        number: (i % 5) as u16,
        variations: 65535,
        first: usize::MAX,
        head: Link::of(Some(i % 3)),
        next: Link::of(Some(i % 4)),
    }
}

fn odd_variation() -> VariationCell {
    VariationCell {
        deltas: 65535,
        start: usize::MAX,
        stored: StoredPoints {
            all: true,
            points: usize::MAX,
            values: 12345,
        },
    }
}

// The words GLYPHS VARIATIONS VALUES DELTAS, `blank` or `odd`, and COUNTS.
pub fn read_memory(alloc: Global, words: &mut SplitWhitespace<'_>) -> anyhow::Result<Memory> {
    let glyphs = parsed::<usize>(words)?;
    let variations = parsed::<usize>(words)?;
    let values = parsed::<usize>(words)?;
    let deltas = parsed::<usize>(words)?;
    let sizes = Sizes {
        glyphs,
        variations,
        values,
        deltas,
        counts: 0,
    };
    let memory = if words.next() == Some("odd") {
        odd_memory(alloc, sizes)?
    } else {
        Memory::blank(alloc, sizes)?
    };
    let counts = used_cells(alloc, parsed::<usize>(words)?)?;
    Ok(Memory { counts, ..memory })
}

// Stores whose cells seem to be in use, and no count cells.
fn odd_memory(alloc: Global, sizes: Sizes) -> Result<Memory, AllocError> {
    Ok(Memory {
        glyphs: (0..sizes.glyphs).map(odd_glyph).collect(alloc)?,
        variations: vec![in alloc; odd_variation(); sizes.variations]?,
        values: vec![in alloc; -7; sizes.values]?,
        deltas: vec![in alloc; GlyphDelta::required(-7, -7); sizes.deltas]?,
        counts: Vec::new(alloc),
    })
}

// Count cells as a count of so many peaks leaves them, all of them different up to 65,536.
fn used_cells(alloc: Global, count: usize) -> anyhow::Result<Vec<CountCell>> {
    let mut values = Vec::new(alloc);
    let mut value: i16 = 0;
    for _ in 0..count {
        values.extend_from_slice(&[value, 0, 0])?;
        value = value.wrapping_add(1);
    }
    let mut cells = vec![in alloc; CountCell::zeros(); count]?;
    let peaks = Peaks::over(values.as_slice(), 1, count);
    let mut table = CountTable::over(cells.as_mut_slice());
    table.fill(&peaks)?;
    let _ = table.rank(&peaks);
    Ok(cells)
}
