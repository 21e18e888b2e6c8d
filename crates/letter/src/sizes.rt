// How many cells of each kind a script is lent.
use lent::memory::Sizes;

// As many as the calls of a script can use.
pub fn ample(script: &str) -> Sizes {
    let mut words = 0usize;
    let mut glyphs = 0usize;
    let mut variations = 0usize;
    for word in script.split_whitespace() {
        words = words.saturating_add(1);
        match word {
            "glyph" => glyphs = glyphs.saturating_add(1),
            "variation" => variations = variations.saturating_add(1),
            _ => {}
        }
    }
    Sizes {
        glyphs,
        variations,
        values: words.saturating_mul(3),
        deltas: words,
        counts: variations,
    }
}

// As many as are asked for, but no more than a script can use: the others need not be lent.
pub fn within(asked: Sizes, most: Sizes) -> Sizes {
    Sizes {
        glyphs: asked.glyphs.min(most.glyphs),
        variations: asked.variations.min(most.variations),
        values: asked.values.min(most.values),
        deltas: asked.deltas.min(most.deltas),
        counts: asked.counts.min(most.counts),
    }
}
