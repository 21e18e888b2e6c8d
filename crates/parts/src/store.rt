// The variations of one glyph of a set, with the cells in which the peaks and the points of the set are counted.
ghost use Rattle.std.specs.Prelude.{◌≡◌, ◌+◌, ◌^◌, ◌<◌, ◌≤◌, length};
ghost use Rattle.sets.specs.OfSet.{glyphs_of};
ghost use Rattle.sets.specs.Views.{all_variations};
ghost use Rattle.counting.specs.Marked.{MarkedFrom};

use crate::set_parts::SetParts;
use sets::view::Span;

pub mod pieces;
pub mod writing;

// The span is that of a glyph, or of none.
#[derive(Clone, Copy)]
pub struct GlyphStore<'s, 'a> {
    pub(crate) parts: SetParts<'s, 'a>,
    pub(crate) span: Span,
    ghost few: { span.count ≤ 4095 },
    ghost within: { span.first + span.count ≤ length (all_variations (glyphs_of parts.set.now)) },
    ghost short: { span.first + span.count < 2 ^ 64 },
    ghost marked: { MarkedFrom (glyphs_of parts.set.now) span parts.cells.now },
}
