// The point sets of a glyph's variations, as items of a count table.
ghost use Rattle.std.specs.Prelude.{◌≡◌, ◌+◌, ◌^◌, ◌<◌, ◌≤◌, length, slice_index_or};
ghost use Rattle.format.specs.Glyphs.{same_set};
ghost use Rattle.format.specs.Packed.{every};
ghost use Rattle.sets.specs.OfSet.{account_of, glyphs_of};
ghost use Rattle.sets.specs.Views.{all_variations, no_variation, Shows};
ghost use Rattle.counting.specs.PointSets.{sets_of, hash_of, worth_of, sets_sameness, sets_agree};

use crate::required::{hash_stored, same_stored};
use counts::items::{Items, Ranked};
use sets::set::Set;
use sets::view::{GlyphDeltas, Span};

// The variations of a span of the set's.
#[derive(Clone, Copy)]
pub struct PointSets<'s, 'a> {
    set: &'s Set<'a>,
    span: Span,
    ghost within: { span.first + span.count ≤ length (all_variations (glyphs_of set.now)) },
    ghost few: { (span.count ≤ 4095) × (span.first + span.count < 2 ^ 64) },
}

impl<'s, 'a> PointSets<'s, 'a> {
    // The point sets of the variations of a span; of none where the set has no such span.
    pub fn over(set: &'s Set<'a>, span: Span) -> PointSets<'s, 'a>
        ensures set { result.set ≡ set.entry }
        ensures none { length (all_variations (glyphs_of set.now)) < span.first + span.count → result.span.count ≡ 0 }
        ensures span { span.count ≤ 4095 → span.first + span.count ≤ length (all_variations (glyphs_of set.now)) → result.span ≡ span }
    {
        let n = set.variation_count();
        if span.count > 4095 || span.count > n || span.first > n - span.count {
            let none = Span { first: 0, count: 0 };
            return PointSets { set, span: none };
        }
        PointSets { set, span }
    }

    // Variation i of the span.
    fn view(&self, i: usize) -> GlyphDeltas<'_>
        requires { i < self.now.span.count }
        ensures { Shows (account_of self.now.set.now).axes result (slice_index_or (all_variations (glyphs_of self.now.set.now)) (self.now.span.first + i) no_variation) }
    {
        self.set.view(self.span.first + i).unwrap()
    }
}

impl<'s, 'a> Items for PointSets<'s, 'a> {
    ghost size = { λ s. s.span.count };

    ghost alike = { λ s. same_set (sets_of (glyphs_of s.set.now) s.span) };

    ghost code = { λ s i. hash_of (slice_index_or (sets_of (glyphs_of s.set.now) s.span) i every) };

    ghost sameness = { λ s. sets_sameness (sets_of (glyphs_of s.set.now) s.span) s.span.count };

    ghost agrees = { λ s. sets_agree (sets_of (glyphs_of s.set.now) s.span) s.span.count };

    fn count(&self) -> usize {
        self.span.count
    }

    fn same(&self, i: usize, j: usize) -> bool {
        same_stored(&self.view(i), &self.view(j))
    }

    fn hash(&self, i: usize) -> u32 {
        hash_stored(&self.view(i))
    }
}

impl<'s, 'a> Ranked for PointSets<'s, 'a> {
    ghost worth = { λ s. worth_of (sets_of (glyphs_of s.set.now) s.span) };

    fn score(&self, first: usize, count: usize) -> u64 {
        let points = self.view(first).stored.points;
        (count as u64 - 1) * points as u64
    }
}
