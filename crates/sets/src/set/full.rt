// Whether the numbers begun are full.
ghost use Rattle.std.specs.Prelude.{◌≡◌, length, nat_lt};
ghost use Rattle.format.specs.Account.{begun};
ghost use Rattle.format.specs.Bytes.{all};
ghost use Rattle.format.specs.Glyphs.{listed};
ghost use Rattle.format.specs.Table.{numbers_full};
ghost use Rattle.sets.specs.OfSet.{glyphs_of};

use super::Set;

impl<'a> Set<'a> {
    // Whether each number begun is below the number of glyphs.
    fn all_below(&self) -> bool
        ensures { result ≡ all (λ g. nat_lt g.number (length (glyphs_of self.now))) (glyphs_of self.now) }
    {
        self.glyph_cells()
            .iter()
            .all(|cell| usize::from(cell.number) < self.begun)
    }

    // Whether each number below the number of glyphs is begun.
    fn all_begun(&self) -> bool
        ensures { result ≡ all (λ n. begun n (glyphs_of self.now)) (listed 0 (length (glyphs_of self.now)) (λ n. n)) }
    {
        (0..self.begun).all(|number| self.has(number))
    }

    // Whether the n numbers begun are 0 to n - 1.
    pub fn numbers_full(&self) -> bool
        ensures { result ≡ numbers_full (glyphs_of self.now) }
    {
        self.all_below() && self.all_begun()
    }
}
