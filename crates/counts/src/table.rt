// The count table, over cells that the caller lends.
ghost use Rattle.std.specs.Prelude.{◌≡◌, ℕ, ◌<◌, ◌≤◌, Bool, length, replicate, Some, None};
ghost use Rattle.counts.specs.Cells.{blank};
ghost use Rattle.counts.specs.Tables.{Filled, class_of};

use crate::cells::{Class, CountCell};

#[derive(Drop)]
pub struct CountTable<'a> {
    pub(crate) cells: &'a mut [CountCell],
}

impl<'a> CountTable<'a> {
    // A table over cells that are lent to it.
    pub fn over(cells: &'a mut [CountCell]) -> CountTable<'a>
        ensures { result.cells ≡ cells.entry }
    {
        CountTable { cells }
    }

    // Makes every cell zeros.
    pub fn clear(&mut self)
        ensures value { self.new.cells.now ≡ replicate (length self.old.cells.now) blank }
        ensures kept { self.new.cells.ghost_name ≡ self.old.cells.ghost_name }
    {
        self.cells.fill(CountCell::zeros());
    }

    // The class of item i, as the table was filled; none past the cells.
    pub fn class(&self, i: usize) -> Option<Class>
        ensures value { (n : ℕ) (same : ℕ → ℕ → Bool) → Filled same n self.now.cells.now → i < n → result ≡ Some (class_of n same i) }
        ensures outside { length self.now.cells.now ≤ i → result ≡ None }
    {
        let first = self.cells.get(i)?.first;
        let count = self.cells.get(first)?.count;
        Some(Class { first, count })
    }
}
