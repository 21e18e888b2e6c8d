// The classes of a filled count table that have more than one item, and the marks of the best of them.
ghost use Rattle.std.specs.Prelude.{◌≡◌, ℕ, ◌<◌, ◌≤◌, Bool, length, count_by};
ghost use Rattle.std.specs.List.{enumerate_from};
ghost use Rattle.format.specs.Ranked.{count_below};
ghost use Rattle.counts.specs.Cells.{first_at, marked_at, repeats_as};
ghost use Rattle.counts.specs.Tables.{Filled};
ghost use Rattle.counts.specs.Ranking.{score_of};
ghost use Rattle.counts.specs.Marking.{repeats, led_by, of_best, LeavesUnmarked};

use crate::cells::{Class, CountCell};
use crate::items::{Items, Ranked};
use crate::table::CountTable;

// Whether the class has more than one item, and `first` is the first of them.
fn is_led_by(class: Option<Class>, first: usize) -> bool
    ensures { result ≡ led_by class first }
{
    class.is_some_and(|c| c.count > 1 && first == c.first)
}

// How many classes have more than one item.
fn count_repeated(cells: &[CountCell]) -> usize
    ensures { result ≡ count_by (λ p. repeats_as p.1 p.0) (enumerate_from 0 cells.now) }
{
    cells
        .iter()
        .enumerate()
        .filter(|(i, cell)| cell.is_repeated(*i))
        .count()
}

// Marks those of n items that are of the class, if it has more than one, and no others of them.
fn mark_class(cells: &mut [CountCell], n: usize, class: Option<Class>)
    requires { n ≤ length cells.old }
    ensures marks { (i : ℕ) → i < n → marked_at cells.new i ≡ led_by class (first_at cells.old i) }
    ensures rest { LeavesUnmarked n cells.old cells.new }
{
    for cell in &mut cells[..n] {
        cell.marked = is_led_by(class, cell.first);
    }
}

impl<'a> CountTable<'a> {
    // How many classes have more than one of the n items that the table was filled with; 0 where there are fewer cells.
    pub fn repeated(&self, n: usize) -> usize
        ensures value { (same : ℕ → ℕ → Bool) → Filled same n self.now.cells.now → result ≡ count_below n (repeats n same) }
        ensures few { result ≤ n }
    {
        if self.cells.len() < n {
            return 0;
        }
        count_repeated(&self.cells[..n])
    }

    // Marks the items of the best class, if it has more than one, and no others that the table was filled with. Does nothing where there are fewer cells than items.
    pub fn mark_best<R: Ranked>(&mut self, items: &R)
        ensures marks { Filled (R.Items.alike items.now) (R.Items.size items.now) self.old.cells.now → (i : ℕ) → i < R.Items.size items.now → marked_at self.new.cells.now i ≡ of_best (R.Items.size items.now) (R.Items.alike items.now) (score_of (R.Items.size items.now) (R.Items.alike items.now) (R.worth items.now)) i }
        ensures rest { LeavesUnmarked (R.Items.size items.now) self.old.cells.now self.new.cells.now }
        ensures kept { self.new.cells.ghost_name ≡ self.old.cells.ghost_name }
    {
        let n = items.count();
        if self.cells.len() < n {
            return;
        }
        let best = self.best(items);
        mark_class(self.cells, n, best);
    }
}
