// A count table is filled: a chain of first items for each bucket of hashes, in the cells.
ghost use Rattle.std.specs.Prelude.{◌≡◌, ℕ, ◌+◌, ◌%◌, ◌<◌, ◌≤◌, ◌↔◌, length, None, IsErr, OnOk, OnErr};
ghost use Rattle.counts.specs.Tables.{Filled, LeavesRanks, class_of};
ghost use Rattle.counts.specs.Cells.{count_at, head_at, entered, chained};
ghost use Rattle.counts.specs.Chains.{State};

use crate::cells::CountCell;
use crate::items::Items;
use crate::table::CountTable;
use crate::too_few::TooFewCells;
use links::link::Link;

// Notes that item i belongs to the class of an item that is not later.
fn enter(cells: &mut [CountCell], i: usize, first: usize)
    requires within { i < length cells.old }
    requires order { first ≤ i }
    requires fits { first < i → count_at cells.old first ≤ i }
    ensures { cells.new ≡ entered cells.old i first }
{
    cells[i] = CountCell {
        first,
        count: 0,
        ..cells[i]
    };
    cells[first].count += 1;
}

// Puts first item i at the front of the chain of bucket b.
fn chain(cells: &mut [CountCell], i: usize, b: usize)
    requires within { i < length cells.old }
    requires bucket { b < length cells.old }
    ensures { cells.new ≡ chained cells.old i b }
{
    cells[i].next = cells[b].head;
    cells[b].head = Link::of(Some(i));
}

// The first item that is the same as item i, of bucket b.
fn find<I: Items>(cells: &[CountCell], items: &I, i: usize, b: usize) -> usize
    requires inside { i < I.size items.now }
    requires bucket { b ≡ I.code items.now i % I.size items.now }
    requires along { State (I.alike items.now) (I.code items.now) (I.size items.now) i cells.now }
    ensures { result ≡ (class_of (I.size items.now) (I.alike items.now) i).first }
{
    let mut at = cells[b].head;
    while let Some(j) = at.item() {
        if items.same(j, i) {
            return j;
        }
        at = cells[j].next;
    }
    i
}

// Adds item i, when those before it are counted.
fn add<I: Items>(cells: &mut [CountCell], items: &I, i: usize)
    requires inside { i < I.size items.now }
    requires along { State (I.alike items.now) (I.code items.now) (I.size items.now) i cells.old }
    ensures along { State (I.alike items.now) (I.code items.now) (I.size items.now) (i + 1) cells.new }
    ensures rest { LeavesRanks (I.size items.now) cells.old cells.new }
{
    let n = items.count();
    let b = items.hash(i) as usize % n;
    let first = find(cells, items, i, b);
    enter(cells, i, first);
    if first == i {
        chain(cells, i, b);
    }
}

// Empties the buckets of the first n cells.
fn reset(cells: &mut [CountCell], n: usize)
    requires { n ≤ length cells.old }
    ensures empty { (k : ℕ) → k < n → head_at cells.new k ≡ None }
    ensures rest { LeavesRanks n cells.old cells.new }
{
    for cell in &mut cells[..n] {
        cell.head = Link::NONE;
    }
}

impl<'a> CountTable<'a> {
    // Counts the items. Where there are fewer cells than items it refuses, and leaves the cells alone.
    pub fn fill<I: Items>(&mut self, items: &I) -> Result<(), TooFewCells>
        ensures refuses { IsErr result ↔ (length self.old.cells.now < I.size items.now) }
        ensures filled { OnOk result (Filled (I.alike items.now) (I.size items.now) self.new.cells.now) }
        ensures alone { OnErr result (self.new.cells.now ≡ self.old.cells.now) }
        ensures rest { LeavesRanks (I.size items.now) self.old.cells.now self.new.cells.now }
        ensures kept { self.new.cells.ghost_name ≡ self.old.cells.ghost_name }
    {
        let n = items.count();
        if self.cells.len() < n {
            return Err(TooFewCells);
        }
        reset(self.cells, n);
        for i in 0..n {
            add(self.cells, items, i);
        }
        Ok(())
    }
}
