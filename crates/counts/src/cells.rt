// The cells of a count table, and what it says of a class.
ghost use Rattle.std.specs.Prelude.{◌≡◌};
ghost use Rattle.counts.specs.Cells.{blank, lists, repeats_as};

use links::link::Link;

// One cell for each item.
#[derive(Clone, Copy, PartialEq, Eq, Debug)]
pub struct CountCell {
    // the first item that is the same
    pub(crate) first: usize,
    // in a first item's cell: how many items are the same
    pub(crate) count: usize,
    // the last first item in the bucket of this number
    pub(crate) head: Link,
    // the first item before this one in its bucket
    pub(crate) next: Link,
    // the rank of the item's class
    pub(crate) rank: usize,
    // the first item of the class whose rank is this cell's number
    pub(crate) order: usize,
    // whether the item is of the best class, which has more than one
    pub(crate) marked: bool,
}

// A class of items that are the same: the first of them, and how many there are.
#[derive(Clone, Copy, PartialEq, Eq, Debug)]
pub struct Class {
    pub first: usize,
    pub count: usize,
}

impl CountCell {
    // A cell of zeros.
    pub fn zeros() -> CountCell
        ensures { result ≡ blank }
    {
        CountCell {
            first: 0,
            count: 0,
            head: Link::NONE,
            next: Link::NONE,
            rank: 0,
            order: 0,
            marked: false,
        }
    }

    // The rank of the item's class.
    pub fn rank(&self) -> usize
        ensures { result ≡ self.now.rank }
    {
        self.rank
    }

    // The first item of the class whose rank is this cell's number.
    pub fn order(&self) -> usize
        ensures { result ≡ self.now.order }
    {
        self.order
    }

    // Whether the item is of the best class, which has more than one.
    pub fn is_marked(&self) -> bool
        ensures { result ≡ self.now.marked }
    {
        self.marked
    }

    // Whether this cell's item, item i, is the first of a class, which has some of n items.
    pub(crate) fn is_listed(&self, n: usize, i: usize) -> bool
        ensures { result ≡ lists self.now n i }
    {
        self.first == i && self.count > 0 && self.count <= n
    }

    // Whether this cell's item, item i, is the first of a class of more than one.
    pub(crate) fn is_repeated(&self, i: usize) -> bool
        ensures { result ≡ repeats_as self.now i }
    {
        self.first == i && self.count > 1
    }
}
