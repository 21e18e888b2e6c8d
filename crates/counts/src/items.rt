// Kinds of items that a count table can hold.
ghost use Rattle.std.specs.Prelude.{◌≡◌, ℕ, ◌<◌, ◌≤◌, Bool, true};
ghost use Rattle.counts.specs.Sameness.{Sameness};

// Numbered items, any two of which are the same or not.
pub trait Items {
    // how many items there are
    ghost size: { Self → ℕ };

    // whether two items are the same
    ghost alike: { Self → ℕ → ℕ → Bool };

    // an item's hash
    ghost code: { Self → ℕ → ℕ };

    // sameness is reflexive, symmetric and transitive
    ghost sameness: { (s : Self) → Sameness (alike s) (size s) };

    // items that are the same have the same hash
    ghost agrees: { (s : Self) (i j : ℕ) → i < size s → j < size s → alike s i j ≡ true → code s i ≡ code s j };

    fn count(&self) -> usize
        ensures { result ≡ size self.now };

    fn same(&self, i: usize, j: usize) -> bool
        requires left { i < size self.now }
        requires right { j < size self.now }
        ensures { result ≡ alike self.now i j };

    fn hash(&self, i: usize) -> u32
        requires { i < size self.now }
        ensures { result ≡ code self.now i };
}

// Items whose classes have a score.
pub trait Ranked: Items {
    // a class's score, from its first item and its count
    ghost worth: { Self → ℕ → ℕ → ℕ };

    fn score(&self, first: usize, count: usize) -> u64
        requires inside { first < Self.Items.size self.now }
        requires some { 0 < count }
        requires most { count ≤ Self.Items.size self.now }
        ensures { result ≡ worth self.now first count };
}
