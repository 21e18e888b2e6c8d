// Runs of deltas.

// How the deltas of a run are held: not at all, in a byte each, in a word each.
#[derive(Clone, Copy, PartialEq, Eq, Debug)]
pub enum DeltaKind {
    Zeros,
    Bytes,
    Words,
}
