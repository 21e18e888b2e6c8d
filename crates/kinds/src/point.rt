// Runs of points.

// How the gaps between the points of a run are held: in a byte each, in a word each.
#[derive(Clone, Copy, PartialEq, Eq, Debug)]
pub enum PointKind {
    Bytes,
    Words,
}
