// What differs between a variation as it was handed in and its entry as it is read.
use reader::entry::Entry;
use reader::tuple::{Region, Tuple, implied_end, implied_start};
use sets::view::GlyphDeltas;
use std::fmt;
use variations::delta::GlyphDelta;

#[derive(Clone, Copy)]
pub enum Difference {
    Peak,
    Start,
    End,
    // A required point that is not found.
    Missing(usize),
    // A point that is found with another delta, or out of order.
    Moved(usize),
}

impl fmt::Display for Difference {
    fn fmt<W: fmt::Write>(&self, f: &mut fmt::Formatter<W>) -> fmt::Result {
        match self {
            Difference::Peak => f.write_str("another peak"),
            Difference::Start => f.write_str("another start"),
            Difference::End => f.write_str("another end"),
            Difference::Missing(point) => write!(f, "point {point} is not found"),
            Difference::Moved(point) => write!(f, "point {point} moves otherwise"),
        }
    }
}

// Are these what `bound` makes of the values that are read?
fn are_values<F: Fn(i16) -> i16>(given: &[i16], read: Tuple<'_>, bound: F) -> bool
    requires { F.IsAlwaysCallable bound }
{
    given.len() == read.len()
        && given
            .iter()
            .zip(read.iter())
            .all(|(value, v)| bound(v) == *value)
}

fn bounds_differ(given: GlyphDeltas<'_>, entry: Entry<'_>) -> Option<Difference> {
    let peak = entry.peak();
    let (starts, ends) = match entry.region() {
        Some(Region { start, end }) => (
            are_values(given.starts, start, |v| v),
            are_values(given.ends, end, |v| v),
        ),
        None => (
            are_values(given.starts, peak, implied_start),
            are_values(given.ends, peak, implied_end),
        ),
    };
    match (starts, ends) {
        (false, _) => Some(Difference::Start),
        (true, false) => Some(Difference::End),
        (true, true) => None,
    }
}

// The first required point from `from` to before `to`.
fn required_between(deltas: &[GlyphDelta], from: usize, to: usize) -> Option<usize> {
    let passed = deltas.get(from..to)?;
    passed
        .iter()
        .position(|delta| delta.required)
        .map(|k| from + k)
}

// Each point found has its delta, and no required point is passed over.
fn moves_differ(deltas: &[GlyphDelta], entry: Entry<'_>) -> Option<Difference> {
    let mut next = 0usize;
    for m in entry.moves() {
        let point = m.point as usize;
        let Some(delta) = deltas.get(point).filter(|_| next <= point) else {
            return Some(Difference::Moved(point));
        };
        if let Some(missing) = required_between(deltas, next, point) {
            return Some(Difference::Missing(missing));
        }
        if (delta.x, delta.y) != (m.x, m.y) {
            return Some(Difference::Moved(point));
        }
        next = point + 1;
    }
    required_between(deltas, next, deltas.len()).map(Difference::Missing)
}

pub fn first_difference(given: GlyphDeltas<'_>, entry: Entry<'_>) -> Option<Difference> {
    if !are_values(given.peak, entry.peak(), |v| v) {
        return Some(Difference::Peak);
    }
    bounds_differ(given, entry).or_else(|| moves_differ(given.deltas, entry))
}
