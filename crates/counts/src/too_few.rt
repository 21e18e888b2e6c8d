// Why a count table is not filled.
use std::error::Error;
use std::fmt;

// There are fewer cells than items.
#[derive(Clone, Copy, PartialEq, Eq, Debug)]
pub struct TooFewCells;

impl fmt::Display for TooFewCells {
    fn fmt<W: fmt::Write>(&self, f: &mut fmt::Formatter<W>) -> fmt::Result {
        write!(f, "fewer cells than items")
    }
}

impl Error for TooFewCells {}
