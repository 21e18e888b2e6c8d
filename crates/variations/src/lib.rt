// Packed point numbers and packed deltas of a variation, straight from the deltas of a glyph.
#![tactic(auto)]

pub mod delta;
pub mod delta_kinds;
pub mod deltas;
pub mod gap_kinds;
pub mod gaps;
pub mod packing;
pub mod points;
pub mod run_kind;
pub mod runs;
