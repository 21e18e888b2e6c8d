// How the values of a run are held, in packed deltas and in packed points.
#![tactic(auto)]

pub mod delta;
pub mod point;
