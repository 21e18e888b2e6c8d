// The parts of a table, from a set whose peaks and points are counted.
#![tactic(auto)]

pub mod set_parts;
pub mod store;
