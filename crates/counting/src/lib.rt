// The peaks and the point sets of a set's variations are counted in cells that the caller lends.
#![tactic(auto)]

pub mod counting;
pub mod point_sets;
pub mod required;
