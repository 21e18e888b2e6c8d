// The set that glyphs and their variations are added to, in stores that the caller lends.
#![tactic(auto)]

pub mod axis;
pub mod cells;
pub mod refusal;
pub mod set;
pub mod stores;
pub mod view;
