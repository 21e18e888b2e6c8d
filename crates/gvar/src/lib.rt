// The compiler of the gvar table.
#![tactic(auto)]

pub mod compile;
pub mod replay;
pub mod requests;
