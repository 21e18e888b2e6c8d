// Links between cells that a caller lends.
#![tactic(auto)]

pub mod link;
