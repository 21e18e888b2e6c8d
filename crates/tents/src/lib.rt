// Where on one axis a variation applies.
#![tactic(auto)]

pub mod tent;
