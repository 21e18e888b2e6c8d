// What a variation stores, as pieces that are handed to a sink: its header and its data.
#![tactic(auto)]

pub mod choice;
pub mod data;
pub mod header;
pub mod laws;
pub mod tuple;
