// Sinks, where bytes go, and pieces, which mean bytes.
#![tactic(auto)]

pub mod allowance;
pub mod batch;
pub mod buffer;
pub mod checksum;
pub mod counter;
pub mod piece;
pub mod sink;
pub mod words;
