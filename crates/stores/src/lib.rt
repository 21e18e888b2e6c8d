// The tuple variation store of a glyph: its size, and its bytes into a sink.
#![tactic(auto)]

pub mod feed;
pub mod size;
pub mod variations;
