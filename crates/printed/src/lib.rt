// Text for what a table holds: bytes, the tents and the moves of an entry, and a glyph.
#![tactic(auto)]

pub mod bytes;
pub mod entry_tents;
pub mod glyph;
pub mod moves;
