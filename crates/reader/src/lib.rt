// The reader of a table: its check, the slot of a glyph, and the walk over a slot's entries.
#![tactic(auto)]

pub mod entry;
pub mod fault;
pub mod moves;
pub mod points;
pub mod slot;
pub mod table;
pub mod tuple;
