// The slot of a glyph, from its bytes: headers, shared points, entries and end.
#![tactic(auto)]

pub mod bytes;
pub mod entries;
pub mod entry;
pub mod fault;
pub mod headers;
pub mod slot;
