// The whole table: its layout, its length, and its hand-over to any sink.
#![tactic(auto)]

pub mod feed;
pub mod form;
pub mod layout;
pub mod parts;
pub mod table;
