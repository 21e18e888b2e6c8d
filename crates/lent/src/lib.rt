// The memory that programs lend to a set and to its compiles. It lies on the heap, so only programs use this crate.
#![tactic(auto)]

pub mod memory;
