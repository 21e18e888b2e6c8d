// One count table for every kind of item: where each is first seen, how often it occurs, and how its class ranks.
#![tactic(auto)]

pub mod cells;
pub mod filling;
pub mod hash;
mod heap;
pub mod items;
pub mod marking;
pub mod peaks;
pub mod ranking;
mod reading;
pub mod table;
pub mod too_few;
