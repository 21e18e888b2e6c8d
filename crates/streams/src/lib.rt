// Packed deltas and packed points, read from any bytes.
#![tactic(auto)]

pub mod deltas;
pub mod fault;
pub mod points;
pub mod runs;
#[cfg(test)]
mod tests;
pub mod words;
