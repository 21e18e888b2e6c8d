// How many bytes a sink will still take.
ghost use Rattle.std.specs.Prelude.{◌≡◌, ◌+◌, ◌<◌, OnOk, OnErr};

use crate::sink::SinkError;
use std::marker::Model;

#[derive(Drop)]
pub struct Allowance {
    bytes: usize,
}

// Clauses see the number.
impl Model for Allowance {
    ghost use Rattle.std.specs.Prelude.{ℕ};

    ghost Value = { ℕ };

    ghost view = { λ a. a.bytes };
}

impl Allowance {
    pub fn new(bytes: usize) -> Allowance
        ensures { result ≡ bytes }
    {
        Allowance { bytes }
    }

    #[inline]
    pub fn left(&self) -> usize
        ensures { result ≡ self.now }
    {
        self.bytes
    }

    // Takes so many bytes off, or refuses and stays as it is.
    #[inline]
    pub fn spend(&mut self, n: usize) -> Result<(), SinkError>
        ensures spent { OnOk result (self.new + n ≡ self.old) }
        ensures short { OnErr result (self.old < n) }
        ensures stays { OnErr result (self.new ≡ self.old) }
    {
        let Some(rest) = self.bytes.checked_sub(n) else {
            return Err(SinkError::Full);
        };
        self.bytes = rest;
        Ok(())
    }
}
