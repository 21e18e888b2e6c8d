// A sink that sums its bytes as big-endian 32-bit numbers, as the tables of a font are summed.
ghost use Rattle.std.specs.Prelude.{◌≡◌, ◌+◌, ◌-◌, ◌*◌, ◌%◌, ◌^◌, ◌<◌, [], ◌∷◌};
ghost use Rattle.write.specs.Steps.{summed};

use crate::allowance::Allowance;
use crate::sink::{Sink, SinkError};

// The phase is the number of bytes taken modulo 4.
#[derive(Drop)]
pub struct Checksum {
    left: Allowance,
    sum: u32,
    phase: u8,
    ghost turn: { phase < 4 },
}

// What a byte adds at this place in its group of four.
fn weighted(phase: u8, b: u8) -> u32
    ensures { result ≡ b * 256 ^ (3 - phase) }
{
    let b = b as u32;
    match phase {
        0 => b * 16777216,
        1 => b * 65536,
        2 => b * 256,
        _ => b,
    }
}

impl Checksum {
    // A sink that will take so many bytes.
    pub fn new(allowance: usize) -> Checksum
        ensures left { result.left ≡ allowance }
        ensures sum { result.sum ≡ 0 }
        ensures phase { result.phase ≡ 0 }
    {
        Checksum {
            left: Allowance::new(allowance),
            sum: 0,
            phase: 0,
        }
    }

    // The sum of the bytes taken.
    pub fn sum(&self) -> u32
        ensures { result ≡ self.now.sum }
    {
        self.sum
    }
}

impl Sink for Checksum {
    ghost stands = { λ c. record { allowance = c.left; state = c.sum ∷ c.phase ∷ []; beyond = []; lent = [] } };

    ghost step = { summed };

    fn allowance(&self) -> usize {
        self.left.left()
    }

    fn take(&mut self, bytes: &[u8]) -> Result<(), SinkError> {
        self.left.spend(bytes.len())?;
        for b in bytes {
            self.sum = self.sum.wrapping_add(weighted(self.phase, *b));
            self.phase = (self.phase + 1) % 4;
        }
        Ok(())
    }
}
