// A sink of this program's own: it keeps the exclusive or of its bytes.
ghost use Rattle.std.specs.Prelude.{[], ◌∷◌};
ghost use Rattle.letter.specs.Parity.{mixed};

use write::allowance::Allowance;
use write::sink::{Sink, SinkError};

#[derive(Drop)]
pub struct Parity {
    left: Allowance,
    bits: u8,
}

impl Parity {
    pub fn new(allowance: usize) -> Parity {
        Parity {
            left: Allowance::new(allowance),
            bits: 0,
        }
    }

    pub fn bits(&self) -> u8 {
        self.bits
    }
}

impl Sink for Parity {
    ghost stands = { λ p. record { allowance = p.left; state = p.bits ∷ []; beyond = []; lent = [] } };

    ghost step = { mixed };

    fn allowance(&self) -> usize {
        self.left.left()
    }

    fn take(&mut self, bytes: &[u8]) -> Result<(), SinkError> {
        self.left.spend(bytes.len())?;
        for b in bytes {
            self.bits = self.bits ^ *b;
        }
        Ok(())
    }
}
