// A sink that counts its bytes.
ghost use Rattle.std.specs.Prelude.{◌≡◌, ◌+◌, ◌^◌, ◌<◌, [], ◌∷◌};
ghost use Rattle.write.specs.Steps.{counted};

use crate::allowance::Allowance;
use crate::sink::{Sink, SinkError};

#[derive(Drop)]
pub struct Counter {
    left: Allowance,
    taken: usize,
    ghost fits: { taken + left < 2 ^ 64 },
}

impl Counter {
    // A sink that will take so many bytes.
    pub fn new(allowance: usize) -> Counter
        ensures left { result.left ≡ allowance }
        ensures taken { result.taken ≡ 0 }
    {
        Counter {
            left: Allowance::new(allowance),
            taken: 0,
        }
    }

    // The number of bytes taken.
    pub fn count(&self) -> usize
        ensures { result ≡ self.now.taken }
    {
        self.taken
    }
}

impl Sink for Counter {
    ghost stands = { λ c. record { allowance = c.left; state = c.taken ∷ []; beyond = []; lent = [] } };

    ghost step = { counted };

    #[inline]
    fn allowance(&self) -> usize {
        self.left.left()
    }

    #[inline]
    fn take(&mut self, bytes: &[u8]) -> Result<(), SinkError> {
        let n = bytes.len();
        self.left.spend(n)?;
        self.taken += n;
        Ok(())
    }
}
