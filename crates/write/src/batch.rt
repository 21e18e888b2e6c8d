// A sink that gathers bytes in an array of its own, before they go to another sink together.
ghost use Rattle.std.specs.Prelude.{◌≡◌, ◌-◌, [], length};
ghost use Rattle.write.specs.Steps.{kept};

use crate::sink::{Sink, SinkError};
use std::marker::Model;

// The first `used` bytes of the array are those taken.
#[derive(Drop)]
pub struct Batch<const N: usize> {
    bytes: [u8; N],
    used: usize,
}

// Clauses see the bytes taken.
impl<const N: usize> Model for Batch<N> {
    ghost use Rattle.std.specs.Prelude.{ℕ, ◌≤◌, List, take};

    ghost Value = { List ℕ };

    ghost view = { λ b. take b.used b.bytes };

    ghost invariant = { λ b. b.used ≤ N };
}

impl<const N: usize> Batch<N> {
    // An empty batch.
    pub fn new() -> Batch<N>
        ensures { result ≡ [] }
    {
        Batch {
            bytes: [0; N],
            used: 0,
        }
    }

    // The bytes taken.
    #[inline]
    pub fn taken(&self) -> &[u8]
        ensures { result.now ≡ self.now }
    {
        &self.bytes[..self.used]
    }

    // Lets the bytes go, for others.
    #[inline]
    pub fn clear(&mut self)
        ensures { self.new ≡ [] }
    {
        self.used = 0;
    }
}

impl<const N: usize> Sink for Batch<N> {
    ghost stands = { λ b. record { allowance = N - length b; state = b; beyond = []; lent = [] } };

    ghost step = { kept };

    #[inline]
    fn allowance(&self) -> usize {
        N - self.used
    }

    #[inline]
    fn take(&mut self, bytes: &[u8]) -> Result<(), SinkError> {
        let n = bytes.len();
        if n > self.allowance() {
            return Err(SinkError::Full);
        }
        let end = self.used + n;
        let all = &mut self.bytes[..];
        all[self.used..end].copy_from_slice(bytes);
        self.used = end;
        Ok(())
    }
}
