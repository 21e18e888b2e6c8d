// A sink that keeps its bytes in lent memory.
ghost use Rattle.std.specs.Prelude.{◌≡◌, ◌-◌, ◌≤◌, [], ◌∷◌, length, take, drop};
ghost use Rattle.write.specs.Steps.{kept};

use crate::sink::{Sink, SinkError};

// The first `used` bytes of the memory are those taken; the others keep their contents.
#[derive(Drop)]
pub struct Buffer<'a> {
    bytes: &'a mut [u8],
    used: usize,
    ghost within: { used ≤ length bytes.now },
}

impl<'a> Buffer<'a> {
    // A sink that will take as many bytes as the memory has.
    pub fn new(bytes: &'a mut [u8]) -> Buffer<'a>
        ensures bytes { result.bytes.now ≡ bytes.old }
        ensures name { result.bytes.ghost_name ≡ bytes.entry.ghost_name }
        ensures used { result.used ≡ 0 }
    {
        Buffer { bytes, used: 0 }
    }

    // The bytes taken.
    pub fn taken(&self) -> &[u8]
        ensures { result.now ≡ take self.now.used self.now.bytes.now }
    {
        &self.bytes[..self.used]
    }
}

impl<'a> Sink for Buffer<'a> {
    ghost stands = { λ b. record { allowance = length b.bytes.now - b.used; state = take b.used b.bytes.now; beyond = drop b.used b.bytes.now; lent = b.bytes.ghost_name ∷ [] } };

    ghost step = { kept };

    fn allowance(&self) -> usize {
        self.bytes.len() - self.used
    }

    fn take(&mut self, bytes: &[u8]) -> Result<(), SinkError> {
        let n = bytes.len();
        if n > self.allowance() {
            return Err(SinkError::Full);
        }
        let end = self.used + n;
        self.bytes[self.used..end].copy_from_slice(bytes);
        self.used = end;
        Ok(())
    }
}
