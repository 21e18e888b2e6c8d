// One number for each axis, as words.
ghost use Rattle.std.specs.Prelude.{◌≡◌, ◌*◌, min, length, take};
ghost use Rattle.format.specs.Bytes.{signed_words};

use write::piece::FontWrite;
use write::sink::{Sink, SinkError};

// So many values go to a sink at a time, and so many bytes.
const VALUES: usize = 64;

const BYTES: usize = 128;

// Values of the axes in order, in units of 1/16384.
#[derive(Clone, Copy)]
pub struct Tuple<'a> {
    pub values: &'a [i16],
}

// Puts the words of the first values into the bytes; answers how many values those are.
fn pack(values: &[i16], bytes: &mut [u8; BYTES]) -> usize
    ensures many { result ≡ min (length values.now) 64 }
    ensures words { take (2 * result) bytes.new ≡ signed_words (take result values.now) }
{
    let n = values.len().min(VALUES);
    for i in 0..n {
        let w = values[i].to_be_bytes();
        bytes[2 * i] = w[0];
        bytes[2 * i + 1] = w[1];
    }
    n
}

impl<'a> FontWrite for Tuple<'a> {
    ghost bytes = { λ t. signed_words t.values.now };

    fn size(&self) -> usize {
        2 * self.values.len()
    }

    fn feed<S: Sink>(&self, sink: &mut S) -> Result<(), SinkError> {
        let mut bytes = [0u8; BYTES];
        for part in self.values.chunks(VALUES) {
            let n = pack(part, &mut bytes);
            sink.take(&bytes[..2 * n])?;
        }
        Ok(())
    }
}
