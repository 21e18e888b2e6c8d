// The interface of a sink.
ghost use Rattle.std.specs.Prelude.{◌≡◌};
ghost use Rattle.write.specs.Sinks.{Standing, Step, Handed, Ready};

use thiserror::Error;

// Why a sink took nothing.
#[derive(Clone, Copy, PartialEq, Eq, Debug, Error)]
pub enum SinkError {
    #[error("more bytes than the sink will take")]
    Full,
}

// Where bytes go. An implementation says by `stands` what it will still take and what it made of the bytes so far,
// and by `step` what one byte more makes of that.
pub trait Sink {
    ghost stands: { Self → Standing };

    ghost step: { Step };

    // How many bytes the sink will still take.
    fn allowance(&self) -> usize
        ensures { result ≡ (stands self.now).allowance };

    // Takes the bytes in order, or refuses them all and stays as it is.
    fn take(&mut self, bytes: &[u8]) -> Result<(), SinkError>
        ensures { Handed step bytes.now (stands self.old) (stands self.new) result };
}

// Whether a sink would take n bytes: every writer of a whole piece asks this before its first byte.
pub fn ready<S: Sink>(sink: &S, n: usize) -> Result<(), SinkError>
    ensures { Ready S.step n (S.stands sink.now) result }
{
    if n > sink.allowance() {
        return Err(SinkError::Full);
    }
    Ok(())
}
