// Pieces of a table: what means bytes, and can be handed to a sink.
ghost use Rattle.std.specs.Prelude.{◌≡◌, ℕ, List, [], length, Some, None};
ghost use Rattle.write.specs.Sinks.{Handed, Fed};

use crate::sink::{Sink, SinkError, ready};

// A piece means its bytes.
pub trait FontWrite {
    ghost bytes: { Self → List ℕ };

    // The number of its bytes.
    fn size(&self) -> usize
        ensures { result ≡ length (bytes self.now) };

    // Hands the bytes over batch by batch, with no look at the allowance before: for a writer that has asked for a
    // larger whole already.
    fn feed<S: Sink>(&self, sink: &mut S) -> Result<(), SinkError>
        ensures { Fed S.step (bytes self.now) (S.stands sink.old) (S.stands sink.new) result };

    // Hands over all the bytes, or none where the sink has not the allowance for them.
    fn write_into<S: Sink>(&self, sink: &mut S) -> Result<(), SinkError>
        ensures { Handed S.step (bytes self.now) (S.stands sink.old) (S.stands sink.new) result }
    {
        ready(sink, self.size())?;
        self.feed(sink)
    }
}

// A piece that may be missing: no bytes then.
impl<T: FontWrite> FontWrite for Option<T> {
    ghost bytes = { elim [ None ↦ [] | Some piece ↦ T.bytes piece ] };

    fn size(&self) -> usize {
        match self {
            None => 0,
            Some(piece) => piece.size(),
        }
    }

    fn feed<S: Sink>(&self, sink: &mut S) -> Result<(), SinkError> {
        match self {
            None => Ok(()),
            Some(piece) => piece.feed(sink),
        }
    }
}
