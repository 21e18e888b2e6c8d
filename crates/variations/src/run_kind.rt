// How the values of a run are held.
ghost use Rattle.std.specs.Prelude.{◌≡◌, ℕ, Bool, true, false};
ghost use Rattle.write.specs.Sinks.{Fed};
ghost use Rattle.variations.specs.Forms.{Form, Lawful, Blind};

use write::sink::{Sink, SinkError};

// The kinds of runs of some values. An implementation says by `form` which values each kind holds, and as which bytes.
pub trait RunKind: Copy {
    type Value: Copy;

    ghost form: { Form Self Self.Value };

    ghost MOST: { ℕ };

    ghost LOOKS_AHEAD: { Bool };

    // A run has at most this many values: its control byte can count no more.
    const MOST: usize;

    // Does it matter for a run's end what follows the value before which it may stop?
    const LOOKS_AHEAD: bool;

    // The smallest kind that holds a value.
    fn of(value: Self::Value) -> Self
        ensures { result ≡ form.kind_of value };

    // Does a run of this kind stop before a value of kind `this`, with what follows that value?
    fn stops_before(self, this: Self, next: Option<Self>) -> bool
        ensures { result ≡ form.stops self this next };

    // The bits of the control byte that tell the kind.
    fn flag(self) -> u8
        ensures { result ≡ form.flag self };

    // The number of bytes of a value.
    fn width(self) -> usize
        ensures { result ≡ form.width self };

    // Hands over a value that this kind holds.
    fn put<S: Sink>(self, value: Self::Value, sink: &mut S) -> Result<(), SinkError>
        ensures { form.holds self value ≡ true → Fed S.step (form.value_bytes self value) (S.stands sink.old) (S.stands sink.new) result };

    ghost lawful: { Lawful form MOST };

    ghost blind: { LOOKS_AHEAD ≡ false → Blind form };
}
