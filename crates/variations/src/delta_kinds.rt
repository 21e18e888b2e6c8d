// How deltas are held in runs.
ghost use Rattle.std.specs.Prelude.{◌≡◌, true};
ghost use Rattle.variations.specs.DeltaForm.{stops, delta_form};
ghost use Rattle.variations.specs.DeltaLaws.{delta_lawful, delta_blind};

use crate::run_kind::RunKind;
use kinds::delta::DeltaKind;
use write::sink::{Sink, SinkError};

impl RunKind for DeltaKind {
    type Value = i16;

    ghost form = { delta_form };

    ghost MOST = { 64 };

    ghost LOOKS_AHEAD = { true };

    const MOST: usize = 64;

    const LOOKS_AHEAD: bool = true;

    fn of(value: i16) -> DeltaKind {
        if value == 0 {
            DeltaKind::Zeros
        } else if value >= -128 && value <= 127 {
            DeltaKind::Bytes
        } else {
            DeltaKind::Words
        }
    }

    // One zero is best stored among bytes, but two begin a run; among words each zero does, and so do two values that
    // bytes would hold.
    fn stops_before(self, this: DeltaKind, next: Option<DeltaKind>) -> bool
        ensures { result ≡ stops self this next }
    {
        match (self, this) {
            (DeltaKind::Zeros, DeltaKind::Zeros) => false,
            (DeltaKind::Zeros, _) => true,
            (DeltaKind::Bytes, DeltaKind::Zeros) => matches!(next, Some(DeltaKind::Zeros)),
            (DeltaKind::Bytes, DeltaKind::Bytes) => false,
            (DeltaKind::Bytes, DeltaKind::Words) => true,
            (DeltaKind::Words, DeltaKind::Zeros) => true,
            (DeltaKind::Words, DeltaKind::Bytes) => matches!(
                next,
                Some(DeltaKind::Zeros | DeltaKind::Bytes)
            ),
            (DeltaKind::Words, DeltaKind::Words) => false,
        }
    }

    fn flag(self) -> u8 {
        match self {
            DeltaKind::Zeros => 0x80,
            DeltaKind::Bytes => 0,
            DeltaKind::Words => 0x40,
        }
    }

    fn width(self) -> usize {
        match self {
            DeltaKind::Zeros => 0,
            DeltaKind::Bytes => 1,
            DeltaKind::Words => 2,
        }
    }

    fn put<S: Sink>(self, value: i16, sink: &mut S) -> Result<(), SinkError> {
        let bytes = value.to_be_bytes();
        match self {
            DeltaKind::Zeros => Ok(()),
            DeltaKind::Bytes => sink.take(&bytes[1..]),
            DeltaKind::Words => sink.take(&bytes),
        }
    }

    ghost lawful = { delta_lawful };

    ghost blind = { delta_blind };
}
