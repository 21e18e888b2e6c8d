// How gaps between points are held in runs.
ghost use Rattle.std.specs.Prelude.{◌≡◌, false};
ghost use Rattle.variations.specs.GapForm.{stops, gap_form};
ghost use Rattle.variations.specs.GapLaws.{gap_lawful, gap_blind};

use crate::run_kind::RunKind;
use kinds::point::PointKind;
use write::sink::{Sink, SinkError};

impl RunKind for PointKind {
    type Value = usize;

    ghost form = { gap_form };

    ghost MOST = { 128 };

    ghost LOOKS_AHEAD = { false };

    const MOST: usize = 128;

    const LOOKS_AHEAD: bool = false;

    fn of(gap: usize) -> PointKind {
        if gap > 255 {
            PointKind::Words
        } else {
            PointKind::Bytes
        }
    }

    fn stops_before(self, this: PointKind, _next: Option<PointKind>) -> bool
        ensures { result ≡ stops self this _next }
    {
        self != this
    }

    fn flag(self) -> u8 {
        match self {
            PointKind::Bytes => 0,
            PointKind::Words => 0x80,
        }
    }

    fn width(self) -> usize {
        match self {
            PointKind::Bytes => 1,
            PointKind::Words => 2,
        }
    }

    fn put<S: Sink>(self, gap: usize, sink: &mut S) -> Result<(), SinkError> {
        let bytes = ((gap % 0x10000) as u16).to_be_bytes();
        match self {
            PointKind::Bytes => sink.take(&bytes[1..]),
            PointKind::Words => sink.take(&bytes),
        }
    }

    ghost lawful = { gap_lawful };

    ghost blind = { λ _. gap_blind };
}
