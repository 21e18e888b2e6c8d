// A stream of packed deltas.
ghost use Rattle.std.specs.Prelude.{◌≡◌, ℕ, drop};
ghost use Rattle.format.specs.Account.{Declined};
ghost use Rattle.format.specs.Streams.{read_deltas};
ghost use Rattle.streams.specs.Ahead.{read_ahead};
ghost use Rattle.streams.specs.Deltas.{delta_form, deltas_from, deltas_ahead, PastDeltas};

use crate::fault::StreamFault;
use crate::runs::{Packing, RunCursor, Unpacked};
use crate::words::word_at;
use kinds::delta::DeltaKind;

// Each delta stands for itself.
#[derive(Clone, Copy)]
pub struct DeltaPacking;

pub type DeltaCursor<'a> = RunCursor<'a, DeltaPacking, DeltaKind>;

impl Packing for DeltaPacking {
    type Kind = DeltaKind;

    type Value = i16;

    ghost form = { delta_form };

    fn begin(control: u8) -> Option<(DeltaKind, u8)> {
        let kind = match control {
            0..=63 => DeltaKind::Bytes,
            64..=127 => DeltaKind::Words,
            128..=191 => DeltaKind::Zeros,
            _ => return None,
        };
        Some((kind, control % 64))
    }

    fn blame(at: usize) -> StreamFault {
        StreamFault::Deltas(at)
    }

    fn unpack(
        self,
        kind: DeltaKind,
        table: &[u8],
        at: usize,
    ) -> Option<Unpacked<i16, DeltaPacking>> {
        let (value, past) = match kind {
            DeltaKind::Zeros => (0, at),
            DeltaKind::Bytes => (table.get(at)?.cast_signed() as i16, at + 1),
            DeltaKind::Words => (word_at(table, at)?.cast_signed(), at + 2),
        };
        Some(Unpacked {
            value,
            past,
            packing: self,
        })
    }
}

impl<'a> RunCursor<'a, DeltaPacking, DeltaKind> {
    // Over `count` deltas from the place `at` of the table on.
    pub fn new(table: &'a [u8], at: usize, count: u16) -> DeltaCursor<'a>
        ensures table { result.table.now ≡ table.now }
        ensures ahead { deltas_ahead result ≡ deltas_from table.now count at }
        ensures read { (d : ℕ → ℕ → Declined) → read_ahead d table.now (deltas_ahead result) ≡ read_deltas d count (drop at table.now) at }
    {
        RunCursor::over(table, at, count, DeltaPacking)
    }
}

// The place past `count` deltas from the place `at` of the table on.
pub fn past_deltas(table: &[u8], at: usize, count: u16) -> Result<usize, StreamFault>
    ensures { PastDeltas table.now at count result }
{
    DeltaCursor::new(table, at, count).past()
}
