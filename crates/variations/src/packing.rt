// Runs of packed values: their size, and their bytes into a sink.
ghost use Rattle.std.specs.Prelude.{◌≡◌, ◌+◌, ◌*◌, ◌^◌, ◌<◌, ◌≤◌, [], map, length, take};
ghost use Rattle.format.specs.Bytes.{joined};
ghost use Rattle.write.specs.Sinks.{Fed};
ghost use Rattle.variations.specs.Forms.{run_bytes};
ghost use Rattle.variations.specs.Runs.{RunAt, run_of};

use crate::run_kind::RunKind;
use crate::runs::{Packed, Run, Runs};
use write::batch::Batch;
use write::sink::{Sink, SinkError};

impl<K: RunKind> Run<K> {
    // The number of its bytes: the control byte, and the values.
    fn size(self) -> usize
        requires { self.count ≤ 128 }
        ensures { result ≡ 1 + self.count * K.form.width self.kind }
    {
        1 + self.count * self.kind.width()
    }
}

// Hands over the values of a run.
fn put_values<P: Packed, S: Sink>(
    values: &P,
    run: Run<P::Kind>,
    sink: &mut S,
) -> Result<(), SinkError>
    requires { RunAt P.Kind.form P.Kind.MOST (P.values values.now) (P.places values.now) run.start run }
    ensures { Fed S.step (joined (map (P.Kind.form.value_bytes run.kind) (take run.count (P.values values.now run.start)))) (S.stands sink.old) (S.stands sink.new) result }
{
    let mut place = run.start;
    for _ in 0..run.count {
        let Some(step) = values.step(place) else {
            break;
        };
        run.kind.put(step.value, sink)?;
        place = step.after;
    }
    Ok(())
}

// Hands over a run: its control byte, and then its values.
fn put_run<P: Packed, S: Sink>(values: &P, run: Run<P::Kind>, sink: &mut S) -> Result<(), SinkError>
    requires { RunAt P.Kind.form P.Kind.MOST (P.values values.now) (P.places values.now) run.start run }
    ensures { Fed S.step (run_bytes P.Kind.form (run_of run (P.values values.now run.start))) (S.stands sink.old) (S.stands sink.new) result }
{
    sink.take(&[run.kind.flag() + (run.count - 1) as u8])?;
    if run.kind.width() == 0 {
        return Ok(());
    }
    put_values(values, run, sink)
}

impl<P: Packed> Runs<P> {
    // The number of bytes of the runs.
    pub(crate) fn size(self) -> usize
        requires within { self.place ≤ P.places self.values }
        requires room { 3 * P.places self.values < 2 ^ 64 }
        ensures size { result ≡ length (P.Kind.form.bytes (P.values self.values self.place)) }
        ensures most { result + 3 * self.place ≤ 3 * P.places self.values }
    {
        let mut size = 0;
        for run in self {
            size += run.size();
        }
        size
    }

    // Hands over the bytes of the runs, those of each together: the batch has room for a control byte and two bytes for
    // each value.
    pub(crate) fn feed<const N: usize, S: Sink>(
        self,
        mut batch: Batch<N>,
        sink: &mut S,
    ) -> Result<(), SinkError>
        requires within { self.place ≤ P.places self.values }
        requires empty { batch ≡ [] }
        requires room { 1 + 2 * P.Kind.MOST ≤ N }
        ensures { Fed S.step (P.Kind.form.bytes (P.values self.values self.place)) (S.stands sink.old) (S.stands sink.new) result }
    {
        let values = self.values;
        for run in self {
            put_run(&values, run, &mut batch)?;
            sink.take(batch.taken())?;
            batch.clear();
        }
        Ok(())
    }
}
