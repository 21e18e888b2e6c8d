// A cursor over a stream of runs, whatever their values are.
ghost use Rattle.std.specs.Prelude.{◌≡◌, ℕ};
ghost use Rattle.streams.specs.Ahead.{ends};
ghost use Rattle.streams.specs.Runs.{Form, run_state, stream_ahead, ahead, RunStep, PastRuns};
ghost use Rattle.streams.specs.declared.runs.RunState.TheVariants.{Between, Inside};

use crate::fault::StreamFault;

// Between two runs, inside one of a kind with so many values after the next, or past the last.
#[derive(Clone, Copy)]
pub enum RunState<K> {
    Between,
    Inside(K, u8),
    Done,
}

// A value, the place past its bytes, and the packing of the values after it.
#[derive(Clone, Copy)]
pub struct Unpacked<V, P> {
    pub value: V,
    pub past: usize,
    pub packing: P,
}

// How the values of a stream are packed into runs.
pub trait Packing: Copy {
    type Kind: Copy;

    type Value: Copy;

    ghost form: { Form Self Self.Kind Self.Value };

    // The kind of the run that a control byte begins, and how many values it has after its first.
    fn begin(control: u8) -> Option<(Self::Kind, u8)>
        ensures { result ≡ form.begins control };

    // The fault of the control at the place `at`.
    fn blame(at: usize) -> StreamFault
        ensures { result ≡ form.blames at };

    // A value of a run at the place `at`, if its bytes are there and it may follow.
    fn unpack(
        self,
        kind: Self::Kind,
        table: &[u8],
        at: usize,
    ) -> Option<Unpacked<Self::Value, Self>>
        ensures { result ≡ form.unpacks self kind table.now at };
}

// The place of the next byte, that of the control of the run it belongs to, the values after that run, and their packing.
#[derive(Clone, Copy)]
pub struct RunCursor<'a, P, K> {
    pub(crate) table: &'a [u8],
    pub(crate) control: usize,
    pub(crate) at: usize,
    pub(crate) left: u16,
    pub(crate) state: RunState<K>,
    pub(crate) packing: P,
}

// Inside a run with `n` values to come, or between runs where none is.
fn run_state<K: Copy>(kind: K, n: u8) -> RunState<K>
    ensures { result ≡ run_state kind n }
{
    if n == 0 {
        RunState::Between
    } else {
        RunState::Inside(kind, n - 1)
    }
}

impl<'a, P: Packing<Kind = K>, K: Copy> RunCursor<'a, P, K> {
    // Over `count` values from the place `at` of the table on.
    pub(crate) fn over(table: &'a [u8], at: usize, count: u16, packing: P) -> RunCursor<'a, P, K>
        ensures table { result.table.now ≡ table.now }
        ensures ahead { ahead P.form result ≡ stream_ahead P.form table.now count packing at }
    {
        RunCursor {
            table,
            control: at,
            at,
            left: count,
            state: RunState::Between,
            packing,
        }
    }

    // The place that the cursor has come to: at the end, the place past the stream.
    pub fn place(&self) -> usize
        ensures at { result ≡ self.now.at }
        ensures past { (past : ℕ) → ahead P.form self.now ≡ ends past → result ≡ past }
    {
        let RunCursor { at, .. } = self;
        *at
    }

    // The next value, nothing at the end of the stream, or the stream's fault, again at each call.
    #[inline(always)]
    pub fn next(&mut self) -> Result<Option<P::Value>, StreamFault>
        ensures { RunStep P.form self.old result self.new }
    {
        match self.state {
            RunState::Between => self.enter(),
            RunState::Inside(kind, n) => self.give(kind, n),
            RunState::Done => Ok(None),
        }
    }

    // From between two runs into the next, for its first value, or to the end.
    fn enter(&mut self) -> Result<Option<P::Value>, StreamFault>
        requires { self.old.state ≡ Between }
        ensures { RunStep P.form self.old result self.new }
    {
        if self.left == 0 {
            self.state = RunState::Done;
            return Ok(None);
        }
        let Some(&control) = self.table.get(self.at) else {
            return Err(P::blame(self.at));
        };
        let Some((kind, n)) = P::begin(control) else {
            return Err(P::blame(self.at));
        };
        if self.left <= n as u16 {
            return Err(P::blame(self.at));
        }
        self.control = self.at;
        self.at += 1;
        self.left -= n as u16 + 1;
        self.state = RunState::Inside(kind, n);
        self.give(kind, n)
    }

    // A value of a run, with `n` more after it.
    fn give(&mut self, kind: K, n: u8) -> Result<Option<P::Value>, StreamFault>
        requires { self.old.state ≡ Inside kind n }
        ensures { RunStep P.form self.old result self.new }
    {
        let Some(u) = self.packing.unpack(kind, self.table, self.at) else {
            return Err(P::blame(self.control));
        };
        self.at = u.past;
        self.packing = u.packing;
        self.state = run_state(kind, n);
        Ok(Some(u.value))
    }

    // The place past the stream.
    pub(crate) fn past(&mut self) -> Result<usize, StreamFault>
        ensures { PastRuns P.form self.old result }
    {
        while self.next()?.is_some() {}
        Ok(self.place())
    }
}
