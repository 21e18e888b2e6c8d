// Runs of packed values, one at a time.
ghost use Rattle.std.specs.Prelude.{◌≡◌, ℕ, ◌+◌, ◌-◌, ◌≤◌, true, List, length, drop};
ghost use Rattle.std.specs.Iterator.{at_most};
ghost use Rattle.variations.specs.Forms.{kind_ahead, reach};
ghost use Rattle.variations.specs.Runs.{Stepped, NextRun, place_after};

use crate::run_kind::RunKind;

// A value, and the place after it.
#[derive(Clone, Copy)]
pub struct Step<V> {
    pub value: V,
    pub after: usize,
}

// Values that are packed in runs, read in place. An implementation says by `values` which there are from a place on.
pub trait Packed: Copy {
    type Kind: RunKind;

    ghost values: { Self → ℕ → List Self.Kind.Value };

    ghost places: { Self → ℕ };

    // The first value from a place on, and the place after it.
    fn step(&self, place: usize) -> Option<Step<<Self::Kind as RunKind>::Value>>
        ensures { Stepped (values self.now) (places self.now) place result };
}

// A run: its kind, how many values it has, the place from which they are looked for, and the place after the last of them.
#[derive(Clone, Copy)]
pub struct Run<K> {
    pub kind: K,
    pub count: usize,
    pub start: usize,
    pub after: usize,
}

// The runs of packed values, in order, from a place on.
#[derive(Clone, Copy)]
pub struct Runs<P> {
    pub(crate) values: P,
    pub(crate) place: usize,
}

fn kind_ahead<K: RunKind>(step: Option<Step<K::Value>>) -> Option<K>
    ensures { result ≡ kind_ahead K.form step }
{
    step.map(|s| K::of(s.value))
}

impl<P: Packed> Runs<P> {
    // The first value from a place on, where it matters for the end of a run.
    fn look_ahead(&self, place: usize) -> Option<Step<<P::Kind as RunKind>::Value>>
        ensures { P.Kind.LOOKS_AHEAD ≡ true → Stepped (P.values self.now.values) (P.places self.now.values) place result }
    {
        if P::Kind::LOOKS_AHEAD {
            self.values.step(place)
        } else {
            None
        }
    }

    // The same, whether it matters or not: what was seen of it ahead, or a look now.
    fn step_at(
        &self,
        ahead: Option<Step<<P::Kind as RunKind>::Value>>,
        place: usize,
    ) -> Option<Step<<P::Kind as RunKind>::Value>>
        requires { P.Kind.LOOKS_AHEAD ≡ true → Stepped (P.values self.now.values) (P.places self.now.values) place ahead }
        ensures { Stepped (P.values self.now.values) (P.places self.now.values) place result }
    {
        if P::Kind::LOOKS_AHEAD {
            ahead
        } else {
            self.values.step(place)
        }
    }

    // How many values the run has whose first value lies before `place`, and the place after them.
    fn run_end(&self, kind: P::Kind, place: usize) -> (usize, usize)
        requires { place ≤ P.places self.now.values }
        ensures count { result.0 ≡ 1 + reach P.Kind.form kind (P.Kind.MOST - 1) (P.values self.now.values place) }
        ensures end { P.values self.now.values result.1 ≡ drop (reach P.Kind.form kind (P.Kind.MOST - 1) (P.values self.now.values place)) (P.values self.now.values place) }
        ensures paced { place + result.0 ≤ result.1 + 1 }
        ensures within { result.1 ≤ P.places self.now.values }
    {
        let mut end = place;
        let mut ahead = self.look_ahead(place);
        for n in 1..P::Kind::MOST {
            let Some(step) = self.step_at(ahead, end) else {
                return (n, end);
            };
            ahead = self.look_ahead(step.after);
            if kind.stops_before(P::Kind::of(step.value), kind_ahead(ahead)) {
                return (n, end);
            }
            end = step.after;
        }
        (P::Kind::MOST, end)
    }
}

impl<P: Packed> Iterator for Runs<P> {
    type Item = Run<P::Kind>;

    ghost next_gives = { λ s r t.
        NextRun P.Kind.form P.Kind.MOST (P.values s.values) (P.places s.values) s.place r
        × (t.place ≡ place_after s.place r)
        × (t.values ≡ s.values) };

    ghost remaining = { λ s. at_most (P.places s.values - s.place) };

    // The next run, or nothing after the last.
    fn next(&mut self) -> Option<Run<P::Kind>> {
        let first = self.values.step(self.place)?;
        let kind = P::Kind::of(first.value);
        let (count, after) = self.run_end(kind, first.after);
        let run = Run {
            kind,
            count,
            start: self.place,
            after,
        };
        self.place = after;
        Some(run)
    }
}
