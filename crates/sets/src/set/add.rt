// How a variation is tested, and put into the stores.
ghost use Rattle.std.specs.Prelude.{◌≡◌, ◌+◌, ◌*◌, ◌<◌, ◌≤◌, ◌||◌, map, length, OnOk, nat_lt};
ghost use Rattle.std.proofs.Math.Seq.{paste};
ghost use Rattle.std.specs.List.{AllByRecursion};
ghost use Rattle.format.specs.Account.{refusal, next, accepted, other_count, ShortDelta, ShortTent};
ghost use Rattle.variations.specs.Deltas.{delta_of};
ghost use Rattle.tents.specs.Tents.{tent_of};
ghost use Rattle.sets.specs.Given.{variation_call};
ghost use Rattle.sets.specs.OfSet.{stores, account_of, lent_of, SameWhereRefused};
ghost use Rattle.sets.specs.Refusals.{answer_of};
ghost use Rattle.sets.specs.Writing.{with_values, with_deltas, laid, last_cell, last_variations, Admitted};

use super::Set;
use crate::cells::{GlyphCell, VariationCell};
use crate::refusal::Refusal;
use tents::tent::Tent;
use tuples::choice::stored_points;
use variations::delta::GlyphDelta;

const MAX_DELTAS: usize = 32767;

const MAX_VARIATIONS: u16 = 4095;

// Puts tents into the values from a place on: their peaks, then their starts, then their ends.
fn put_tents(values: &mut [i16], at: usize, tents: &[Tent])
    requires { at + 3 * length tents.now ≤ length values.old }
    ensures is { values.new ≡ laid values.old at tents.now (length tents.now) }
    ensures short { AllByRecursion (λ t. ShortTent (tent_of t)) tents.now }
{
    let n = tents.len();
    for (i, tent) in tents.iter().enumerate() {
        let bounds = tent.extent();
        values[at + i] = tent.peak;
        values[at + n + i] = bounds.min;
        values[at + n + n + i] = bounds.max;
    }
}

// Puts deltas into the store from a place on.
fn put_deltas(store: &mut [GlyphDelta], at: usize, deltas: &[GlyphDelta])
    requires { at + length deltas.now ≤ length store.old }
    ensures is { store.new ≡ paste store.old at deltas.now (length deltas.now) }
    ensures short { AllByRecursion (λ d. ShortDelta (delta_of d)) deltas.now }
{
    for (i, delta) in deltas.iter().enumerate() {
        // read one by one: so the check knows that both coordinates are of 16 bits
        let GlyphDelta { x, y, required } = *delta;
        store[at + i] = GlyphDelta { x, y, required };
    }
}

impl<'a> Set<'a> {
    // The cell of the glyph begun last.
    fn last(&self) -> GlyphCell
        requires { 0 < self.now.begun }
        ensures is { result ≡ last_cell (stores self.now) }
        ensures few { result.variations ≤ self.now.added }
    {
        self.glyphs[self.begun - 1]
    }

    // Whether the glyph begun last has a variation, and its first has another number of deltas.
    fn unlike_first(&self, n: usize) -> bool
        requires { 0 < self.now.begun }
        ensures { result ≡ other_count (last_variations (stores self.now)) n }
    {
        let count = usize::from(self.last().variations);
        count > 0 && usize::from(self.variations[self.added - count].deltas) != n
    }

    // Whether there are too few free cells for a variation with n deltas.
    fn no_room(&self, n: usize) -> bool
        ensures { result ≡ (nat_lt (account_of self.now).free.variation 1 || nat_lt (account_of self.now).free.axis (3 * (account_of self.now).axes) || nat_lt (account_of self.now).free.delta n) }
    {
        let each = self.values_each();
        self.variations.len() == self.added
            || self.values.len() - each * self.added < each
            || self.deltas.len() - self.moved < n
    }

    // Tests a variation, in the order of the refusals' numbers.
    fn admit(&self, tents: &[Tent], deltas: &[GlyphDelta]) -> Result<(), Refusal>
        ensures room { OnOk result (Admitted (stores self.now) (length tents.now) (length deltas.now)) }
        ensures answers { answer_of result ≡ refusal (account_of self.now) (variation_call tents.now deltas.now) }
    {
        if self.begun == 0 {
            return Err(Refusal::NoGlyph);
        }
        let GlyphCell {
            number,
            variations,
            ..
        } = self.last();
        if tents.len() != usize::from(self.axes.get()) {
            return Err(Refusal::TentCount(number, variations));
        }
        if deltas.len() > MAX_DELTAS {
            return Err(Refusal::TooManyDeltas(number, variations));
        }
        if self.unlike_first(deltas.len()) {
            return Err(Refusal::DeltaCount(number, variations));
        }
        if variations >= MAX_VARIATIONS {
            return Err(Refusal::TooManyVariations(number, variations));
        }
        if self.no_room(deltas.len()) {
            return Err(Refusal::NoVariationCells(number, variations));
        }
        Ok(())
    }

    // Puts a variation that nothing speaks against into the stores.
    fn enter(&mut self, tents: &[Tent], deltas: &[GlyphDelta])
        requires { Admitted (stores self.old) (length tents.now) (length deltas.now) }
        ensures account { account_of self.new ≡ accepted (account_of self.old) (variation_call tents.now deltas.now) }
        ensures lent { lent_of self.new ≡ lent_of self.old }
    {
        let stored = stored_points(deltas);
        let at = self.axis_values().len();
        let start = self.moved;
        put_tents(self.values, at, tents);
        put_deltas(self.deltas, start, deltas);
        self.variations[self.added] = VariationCell {
            deltas: deltas.len() as u16,
            start,
            stored,
        };
        self.glyphs[self.begun - 1].variations += 1;
        self.added += 1;
        self.moved += deltas.len();
    }

    // Adds a variation to the glyph begun last. A refused call changes nothing.
    pub fn variation(&mut self, tents: &[Tent], deltas: &[GlyphDelta]) -> Result<(), Refusal>
        ensures answers { answer_of result ≡ refusal (account_of self.old) (variation_call tents.now deltas.now) }
        ensures account { account_of self.new ≡ next (account_of self.old) (variation_call tents.now deltas.now) }
        ensures refused { SameWhereRefused result self.old self.new }
        ensures lent { lent_of self.new ≡ lent_of self.old }
    {
        self.admit(tents, deltas)?;
        self.enter(tents, deltas);
        Ok(())
    }
}
