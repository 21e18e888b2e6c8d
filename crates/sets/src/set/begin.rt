// How a set is opened, and a glyph begun.
ghost use Rattle.std.specs.Prelude.{◌≡◌, ◌<◌, ◌≤◌, false, [], ◌∷◌, length};
ghost use Rattle.format.specs.Account.{opened, begun, refusal, next, accepted, glyph};
ghost use Rattle.sets.specs.OfSet.{stores, account_of, glyphs_of, lent_of, SameWhereRefused};
ghost use Rattle.sets.specs.Refusals.{answer_of};

use super::Set;
use crate::axis::AxisCount;
use crate::cells::GlyphCell;
use crate::refusal::Refusal;
use crate::stores::Stores;
use links::link::Link;

// The largest number of a glyph.
const LAST_NUMBER: u16 = 65534;

impl<'a> Set<'a> {
    // A set without glyphs. The cells may hold anything: nothing is read of them, and nothing is reset.
    pub fn open(axes: AxisCount, lent: Stores<'a>) -> Set<'a>
        ensures account { account_of result ≡ opened axes.count (record { glyph = length lent.entry.glyphs.now; variation = length lent.entry.variations.now; axis = length lent.entry.values.now; delta = length lent.entry.deltas.now }) }
        ensures stores { stores result ≡ record { axes = axes.count; names = lent.entry.glyphs.ghost_name ∷ lent.entry.variations.ghost_name ∷ lent.entry.values.ghost_name ∷ lent.entry.deltas.ghost_name ∷ []; glyphs = lent.entry.glyphs.now; variations = lent.entry.variations.now; values = lent.entry.values.now; deltas = lent.entry.deltas.now; begun = 0; added = 0; moved = 0 } }
    {
        let Stores {
            glyphs,
            variations,
            values,
            deltas,
        } = lent;
        Set {
            axes,
            glyphs,
            variations,
            values,
            deltas,
            begun: 0,
            added: 0,
            moved: 0,
        }
    }

    // Begins a glyph that nothing speaks against: it becomes the first link of its bucket's chain.
    fn begin(&mut self, number: u16)
        requires room { self.old.begun < length self.old.glyphs.now }
        requires small { number ≤ 65534 }
        requires new { false ≡ begun number (glyphs_of self.old) }
        ensures account { account_of self.new ≡ accepted (account_of self.old) (glyph number) }
        ensures lent { lent_of self.new ≡ lent_of self.old }
    {
        let at = self.begun;
        let bucket = usize::from(number) % self.glyphs.len();
        let next = Link::of(self.chain(bucket));
        self.glyphs[at] = GlyphCell {
            number,
            variations: 0,
            first: self.added,
            next,
            ..self.glyphs[at]
        };
        let head = Link::of(Some(at));
        self.glyphs[bucket].head = head;
        self.begun = at + 1;
    }

    // Begins a glyph. A refused call changes nothing.
    pub fn glyph(&mut self, number: u16) -> Result<(), Refusal>
        ensures answers { answer_of result ≡ refusal (account_of self.old) (glyph number) }
        ensures account { account_of self.new ≡ next (account_of self.old) (glyph number) }
        ensures refused { SameWhereRefused result self.old self.new }
        ensures lent { lent_of self.new ≡ lent_of self.old }
    {
        if number > LAST_NUMBER {
            return Err(Refusal::NumberTooLarge(number));
        }
        if self.has(usize::from(number)) {
            return Err(Refusal::AlreadyBegun(number));
        }
        if self.begun == self.glyphs.len() {
            return Err(Refusal::NoGlyphCell(number));
        }
        self.begin(number);
        Ok(())
    }
}
