// The slot of a glyph, and the walk over its entries.
ghost use Rattle.std.specs.Prelude.{◌≡◌, ◌+◌, ◌*◌, ◌≤◌, ◌||◌, List, length, if◌then◌else◌, Ok, Err, nat_le, nat_lt};
ghost use Rattle.std.specs.Iterator.{at_most};
ghost use Rattle.format.specs.Account.{Declined};
ghost use Rattle.format.specs.Reader.{Entry as ReadEntry, read_glyph};
ghost use Rattle.format.specs.Streams.{found, fault};
ghost use Rattle.reader.specs.Faults.{fault_declined};
ghost use Rattle.reader.specs.Tables.{Sound, offset_in};
ghost use Rattle.reader.specs.SlotWalks.{SlotAnswer, ListOf, Walk, shared_list, entries_bound, EntryStep};

use crate::entry::Entry;
use crate::fault::Fault;
use crate::points::PointList;
use crate::table::{Table, offset_at, offset_size};
use slots::bytes::{SlotBytes, upto};
use slots::headers::is_private;
use slots::slot::SlotStart;

// The entries of a slot that are still to come: from entry i on, with the next header and the next data.
#[derive(Clone, Copy)]
pub struct Slot<'a> {
    pub(crate) table: Table<'a>,
    pub(crate) bytes: &'a [u8],
    pub(crate) p: u16,
    pub(crate) i: u16,
    pub(crate) rest: SlotStart,
}

// Is there no such glyph, or are there too many points?
fn is_no_glyph(glyphs: u16, glyph: u16, p: u16) -> bool
    ensures { result ≡ (nat_le glyphs glyph || nat_lt 32767 p) }
{
    glyph >= glyphs || p > 32767
}

// An entry's own list of points, or the shared one.
fn list_of<'a>(
    own: bool,
    bytes: &'a [u8],
    at: usize,
    shared: Option<PointList<'a>>,
) -> Option<PointList<'a>>
    ensures { ListOf own bytes.now at shared.entry result }
{
    if own {
        Some(PointList { bytes, at })
    } else {
        shared
    }
}

impl<'a> Table<'a> {
    // The offset with the number i, in bytes; 0 where it goes past the end.
    fn offset(&self, i: u32) -> u32
        ensures { 20 + (if self.now.head.long then 4 else 2) * (i + 1) ≤ length self.now.bytes.now → result ≡ offset_in self.now.bytes.now self.now.head.long i }
    {
        if self.bytes.len() < 20 + offset_size(self.head.long) * (i as usize + 1) {
            return 0;
        }
        offset_at(self.bytes, self.head.long, i as usize)
    }

    // The slot of a glyph that has p points, or the first fault in the request or in the slot.
    pub fn slot(&self, glyph: u16, p: u16) -> Result<Slot<'a>, Fault>
        ensures { Sound self.now → SlotAnswer self.now glyph p result }
    {
        if is_no_glyph(self.head.glyphs, glyph, p) {
            return Err(Fault::NoGlyph(glyph));
        }
        let data = self.head.data_at as usize;
        let start = data + self.offset(glyph as u32) as usize;
        let end = data + self.offset(glyph as u32 + 1) as usize;
        let bytes = upto(self.bytes, end);
        let within = SlotBytes {
            table: bytes,
            axes: self.head.axes,
            peaks: self.head.peaks,
            p,
        };
        let rest = within
            .check_slot(start)
            .map_err(|f| Fault::InSlot(glyph, f))?;
        Ok(Slot {
            table: *self,
            bytes,
            p,
            i: 0,
            rest,
        })
    }
}

impl<'a> Slot<'a> {
    // How many entries are still to come.
    pub fn len(&self) -> u16
        ensures bound { result ≡ entries_bound self.now }
        ensures entries { (es : List ReadEntry) → Walk self.now es → result ≡ length es }
    {
        self.rest.count.saturating_sub(self.i)
    }

    // Where the shared points are listed, if they are.
    fn shared_list(&self) -> Option<PointList<'a>>
        ensures { result ≡ shared_list self.now }
    {
        let at = self.rest.points?;
        Some(PointList {
            bytes: self.bytes,
            at,
        })
    }
}

impl<'a> Iterator for Slot<'a> {
    type Item = Entry<'a>;

    ghost next_gives = { EntryStep };

    ghost remaining = { λ s. at_most (entries_bound s) };

    // The next entry, if one is left.
    fn next(&mut self) -> Option<Entry<'a>> {
        if self.i >= self.rest.count {
            return None;
        }
        let SlotStart {
            header,
            body,
            shared,
            ..
        } = self.rest;
        let within = SlotBytes {
            table: self.bytes,
            axes: self.table.head.axes,
            peaks: self.table.head.peaks,
            p: self.p,
        };
        let step = within.entry_at(header, body, self.i, shared).ok()?;
        let bytes = upto(self.bytes, step.end);
        let list = list_of(is_private(step.head.index), bytes, body, self.shared_list());
        self.i += 1;
        self.rest.header = step.head.past;
        self.rest.body = step.next;
        Some(Entry {
            table: self.table,
            slot: self.bytes,
            head: step.head,
            bytes,
            parts: step.parts,
            list,
            p: self.p,
        })
    }
}

// The slot of a glyph that has p points, in a table that was not checked yet.
pub fn open_glyph<'a>(bytes: &'a [u8], glyph: u16, p: u16) -> Result<Slot<'a>, Fault>
    ensures found { (es : List ReadEntry) → read_glyph bytes.now glyph p ≡ found es → (s : Slot) × (result ≡ Ok s) × Walk s es }
    ensures refused { (d : Declined) → read_glyph bytes.now glyph p ≡ fault d → (f : Fault) × (result ≡ Err f) × (fault_declined f ≡ d) }
{
    let table = Table::check(bytes)?;
    table.slot(glyph, p)
}
