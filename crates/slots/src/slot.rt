// One slot: its first words, headers, shared points, entries and end.
ghost use Rattle.std.specs.Prelude.{◌≡◌, ◌+◌, ◌≤◌, ◌||◌, length, drop, nat_lt};
ghost use Rattle.slots.specs.Slots.{SlotChecked, StoreChecked, bad_end};

use crate::bytes::SlotBytes;
use crate::entry::entry_points;
use crate::fault::SlotFault;
use streams::words::word_at;

const SHARED_POINTS: u16 = 0x8000;

const ENTRY_COUNT: u16 = 0x1000;

// A checked slot: how many entries it has, where the first header and the first data are, how many points
// are shared, and where they are listed, if not every point is.
#[derive(Clone, Copy)]
pub struct SlotStart {
    pub count: u16,
    pub header: usize,
    pub body: usize,
    pub shared: u16,
    pub points: Option<usize>,
}

// Is there more than one byte after the last entry, or one that is not 0?
fn is_bad_end(table: &[u8], at: usize) -> bool
    ensures { result ≡ bad_end (drop at table.now) }
{
    let have = table.len().saturating_sub(at);
    if have == 0 {
        return false;
    }
    if have > 1 {
        return true;
    }
    table[at] != 0
}

// Do the data start before the end of the headers, or past the end of the slot?
fn is_bad_offset(body: usize, past: usize, have: usize, offset: usize) -> bool
    ensures { result ≡ (nat_lt body past || nat_lt have offset) }
{
    body < past || have < offset
}

impl<'a> SlotBytes<'a> {
    // The slot from the place `at` to the end of the table.
    pub fn check_slot(&self, at: usize) -> Result<SlotStart, SlotFault>
        ensures { SlotChecked self.now.table.now at self.now.axes self.now.peaks self.now.p result }
    {
        if at >= self.table.len() {
            return Ok(SlotStart {
                count: 0,
                header: at,
                body: at,
                shared: self.p,
                points: None,
            });
        }
        let Some(count) = word_at(self.table, at) else {
            return Err(SlotFault::Short(at));
        };
        let Some(offset) = word_at(self.table, at + 2) else {
            return Err(SlotFault::Short(at + 2));
        };
        self.check_store(at, count, offset)
    }

    // A slot of four bytes or more: the count word and the data offset.
    fn check_store(&self, at: usize, count: u16, offset: u16) -> Result<SlotStart, SlotFault>
        requires { at + 4 ≤ length self.now.table.now }
        ensures { StoreChecked self.now.table.now at self.now.axes self.now.peaks self.now.p count offset result }
    {
        let n = count % ENTRY_COUNT;
        let past = self.past_headers(at + 4, n)?;
        self.check_peaks(at + 4, n)?;
        let body = at + offset as usize;
        if is_bad_offset(body, past, self.table.len() - at, offset as usize) {
            return Err(SlotFault::Offset(at + 2));
        }
        let listed = count >= SHARED_POINTS;
        let set = entry_points(self.table, body, self.p, self.p, listed)?;
        let end = self.past_entries(at + 4, set.past, n, set.size)?;
        if is_bad_end(self.table, end) {
            return Err(SlotFault::Tail(end));
        }
        Ok(SlotStart {
            count: n,
            header: at + 4,
            body: set.past,
            shared: set.size,
            points: listed.then_some(body),
        })
    }
}
