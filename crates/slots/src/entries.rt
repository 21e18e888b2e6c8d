// The entries of a slot, one after another.
ghost use Rattle.slots.specs.Walks.{EntryAt, EntriesPast};

use crate::bytes::{SlotBytes, upto};
use crate::entry::{Parts, entry_parts};
use crate::fault::SlotFault;
use crate::headers::{Head, is_private};

// One entry: its header, where its data end and the next data begin, and where its parts start.
#[derive(Clone, Copy)]
pub struct Step {
    pub head: Head,
    pub end: usize,
    pub next: usize,
    pub parts: Parts,
}

impl<'a> SlotBytes<'a> {
    // Entry `i`, with its header and its data at these places.
    pub fn entry_at(
        &self,
        header: usize,
        body: usize,
        i: u16,
        shared: u16,
    ) -> Result<Step, SlotFault>
        ensures { EntryAt self.now.table.now header body i self.now.axes self.now.p shared result }
    {
        let Some(head) = self.header_at(header) else {
            return Err(SlotFault::NoHeader(i, header));
        };
        let have = self.table.len().saturating_sub(body);
        let size = head.size as usize;
        if have < size {
            return Err(SlotFault::NoData(i, header));
        }
        let end = self.table.len() - (have - size);
        let parts = entry_parts(
            upto(self.table, end),
            body,
            self.p,
            shared,
            is_private(head.index),
        )
        .map_err(|f| SlotFault::InEntry(i, f))?;
        Ok(Step {
            head,
            end,
            next: body + size,
            parts,
        })
    }

    // The place past the data of `count` entries.
    pub(crate) fn past_entries(
        &self,
        header: usize,
        body: usize,
        count: u16,
        shared: u16,
    ) -> Result<usize, SlotFault>
        ensures { EntriesPast self.now.table.now header body self.now.axes self.now.p count shared result }
    {
        let mut h = header;
        let mut place = body;
        for i in 0..count {
            let s = self.entry_at(h, place, i, shared)?;
            h = s.head.past;
            place = s.next;
        }
        Ok(place)
    }
}
