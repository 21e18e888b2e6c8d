// The headers of a slot.
ghost use Rattle.std.specs.Prelude.{◌≡◌};
ghost use Rattle.format.specs.Reader.{is_embedded, is_regional, is_private, peak_index};
ghost use Rattle.slots.specs.Heads.{tuple_words, no_peak, HeadFound, HeadsPast, PeaksChecked};

use crate::bytes::SlotBytes;
use crate::fault::SlotFault;
use streams::words::word_at;

const EMBEDDED_PEAK: u16 = 0x8000;

const INTERMEDIATE_REGION: u16 = 0x4000;

const PRIVATE_POINTS: u16 = 0x2000;

const INDEX_COUNT: u16 = 0x1000;

// The size of an entry's data, its index word, and the place past its header.
#[derive(Clone, Copy)]
pub struct Head {
    pub size: u16,
    pub index: u16,
    pub past: usize,
}

// Is the peak in the header?
pub fn is_embedded(index: u16) -> bool
    ensures { result ≡ is_embedded index }
{
    index >= EMBEDDED_PEAK
}

// Is a region stored?
pub fn is_regional(index: u16) -> bool
    ensures { result ≡ is_regional index }
{
    index % EMBEDDED_PEAK >= INTERMEDIATE_REGION
}

// Has the entry points of its own?
pub fn is_private(index: u16) -> bool
    ensures { result ≡ is_private index }
{
    index % INTERMEDIATE_REGION >= PRIVATE_POINTS
}

// The index of a shared peak.
pub fn peak_index(index: u16) -> u16
    ensures { result ≡ peak_index index }
{
    index % INDEX_COUNT
}

// How many words the tuples of a header take.
pub fn tuple_words(axes: u16, index: u16) -> u32
    ensures { result ≡ tuple_words axes index }
{
    let peak = if is_embedded(index) { axes as u32 } else { 0 };
    let region = if is_regional(index) {
        2 * axes as u32
    } else {
        0
    };
    peak + region
}

// Does a header with this index word ask for a shared peak that is not there?
fn lacks_peak(index: u16, peaks: u16) -> bool
    ensures { result ≡ no_peak index peaks }
{
    !is_embedded(index) && peak_index(index) >= peaks
}

impl<'a> SlotBytes<'a> {
    // The header at the place `at`, unless it goes past the end.
    pub(crate) fn header_at(&self, at: usize) -> Option<Head>
        ensures { HeadFound self.now.table.now at self.now.axes result }
    {
        let size = word_at(self.table, at)?;
        let index = word_at(self.table, at + 2)?;
        let tuples = 2 * tuple_words(self.axes, index) as usize;
        if self.table.len() - (at + 4) < tuples {
            return None;
        }
        Some(Head {
            size,
            index,
            past: at + 4 + tuples,
        })
    }

    // The place past `count` headers.
    pub(crate) fn past_headers(&self, at: usize, count: u16) -> Result<usize, SlotFault>
        ensures { HeadsPast self.now.table.now at self.now.axes count result }
    {
        let mut place = at;
        for i in 0..count {
            let Some(h) = self.header_at(place) else {
                return Err(SlotFault::NoHeader(i, place));
            };
            place = h.past;
        }
        Ok(place)
    }

    // Is there a shared peak for each header that asks for one?
    pub(crate) fn check_peaks(&self, at: usize, count: u16) -> Result<(), SlotFault>
        ensures { PeaksChecked self.now.table.now at self.now.axes count self.now.peaks result }
    {
        let mut place = at;
        for i in 0..count {
            let Some(h) = self.header_at(place) else {
                return Ok(());
            };
            if lacks_peak(h.index, self.peaks) {
                return Err(SlotFault::NoPeak(i, place));
            }
            place = h.past;
        }
        Ok(())
    }
}
