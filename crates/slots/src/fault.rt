// What is wrong with a slot or with one of its entries, and where.
ghost use Rattle.std.specs.Prelude.{◌≡◌, ℕ};
ghost use Rattle.std.proofs.Math.Option.{some};
ghost use Rattle.format.specs.Reader.{at_entry};
ghost use Rattle.slots.specs.Faults.{said, entry_declined, slot_declined};
ghost use Rattle.slots.specs.declared.fault.EntryFault.TheVariants.{Stream};
ghost use Rattle.slots.specs.declared.fault.SlotFault.TheVariants.{Shared};

use std::error::Error;
use std::fmt;
use streams::fault::StreamFault;

// A fault in the data of an entry: of one of its streams, or bytes that are left over.
#[derive(Clone, Copy, PartialEq, Eq, Debug)]
pub enum EntryFault {
    Stream(StreamFault),
    LeftOver(usize),
}

// A fault of a slot, with the number of the entry concerned and the place of the field at fault.
#[derive(Clone, Copy, PartialEq, Eq, Debug)]
pub enum SlotFault {
    Short(usize),
    NoHeader(u16, usize),
    NoPeak(u16, usize),
    Offset(usize),
    NoData(u16, usize),
    Shared(StreamFault),
    InEntry(u16, EntryFault),
    Tail(usize),
}

impl From<StreamFault> for EntryFault {
    ghost from_gives = { λ f r. r ≡ Stream f };

    fn from(f: StreamFault) -> EntryFault {
        EntryFault::Stream(f)
    }
}

impl From<StreamFault> for SlotFault {
    ghost from_gives = { λ f r. r ≡ Shared f };

    fn from(f: StreamFault) -> SlotFault {
        SlotFault::Shared(f)
    }
}

impl EntryFault {
    pub fn number(self) -> u8
        ensures { (g i : ℕ) → result ≡ (entry_declined (at_entry g i) self).number }
    {
        match self {
            EntryFault::Stream(f) => f.number(),
            EntryFault::LeftOver(_) => 24,
        }
    }

    pub fn place(self) -> usize
        ensures { (g i : ℕ) → some result ≡ (entry_declined (at_entry g i) self).place }
    {
        match self {
            EntryFault::Stream(f) => f.place(),
            EntryFault::LeftOver(at) => at,
        }
    }
}

impl SlotFault {
    pub fn number(self) -> u8
        ensures { (g : ℕ) → result ≡ (slot_declined g self).number }
    {
        match self {
            SlotFault::Shared(f) => f.number(),
            SlotFault::InEntry(_, f) => f.number(),
            SlotFault::Tail(_) => 25,
            SlotFault::Short(_)
            | SlotFault::NoHeader(_, _)
            | SlotFault::NoPeak(_, _)
            | SlotFault::Offset(_)
            | SlotFault::NoData(_, _) => 21,
        }
    }

    // The number of the entry concerned.
    pub fn variation(self) -> Option<u16>
        ensures { (g : ℕ) → said result ≡ (slot_declined g self).variation }
    {
        match self {
            SlotFault::Short(_)
            | SlotFault::Offset(_)
            | SlotFault::Shared(_)
            | SlotFault::Tail(_) => None,
            SlotFault::NoHeader(i, _)
            | SlotFault::NoPeak(i, _)
            | SlotFault::NoData(i, _)
            | SlotFault::InEntry(i, _) => Some(i),
        }
    }

    pub fn place(self) -> usize
        ensures { (g : ℕ) → some result ≡ (slot_declined g self).place }
    {
        match self {
            SlotFault::Shared(f) => f.place(),
            SlotFault::InEntry(_, f) => f.place(),
            SlotFault::Short(at)
            | SlotFault::NoHeader(_, at)
            | SlotFault::NoPeak(_, at)
            | SlotFault::Offset(at)
            | SlotFault::NoData(_, at)
            | SlotFault::Tail(at) => at,
        }
    }
}

// Number and place.
impl fmt::Display for EntryFault {
    fn fmt<W: fmt::Write>(&self, f: &mut fmt::Formatter<W>) -> fmt::Result {
        match self {
            EntryFault::Stream(fault) => write!(f, "{fault}"),
            EntryFault::LeftOver(place) => write!(f, "refused 24 entry place {place}"),
        }
    }
}

impl Error for EntryFault {}

// What is at fault, with the entry concerned, or the number, the entry as far as one is concerned, and the place.
impl fmt::Display for SlotFault {
    fn fmt<W: fmt::Write>(&self, f: &mut fmt::Formatter<W>) -> fmt::Result {
        match self {
            SlotFault::Shared(fault) => write!(f, "{fault}"),
            SlotFault::InEntry(variation, fault) => write!(f, "variation {variation}: {fault}"),
            _ => {
                write!(f, "refused {} slot", self.number())?;
                if let Some(variation) = self.variation() {
                    write!(f, " variation {variation}")?;
                }
                write!(f, " place {}", self.place())
            }
        }
    }
}

impl Error for SlotFault {}
