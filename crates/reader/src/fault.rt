// What is wrong with a table or with the slot of one of its glyphs: number, layer, glyph, variation and place.
ghost use Rattle.std.specs.Prelude.{◌≡◌};
ghost use Rattle.slots.specs.Faults.{said};
ghost use Rattle.reader.specs.Faults.{table_declined, fault_declined, layer_said};
ghost use Rattle.reader.specs.declared.fault.Fault.TheVariants.{InTable};

use slots::fault::{EntryFault, SlotFault};
use std::error::Error;
use std::fmt;

// A fault of a table's head, or of the offset at a place.
#[derive(Clone, Copy, PartialEq, Eq, Debug)]
pub enum TableFault {
    Short,
    Version,
    NoOffsets,
    NoPeaks,
    NoData,
    Offset(usize),
}

// A fault of the table, a request that it cannot meet, or a fault of the slot of a glyph.
#[derive(Clone, Copy, PartialEq, Eq, Debug)]
pub enum Fault {
    InTable(TableFault),
    NoGlyph(u16),
    InSlot(u16, SlotFault),
}

// The layer of the table that a fault is in.
#[derive(Clone, Copy, PartialEq, Eq, Debug)]
pub enum Layer {
    Table,
    Slot,
    Entry,
    Stream,
}

impl From<TableFault> for Fault {
    ghost from_gives = { λ f r. r ≡ InTable f };

    fn from(f: TableFault) -> Fault {
        Fault::InTable(f)
    }
}

impl TableFault {
    pub fn number(self) -> u8
        ensures { result ≡ (table_declined self).number }
    {
        match self {
            TableFault::Short => 16,
            TableFault::Version => 17,
            TableFault::NoOffsets | TableFault::NoPeaks | TableFault::NoData => 18,
            TableFault::Offset(_) => 19,
        }
    }

    // The place of the field at fault, but for a table that is too short for its head.
    pub fn place(self) -> Option<usize>
        ensures { said result ≡ (table_declined self).place }
    {
        match self {
            TableFault::Short => None,
            TableFault::Version => Some(0),
            TableFault::NoOffsets => Some(12),
            TableFault::NoPeaks => Some(8),
            TableFault::NoData => Some(16),
            TableFault::Offset(at) => Some(at),
        }
    }
}

impl Fault {
    pub fn number(self) -> u8
        ensures { result ≡ (fault_declined self).number }
    {
        match self {
            Fault::InTable(f) => f.number(),
            Fault::NoGlyph(_) => 20,
            Fault::InSlot(_, f) => f.number(),
        }
    }

    pub fn layer(self) -> Layer
        ensures { layer_said result ≡ (fault_declined self).layer }
    {
        match self {
            Fault::InTable(_) => Layer::Table,
            Fault::InSlot(_, SlotFault::Shared(_) | SlotFault::InEntry(_, EntryFault::Stream(_))) =>
                Layer::Stream,
            Fault::InSlot(_, SlotFault::InEntry(_, EntryFault::LeftOver(_))) => Layer::Entry,
            _ => Layer::Slot,
        }
    }

    // The glyph that was asked for, but for a fault of the table.
    pub fn glyph(self) -> Option<u16>
        ensures { said result ≡ (fault_declined self).glyph }
    {
        match self {
            Fault::InTable(_) => None,
            Fault::NoGlyph(glyph) | Fault::InSlot(glyph, _) => Some(glyph),
        }
    }

    // The number of the entry concerned, if one is.
    pub fn variation(self) -> Option<u16>
        ensures { said result ≡ (fault_declined self).variation }
    {
        match self {
            Fault::InTable(_) | Fault::NoGlyph(_) => None,
            Fault::InSlot(_, f) => f.variation(),
        }
    }

    // The place of the field at fault.
    pub fn place(self) -> Option<usize>
        ensures { said result ≡ (fault_declined self).place }
    {
        match self {
            Fault::InTable(f) => f.place(),
            Fault::NoGlyph(_) => None,
            Fault::InSlot(_, f) => Some(f.place()),
        }
    }
}

impl fmt::Display for Layer {
    fn fmt<W: fmt::Write>(&self, f: &mut fmt::Formatter<W>) -> fmt::Result {
        match self {
            Layer::Table => f.write_str("table"),
            Layer::Slot => f.write_str("slot"),
            Layer::Entry => f.write_str("entry"),
            Layer::Stream => f.write_str("stream"),
        }
    }
}

// Number and layer, then glyph, variation and place, as far as they are concerned.
impl fmt::Display for Fault {
    fn fmt<W: fmt::Write>(&self, f: &mut fmt::Formatter<W>) -> fmt::Result {
        let number = self.number();
        let layer = self.layer();
        write!(f, "refused {number} {layer}")?;
        if let Some(glyph) = self.glyph() {
            write!(f, " glyph {glyph}")?;
        }
        if let Some(variation) = self.variation() {
            write!(f, " variation {variation}")?;
        }
        if let Some(place) = self.place() {
            write!(f, " place {place}")?;
        }
        Ok(())
    }
}

impl Error for Fault {}

// As a fault of a reading.
impl fmt::Display for TableFault {
    fn fmt<W: fmt::Write>(&self, f: &mut fmt::Formatter<W>) -> fmt::Result {
        let fault = Fault::InTable(*self);
        write!(f, "{fault}")
    }
}

impl Error for TableFault {}
