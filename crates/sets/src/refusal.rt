// Why a call is refused, with the glyph and the variation concerned.
ghost use Rattle.std.specs.Prelude.{◌≡◌};
ghost use Rattle.format.specs.Account.{set};
ghost use Rattle.sets.specs.Refusals.{declined_of, named};

use std::error::Error;
use std::fmt;

#[derive(Clone, Copy, PartialEq, Eq, Debug)]
pub enum Refusal {
    TooManyAxes,
    NumberTooLarge(u16),
    AlreadyBegun(u16),
    NoGlyph,
    TentCount(u16, u16),
    TooManyDeltas(u16, u16),
    DeltaCount(u16, u16),
    TooManyVariations(u16, u16),
    NoGlyphCell(u16),
    NoVariationCells(u16, u16),
    NumbersNotFull,
    TooFewCountCells,
    DataTooLarge(u16, u16),
    HeadersTooLarge(u16),
    GlyphsTooLarge,
    SinkTooSmall,
}

impl Refusal {
    pub fn number(self) -> u8
        ensures is { result ≡ (declined_of self).number }
        ensures layer { (declined_of self).layer ≡ set }
    {
        match self {
            Refusal::TooManyAxes => 1,
            Refusal::NumberTooLarge(_) => 2,
            Refusal::AlreadyBegun(_) => 3,
            Refusal::NoGlyph => 4,
            Refusal::TentCount(_, _) => 5,
            Refusal::TooManyDeltas(_, _) => 6,
            Refusal::DeltaCount(_, _) => 7,
            Refusal::TooManyVariations(_, _) => 8,
            Refusal::NoGlyphCell(_) | Refusal::NoVariationCells(_, _) => 9,
            Refusal::NumbersNotFull => 10,
            Refusal::TooFewCountCells => 11,
            Refusal::DataTooLarge(_, _) => 12,
            Refusal::HeadersTooLarge(_) => 13,
            Refusal::GlyphsTooLarge => 14,
            Refusal::SinkTooSmall => 15,
        }
    }

    pub fn glyph(self) -> Option<u16>
        ensures { named result ≡ (declined_of self).glyph }
    {
        match self {
            Refusal::NumberTooLarge(g)
            | Refusal::AlreadyBegun(g)
            | Refusal::TentCount(g, _)
            | Refusal::TooManyDeltas(g, _)
            | Refusal::DeltaCount(g, _)
            | Refusal::TooManyVariations(g, _)
            | Refusal::NoGlyphCell(g)
            | Refusal::NoVariationCells(g, _)
            | Refusal::DataTooLarge(g, _)
            | Refusal::HeadersTooLarge(g) => Some(g),
            Refusal::TooManyAxes
            | Refusal::NoGlyph
            | Refusal::NumbersNotFull
            | Refusal::TooFewCountCells
            | Refusal::GlyphsTooLarge
            | Refusal::SinkTooSmall => None,
        }
    }

    // The index of the variation in its glyph.
    pub fn variation(self) -> Option<u16>
        ensures { named result ≡ (declined_of self).variation }
    {
        match self {
            Refusal::TentCount(_, v)
            | Refusal::TooManyDeltas(_, v)
            | Refusal::DeltaCount(_, v)
            | Refusal::TooManyVariations(_, v)
            | Refusal::NoVariationCells(_, v)
            | Refusal::DataTooLarge(_, v) => Some(v),
            Refusal::TooManyAxes
            | Refusal::NumberTooLarge(_)
            | Refusal::AlreadyBegun(_)
            | Refusal::NoGlyph
            | Refusal::NoGlyphCell(_)
            | Refusal::NumbersNotFull
            | Refusal::TooFewCountCells
            | Refusal::HeadersTooLarge(_)
            | Refusal::GlyphsTooLarge
            | Refusal::SinkTooSmall => None,
        }
    }
}

// Number and layer, then glyph and variation as far as they are concerned.
impl fmt::Display for Refusal {
    fn fmt<W: fmt::Write>(&self, f: &mut fmt::Formatter<W>) -> fmt::Result {
        write!(f, "refused {} set", self.number())?;
        if let Some(glyph) = self.glyph() {
            write!(f, " glyph {glyph}")?;
        }
        if let Some(variation) = self.variation() {
            write!(f, " variation {variation}")?;
        }
        Ok(())
    }
}

impl Error for Refusal {}
