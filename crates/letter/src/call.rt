// A call, as a line of a script gives it.
use lent::memory::Sizes;
use std::alloc::{AllocError, Global};
use std::num::ParseIntError;
use std::str::{FromStr, SplitWhitespace};
use tents::tent::{Bounds, Tent};
use thiserror::Error;
use variations::delta::GlyphDelta;

// The sink that a table is handed to.
#[derive(Clone, Copy)]
pub enum Kind {
    Buffer,
    Counter,
    Checksum,
    Parity,
}

#[derive(Drop)]
pub enum Call {
    Stores(Sizes),
    Axes(u16),
    Glyph(u16),
    Variation(Vec<Tent>, Vec<GlyphDelta>),
    Compile { kind: Kind, allowance: usize },
    Read { glyph: u16, points: u16 },
}

// Why a line gives no call.
#[derive(Debug, Drop, Error)]
pub enum CallError {
    #[error("the line has not the form of a call")]
    Form,
    #[error("out of memory")]
    Memory(#[from(alloc)] AllocError),
}

// The form of the call that a line begins.
pub fn form_wanted(line: &str) -> &'static str {
    match line.split_whitespace().next() {
        Some("stores") => "stores G V A D C",
        Some("axes") => "axes N",
        Some("glyph") => "glyph N",
        Some("variation") => "variation PEAK PEAK:MIN:MAX .. ; X,Y,r X,Y,o ..",
        Some("compile") => "compile buffer|counter|checksum|parity N",
        Some("read") => "read G P",
        _ => "stores, axes, glyph, variation, compile or read",
    }
}

impl From<ParseIntError> for CallError {
    fn from(_error: ParseIntError) -> CallError {
        CallError::Form
    }
}

impl FromStr for Kind {
    type Err = CallError;

    fn from_str(word: &str) -> Result<Kind, CallError> {
        match word {
            "buffer" => Ok(Kind::Buffer),
            "counter" => Ok(Kind::Counter),
            "checksum" => Ok(Kind::Checksum),
            "parity" => Ok(Kind::Parity),
            _ => Err(CallError::Form),
        }
    }
}

// PEAK or PEAK:MIN:MAX.
fn tent_of(word: &str) -> Result<Tent, CallError> {
    let Some((peak, bounds)) = word.split_once(':') else {
        let peak = word.parse::<i16>()?;
        return Ok(Tent { peak, bounds: None });
    };
    let (min, max) = bounds.split_once(':').ok_or(CallError::Form)?;
    Ok(Tent {
        peak: peak.parse::<i16>()?,
        bounds: Some(Bounds {
            min: min.parse::<i16>()?,
            max: max.parse::<i16>()?,
        }),
    })
}

// X,Y,r or X,Y,o.
fn delta_of(word: &str) -> Result<GlyphDelta, CallError> {
    let (x, rest) = word.split_once(',').ok_or(CallError::Form)?;
    let (y, kind) = rest.split_once(',').ok_or(CallError::Form)?;
    let x = x.parse::<i16>()?;
    let y = y.parse::<i16>()?;
    match kind {
        "r" => Ok(GlyphDelta::required(x, y)),
        "o" => Ok(GlyphDelta::optional(x, y)),
        _ => Err(CallError::Form),
    }
}

// variation T.. ; D..
fn variation_of(alloc: Global, line: &str) -> Result<Call, CallError> {
    let (tents, deltas) = line.split_once(';').ok_or(CallError::Form)?;
    let tents = tents
        .split_whitespace()
        .skip(1)
        .map(tent_of)
        .try_collect(alloc)?;
    let deltas = deltas.split_whitespace().map(delta_of).try_collect(alloc)?;
    Ok(Call::Variation(tents, deltas))
}

// A number of axes; what no word holds is above every limit.
fn axes_of(word: &str) -> Result<u16, CallError> {
    let count = word.parse::<u64>()?;
    Ok(u16::try_from(count).unwrap_or(u16::MAX))
}

// The words G V A D C.
fn stores_of(words: &mut SplitWhitespace<'_>) -> Result<Call, CallError> {
    let mut sizes = [0usize; 5];
    for size in &mut sizes {
        *size = words.next().ok_or(CallError::Form)?.parse::<usize>()?;
    }
    if words.next().is_some() {
        return Err(CallError::Form);
    }
    let [glyphs, variations, values, deltas, counts] = sizes;
    Ok(Call::Stores(Sizes {
        glyphs,
        variations,
        values,
        deltas,
        counts,
    }))
}

// A call of one word or two after its name. A line may be long: of more words only the next is looked at.
fn short_call(name: &str, words: &mut SplitWhitespace<'_>) -> Result<Call, CallError> {
    match (name, words.next(), words.next(), words.next()) {
        ("axes", Some(count), None, _) => Ok(Call::Axes(axes_of(count)?)),
        ("glyph", Some(number), None, _) => Ok(Call::Glyph(number.parse::<u16>()?)),
        ("compile", Some(kind), Some(allowance), None) => Ok(Call::Compile {
            kind: kind.parse::<Kind>()?,
            allowance: allowance.parse::<usize>()?,
        }),
        ("read", Some(glyph), Some(points), None) => Ok(Call::Read {
            glyph: glyph.parse::<u16>()?,
            points: points.parse::<u16>()?,
        }),
        _ => Err(CallError::Form),
    }
}

impl Call {
    pub fn of(alloc: Global, line: &str) -> Result<Call, CallError> {
        let mut words = line.split_whitespace();
        match words.next() {
            Some("variation") => variation_of(alloc, line),
            Some("stores") => stores_of(&mut words),
            Some(name) => short_call(name, &mut words),
            None => Err(CallError::Form),
        }
    }
}
