// A case: a table, the damage to it, and the glyph that is asked for.
use std::alloc::{AllocError, Global};
use std::collections::BTreeMap;
use std::fmt;

// The tables that the cases start from, by their names.
pub type Tables = BTreeMap<String, Vec<u8>>;

#[derive(Clone, Copy)]
pub struct Case<'a> {
    name: &'a str,
    length: usize,
    pub glyph: u16,
    pub points: u16,
    // places, each with the byte put there
    pub damage: &'a [&'a str],
}

// A place, and the word of the byte put there, which may be missing.
#[derive(Clone, Copy)]
pub struct Damage<'a> {
    place: &'a str,
    byte: &'a str,
}

// The word with the number i, empty past the last.
fn word<'a>(words: &[&'a str], i: usize) -> &'a str {
    words.get(i).copied().unwrap_or("")
}

impl<'a> Case<'a> {
    // The words NAME LENGTH GLYPH POINTS, with places and the bytes put there.
    pub fn of(words: &'a [&'a str]) -> anyhow::Result<Case<'a>> {
        Ok(Case {
            name: word(words, 0),
            length: word(words, 1).parse::<usize>()?,
            glyph: word(words, 2).parse::<u16>()?,
            points: word(words, 3).parse::<u16>()?,
            damage: words.get(4..).unwrap_or(&[]),
        })
    }

    // So many bytes of the table, 00 past its end and where no table has the name.
    pub fn bytes(&self, alloc: Global, tables: &Tables) -> Result<Vec<u8>, AllocError> {
        let mut bytes = match tables.get(self.name) {
            Some(table) => Vec::from_slice(alloc, table.as_slice())?,
            None => Vec::new(alloc),
        };
        bytes.resize(self.length, 0)?;
        Ok(bytes)
    }
}

impl fmt::Display for Case<'_> {
    fn fmt<W: fmt::Write>(&self, f: &mut fmt::Formatter<W>) -> fmt::Result {
        let Case {
            name,
            length,
            glyph,
            points,
            ..
        } = *self;
        write!(f, "{name} {length} {glyph} {points}")
    }
}

impl<'a> Damage<'a> {
    // The words PLACE BYTE.
    pub fn of(words: &[&'a str]) -> Damage<'a> {
        Damage {
            place: word(words, 0),
            byte: word(words, 1),
        }
    }

    // Puts the byte at its place, if that is inside.
    pub fn put(&self, bytes: &mut [u8]) -> anyhow::Result<()> {
        if let Some(at) = bytes.get_mut(self.place.parse::<usize>()?) {
            *at = u8::from_str_radix(self.byte, 16)?;
        }
        Ok(())
    }
}

impl fmt::Display for Damage<'_> {
    fn fmt<W: fmt::Write>(&self, f: &mut fmt::Formatter<W>) -> fmt::Result {
        write!(f, " {} {}", self.place, self.byte)
    }
}
