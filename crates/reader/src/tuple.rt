// The values of a peak, or of a bound of its tents: one for each axis, at their place in the table.
ghost use Rattle.std.specs.Prelude.{◌≡◌, ◌+◌, ◌*◌, ◌≤◌, length, take, drop};
ghost use Rattle.std.specs.Iterator.{YieldsFirst, item_count};
ghost use Rattle.format.specs.Account.{implied_start, implied_end};
ghost use Rattle.reader.specs.Tuples.{values_of, values_left, ValueAt};

use streams::words::word_at;
use tents::tent::Bounds;

// A part of the table, and its place.
#[derive(Clone, Copy)]
pub struct Tuple<'a> {
    pub(crate) part: &'a [u8],
    pub(crate) at: usize,
}

// The values of a tuple that are still to come.
#[derive(Clone, Copy)]
pub struct Values<'a> {
    pub(crate) left: &'a [u8],
}

// The starts and the ends of an entry's tents.
#[derive(Clone, Copy)]
pub struct Region<'a> {
    pub start: Tuple<'a>,
    pub end: Tuple<'a>,
}

// The tuple of so many values at a place of the table; an empty one if it goes past the end.
pub(crate) fn tuple_at<'a>(bytes: &'a [u8], at: usize, axes: u16) -> Tuple<'a>
    ensures { at + 2 * axes ≤ length bytes.now → (result.at ≡ at) × (result.part.now ≡ take (2 * axes) (drop at bytes.now)) }
{
    let size = 2 * axes as usize;
    if bytes.len() < size || bytes.len() - size < at {
        return Tuple { part: &[], at };
    }
    Tuple {
        part: &bytes[at..at + size],
        at,
    }
}

impl<'a> Tuple<'a> {
    // The place of the first value in the table.
    pub fn place(&self) -> usize
        ensures { result ≡ self.now.at }
    {
        self.at
    }

    // How many values there are: one for each axis.
    pub fn len(&self) -> usize
        ensures { result ≡ length (values_of self.now) }
    {
        self.part.len() / 2
    }

    // The value on the axis i, in units of 1/16384.
    pub fn get(&self, i: usize) -> Option<i16>
        ensures { ValueAt (values_of self.now) i result }
    {
        if i >= self.part.len() / 2 {
            return None;
        }
        let word = word_at(self.part, 2 * i)?;
        Some(word.cast_signed())
    }

    // The values, axis after axis.
    pub fn iter(&self) -> Values<'a>
        ensures { values_left result ≡ values_of self.now }
    {
        Values { left: self.part }
    }
}

impl<'a> Iterator for Values<'a> {
    type Item = i16;

    ghost next_gives = { YieldsFirst values_left };

    ghost remaining = { item_count values_left };

    // The next value, if one is left.
    fn next(&mut self) -> Option<i16> {
        let first = word_at(self.left, 0)?;
        self.left = &self.left[2..];
        Some(first.cast_signed())
    }
}

// The start of a tent with this peak, where no region is stored.
pub fn implied_start(peak: i16) -> i16
    ensures { result ≡ implied_start peak }
{
    Bounds::implied(peak).min
}

// Its end.
pub fn implied_end(peak: i16) -> i16
    ensures { result ≡ implied_end peak }
{
    Bounds::implied(peak).max
}
