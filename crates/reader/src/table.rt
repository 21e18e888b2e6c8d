// A table: the check of its head and its offsets.
ghost use Rattle.std.specs.Prelude.{◌≡◌, ◌+◌, ◌*◌, ◌≤◌, length, if◌then◌else◌};
ghost use Rattle.format.specs.Reader.{word_at, long_at, checked};
ghost use Rattle.reader.specs.Tables.{HeadChecked, FirstBad, Sound, TableChecked, offset_in};

use crate::fault::TableFault;

const VERSION: u32 = 0x0001_0000;

const HEAD_SIZE: usize = 20;

// The fields of a table's head.
#[derive(Clone, Copy)]
pub struct Head {
    pub(crate) axes: u16,
    pub(crate) peaks: u16,
    pub(crate) peaks_at: u32,
    pub(crate) glyphs: u16,
    pub(crate) long: bool,
    pub(crate) data_at: u32,
}

// The bytes of a table, with the fields of its head.
#[derive(Clone, Copy)]
pub struct Table<'a> {
    pub(crate) bytes: &'a [u8],
    pub(crate) head: Head,
}

fn word_in(bytes: &[u8], at: usize) -> u16
    requires { at + 2 ≤ length bytes.now }
    ensures { result ≡ word_at bytes.now at }
{
    u16::from_be_bytes([bytes[at], bytes[at + 1]])
}

fn long_in(bytes: &[u8], at: usize) -> u32
    requires { at + 4 ≤ length bytes.now }
    ensures { result ≡ long_at bytes.now at }
{
    word_in(bytes, at) as u32 * 65536 + word_in(bytes, at + 2) as u32
}

// How many bytes an offset takes.
pub(crate) fn offset_size(long: bool) -> usize
    ensures { result ≡ (if long then 4 else 2) }
{
    if long { 4 } else { 2 }
}

// The fields of the head, or the first condition on them that applies.
fn read_head(bytes: &[u8]) -> Result<Head, TableFault>
    ensures { HeadChecked bytes.now result }
{
    let len = bytes.len();
    if len < HEAD_SIZE {
        return Err(TableFault::Short);
    }
    if long_in(bytes, 0) != VERSION {
        return Err(TableFault::Version);
    }
    let axes = word_in(bytes, 4);
    let peaks = word_in(bytes, 6);
    let peaks_at = long_in(bytes, 8);
    let glyphs = word_in(bytes, 12);
    let long = word_in(bytes, 14) % 2 == 1;
    let data_at = long_in(bytes, 16);
    if len < HEAD_SIZE + offset_size(long) * (glyphs as usize + 1) {
        return Err(TableFault::NoOffsets);
    }
    if len < peaks_at as usize + 2 * (axes as usize * peaks as usize) {
        return Err(TableFault::NoPeaks);
    }
    if len < data_at as usize {
        return Err(TableFault::NoData);
    }
    Ok(Head {
        axes,
        peaks,
        peaks_at,
        glyphs,
        long,
        data_at,
    })
}

// The offset with the number i, in bytes.
pub(crate) fn offset_at(bytes: &[u8], long: bool, i: usize) -> u32
    requires { 20 + (if long then 4 else 2) * (i + 1) ≤ length bytes.now }
    ensures { result ≡ offset_in bytes.now long i }
{
    if long {
        long_in(bytes, HEAD_SIZE + 4 * i)
    } else {
        2 * word_in(bytes, HEAD_SIZE + 2 * i) as u32
    }
}

// The number of the first offset that falls or points past the end.
fn first_bad(bytes: &[u8], long: bool, glyphs: u16, data_at: u32) -> Option<u32>
    requires { 20 + (if long then 4 else 2) * (glyphs + 1) ≤ length bytes.now }
    ensures { FirstBad bytes.now long glyphs data_at result }
{
    let mut last = 0;
    for i in 0..glyphs as u32 + 1 {
        let at = offset_at(bytes, long, i as usize);
        if at < last || bytes.len() < data_at as usize + at as usize {
            return Some(i);
        }
        last = at;
    }
    None
}

// The place of the offset with the number i.
fn offset_place(long: bool, i: u32) -> usize
    ensures { result ≡ 20 + (if long then 4 else 2) * i }
{
    HEAD_SIZE + offset_size(long) * i as usize
}

impl<'a> Table<'a> {
    // The table in these bytes, or the first fault in its head and its offsets.
    pub fn check(bytes: &'a [u8]) -> Result<Table<'a>, TableFault>
        ensures { TableChecked bytes.now result }
    {
        let head = read_head(bytes)?;
        match first_bad(bytes, head.long, head.glyphs, head.data_at) {
            Some(i) => Err(TableFault::Offset(offset_place(head.long, i))),
            None => Ok(Table { bytes, head }),
        }
    }

    // How many axes there are.
    pub fn axes(&self) -> u16
        ensures { Sound self.now → result ≡ (checked self.now.bytes.now).axes }
    {
        self.head.axes
    }

    // How many peaks are shared.
    pub fn peak_count(&self) -> u16
        ensures { Sound self.now → result ≡ (checked self.now.bytes.now).peak_count }
    {
        self.head.peaks
    }

    // How many glyphs there are.
    pub fn glyph_count(&self) -> u16
        ensures { Sound self.now → result ≡ (checked self.now.bytes.now).glyph_count }
    {
        self.head.glyphs
    }

    // Does an offset take four bytes?
    pub fn is_long(&self) -> bool
        ensures { Sound self.now → result ≡ (checked self.now.bytes.now).is_long }
    {
        self.head.long
    }
}
