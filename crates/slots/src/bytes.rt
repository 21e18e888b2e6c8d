// The bytes that a slot is read from.
ghost use Rattle.std.specs.Prelude.{◌≡◌, take};

// A table up to the end of a slot, with its axes and its shared peaks, and how many points the slot's glyph has.
#[derive(Clone, Copy)]
pub struct SlotBytes<'a> {
    pub table: &'a [u8],
    pub axes: u16,
    pub peaks: u16,
    pub p: u16,
}

// The bytes before `end`.
pub fn upto<'a>(bytes: &'a [u8], end: usize) -> &'a [u8]
    ensures { result.now ≡ take end bytes.now }
{
    if end < bytes.len() {
        &bytes[..end]
    } else {
        bytes
    }
}
