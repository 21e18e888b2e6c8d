// Big-endian words in any bytes.
ghost use Rattle.std.specs.Prelude.{◌≡◌, ◌+◌, ◌<◌, ◌≤◌, length, IfSome, OnSome, IfNone};
ghost use Rattle.format.specs.Reader.{word_at};

// The word at the place `at`, if both its bytes are there.
pub fn word_at(table: &[u8], at: usize) -> Option<u16>
    ensures ends { IfNone result (length table.now < at + 2) }
    ensures inside { OnSome result (at + 2 ≤ length table.now) }
    ensures word { IfSome result (λ w. w ≡ word_at table.now at) }
{
    if table.len().saturating_sub(at) < 2 {
        return None;
    }
    Some(u16::from_be_bytes([table[at], table[at + 1]]))
}
