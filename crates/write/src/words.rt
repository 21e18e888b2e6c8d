// Numbers as the bytes of a font, the most significant first.
ghost use Rattle.std.specs.Prelude.{◌≡◌};
ghost use Rattle.format.specs.Bytes.{word, long};

// The last two bytes of a number.
#[inline]
pub fn word(n: usize) -> [u8; 2]
    ensures { result ≡ word n }
{
    let [.., high, low] = n.to_be_bytes();
    [high, low]
}

// The last four.
#[inline]
pub fn long(n: usize) -> [u8; 4]
    ensures { result ≡ long n }
{
    let [.., a, b, c, d] = n.to_be_bytes();
    [a, b, c, d]
}
