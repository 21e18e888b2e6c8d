// Bytes as text.
ghost use Rattle.std.specs.Prelude.{Some, flat_map};
ghost use Rattle.printed.specs.Texts.{byte_text};

use std::fmt;

// Each byte as two hexadecimal digits, after a space.
#[derive(Clone, Copy)]
pub struct Bytes<'a>(pub &'a [u8]);

impl fmt::Display for Bytes<'_> {
    ghost output = { λ b. Some (flat_map byte_text b.0.now) };

    fn fmt<W: fmt::Write>(&self, f: &mut fmt::Formatter<W>) -> fmt::Result {
        for &b in self.0 {
            write!(f, " {b:02X}")?;
        }
        Ok(())
    }
}
