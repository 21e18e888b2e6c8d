// The two forms in which a table holds its offsets.
ghost use Rattle.std.specs.Prelude.{◌≡◌, if◌then◌else◌};
ghost use Rattle.tables.specs.Parts.{is_padded, width_of};
ghost use Rattle.tables.specs.Forms.{halves};

// The flag of the long form.
const LONG_OFFSETS: usize = 1;

// Offsets are halved and take a word each, or they are as they are and take two words each.
#[derive(Clone, Copy, PartialEq, Eq, Debug)]
pub enum OffsetForm {
    Short,
    Long,
}

impl OffsetForm {
    // The size of an offset.
    pub(crate) fn width(self) -> usize
        ensures { result ≡ width_of (halves self) }
    {
        match self {
            OffsetForm::Short => 2,
            OffsetForm::Long => 4,
        }
    }

    // The flags word.
    pub(crate) fn flags(self) -> usize
        ensures { result ≡ (if halves self then 0 else 1) }
    {
        match self {
            OffsetForm::Short => 0,
            OffsetForm::Long => LONG_OFFSETS,
        }
    }

    // Whether a glyph of this size is padded: an offset that is halved has to be even.
    pub(crate) fn pads(self, size: usize) -> bool
        ensures { result ≡ is_padded (halves self) size }
    {
        self == OffsetForm::Short && size % 2 == 1
    }
}
