// Calls that a set is asked for, and how they are answered.
use sets::refusal::Refusal;
use tents::tent::Tent;
use variations::delta::GlyphDelta;

#[derive(Clone, Copy)]
pub enum Request<'c> {
    Glyph(u16),
    Variation(&'c [Tent], &'c [GlyphDelta]),
    Compile,
}

// What a call is granted.
#[derive(Clone, Copy, PartialEq, Eq, Debug)]
pub enum Granted {
    // A glyph was begun, or a variation added.
    Accepted,
    // A table of so many bytes was handed to the sink.
    Table(usize),
}

// The answer of a call.
pub type Reply = Result<Granted, Refusal>;
