// The layout of a table: its form, and where its parts begin.
ghost use Rattle.std.specs.Prelude.{◌≡◌, ◌<◌, length, MatchResult};
ghost use Rattle.format.specs.Table.{even_total, glyphs_bytes, table_bytes};
ghost use Rattle.tables.specs.Layouts.{Summed, Laid};

use crate::form::OffsetForm;
use crate::parts::TableParts;
use crate::table::Table;
use thiserror::Error;

// The most bytes that the glyphs may have together, each taken with an even size.
const MOST_BYTES: usize = 67108864;

// The largest offset, halved, that the short form holds.
const MOST_SHORT: usize = 65535;

// The glyphs have more bytes than a table may hold.
#[derive(Clone, Copy, PartialEq, Eq, Debug, Error)]
#[error("the glyphs have more bytes than a table may hold")]
pub struct TooLarge;

// The sizes of the glyphs together, each rounded up to an even size, and as they are.
#[derive(Clone, Copy)]
struct Sums {
    even: usize,
    exact: usize,
}

// The form of a table, and the size of all its slots.
#[derive(Clone, Copy)]
pub struct Layout {
    form: OffsetForm,
    slots: usize,
}

impl Layout {
    // Whether offsets are halved.
    pub fn form(&self) -> OffsetForm
        ensures { result ≡ self.now.form }
    {
        self.form
    }
}

// The sums over all glyphs.
fn add_up<P: TableParts>(parts: &P) -> Sums
    ensures { Summed (P.glyphs parts.now) (length (P.glyphs parts.now)) result }
{
    let mut sums = Sums { even: 0, exact: 0 };
    for n in 0..parts.glyph_count() {
        let size = parts.glyph_size(n);
        sums.even += size + size % 2;
        sums.exact += size;
    }
    sums
}

// The layout of the table of these parts, unless its glyphs are too large.
pub fn lay_out<P: TableParts>(parts: &P) -> Result<Layout, TooLarge>
    ensures { MatchResult result (Laid (P.glyphs parts.now)) (λ _. 67108864 < even_total (glyphs_bytes (P.glyphs parts.now))) }
{
    let sums = add_up(parts);
    if sums.even > MOST_BYTES {
        return Err(TooLarge);
    }
    if sums.even / 2 <= MOST_SHORT {
        return Ok(Layout {
            form: OffsetForm::Short,
            slots: sums.even,
        });
    }
    Ok(Layout {
        form: OffsetForm::Long,
        slots: sums.exact,
    })
}

// The length of the table of these parts.
pub fn table_length<P: TableParts>(parts: &P, layout: Layout) -> usize
    ensures is { Laid (P.glyphs parts.now) layout → result ≡ length (table_bytes (P.axes parts.now) (P.glyphs parts.now)) }
    ensures small { Laid (P.glyphs parts.now) layout → result < 4294967296 }
{
    let table = Table {
        parts,
        form: layout.form,
    };
    table.slots_start().saturating_add(layout.slots)
}
