// From a set to its table in a sink: the conditions in number order, then the bytes.
ghost use Rattle.std.specs.Prelude.{◌≡◌, length};
ghost use Rattle.format.specs.Table.{table_bytes};
ghost use Rattle.format.specs.Promise.{Compiled};
ghost use Rattle.parts.specs.OfParts.{parts_axes, parts_glyphs};
ghost use Rattle.sets.specs.OfSet.{account_of, glyphs_of};
ghost use Rattle.sets.specs.Refusals.{declined_of};
ghost use Rattle.stores.specs.Sizes.{store_declined};
ghost use Rattle.gvar.specs.Compiling.{meaning_of, compiled_of, cells_after, SinkLeft, SizesAnswered, Written};

use counting::counting::count_all;
use counts::cells::CountCell;
use parts::set_parts::SetParts;
use sets::refusal::Refusal;
use sets::set::Set;
use stores::size::{StoreFault, store_size};
use tables::feed::feed_table;
use tables::layout::{lay_out, table_length};
use tables::parts::TableParts;
use write::sink::Sink;

// What a glyph whose sizes do not fit is refused with.
fn refused(n: u16, fault: StoreFault) -> Refusal
    ensures { declined_of result ≡ store_declined n fault }
{
    match fault {
        StoreFault::Data(j) => Refusal::DataTooLarge(n, j),
        StoreFault::Headers => Refusal::HeadersTooLarge(n),
    }
}

// Whether the sizes of every glyph fit, glyph by glyph from 0.
fn fit_sizes(parts: &SetParts<'_, '_>) -> Result<(), Refusal>
    ensures { SizesAnswered (parts_glyphs parts.now) result }
{
    for n in 0..parts.glyph_count() {
        let number = n as u16;
        store_size(&parts.store_of(n)).map_err(|fault| refused(number, fault))?;
    }
    Ok(())
}

// Hands the table of a counted set to the sink, or refuses and hands over nothing.
fn write_counted<S: Sink>(parts: &SetParts<'_, '_>, sink: &mut S) -> Result<usize, Refusal>
    ensures { Written S.step (parts_axes parts.now) (parts_glyphs parts.now) (S.stands sink.old) (S.stands sink.new) result }
{
    fit_sizes(parts)?;
    let layout = lay_out(parts).map_err(|_| Refusal::GlyphsTooLarge)?;
    let length = table_length(parts, layout);
    if length > sink.allowance() {
        return Err(Refusal::SinkTooSmall);
    }
    feed_table(parts, layout, sink).map_err(|_| Refusal::SinkTooSmall)?;
    Ok(length)
}

// Hands the table of the set to the sink and answers its length; or refuses, by the first of 10 to 15 that applies, and
// hands over nothing. 10 and 11 leave the count cells alone, every other end leaves them zeros.
pub fn compile<S: Sink>(
    set: &Set<'_>,
    cells: &mut [CountCell],
    sink: &mut S,
) -> Result<usize, Refusal>
    ensures compiled { Compiled (account_of set.now) (length cells.old) (meaning_of S.step (S.stands sink.old)) (compiled_of result) (meaning_of S.step (S.stands sink.new)) }
    ensures sink { SinkLeft S.step (table_bytes (account_of set.now).axes (glyphs_of set.now)) (S.stands sink.old) (S.stands sink.new) result }
    ensures cells { cells.new ≡ cells_after (glyphs_of set.now) cells.old }
{
    if !set.numbers_full() {
        return Err(Refusal::NumbersNotFull);
    }
    let peaks = count_all(set, cells).ok_or(Refusal::TooFewCountCells)?;
    let parts = SetParts {
        set,
        cells: &*cells,
        peaks,
    };
    let answer = write_counted(&parts, sink);
    cells.fill(CountCell::zeros());
    answer
}
