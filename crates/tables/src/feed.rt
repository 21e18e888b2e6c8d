// The hand-over of a table: its head, the offsets, the shared peaks, and a slot for each glyph.
ghost use Rattle.std.specs.Prelude.{◌≡◌, ◌+◌, ◌<◌, ◌≤◌, ◌++◌, length, Err, MatchResult};
ghost use Rattle.format.specs.Table.{padded, offset_bytes, table_bytes};
ghost use Rattle.write.specs.Sinks.{Fed, Part};
ghost use Rattle.tables.specs.Forms.{halves};
ghost use Rattle.tables.specs.Parts.{glyph_at, slots_from, slots_data, offsets_data, head_data};
ghost use Rattle.tables.specs.Layouts.{Laid};

use crate::form::OffsetForm;
use crate::layout::Layout;
use crate::parts::TableParts;
use crate::table::{HEAD_SIZE, Table};
use write::batch::Batch;
use write::sink::{Sink, SinkError};
use write::words::{long, word};

// How many bytes are gathered for a sink at a time.
const BATCH_SIZE: usize = 256;

// The size of the larger form of an offset.
const LONG_SIZE: usize = 4;

const MAJOR_VERSION: usize = 1;

const MINOR_VERSION: usize = 0;

// Puts bytes into a batch that has room for them.
fn put<const N: usize>(batch: &mut Batch<N>, bytes: &[u8])
    requires { length batch.old + length bytes.now ≤ N }
    ensures bytes { batch.new ≡ batch.old ++ bytes.now }
    ensures size { length batch.new ≡ length batch.old + length bytes.now }
{
    batch.take(bytes).unwrap();
}

// Puts an offset into a batch that has room for one of either form.
fn put_offset(batch: &mut Batch<BATCH_SIZE>, form: OffsetForm, offset: usize)
    requires { length batch.old + 4 ≤ 256 }
    ensures bytes { batch.new ≡ batch.old ++ offset_bytes (halves form) offset }
    ensures within { length batch.new ≤ 256 }
{
    match form {
        OffsetForm::Short => put(batch, &word(offset / 2)),
        OffsetForm::Long => put(batch, &long(offset)),
    }
}

// Hands over what the batch holds if an offset more may not fit.
fn make_room<S: Sink>(batch: &mut Batch<BATCH_SIZE>, sink: &mut S) -> Result<(), SinkError>
    ensures { MatchResult result (λ _. (length batch.new + 4 ≤ 256) × Part S.step batch.old batch.new (S.stands sink.old) (S.stands sink.new)) (λ e. Fed S.step batch.old (S.stands sink.old) (S.stands sink.new) (Err e)) }
{
    if batch.allowance() >= LONG_SIZE {
        return Ok(());
    }
    sink.take(batch.taken())?;
    batch.clear();
    Ok(())
}

impl<'p, P: TableParts> Table<'p, P> {
    // The first twenty bytes: the version, axes, peaks, where the peaks begin, glyphs, the form, where the slots begin.
    fn head(&self) -> Batch<HEAD_SIZE>
        ensures { result ≡ head_data (halves self.now.form) (P.axes self.now.parts.now) (P.glyphs self.now.parts.now) }
    {
        let mut head: Batch<HEAD_SIZE> = Batch::new();
        put(&mut head, &word(MAJOR_VERSION));
        put(&mut head, &word(MINOR_VERSION));
        put(&mut head, &word(usize::from(self.parts.axis_count())));
        put(&mut head, &word(self.parts.shared_count()));
        put(&mut head, &long(self.peaks_start()));
        put(&mut head, &word(self.parts.glyph_count()));
        put(&mut head, &word(self.form.flags()));
        put(&mut head, &long(self.slots_start()));
        head
    }

    // Hands over the offsets, as many at a time as a batch holds.
    fn feed_offsets<S: Sink>(&self, sink: &mut S) -> Result<(), SinkError>
        ensures { Fed S.step (offsets_data (halves self.now.form) 0 (slots_from (halves self.now.form) (P.glyphs self.now.parts.now) 0)) (S.stands sink.old) (S.stands sink.new) result }
    {
        let mut batch: Batch<BATCH_SIZE> = Batch::new();
        let mut offset = 0;
        for n in 0..self.parts.glyph_count() {
            make_room(&mut batch, sink)?;
            put_offset(&mut batch, self.form, offset);
            offset += self.slot_size(n);
        }
        make_room(&mut batch, sink)?;
        put_offset(&mut batch, self.form, offset);
        sink.take(batch.taken())
    }

    // Hands over the slot of the glyph n, whose size is what the allowance falls by; the padding is a byte 00.
    fn feed_slot<S: Sink>(&self, n: usize, sink: &mut S) -> Result<(), SinkError>
        requires { n < length (P.glyphs self.now.parts.now) }
        ensures { Fed S.step (padded (halves self.now.form) (glyph_at (P.glyphs self.now.parts.now) n)) (S.stands sink.old) (S.stands sink.new) result }
    {
        let before = sink.allowance();
        self.parts.feed_glyph(n, sink)?;
        let size = before - sink.allowance();
        if self.form.pads(size) {
            return sink.take(&[0]);
        }
        Ok(())
    }

    // Hands over the slots.
    fn feed_slots<S: Sink>(&self, sink: &mut S) -> Result<(), SinkError>
        ensures { Fed S.step (slots_data (slots_from (halves self.now.form) (P.glyphs self.now.parts.now) 0)) (S.stands sink.old) (S.stands sink.new) result }
    {
        for n in 0..self.parts.glyph_count() {
            self.feed_slot(n, sink)?;
        }
        Ok(())
    }
}

// Hands over the table of these parts, with no look at the allowance before.
pub fn feed_table<P: TableParts, S: Sink>(
    parts: &P,
    layout: Layout,
    sink: &mut S,
) -> Result<(), SinkError>
    ensures { Laid (P.glyphs parts.now) layout → Fed S.step (table_bytes (P.axes parts.now) (P.glyphs parts.now)) (S.stands sink.old) (S.stands sink.new) result }
{
    let table = Table {
        parts,
        form: layout.form(),
    };
    sink.take(table.head().taken())?;
    table.feed_offsets(sink)?;
    parts.feed_shared_peaks(sink)?;
    table.feed_slots(sink)
}
