// The bytes of a glyph's store, into a sink.
ghost use Rattle.std.specs.Prelude.{◌≡◌, ◌≤◌};
ghost use Rattle.write.specs.Sinks.{Fed};
ghost use Rattle.format.specs.Glyphs.{glyph_bytes};
ghost use Rattle.stores.specs.Parts.{flag_of, first_words, all_headers, all_data};

use crate::size::headers_size;
use crate::variations::TupleVariations;
use write::sink::{Sink, SinkError};
use write::words::word;

// The flag in the word that counts the variations: some of them share their points.
const SHARED_POINT_NUMBERS: usize = 0x8000;

// The flag where points are shared, and else 0.
fn shared_flag<T: TupleVariations>(store: &T) -> usize
    ensures flag { result ≡ flag_of (T.variations store.now) }
    ensures most { result ≤ 32768 }
{
    if store.shared_size() > 0 {
        SHARED_POINT_NUMBERS
    } else {
        0
    }
}

// The number of variations with the flag, then the offset of what follows the headers.
fn first_words<T: TupleVariations>(store: &T) -> [u8; 4]
    ensures { result ≡ first_words (T.peaks store.now) (T.variations store.now) }
{
    let count = shared_flag(store) + store.count();
    let offset = 4 + headers_size(store);
    let [a, b] = word(count);
    let [c, d] = word(offset);
    [a, b, c, d]
}

// Hands over the headers, variation by variation.
fn feed_headers<T: TupleVariations, S: Sink>(store: &T, sink: &mut S) -> Result<(), SinkError>
    ensures { Fed S.step (all_headers (T.peaks store.now) (T.variations store.now)) (S.stands sink.old) (S.stands sink.new) result }
{
    for j in 0..store.count() {
        store.feed_header(j, sink)?;
    }
    Ok(())
}

// Hands over the data, variation by variation.
fn feed_all_data<T: TupleVariations, S: Sink>(store: &T, sink: &mut S) -> Result<(), SinkError>
    ensures { Fed S.step (all_data (T.variations store.now)) (S.stands sink.old) (S.stands sink.new) result }
{
    for j in 0..store.count() {
        store.feed_data(j, sink)?;
    }
    Ok(())
}

// Hands over the store: two words, the headers, the shared points, the data. A glyph without variations has no bytes.
pub fn feed_store<T: TupleVariations, S: Sink>(store: &T, sink: &mut S) -> Result<(), SinkError>
    ensures { Fed S.step (glyph_bytes (T.peaks store.now) (T.variations store.now)) (S.stands sink.old) (S.stands sink.new) result }
{
    if store.count() == 0 {
        return Ok(());
    }
    sink.take(&first_words(store))?;
    feed_headers(store, sink)?;
    store.feed_shared(sink)?;
    feed_all_data(store, sink)
}
