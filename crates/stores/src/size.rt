// The size of a glyph's store, and why one does not fit its fields.
ghost use Rattle.std.specs.Prelude.{◌≡◌, ℕ, ◌^◌, ◌≤◌, length};
ghost use Rattle.std.proofs.Math.Option.{none, some};
ghost use Rattle.format.specs.Account.{Declined, first_of};
ghost use Rattle.format.specs.Glyphs.{glyph_bytes};
ghost use Rattle.format.specs.Table.{size_conditions};
ghost use Rattle.stores.specs.Parts.{all_headers, all_data};
ghost use Rattle.stores.specs.Sizes.{StoreSized, DataSized};

use crate::variations::TupleVariations;
use thiserror::Error;

// A header tells the size of its data in a word, and the store tells in a word where its headers end.
const MAX_DATA_SIZE: usize = 65535;

const MAX_DATA_OFFSET: usize = 65535;

// Which part is longer than its field can say: the data of a variation, or the headers.
#[derive(Clone, Copy, PartialEq, Eq, Debug, Error)]
pub enum StoreFault {
    #[error("the data of variation {0} is longer than its size can say")]
    Data(u16),
    #[error("the headers are longer than their end can say")]
    Headers,
}

// The number of bytes of all headers.
pub(crate) fn headers_size<T: TupleVariations>(store: &T) -> usize
    ensures size { result ≡ length (all_headers (T.peaks store.now) (T.variations store.now)) }
    ensures most { result ≤ 2 ^ 32 }
{
    let mut size = 0;
    for j in 0..store.count() {
        size += store.header_size(j);
    }
    size
}

// The number of bytes of all data, or the first variation with too many of them.
fn all_data_size<T: TupleVariations>(store: &T) -> Result<usize, StoreFault>
    ensures { DataSized (T.variations store.now) result }
{
    let mut size = 0;
    for j in 0..store.count() {
        let n = store.data_size(j);
        if n > MAX_DATA_SIZE {
            return Err(StoreFault::Data(j as u16));
        }
        size += n;
    }
    Ok(size)
}

// The size of a store, or the first part that does not fit: the data of each variation, then the headers. A glyph
// without variations has no bytes.
pub fn store_size<T: TupleVariations>(store: &T) -> Result<usize, StoreFault>
    ensures { StoreSized (T.peaks store.now) (T.variations store.now) result }
{
    let data = all_data_size(store)?;
    let offset = 4 + headers_size(store);
    if offset > MAX_DATA_OFFSET {
        return Err(StoreFault::Headers);
    }
    if store.count() == 0 {
        return Ok(0);
    }
    Ok(offset + store.shared_size() + data)
}

// The size of a store that was found to fit; 0 of any other.
pub fn known_size<T: TupleVariations>(store: &T) -> usize
    ensures size { (g : ℕ) → first_of (size_conditions (T.peaks store.now) g (T.variations store.now)) ≡ none → result ≡ length (glyph_bytes (T.peaks store.now) (T.variations store.now)) }
    ensures refused { (g : ℕ) (d : Declined) → first_of (size_conditions (T.peaks store.now) g (T.variations store.now)) ≡ some d → result ≡ 0 }
    ensures most { result ≤ 2 ^ 29 }
{
    store_size(store).unwrap_or(0)
}

// The number of bytes of all data, whether or not each fits.
fn data_total<T: TupleVariations>(store: &T) -> usize
    ensures size { result ≡ length (all_data (T.variations store.now)) }
    ensures most { result ≤ 2 ^ 32 }
{
    let mut size = 0;
    for j in 0..store.count() {
        size += store.data_size(j);
    }
    size
}

// The size of a store, whether or not its parts fit their fields.
pub fn exact_size<T: TupleVariations>(store: &T) -> usize
    ensures size { result ≡ length (glyph_bytes (T.peaks store.now) (T.variations store.now)) }
    ensures most { result ≤ 2 ^ 34 }
{
    if store.count() == 0 {
        return 0;
    }
    4 + headers_size(store) + store.shared_size() + data_total(store)
}
