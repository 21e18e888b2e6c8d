// The variations of a glyph, as a store is made from them.
ghost use Rattle.std.specs.Prelude.{◌≡◌, ◌^◌, ◌<◌, ◌≤◌, List, length, ℤ};
ghost use Rattle.write.specs.Sinks.{Fed};
ghost use Rattle.format.specs.Account.{Variation};
ghost use Rattle.stores.specs.Parts.{variation_at, shared_of, header_in, data_in};

use write::sink::{Sink, SinkError};

// What there is to write of a glyph. An implementation says by `variations` which these are, and by `peaks` the peaks
// of all glyphs, among which a header finds its own.
pub trait TupleVariations {
    ghost peaks: { Self → List (List ℤ) };

    ghost variations: { Self → List Variation };

    // How many variations there are.
    fn count(&self) -> usize
        ensures count { result ≡ length (variations self.now) }
        ensures most { result ≤ 4095 };

    // The number of bytes of the shared points: 0 exactly where none are shared.
    fn shared_size(&self) -> usize
        ensures size { result ≡ length (shared_of (variations self.now)) }
        ensures most { result ≤ 2 ^ 20 };

    // Hands over the shared points.
    fn feed_shared<S: Sink>(&self, sink: &mut S) -> Result<(), SinkError>
        ensures { Fed S.step (shared_of (variations self.now)) (S.stands sink.old) (S.stands sink.new) result };

    // The number of bytes of a variation's header.
    fn header_size(&self, j: usize) -> usize
        requires { j < length (variations self.now) }
        ensures size { result ≡ length (header_in (peaks self.now) (variations self.now) (variation_at (variations self.now) j)) }
        ensures most { result ≤ 2 ^ 20 };

    // Hands over a variation's header.
    fn feed_header<S: Sink>(&self, j: usize, sink: &mut S) -> Result<(), SinkError>
        requires { j < length (variations self.now) }
        ensures { Fed S.step (header_in (peaks self.now) (variations self.now) (variation_at (variations self.now) j)) (S.stands sink.old) (S.stands sink.new) result };

    // The number of bytes of a variation's data.
    fn data_size(&self, j: usize) -> usize
        requires { j < length (variations self.now) }
        ensures size { result ≡ length (data_in (variations self.now) (variation_at (variations self.now) j)) }
        ensures most { result ≤ 2 ^ 20 };

    // Hands over a variation's data.
    fn feed_data<S: Sink>(&self, j: usize, sink: &mut S) -> Result<(), SinkError>
        requires { j < length (variations self.now) }
        ensures { Fed S.step (data_in (variations self.now) (variation_at (variations self.now) j)) (S.stands sink.old) (S.stands sink.new) result };
}
