// What a table is written from, whatever keeps it.
ghost use Rattle.std.specs.Prelude.{◌≡◌, ℕ, ◌*◌, ◌<◌, ◌≤◌, List, length};
ghost use Rattle.format.specs.Account.{Glyph};
ghost use Rattle.write.specs.Sinks.{Fed};
ghost use Rattle.tables.specs.Parts.{glyph_at, peak_count, peaks_data};

use write::sink::{Sink, SinkError};

// A set of glyphs: an implementation says by `axes` and `glyphs` what the table shall hold, and hands out its parts.
pub trait TableParts {
    ghost axes: { Self → ℕ };

    ghost glyphs: { Self → List Glyph };

    fn axis_count(&self) -> u16
        ensures { result ≡ axes self.now };

    fn glyph_count(&self) -> usize
        ensures is { result ≡ length (glyphs self.now) }
        ensures few { result ≤ 65535 };

    // How many peaks are shared. A peak has a word for each axis.
    fn shared_count(&self) -> usize
        ensures is { result ≡ peak_count (glyphs self.now) }
        ensures few { result ≤ 4095 }
        ensures words { length (peaks_data (glyphs self.now)) ≡ 2 * (axes self.now * result) };

    // Hands over the shared peaks.
    fn feed_shared_peaks<S: Sink>(&self, sink: &mut S) -> Result<(), SinkError>
        ensures { Fed S.step (peaks_data (glyphs self.now)) (S.stands sink.old) (S.stands sink.new) result };

    // The number of bytes of the glyph n.
    fn glyph_size(&self, n: usize) -> usize
        requires { n < length (glyphs self.now) }
        ensures is { result ≡ length (glyph_at (glyphs self.now) n) }
        ensures small { result ≤ 17179869184 };

    // Hands over the bytes of the glyph n.
    fn feed_glyph<S: Sink>(&self, n: usize, sink: &mut S) -> Result<(), SinkError>
        requires { n < length (glyphs self.now) }
        ensures { Fed S.step (glyph_at (glyphs self.now) n) (S.stands sink.old) (S.stands sink.new) result };
}
