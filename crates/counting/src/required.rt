// Whether two variations store the same points, and a hash of these.
ghost use Rattle.std.specs.Prelude.{◌≡◌, ◌<◌, ◌≤◌, length, if◌then◌else◌, fold, nat_eq};
ghost use Rattle.format.specs.Bytes.{same_list};
ghost use Rattle.format.specs.Glyphs.{required_from, same_points};
ghost use Rattle.variations.specs.Deltas.{deltas_of};
ghost use Rattle.tuples.specs.Choice.{kept_points};
ghost use Rattle.counting.specs.PointSets.{mix_point, hash_of, required_at};

use counts::hash::Hash;
use sets::view::GlyphDeltas;
use variations::delta::GlyphDelta;

// Whether point i is required; none past the last is.
fn is_required(deltas: &[GlyphDelta], i: usize) -> bool
    ensures { result ≡ required_at deltas.now i }
{
    deltas.get(i).is_some_and(|delta| delta.required)
}

// Whether the same points are required of both.
fn same_required(a: &[GlyphDelta], b: &[GlyphDelta]) -> bool
    ensures { result ≡ same_list nat_eq (required_from 0 (deltas_of a.now)) (required_from 0 (deltas_of b.now)) }
{
    let n = a.len().max(b.len());
    (0..n).all(|i| is_required(a, i) == is_required(b, i))
}

// Whether two variations store the same points, where each stores all or the required ones.
pub(crate) fn same_stored(a: &GlyphDeltas<'_>, b: &GlyphDeltas<'_>) -> bool
    ensures { result ≡ same_points (kept_points a.now.stored.all (deltas_of a.now.deltas.now)) (kept_points b.now.stored.all (deltas_of b.now.deltas.now)) }
{
    match (a.stored.all, b.stored.all) {
        (true, true) => true,
        (false, false) => same_required(a.deltas, b.deltas),
        _ => false,
    }
}

// The hash with point i mixed in, as 1 more, where it is required.
fn mixed(hash: Hash, i: usize, required: bool) -> Hash
    requires { i < 65535 }
    ensures { result.state ≡ (if required then mix_point hash.state i else hash.state) }
{
    if required {
        hash.mix(i as u16 + 1)
    } else {
        hash
    }
}

fn hash_required(deltas: &[GlyphDelta]) -> u32
    requires { length deltas.now ≤ 32767 }
    ensures { result ≡ fold mix_point 0 (required_from 0 (deltas_of deltas.now)) }
{
    let mut hash = Hash::new();
    for (i, delta) in deltas.iter().enumerate() {
        hash = mixed(hash, i, delta.required);
    }
    hash.value()
}

// The hash of the points that a variation stores: all, or the required ones.
pub(crate) fn hash_stored(variation: &GlyphDeltas<'_>) -> u32
    requires { length variation.now.deltas.now ≤ 32767 }
    ensures { result ≡ hash_of (kept_points variation.now.stored.all (deltas_of variation.now.deltas.now)) }
{
    if variation.stored.all {
        return 0;
    }
    hash_required(variation.deltas)
}
