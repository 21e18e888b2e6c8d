// A list of calls from the opening of a set on, granted or refused, with compiles among them, all to one sink.
ghost use Rattle.std.specs.Prelude.{◌≡◌, length};
ghost use Rattle.sets.specs.OfSet.{account_of};
ghost use Rattle.gvar.specs.Runs.{Made, RunNoted, Replayed};

use super::compile::compile;
use super::requests::{Granted, Reply, Request};
use counts::cells::CountCell;
use sets::axis::AxisCount;
use sets::set::Set;
use sets::stores::Stores;
use write::sink::Sink;

// Makes one call.
fn make<S: Sink>(
    set: &mut Set<'_>,
    request: &Request<'_>,
    cells: &mut [CountCell],
    sink: &mut S,
) -> Reply
    ensures made { Made S.step (length cells.old) (account_of set.old) (record { request = request.entry.now; reply = result; sink = S.stands sink.old; sink' = S.stands sink.new }) (account_of set.new) }
    ensures cells { length cells.new ≡ length cells.old }
{
    match *request {
        Request::Glyph(n) => set.glyph(n).map(|()| Granted::Accepted),
        Request::Variation(tents, deltas) => set
            .variation(tents, deltas)
            .map(|()| Granted::Accepted),
        Request::Compile => compile(&*set, cells, sink).map(Granted::Table),
    }
}

// Makes the calls in order, as far as there is room for the replies.
fn make_all<S: Sink>(
    set: &mut Set<'_>,
    requests: &[Request<'_>],
    replies: &mut [Reply],
    cells: &mut [CountCell],
    sink: &mut S,
)
    ensures { RunNoted S.step (length cells.old) requests.now replies.new (account_of set.old) (S.stands sink.old) (account_of set.new) (S.stands sink.new) }
{
    let n = requests.len().min(replies.len());
    for (i, request) in requests[..n].iter().enumerate() {
        replies[i] = make(set, request, cells, sink);
    }
}

// Opens a set and makes the calls of a list in order, granted or refused, as far as there is room for the replies.
pub fn replay<'a, S: Sink>(
    axes: AxisCount,
    lent: Stores<'a>,
    requests: &[Request<'_>],
    replies: &mut [Reply],
    cells: &mut [CountCell],
    sink: &mut S,
) -> Set<'a>
    ensures { Replayed S.step (length cells.old) axes.count (record { glyph = length lent.entry.glyphs.now; variation = length lent.entry.variations.now; axis = length lent.entry.values.now; delta = length lent.entry.deltas.now }) requests.now replies.new (S.stands sink.old) (account_of result) (S.stands sink.new) }
{
    let mut set = Set::open(axes, lent);
    make_all(&mut set, requests, replies, cells, sink);
    set
}
