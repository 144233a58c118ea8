ghost use Rattle.sample_store.specs.Samples.{EndsBy, EndsWith, samples_at};
ghost use Rattle.series_marks.specs.Picks.{BeginsAt, picked_at, picked_of};
ghost use Rattle.series_marks.specs.Reads.{IsNoEarlier, Rises, edge_of, after, head_of, later_of, mark_at, mark_of, probes_of, read_at, read_of};
ghost use Rattle.std.specs.Option.{option_to_list};
ghost use Rattle.std.specs.Prelude.{◌≡◌, ◌+◌, ◌++◌, ◌<◌, ◌<ℤ◌, ◌≤◌, ◌≤ℤ◌, ℤ, None, drop, if◌then◌else◌, length, MatchOption};

use crate::advance::{advance, stands_at};
use crate::mark::Mark;
use sample_store::{Cursor, Store};
use std::sync::ledger::Ledger;
use ticks::{Ms, Work};
use xfrac::Held;

/// How many samples of a series aren't later than a time, by one search. It takes no memory.
pub fn place_behind<W: Ledger>(store: &Store, s: u32, edge: Ms, work: &mut Work<W>) -> u32
    requires there { s < length store.now }
    requires rises { Rises None (samples_at store.now s) }
    ensures later { drop result (samples_at store.now s) ≡ after edge.0 (samples_at store.now s) }
    ensures within { result ≤ length (samples_at store.now s) }
    ensures fetched { work.new.fetched ≡ work.old.fetched }
    ensures probed { work.new.probed ≤ work.old.probed + 64 }
    ensures tested { work.new.tested ≡ work.old.tested }
{
    let cursor = store.seek(s, edge, work);
    cursor.place()
}

/// A moment, or an edge that is later.
fn later(edge: Ms, m: Ms) -> Ms
    ensures { result ≡ later_of edge m }
{
    if m.0 < edge.0 { edge } else { m }
}

/// The newest sample before a cursor, where it is later than an edge.
fn newest_behind<W: Ledger>(cursor: &Cursor<'_>, edge: Ms, work: &mut Work<W>) -> Option<(Ms, Held)>
    ensures last { MatchOption result (EndsBy edge cursor.now.before) (λ x. EndsWith cursor.now.before x × edge.0 <ℤ x.0.0) }
    ensures fetched { work.new.fetched ≡ work.old.fetched + length (option_to_list result) }
    ensures probed { work.new.probed ≤ work.old.probed + 1 }
    ensures tested { work.new.tested ≡ work.old.tested }
{
    cursor.previous_after(edge, work)
}

/// The next sample, but where one stands at the moment.
fn next_unless<W: Ledger>(
    cursor: &mut Cursor<'_>,
    stands: bool,
    work: &mut Work<W>,
) -> Option<(Ms, Held)>
    ensures ahead { result ≡ (if stands then None else head_of cursor.old.rest) }
    ensures rest { option_to_list result ++ cursor.new.rest ≡ cursor.old.rest }
    ensures whole { cursor.new.before ++ cursor.new.rest ≡ cursor.old.before ++ cursor.old.rest }
    ensures fetched { work.new.fetched ≡ work.old.fetched + length (option_to_list result) }
    ensures probed { work.new.probed ≡ work.old.probed }
    ensures tested { work.new.tested ≡ work.old.tested }
{
    if stands {
        return None;
    }
    cursor.next(work)
}

/// A series' first mark: the moment is sought once, and one sample is stepped back from there, so that none but the newest one and
/// the next are fetched, however many lie behind the edge.
fn begin<W: Ledger>(store: &Store, s: u32, edge: Ms, m: Ms, work: &mut Work<W>) -> Mark
    requires there { s < length store.now }
    requires rises { Rises None (samples_at store.now s) }
    ensures mark { result ≡ mark_at edge.0 m.0 (samples_at store.now s) }
    ensures read { work.new.fetched ≤ work.old.fetched + read_at edge.0 m.0 (samples_at store.now s) }
    ensures counted { work.new.fetched ≡ work.old.fetched + picked_at edge.0 m.0 m.0 (samples_at store.now s) }
    ensures probed { work.new.probed ≤ work.old.probed + 64 }
    ensures tested { work.new.tested ≡ work.old.tested }
{
    let mut cursor = store.seek(s, later(edge, m), work);
    let last = newest_behind(&cursor, edge, work);
    let ahead = next_unless(&mut cursor, stands_at(&last, m), work);
    let place = cursor.place();
    Mark { place, last, ahead }
}

/// A series' mark at a moment that isn't earlier.
fn go_on<W: Ledger>(
    store: &Store,
    s: u32,
    mark: Mark,
    reached: (Ms, Ms),
    m: Ms,
    work: &mut Work<W>,
) -> Mark
    requires there { s < length store.now }
    requires rises { Rises None (samples_at store.now s) }
    requires mark { mark ≡ mark_at reached.0.0 reached.1.0 (samples_at store.now s) }
    requires later { reached.1.0 ≤ℤ m.0 }
    ensures mark { result ≡ mark_at reached.0.0 m.0 (samples_at store.now s) }
    ensures read { work.new.fetched + read_at reached.0.0 reached.1.0 (samples_at store.now s) ≡ work.old.fetched + read_at reached.0.0 m.0 (samples_at store.now s) }
    ensures probed { work.new.probed ≡ work.old.probed }
    ensures tested { work.new.tested ≡ work.old.tested }
{
    advance(store, s, mark, m, work)
}

/// The edge of the first moment's window. It takes no memory.
pub fn edge_since(reached: Option<(Ms, Ms)>, edge: Ms) -> Ms
    ensures { result ≡ edge_of reached edge }
{
    match reached {
        None => edge,
        Some(r) => r.0,
    }
}

/// A series' mark at a moment, from the mark at an earlier one, or from none by one search. No sample is fetched twice. It takes no
/// memory.
pub fn renewed<W: Ledger>(
    store: &Store,
    s: u32,
    mark: Mark,
    reached: Option<(Ms, Ms)>,
    edge: Ms,
    m: Ms,
    work: &mut Work<W>,
) -> Mark
    requires there { s < length store.now }
    requires rises { Rises None (samples_at store.now s) }
    requires mark { mark ≡ mark_of reached (samples_at store.now s) }
    requires later { IsNoEarlier reached m }
    ensures mark { result ≡ mark_at (edge_of reached edge).0 m.0 (samples_at store.now s) }
    ensures read { work.new.fetched + read_of reached (samples_at store.now s) ≤ work.old.fetched + read_at (edge_of reached edge).0 m.0 (samples_at store.now s) }
    ensures counted { (first : ℤ) → BeginsAt first reached m → work.new.fetched + picked_of first reached (samples_at store.now s) ≡ work.old.fetched + picked_at (edge_of reached edge).0 first m.0 (samples_at store.now s) }
    ensures probed { work.new.probed + probes_of reached ≤ work.old.probed + 64 }
    ensures tested { work.new.tested ≡ work.old.tested }
{
    match reached {
        None => begin(store, s, edge, m, work),
        Some(reached) => go_on(store, s, mark, reached, m, work),
    }
}
