ghost use Rattle.sample_store.specs.Samples.{samples_at};
ghost use Rattle.series_marks.specs.Reads.{Rises, Spares, after, ahead_of, coming, last_of, stands_at};
ghost use Rattle.std.specs.Prelude.{◌≡◌, ◌+◌, ◌<◌, ◌≤◌, length, drop};

use crate::mark::Mark;
use sample_store::{Cursor, Store};
use std::sync::ledger::Ledger;
use ticks::{Ms, Work};
use xfrac::Held;

/// Whether a sample stands at a moment. It takes no memory.
pub fn stands_at(last: &Option<(Ms, Held)>, m: Ms) -> bool
    ensures { result ≡ stands_at m.0 last.now }
{
    match last {
        None => false,
        Some(sample) => sample.0.0 == m.0,
    }
}

/// The cursor of a series before which so many samples lie. It takes no memory, and counts nothing.
pub fn resumed(store: &Store, s: u32, place: u32) -> Cursor<'_>
    requires there { s < length store.now }
    requires within { place ≤ length (samples_at store.now s) }
    ensures place { length result.before ≡ place }
    ensures rest { result.rest ≡ drop place (samples_at store.now s) }
{
    store.resume(s, place)
}

/// Goes on from a place up to a moment; behind a sample that stands there none is fetched.
fn read_on<W: Ledger>(
    store: &Store,
    s: u32,
    place: u32,
    start: Option<(Ms, Held)>,
    m: Ms,
    work: &mut Work<W>,
) -> Mark
    requires there { s < length store.now }
    requires within { place ≤ length (samples_at store.now s) }
    requires rises { Rises start (drop place (samples_at store.now s)) }
    ensures last { result.last ≡ last_of m.0 (drop place (samples_at store.now s)) start }
    ensures coming { coming (samples_at store.now s) result ≡ after m.0 (drop place (samples_at store.now s)) }
    ensures ahead { result.ahead ≡ ahead_of m.0 result.last (coming (samples_at store.now s) result) }
    ensures within { result.place ≤ length (samples_at store.now s) }
    ensures read { work.new.fetched + place ≡ work.old.fetched + result.place }
    ensures probed { work.new.probed ≡ work.old.probed }
    ensures tested { work.new.tested ≡ work.old.tested }
{
    let mut rest = resumed(store, s, place);
    let mut last = start;
    while !stands_at(&last, m) {
        match rest.next(work) {
            None => {
                let place = rest.place();
                return Mark {
                    place,
                    last,
                    ahead: None,
                };
            }
            Some((time, held)) => {
                let sample = (time, held);
                if time.0 > m.0 {
                    let place = rest.place();
                    return Mark {
                        place,
                        last,
                        ahead: Some(sample),
                    };
                }
                last = Some(sample);
            }
        }
    }
    let place = rest.place();
    Mark {
        place,
        last,
        ahead: None,
    }
}

/// Goes on from a mark up to a moment. A sample that is later is kept for the next one.
pub(crate) fn advance<W: Ledger>(
    store: &Store,
    s: u32,
    mark: Mark,
    m: Ms,
    work: &mut Work<W>,
) -> Mark
    requires there { s < length store.now }
    requires within { mark.place ≤ length (samples_at store.now s) }
    requires rises { Rises mark.last (coming (samples_at store.now s) mark) }
    requires spares { Spares m.0 mark.last mark.ahead }
    ensures last { result.last ≡ last_of m.0 (coming (samples_at store.now s) mark) mark.last }
    ensures coming { coming (samples_at store.now s) result ≡ after m.0 (coming (samples_at store.now s) mark) }
    ensures ahead { result.ahead ≡ ahead_of m.0 result.last (coming (samples_at store.now s) result) }
    ensures within { result.place ≤ length (samples_at store.now s) }
    ensures read { work.new.fetched + mark.place ≡ work.old.fetched + result.place }
    ensures probed { work.new.probed ≡ work.old.probed }
    ensures tested { work.new.tested ≡ work.old.tested }
{
    let Mark { place, last, ahead } = mark;
    match ahead {
        None => read_on(store, s, place, last, m, work),
        Some(kept) => {
            if kept.0.0 > m.0 {
                return Mark {
                    place,
                    last,
                    ahead: Some(kept),
                };
            }
            read_on(store, s, place, Some(kept), m, work)
        }
    }
}
