//! The samples of a series up to a moment are put behind those of its window, each fetched once.
ghost use Rattle.op_window.specs.Sliding.{with_samples};
ghost use Rattle.promql_meaning.specs.Selecting.{fresh_sample};
ghost use Rattle.sample_store.specs.Samples.{samples_at};
ghost use Rattle.series_marks.specs.Reads.{Rises, Spares, after, ahead_of, coming, last_of, until};
ghost use Rattle.std.specs.List.{filter_map};
ghost use Rattle.std.specs.Option.{option_to_list};
ghost use Rattle.std.specs.Prelude.{◌≡◌, ◌+◌, ◌<◌, ◌≤◌, ◌∷◌, [], length, drop, IfOk, OnOk, OnErr};

use op_running::RunningWindow;
use sample_store::Store;
use series_marks::{Mark, resumed, stands_at};
use std::alloc::AllocError;
use std::sync::ledger::Ledger;
use ticks::{Ms, Work};
use xfrac::Held;

/// Puts a sample behind the others, unless it is a marker.
fn put_fresh(slices: &mut RunningWindow, time: Ms, held: Held) -> Result<(), AllocError>
    ensures { OnOk result (slices.new ≡ with_samples slices.old (filter_map fresh_sample ((time, held) ∷ []))) }
{
    match held {
        Held::Value(value) => {
            slices.push(time, value)?;
            Ok(())
        }
        Held::Stale => Ok(()),
    }
}

/// Goes on from a place up to a moment; behind a sample that stands there none is fetched.
fn fill_on<W: Ledger>(
    store: &Store,
    s: u32,
    place: u32,
    start: Option<(Ms, Held)>,
    m: Ms,
    slices: &mut RunningWindow,
    work: &mut Work<W>,
) -> Result<Mark, AllocError>
    requires there { s < length store.now }
    requires within { place ≤ length (samples_at store.now s) }
    requires rises { Rises start (drop place (samples_at store.now s)) }
    ensures last { IfOk result (λ mark. mark.last ≡ last_of m.0 (drop place (samples_at store.now s)) start) }
    ensures coming { IfOk result (λ mark. coming (samples_at store.now s) mark ≡ after m.0 (drop place (samples_at store.now s))) }
    ensures ahead { IfOk result (λ mark. mark.ahead ≡ ahead_of m.0 mark.last (coming (samples_at store.now s) mark)) }
    ensures within { IfOk result (λ mark. mark.place ≤ length (samples_at store.now s)) }
    ensures read { IfOk result (λ mark. work.new.fetched + place ≡ work.old.fetched + mark.place) }
    ensures err { OnErr result (work.new.fetched ≤ work.old.fetched + length (until m.0 (drop place (samples_at store.now s)))) }
    ensures probed { work.new.probed ≡ work.old.probed }
    ensures tested { work.new.tested ≡ work.old.tested }
    ensures filled { OnOk result (slices.new ≡ with_samples slices.old (filter_map fresh_sample (until m.0 (drop place (samples_at store.now s))))) }
{
    let mut rest = resumed(store, s, place);
    let mut last = start;
    while !stands_at(&last, m) {
        match rest.next(work) {
            None => {
                let place = rest.place();
                return Ok(Mark {
                    place,
                    last,
                    ahead: None,
                });
            }
            Some((time, held)) => {
                let sample = (time, held);
                if time.0 > m.0 {
                    let place = rest.place();
                    return Ok(Mark {
                        place,
                        last,
                        ahead: Some(sample),
                    });
                }
                put_fresh(slices, time, sample.1)?;
                last = Some(sample);
            }
        }
    }
    let place = rest.place();
    Ok(Mark {
        place,
        last,
        ahead: None,
    })
}

/// Goes on from a mark up to a moment. A sample that is later is kept for the next one.
pub(crate) fn fill<W: Ledger>(
    store: &Store,
    s: u32,
    mark: Mark,
    m: Ms,
    slices: &mut RunningWindow,
    work: &mut Work<W>,
) -> Result<Mark, AllocError>
    requires there { s < length store.now }
    requires within { mark.place ≤ length (samples_at store.now s) }
    requires rises { Rises mark.last (coming (samples_at store.now s) mark) }
    requires spares { Spares m.0 mark.last mark.ahead }
    ensures last { IfOk result (λ to. to.last ≡ last_of m.0 (coming (samples_at store.now s) mark) mark.last) }
    ensures coming { IfOk result (λ to. coming (samples_at store.now s) to ≡ after m.0 (coming (samples_at store.now s) mark)) }
    ensures ahead { IfOk result (λ to. to.ahead ≡ ahead_of m.0 to.last (coming (samples_at store.now s) to)) }
    ensures within { IfOk result (λ to. to.place ≤ length (samples_at store.now s)) }
    ensures read { IfOk result (λ to. work.new.fetched + mark.place ≡ work.old.fetched + to.place) }
    ensures err { OnErr result (work.new.fetched + length (option_to_list mark.ahead) ≤ work.old.fetched + length (until m.0 (coming (samples_at store.now s) mark))) }
    ensures probed { work.new.probed ≡ work.old.probed }
    ensures tested { work.new.tested ≡ work.old.tested }
    ensures filled { OnOk result (slices.new ≡ with_samples slices.old (filter_map fresh_sample (until m.0 (coming (samples_at store.now s) mark)))) }
{
    let Mark { place, last, ahead } = mark;
    match ahead {
        None => {
            let to = fill_on(store, s, place, last, m, slices, work)?;
            Ok(to)
        }
        Some(kept) => {
            if kept.0.0 > m.0 {
                return Ok(Mark {
                    place,
                    last,
                    ahead: Some(kept),
                });
            }
            put_fresh(slices, kept.0, kept.1)?;
            let to = fill_on(store, s, place, Some(kept), m, slices, work)?;
            Ok(to)
        }
    }
}
