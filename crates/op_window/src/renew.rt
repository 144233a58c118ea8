//! The window of a series goes from one moment to a later one.
ghost use Rattle.op_window.specs.Sliding.{IsSpan, columns_of, walked_at, window_of, with_samples};
ghost use Rattle.promql_meaning.specs.Selecting.{fresh_sample, window};
ghost use Rattle.sample_store.specs.Samples.{samples_at};
ghost use Rattle.series_marks.specs.Reaches.{IsReached};
ghost use Rattle.series_marks.specs.Reads.{IsNoEarlier, Rises, after, edge_of, mark_at, mark_of, probes_of, read_at, read_of, until};
ghost use Rattle.std.specs.List.{filter_map};
ghost use Rattle.std.specs.Prelude.{◌≡◌, ◌+◌, ◌<◌, ◌≤◌, ◌≤ℤ◌, [], None, Some, length, IfOk, OnOk, OnErr};

use crate::fill::fill;
use func_table::Window;
use op_running::RunningWindow;
use sample_store::Store;
use series_marks::{Mark, place_behind};
use std::alloc::{AllocError, Global};
use std::sync::ledger::Ledger;
use ticks::{Ms, Work};

/// The window of an instant: it ends at its moment and has a length in milliseconds; whether its left edge is a part of it, and
/// the last time before it.
#[derive(Clone, Copy, Debug)]
pub(crate) struct Span {
    pub moment: Ms,
    pub range: Ms,
    pub closed: bool,
    pub edge: Ms,
}

/// Where a series has come to, and its window there without markers of staleness.
#[derive(Drop)]
pub(crate) struct SeriesWindow {
    pub mark: Mark,
    pub samples: RunningWindow,
}

/// A series before its first instant, for a function of its window. It takes no memory.
pub(crate) fn blank_window(alloc: Global, f: Window) -> SeriesWindow
    ensures { (closed : _) (range : _) (samples : _) → result ≡ walked_at closed range None samples }
{
    SeriesWindow {
        mark: Mark {
            place: 0,
            last: None,
            ahead: None,
        },
        samples: RunningWindow::new(alloc, f),
    }
}

/// A series' first mark: it is sought once, and its samples behind the edge are read.
fn begin<W: Ledger>(
    store: &Store,
    s: u32,
    edge: Ms,
    m: Ms,
    slices: &mut RunningWindow,
    work: &mut Work<W>,
) -> Result<Mark, AllocError>
    requires there { s < length store.now }
    requires rises { Rises None (samples_at store.now s) }
    ensures mark { IfOk result (λ mark. mark ≡ mark_at edge.0 m.0 (samples_at store.now s)) }
    ensures window { OnOk result (slices.new ≡ with_samples slices.old (filter_map fresh_sample (until m.0 (after edge.0 (samples_at store.now s))))) }
    ensures read { OnOk result (work.new.fetched ≡ work.old.fetched + read_at edge.0 m.0 (samples_at store.now s)) }
    ensures err { OnErr result (work.new.fetched ≤ work.old.fetched + read_at edge.0 m.0 (samples_at store.now s)) }
    ensures probed { work.new.probed ≤ work.old.probed + 64 }
    ensures tested { work.new.tested ≡ work.old.tested }
{
    let place = place_behind(store, s, edge, work);
    let mark = Mark {
        place,
        last: None,
        ahead: None,
    };
    let to = fill(store, s, mark, m, slices, work)?;
    Ok(to)
}

/// A series' mark at a moment that isn't earlier, and the samples on the way there.
fn go_on<W: Ledger>(
    store: &Store,
    s: u32,
    mark: Mark,
    reached: (Ms, Ms),
    m: Ms,
    slices: &mut RunningWindow,
    work: &mut Work<W>,
) -> Result<Mark, AllocError>
    requires there { s < length store.now }
    requires rises { Rises None (samples_at store.now s) }
    requires mark { mark ≡ mark_at reached.0.0 reached.1.0 (samples_at store.now s) }
    requires later { reached.1.0 ≤ℤ m.0 }
    ensures mark { IfOk result (λ to. to ≡ mark_at reached.0.0 m.0 (samples_at store.now s)) }
    ensures window { OnOk result (slices.new ≡ with_samples slices.old (filter_map fresh_sample (until m.0 (after reached.1.0 (after reached.0.0 (samples_at store.now s)))))) }
    ensures read { OnOk result (work.new.fetched + read_at reached.0.0 reached.1.0 (samples_at store.now s) ≡ work.old.fetched + read_at reached.0.0 m.0 (samples_at store.now s)) }
    ensures err { OnErr result (work.new.fetched + read_at reached.0.0 reached.1.0 (samples_at store.now s) ≤ work.old.fetched + read_at reached.0.0 m.0 (samples_at store.now s)) }
    ensures probed { work.new.probed ≡ work.old.probed }
    ensures tested { work.new.tested ≡ work.old.tested }
{
    let to = fill(store, s, mark, m, slices, work)?;
    Ok(to)
}

/// A series' mark at the moment of a span, and the samples that come there; those before the span are let go.
fn renew<W: Ledger>(
    store: &Store,
    s: u32,
    mark: Mark,
    reached: Option<(Ms, Ms)>,
    span: Span,
    slices: &mut RunningWindow,
    work: &mut Work<W>,
) -> Result<Mark, AllocError>
    requires there { s < length store.now }
    requires rises { Rises None (samples_at store.now s) }
    requires mark { mark ≡ mark_of reached (samples_at store.now s) }
    requires window { slices.old ≡ columns_of (window_of span.closed span.range.0 reached (samples_at store.now s)) }
    requires begun { IsReached span.closed span.range.0 reached }
    requires later { IsNoEarlier reached span.moment }
    requires span { IsSpan span }
    ensures mark { IfOk result (λ to. to ≡ mark_of (Some (edge_of reached span.edge, span.moment)) (samples_at store.now s)) }
    ensures window { OnOk result (slices.new ≡ columns_of (window span.closed span.moment.0 span.range.0 (samples_at store.now s))) }
    ensures read { work.new.fetched + read_of reached (samples_at store.now s) ≤ work.old.fetched + read_of (Some (edge_of reached span.edge, span.moment)) (samples_at store.now s) }
    ensures counted { OnOk result (work.new.fetched + read_of reached (samples_at store.now s) ≡ work.old.fetched + read_of (Some (edge_of reached span.edge, span.moment)) (samples_at store.now s)) }
    ensures probed { work.new.probed + probes_of reached ≤ work.old.probed + 64 }
    ensures tested { work.new.tested ≡ work.old.tested }
{
    match reached {
        None => {
            let to = begin(store, s, span.edge, span.moment, slices, work)?;
            // a window that no other one follows isn't worth counting
            slices.forget(span.edge);
            Ok(to)
        }
        Some(reached) => {
            let to = go_on(store, s, mark, reached, span.moment, slices, work)?;
            slices.forget(span.edge);
            slices.settle()?;
            Ok(to)
        }
    }
}

/// Goes on with the window of a series to a span, from an earlier one, or from none by one search. Each sample is fetched once, and
/// no window is moved. The only error is want of memory.
pub(crate) fn renewed<W: Ledger>(
    store: &Store,
    s: u32,
    window: &mut SeriesWindow,
    reached: Option<(Ms, Ms)>,
    span: Span,
    work: &mut Work<W>,
) -> Result<(), AllocError>
    requires there { s < length store.now }
    requires rises { Rises None (samples_at store.now s) }
    requires was { window.old ≡ walked_at span.closed span.range.0 reached (samples_at store.now s) }
    requires begun { IsReached span.closed span.range.0 reached }
    requires later { IsNoEarlier reached span.moment }
    requires span { IsSpan span }
    ensures now { OnOk result (window.new ≡ walked_at span.closed span.range.0 (Some (edge_of reached span.edge, span.moment)) (samples_at store.now s)) }
    ensures read { work.new.fetched + read_of reached (samples_at store.now s) ≤ work.old.fetched + read_of (Some (edge_of reached span.edge, span.moment)) (samples_at store.now s) }
    ensures counted { OnOk result (work.new.fetched + read_of reached (samples_at store.now s) ≡ work.old.fetched + read_of (Some (edge_of reached span.edge, span.moment)) (samples_at store.now s)) }
    ensures probed { work.new.probed + probes_of reached ≤ work.old.probed + 64 }
    ensures tested { work.new.tested ≡ work.old.tested }
{
    let mark = renew(
        store,
        s,
        window.mark,
        reached,
        span,
        &mut window.samples,
        work,
    )?;
    window.mark = mark;
    Ok(())
}
