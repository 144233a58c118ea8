//! All series go to the window of an instant.
ghost use Rattle.op_window.specs.Sliding.{IsSpan, all_walked};
ghost use Rattle.series_marks.specs.Reaches.{AreThere, IsReached, reads_of, searches_of};
ghost use Rattle.series_marks.specs.Reads.{AreRising, IsNoEarlier, edge_of};
ghost use Rattle.std.specs.Prelude.{◌≡◌, ◌+◌, ◌≤◌, None, Some, IfOk, OnOk};

use crate::renew::{SeriesWindow, Span, blank_window, renewed};
use func_table::Window;
use sample_store::Store;
use std::alloc::{AllocError, Global};
use std::sync::ledger::Ledger;
use ticks::{Ms, Work};

/// Series before their first instant. The only error is want of memory.
pub(crate) fn blank_windows(
    alloc: Global,
    f: Window,
    series: &[u32],
) -> Result<Vec<SeriesWindow>, AllocError>
    ensures { IfOk result (λ walked. (closed : _) (range : _) (store : _) → walked.items ≡ all_walked closed range None store series.now) }
{
    let mut walked = Vec::with_capacity(alloc, series.len())?;
    for _s in series {
        walked.push(blank_window(alloc, f))?;
    }
    Ok(walked)
}

/// The windows of series at a span, from those at an earlier one. The only error is want of memory; then the series may be at
/// different instants.
pub(crate) fn renew_all<W: Ledger>(
    walked: &mut Vec<SeriesWindow>,
    store: &Store,
    series: &[u32],
    reached: Option<(Ms, Ms)>,
    span: Span,
    work: &mut Work<W>,
) -> Result<(), AllocError>
    requires there { AreThere store.now series.now }
    requires rises { AreRising store.now }
    requires was { walked.old.items ≡ all_walked span.closed span.range.0 reached store.now series.now }
    requires begun { IsReached span.closed span.range.0 reached }
    requires later { IsNoEarlier reached span.moment }
    requires span { IsSpan span }
    ensures now { OnOk result (walked.new.items ≡ all_walked span.closed span.range.0 (Some (edge_of reached span.edge, span.moment)) store.now series.now) }
    ensures fetched { work.new.fetched + reads_of reached store.now series.now ≤ work.old.fetched + reads_of (Some (edge_of reached span.edge, span.moment)) store.now series.now }
    ensures counted { OnOk result (work.new.fetched + reads_of reached store.now series.now ≡ work.old.fetched + reads_of (Some (edge_of reached span.edge, span.moment)) store.now series.now) }
    ensures probed { work.new.probed + searches_of reached series.now ≤ work.old.probed + searches_of (Some (edge_of reached span.edge, span.moment)) series.now }
    ensures tested { work.new.tested ≡ work.old.tested }
{
    for i in 0..series.len() {
        renewed(store, series[i], &mut walked[i], reached, span, work)?;
    }
    Ok(())
}
