ghost use Rattle.op_select.specs.Newest.{entry_shown, entry_under, marks_of, names_of, shown as value_shown, told as value_told};
ghost use Rattle.promql_meaning.specs.Selecting.{fresh_sample};
ghost use Rattle.series_marks.specs.Picks.{BeginsAt, picks_of};
ghost use Rattle.series_marks.specs.Reaches.{AreThere, reads_of, searches_of};
ghost use Rattle.series_marks.specs.Reads.{AreRising, IsNoEarlier, edge_of};
ghost use Rattle.std.specs.List.{filter_map};
ghost use Rattle.std.specs.Option.{option_to_list};
ghost use Rattle.std.specs.Prelude.{◌≡◌, ◌+◌, ◌<◌, ◌≤◌, ◌++◌, ◌∷◌, [], ℤ, Some, length, option_and_then, slice_get, OnOk};
ghost use Rattle.std.specs.Result.{result_ok};
ghost use Rattle.step_batch.specs.Lent.{IsFreeFrom, IsLater, no_marks, stages, step_of};
ghost use Rattle.window_fn.specs.Points.{in_seconds, milliseconds};

use holders::Items;
use sample_store::Store;
use series_marks::{Mark, renewed};
use std::alloc::AllocError;
use std::sync::ledger::Ledger;
use step_batch::StepBuffer;
use step_batch::laws::free_places_are_free;
use ticks::{Ms, Work};
use xfrac::{ArithOp, Held, XFrac, arith, whole};

/// A time in seconds, if that is a number within the limits.
fn seconds(time: Ms) -> Option<XFrac>
    ensures { result ≡ result_ok (in_seconds (milliseconds time.0)) }
{
    arith(ArithOp::Div, &whole(time.0), &whole(1000)).ok()
}

/// What is told of a sample that is no marker: its value, or its time in seconds.
fn told(stamped: bool, time: Ms, value: XFrac) -> Option<XFrac>
    ensures { result ≡ value_told stamped (time, value) }
{
    if stamped { seconds(time) } else { Some(value) }
}

/// The same of a sample that may be a marker, for which nothing is told.
fn told_of(stamped: bool, time: Ms, held: Held) -> Option<XFrac>
    ensures { result ≡ option_and_then (value_told stamped) (fresh_sample (time, held)) }
{
    match held {
        Held::Value(value) => told(stamped, time, value),
        Held::Stale => None,
    }
}

/// The value that a mark shows.
fn shown(stamped: bool, last: &Option<(Ms, Held)>, edge: Ms) -> Option<XFrac>
    ensures { result ≡ value_shown stamped edge.0 last.now }
{
    match last {
        None => None,
        Some(sample) => {
            if sample.0.0 > edge.0 {
                told_of(stamped, sample.0, sample.1)
            } else {
                None
            }
        }
    }
}

/// Puts a value into the last step, if there is one.
fn put_shown(buffer: &mut StepBuffer, place: usize, value: Option<XFrac>) -> Result<(), AllocError>
    requires there { place < length buffer.old.labels }
    requires free { IsFreeFrom place buffer.old }
    ensures labels { OnOk result (buffer.new.labels ≡ buffer.old.labels) }
    ensures free { OnOk result (IsFreeFrom (place + 1) buffer.new) }
    ensures later { OnOk result ((u : _) → IsLater buffer.old u → IsLater buffer.new u) }
    ensures stages { OnOk result ((names front at es : _) → slice_get buffer.old.labels place ≡ Some names → stages buffer.old ≡ front ++ record { at = at; step = step_of es no_marks } ∷ []
        → stages buffer.new ≡ front ++ record { at = at; step = step_of (es ++ option_to_list (entry_under names value)) no_marks } ∷ []) }
{
    match value {
        None => Ok(()),
        Some(value) => {
            free_places_are_free();
            buffer.put(place, value)?;
            Ok(())
        }
    }
}

/// Puts the rows of a moment into the last step.
pub fn put_rows<W: Ledger>(
    buffer: &mut StepBuffer,
    store: &Store,
    series: &[u32],
    stamped: bool,
    marks: &mut Items<Mark>,
    reached: Option<(Ms, Ms)>,
    edge: Ms,
    m: Ms,
    work: &mut Work<W>,
) -> Result<(), AllocError>
    requires begun { IsFreeFrom 0 buffer.old }
    requires labels { buffer.old.labels ≡ names_of store.now series.now }
    requires there { AreThere store.now series.now }
    requires rises { AreRising store.now }
    requires marks { marks.old ≡ marks_of reached store.now series.now }
    requires soon { IsNoEarlier reached m }
    ensures marks { OnOk result (marks.new ≡ marks_of (Some (edge_of reached edge, m)) store.now series.now) }
    ensures labels { OnOk result (buffer.new.labels ≡ buffer.old.labels) }
    ensures later { OnOk result ((u : _) → IsLater buffer.old u → IsLater buffer.new u) }
    ensures lent { OnOk result ((front at : _) → stages buffer.old ≡ front ++ record { at = at; step = step_of [] no_marks } ∷ []
        → stages buffer.new ≡ front ++ record { at = at; step = step_of (filter_map (entry_shown store.now stamped (Some (edge_of reached edge, m)) edge.0) series.now) no_marks } ∷ []) }
    ensures fetched { work.new.fetched + reads_of reached store.now series.now ≤ work.old.fetched + reads_of (Some (edge_of reached edge, m)) store.now series.now }
    ensures counted { OnOk result ((first : ℤ) → BeginsAt first reached m → work.new.fetched + picks_of first reached store.now series.now ≡ work.old.fetched + picks_of first (Some (edge_of reached edge, m)) store.now series.now) }
    ensures probed { work.new.probed + searches_of reached series.now ≤ work.old.probed + searches_of (Some (edge_of reached edge, m)) series.now }
    ensures tested { work.new.tested ≡ work.old.tested }
{
    for i in 0..series.len() {
        let mark = renewed(
            store,
            series[i],
            marks.as_slice()[i],
            reached,
            edge,
            m,
            work,
        );
        marks.replace(i, mark);
        put_shown(buffer, i, shown(stamped, &mark.last, edge))?;
    }
    Ok(())
}
