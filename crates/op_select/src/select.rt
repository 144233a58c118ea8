ghost use Rattle.op_select.specs.Newest.{AreNamed, AreOnce, marks_of, names_of, selected};
ghost use Rattle.promql_meaning.specs.Selecting.{lookback};
ghost use Rattle.series_marks.specs.Picks.{BeginsWith, picks_of};
ghost use Rattle.series_marks.specs.Reaches.{AreThere, Follow, IsReached, IsSoon, reach, reach_all, reads_of, searches_of, window_edge};
ghost use Rattle.series_marks.specs.Reads.{AreRising, blank};
ghost use Rattle.step_batch.specs.Lent.{IsLater, stages};
ghost use Rattle.step_batch.specs.LentWindows.{TimesRise};
ghost use Rattle.ticks.specs.Walks.{IsTime, moment_at};
ghost use Rattle.std.specs.List.{IsDistinct};
ghost use Rattle.std.specs.Map.{keys_of};
ghost use Rattle.label_set.specs.LabelEquality.{labels_eq};
ghost use Rattle.std.specs.Prelude.{◌≡◌, ◌+◌, ◌-ℤ◌, ◌<ℤ◌, ◌≤◌, ◌++◌, ◌∷◌, [], ℤ, None, Some, map, OnOk, IfOk};

use crate::rows::put_rows;
use holders::Items;
use sample_store::Store;
use series_marks::{Mark, edge_since};
use std::alloc::{AllocError, Global};
use std::sync::ledger::Ledger;
use step_batch::{Batch, StepBuffer};
use ticks::{Ms, WalkMoment, Work, last_before};

/// How far back an evaluation looks for a sample, in milliseconds.
const LOOKBACK: i64 = 300_000;

/// The newest rows of series. Its marks are where it has come to in each series; the first window's edge and the last
/// moment are what it has reached.
#[derive(Drop)]
pub struct Select {
    series: Items<u32>,
    moment: WalkMoment,
    stamped: bool,
    marks: Items<Mark>,
    reached: Option<(Ms, Ms)>,
    buffer: StepBuffer,
}

/// The moment that belongs to an instant.
fn moment_of(moment: &WalkMoment, t: Ms) -> Ms
    requires { IsTime (moment_at moment.now t.0) }
    ensures { result ≡ record { 0 = moment_at moment.now t.0 } }
{
    Ms(moment.at(t))
}

/// The last time before the window of a moment.
fn edge_of_window(m: Ms, closed: bool) -> Ms
    requires { IsTime (m.0 -ℤ lookback) }
    ensures { result ≡ record { 0 = window_edge closed lookback m.0 } }
{
    last_before(Ms(m.0 - LOOKBACK), closed)
}

/// Names the labels of the series by their places in the list.
fn name_all(buffer: &mut StepBuffer, store: &Store, series: &[u32]) -> Result<(), AllocError>
    requires there { AreThere store.now series.now }
    requires once { AreOnce series.now }
    requires distinct { IsDistinct labels_eq (keys_of store.now) }
    requires empty { buffer.old ≡ record { labels = []; steps = [] } }
    ensures { OnOk result (buffer.new ≡ record { labels = names_of store.now series.now; steps = [] }) }
{
    for s in series {
        buffer.place(store.labels(*s))?;
    }
    Ok(())
}

/// Takes the steps of the last feed out. Before the first one the labels of the series get their places, which they keep.
fn make_ready(
    buffer: &mut StepBuffer,
    reached: &Option<(Ms, Ms)>,
    store: &Store,
    series: &[u32],
) -> Result<(), AllocError>
    requires there { AreThere store.now series.now }
    requires once { AreOnce series.now }
    requires distinct { IsDistinct labels_eq (keys_of store.now) }
    requires named { AreNamed reached.now buffer.old.labels store.now series.now }
    ensures { OnOk result (buffer.new ≡ record { labels = names_of store.now series.now; steps = [] }) }
{
    match reached {
        Some(_) => {
            buffer.renew();
            Ok(())
        }
        None => {
            buffer.clear();
            name_all(buffer, store, series)
        }
    }
}

/// A mark for each series, of a kernel that hasn't begun.
fn blank_marks(alloc: Global, series: &[u32]) -> Result<Items<Mark>, AllocError>
    ensures { IfOk result (λ marks. marks ≡ map (λ _. blank) series.now) }
{
    let mut marks = Items::with_capacity(alloc, series.len())?;
    for _s in series {
        marks.push(Mark {
            place: 0,
            last: None,
            ahead: None,
        })?;
    }
    Ok(marks)
}

impl Select {
    /// The kernel of these series, before its first instant. The only error is want of memory.
    pub fn new(
        alloc: Global,
        series: Items<u32>,
        moment: WalkMoment,
        stamped: bool,
    ) -> Result<Select, AllocError>
        ensures series { IfOk result (λ k. k.series ≡ series) }
        ensures moment { IfOk result (λ k. k.moment ≡ moment) }
        ensures stamped { IfOk result (λ k. k.stamped ≡ stamped) }
        ensures fresh { IfOk result (λ k. k.reached ≡ None) }
        ensures marks { IfOk result (λ k. (store : _) → k.marks ≡ marks_of k.reached store k.series) }
        ensures lent { IfOk result (λ k. stages k.buffer ≡ []) }
    {
        let marks = blank_marks(alloc, series.as_slice())?;
        Ok(Select {
            series,
            moment,
            stamped,
            marks,
            reached: None,
            buffer: StepBuffer::new(alloc),
        })
    }

    /// Lends the steps of the instants that were fed last. It takes no memory.
    pub fn lend(&self) -> Batch<'_>
        ensures { result ≡ self.now.buffer }
    {
        self.buffer.lend()
    }

    /// The step of one more instant.
    fn step<W: Ledger>(
        &mut self,
        store: &Store,
        t: Ms,
        work: &mut Work<W>,
    ) -> Result<(), AllocError>
        requires there { AreThere store.now self.old.series }
        requires rises { AreRising store.now }
        requires marks { self.old.marks ≡ marks_of self.old.reached store.now self.old.series }
        requires labels { self.old.buffer.labels ≡ names_of store.now self.old.series }
        requires reached { IsReached self.old.moment.closed lookback self.old.reached }
        requires soon { IsSoon lookback self.old.reached self.old.moment t }
        requires later { IsLater self.old.buffer t }
        ensures series { self.new.series ≡ self.old.series }
        ensures moment { self.new.moment ≡ self.old.moment }
        ensures stamped { self.new.stamped ≡ self.old.stamped }
        ensures reached { OnOk result (self.new.reached ≡ reach lookback self.old.reached self.old.moment t) }
        ensures edge { OnOk result (IsReached self.old.moment.closed lookback self.new.reached) }
        ensures marks { OnOk result (self.new.marks ≡ marks_of self.new.reached store.now self.old.series) }
        ensures labels { OnOk result (self.new.buffer.labels ≡ self.old.buffer.labels) }
        ensures later { OnOk result ((u : _) → t.0 <ℤ u.0 → IsLater self.new.buffer u) }
        ensures lent { OnOk result (stages self.new.buffer ≡ stages self.old.buffer ++ selected store.now self.old.series self.old.moment self.old.stamped t ∷ []) }
        ensures fetched { work.new.fetched + reads_of self.old.reached store.now self.old.series ≤ work.old.fetched + reads_of (reach lookback self.old.reached self.old.moment t) store.now self.old.series }
        ensures counted { OnOk result ((first : ℤ) → BeginsWith first self.old.reached self.old.moment (t ∷ [])
            → work.new.fetched + picks_of first self.old.reached store.now self.old.series ≡ work.old.fetched + picks_of first (reach lookback self.old.reached self.old.moment t) store.now self.old.series) }
        ensures probed { work.new.probed + searches_of self.old.reached self.old.series ≤ work.old.probed + searches_of (reach lookback self.old.reached self.old.moment t) self.old.series }
        ensures tested { work.new.tested ≡ work.old.tested }
    {
        let m = moment_of(&self.moment, t);
        let edge = edge_of_window(m, self.moment.closed);
        let reached = self.reached;
        self.buffer.begin(t)?;
        put_rows(
            &mut self.buffer,
            store,
            self.series.as_slice(),
            self.stamped,
            &mut self.marks,
            reached,
            edge,
            m,
            work,
        )?;
        self.reached = Some((edge_since(reached, edge), m));
        Ok(())
    }

    /// Makes the steps of more instants, later than those that were fed before, and takes out those of the last feed. In all
    /// feeds of one kernel the store holds the same; a number stands once in its series, and is one of the store's; the
    /// moments don't fall. The only error is want of memory; then the kernel can't be fed again.
    pub fn feed<W: Ledger>(
        &mut self,
        store: &Store,
        at: &[Ms],
        work: &mut Work<W>,
    ) -> Result<(), AllocError>
        requires there { AreThere store.now self.old.series }
        requires once { AreOnce self.old.series }
        requires marks { self.old.marks ≡ marks_of self.old.reached store.now self.old.series }
        requires labels { AreNamed self.old.reached self.old.buffer.labels store.now self.old.series }
        requires reached { IsReached self.old.moment.closed lookback self.old.reached }
        requires follow { Follow lookback self.old.reached self.old.moment at.now }
        requires instants { TimesRise at.now }
        ensures series { self.new.series ≡ self.old.series }
        ensures moment { self.new.moment ≡ self.old.moment }
        ensures stamped { self.new.stamped ≡ self.old.stamped }
        ensures reached { OnOk result (self.new.reached ≡ reach_all lookback self.old.reached self.old.moment at.now) }
        ensures marks { OnOk result (self.new.marks ≡ marks_of self.new.reached store.now self.old.series) }
        ensures labels { OnOk result (self.new.buffer.labels ≡ names_of store.now self.old.series) }
        ensures edge { OnOk result (IsReached self.old.moment.closed lookback self.new.reached) }
        ensures lent { OnOk result (stages self.new.buffer ≡ map (selected store.now self.old.series self.old.moment self.old.stamped) at.now) }
        ensures fetched { work.new.fetched + reads_of self.old.reached store.now self.old.series ≤ work.old.fetched + reads_of (reach_all lookback self.old.reached self.old.moment at.now) store.now self.old.series }
        ensures counted { OnOk result ((first : ℤ) → BeginsWith first self.old.reached self.old.moment at.now
            → work.new.fetched + picks_of first self.old.reached store.now self.old.series ≡ work.old.fetched + picks_of first (reach_all lookback self.old.reached self.old.moment at.now) store.now self.old.series) }
        ensures probed { work.new.probed + searches_of self.old.reached self.old.series ≤ work.old.probed + searches_of (reach_all lookback self.old.reached self.old.moment at.now) self.old.series }
        ensures tested { work.new.tested ≡ work.old.tested }
    {
        let _ = store.series();
        make_ready(
            &mut self.buffer,
            &self.reached,
            store,
            self.series.as_slice(),
        )?;
        for t in at {
            self.step(store, *t, work)?;
        }
        Ok(())
    }
}
