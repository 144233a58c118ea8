//! The kernel.
ghost use Rattle.either.specs.Either.{MatchEither};
ghost use Rattle.op_window.specs.Feeds.{CanFeedStore, CanFeedWindows, HasReached};
ghost use Rattle.op_window.specs.Rules.{by_scalar, fed_by, frame_at, names_of, rows_of_series, windowed_at, windows_of_lent, windows_of_series};
ghost use Rattle.op_window.specs.Sliding.{named_once, span_at, walked_of};
ghost use Rattle.series_marks.specs.Reaches.{AreThere, IsReached, IsSoon, reach, reach_all, reads_of, searches_of};
ghost use Rattle.series_marks.specs.Reads.{AreRising};
ghost use Rattle.std.specs.Prelude.{◌≡◌, ◌+◌, ◌<ℤ◌, ◌≤◌, ◌++◌, ◌∷◌, [], None, pos, map, OnOk, IfOk, ⊤};
ghost use Rattle.step_batch.specs.Lent.{IsLater, stages};
ghost use Rattle.ticks.specs.Walks.{HasTimes, IsTime, moment_at};

use crate::named::{labels_in, labels_of};
use crate::renew::{SeriesWindow, Span};
use crate::scalar::{Scalar, scalar_at};
use crate::step::{left_for, put_lent, put_series};
use crate::walked::{blank_windows, renew_all};
use either::Either;
use func_table::Window;
use holders::Items;
use sample_store::Store;
use series_marks::edge_since;
use std::alloc::{AllocError, Global};
use std::marker::Model;
use std::sync::ledger::Ledger;
use step_batch::{Batch, Windows};
use step_put::{OutcomeBuffer, PlacedOutcome};
use ticks::{Ms, WalkMoment, Work, last_before};
use window_fn::WindowFrame;

/// A function of windows. Over the store its windows are those of series, in which it goes forward: what it has reached is the
/// last time before the first instant's window, and the last moment. It names its series by their labels once, before its first
/// instant. `placed` is what came of the windows of the last instant, whose memory is kept.
#[derive(Drop)]
pub struct WindowRows {
    alloc: Global,
    series: Items<u32>,
    f: Window,
    moment: WalkMoment,
    range: Ms,
    walked: Vec<SeriesWindow>,
    reached: Option<(Ms, Ms)>,
    placed: Vec<PlacedOutcome>,
    rows: OutcomeBuffer,
}

impl Model for WindowRows {
    ghost use Rattle.op_window.specs.Kernels.{Kernel};
    ghost use Rattle.op_window.specs.Rules.{left_for};
    ghost use Rattle.op_window.specs.Sliding.{named_once};
    ghost use Rattle.std.specs.Prelude.{◌≡◌};

    ghost Value = { Kernel };

    ghost view = { λ k. record { series = k.series; f = k.f; moment = k.moment; range = k.range; walked = record { windows = k.walked.items; named = named_once k.reached k.rows.fed }; reached = k.reached; named = k.rows.fed; buffer = k.rows.lent } };

    ghost invariant = { λ k. k.rows.left ≡ left_for k.f };
}

/// The window of an instant.
fn span_of(moment: &WalkMoment, range: Ms, t: Ms) -> Span
    requires { HasTimes (moment_at moment.now t.0) range.0 }
    ensures { result ≡ span_at moment.now range t }
{
    let m = Ms(moment.at(t));
    Span {
        moment: m,
        range,
        closed: moment.closed,
        edge: last_before(Ms(m.0 - range.0), moment.closed),
    }
}

/// The frame of an instant.
fn frame_of(moment: &WalkMoment, range: Ms, t: Ms) -> WindowFrame
    requires { HasTimes (moment_at moment.now t.0) range.0 }
    ensures { result ≡ frame_at moment.now range t }
{
    WindowFrame {
        eval: t,
        moment: Ms(moment.at(t)),
        range,
    }
}

/// Takes all steps out. Before the first instant the rows are named by the labels of their series, which they keep.
fn name_rows(
    alloc: Global,
    rows: &mut OutcomeBuffer,
    reached: &Option<(Ms, Ms)>,
    store: &Store,
    series: &[u32],
) -> Result<(), AllocError>
    requires there { AreThere store.now series.now }
    requires named { named_once reached.now rows.old.fed ≡ named_once reached.now (names_of store.now series.now) }
    ensures left { rows.new.left ≡ rows.old.left }
    ensures stay { named_once reached.now rows.new.fed ≡ named_once reached.now rows.old.fed }
    ensures named { OnOk result (rows.new.fed ≡ names_of store.now series.now) }
    ensures steps { OnOk result (rows.new.lent.steps ≡ []) }
{
    match reached {
        Some(_) => {
            rows.begin_same_feed();
            Ok(())
        }
        None => {
            let labels = labels_of(alloc, store, series)?;
            rows.begin_feed_own(labels.into_vec())
        }
    }
}

impl WindowRows {
    /// The kernel of a function of the windows of these series, which reach back from a moment by a range in milliseconds, before
    /// its first instant. A kernel of windows that are lent has no series. The only error is want of memory.
    pub fn new(
        alloc: Global,
        series: Items<u32>,
        f: Window,
        moment: WalkMoment,
        range: Ms,
    ) -> Result<WindowRows, AllocError>
        ensures series { IfOk result (λ k. k.series ≡ series) }
        ensures f { IfOk result (λ k. k.f ≡ f) }
        ensures moment { IfOk result (λ k. k.moment ≡ moment) }
        ensures range { IfOk result (λ k. k.range ≡ range) }
        ensures fresh { IfOk result (λ k. k.reached ≡ None) }
        ensures walked { IfOk result (λ k. (store : _) → k.walked ≡ walked_of moment.closed range.0 None store series) }
        ensures lent { IfOk result (λ k. stages k.buffer ≡ []) }
    {
        let walked = blank_windows(alloc, f, series.as_slice())?;
        Ok(WindowRows {
            alloc,
            series,
            f,
            moment,
            range,
            walked,
            reached: None,
            placed: Vec::new(alloc),
            rows: OutcomeBuffer::new(alloc, left_for(f)),
        })
    }

    /// Lends the steps of the instants that were fed last. It takes no memory.
    pub fn lend(&self) -> Batch<'_>
        ensures { result ≡ self.now.buffer }
    {
        self.rows.lend()
    }

    /// Takes all steps out. Before its first instant it names the series by their labels, which they keep.
    fn make_ready(&mut self, store: &Store) -> Result<(), AllocError>
        requires there { AreThere store.now self.old.series }
        requires walked { self.old.walked ≡ walked_of self.old.moment.closed self.old.range.0 self.old.reached store.now self.old.series }
        ensures series { self.new.series ≡ self.old.series }
        ensures f { self.new.f ≡ self.old.f }
        ensures moment { self.new.moment ≡ self.old.moment }
        ensures range { self.new.range ≡ self.old.range }
        ensures walked { self.new.walked ≡ self.old.walked }
        ensures reached { self.new.reached ≡ self.old.reached }
        ensures named { OnOk result (self.new.named ≡ names_of store.now self.old.series) }
        ensures steps { OnOk result (self.new.buffer.steps ≡ []) }
    {
        name_rows(
            self.alloc,
            &mut self.rows,
            &self.reached,
            store,
            self.series.as_slice(),
        )
    }

    /// The step of one more instant over the store.
    fn step<W: Ledger>(
        &mut self,
        store: &Store,
        t: Ms,
        scalar: Scalar,
        work: &mut Work<W>,
    ) -> Result<(), AllocError>
        requires there { AreThere store.now self.old.series }
        requires rises { AreRising store.now }
        requires named { self.old.named ≡ names_of store.now self.old.series }
        requires walked { self.old.walked ≡ walked_of self.old.moment.closed self.old.range.0 self.old.reached store.now self.old.series }
        requires range { pos 0 <ℤ self.old.range.0 }
        requires reached { IsReached self.old.moment.closed self.old.range.0 self.old.reached }
        requires soon { IsSoon self.old.range.0 self.old.reached self.old.moment t }
        requires time { IsTime t.0 }
        requires later { IsLater self.old.buffer t }
        ensures series { self.new.series ≡ self.old.series }
        ensures f { self.new.f ≡ self.old.f }
        ensures moment { self.new.moment ≡ self.old.moment }
        ensures range { self.new.range ≡ self.old.range }
        ensures named { self.new.named ≡ self.old.named }
        ensures reached { OnOk result (self.new.reached ≡ reach self.old.range.0 self.old.reached self.old.moment t) }
        ensures edge { OnOk result (IsReached self.old.moment.closed self.old.range.0 self.new.reached) }
        ensures walked { OnOk result (self.new.walked ≡ walked_of self.old.moment.closed self.old.range.0 self.new.reached store.now self.old.series) }
        ensures later { OnOk result ((u : _) → t.0 <ℤ u.0 → IsLater self.new.buffer u) }
        ensures lent { OnOk result (stages self.new.buffer ≡ stages self.old.buffer ++ record { at = t; step = by_scalar self.old.f (frame_at self.old.moment self.old.range t) scalar (rows_of_series self.old.moment.closed (frame_at self.old.moment self.old.range t) store.now self.old.series) } ∷ []) }
        ensures fetched { work.new.fetched + reads_of self.old.reached store.now self.old.series ≤ work.old.fetched + reads_of (reach self.old.range.0 self.old.reached self.old.moment t) store.now self.old.series }
        ensures counted { OnOk result (work.new.fetched + reads_of self.old.reached store.now self.old.series ≡ work.old.fetched + reads_of (reach self.old.range.0 self.old.reached self.old.moment t) store.now self.old.series) }
        ensures probed { work.new.probed + searches_of self.old.reached self.old.series ≤ work.old.probed + searches_of (reach self.old.range.0 self.old.reached self.old.moment t) self.old.series }
        ensures tested { work.new.tested ≡ work.old.tested }
    {
        let span = span_of(&self.moment, self.range, t);
        let frame = frame_of(&self.moment, self.range, t);
        let reached = self.reached;
        renew_all(
            &mut self.walked,
            store,
            self.series.as_slice(),
            reached,
            span,
            work,
        )?;
        put_series(
            self.alloc,
            self.f,
            &frame,
            scalar,
            span.closed,
            store,
            self.series.as_slice(),
            self.walked.as_slice(),
            &mut self.placed,
            &mut self.rows,
        )?;
        self.reached = Some((edge_since(reached, span.edge), span.moment));
        Ok(())
    }

    /// Makes the steps of more instants of the windows of its series, later than those that were fed before, and takes out those of
    /// the last feed. Where the function takes a scalar, `arg` has its steps at the same instants, each with one row at most; else
    /// it isn't read. In all feeds of one kernel the store holds the same labels and samples; the moments don't fall. The only error
    /// is want of memory; then the kernel can't be fed again.
    pub fn feed_store<W: Ledger>(
        &mut self,
        store: &Store,
        at: &[Ms],
        arg: &Batch<'_>,
        work: &mut Work<W>,
    ) -> Result<(), AllocError>
        requires { CanFeedStore self.old store.now at.now arg.now }
        ensures series { self.new.series ≡ self.old.series }
        ensures f { self.new.f ≡ self.old.f }
        ensures moment { self.new.moment ≡ self.old.moment }
        ensures range { self.new.range ≡ self.old.range }
        ensures reached { OnOk result (HasReached self.old self.new store.now at.now) }
        ensures lent { OnOk result (stages self.new.buffer ≡ map (windowed_at self.old.f (windows_of_series store.now self.old.series self.old.moment self.old.range)) (fed_by self.old.f at.now (stages arg.now))) }
        ensures fetched { work.new.fetched + reads_of self.old.reached store.now self.old.series ≤ work.old.fetched + reads_of (reach_all self.old.range.0 self.old.reached self.old.moment at.now) store.now self.old.series }
        ensures counted { OnOk result (work.new.fetched + reads_of self.old.reached store.now self.old.series ≡ work.old.fetched + reads_of (reach_all self.old.range.0 self.old.reached self.old.moment at.now) store.now self.old.series) }
        ensures probed { work.new.probed + searches_of self.old.reached self.old.series ≤ work.old.probed + searches_of (reach_all self.old.range.0 self.old.reached self.old.moment at.now) self.old.series }
        ensures tested { work.new.tested ≡ work.old.tested }
    {
        let _ = store.series();
        self.make_ready(store)?;
        for i in 0..at.len() {
            let scalar = scalar_at(self.alloc, self.f, at, arg, i)?;
            self.step(store, at[i], scalar, work)?;
        }
        Ok(())
    }

    /// Makes the step of windows that are lent, in the place of the steps of the last feed. Each sample lies in the window of the
    /// instant. The scalar is that of `feed_store`. The only error is want of memory.
    pub fn feed_windows(&mut self, windows: &Windows<'_>, arg: &Batch<'_>) -> Result<(), AllocError>
        requires { CanFeedWindows self.old windows.now (windows.now.at ∷ []) arg.now }
        ensures series { self.new.series ≡ self.old.series }
        ensures f { self.new.f ≡ self.old.f }
        ensures moment { self.new.moment ≡ self.old.moment }
        ensures range { self.new.range ≡ self.old.range }
        ensures lent { OnOk result (stages self.new.buffer ≡ map (windowed_at self.old.f (windows_of_lent windows.now self.old.moment self.old.range)) (fed_by self.old.f (windows.now.at ∷ []) (stages arg.now))) }
    {
        let t = windows.at();
        let frame = frame_of(&self.moment, self.range, t);
        let labels = labels_in(self.alloc, windows)?;
        self.rows.begin_feed(labels.as_slice())?;
        let scalar = scalar_at(self.alloc, self.f, &[t], arg, 0)?;
        put_lent(
            self.alloc,
            self.f,
            &frame,
            scalar,
            windows,
            &mut self.placed,
            &mut self.rows,
        )?;
        Ok(())
    }

    /// Makes the steps of more instants, of the windows of its series in the store as `feed_store` does, or of windows that are lent
    /// at one instant as `feed_windows` does. The only error is want of memory; then the kernel can't be fed again.
    pub fn feed<W: Ledger>(
        &mut self,
        from: Either<&Store, &Windows<'_>>,
        at: &[Ms],
        arg: &Batch<'_>,
        work: &mut Work<W>,
    ) -> Result<(), AllocError>
        requires { MatchEither from (λ store. CanFeedStore self.old store.now at.now arg.now) (λ windows. CanFeedWindows self.old windows.now at.now arg.now) }
        ensures series { self.new.series ≡ self.old.series }
        ensures f { self.new.f ≡ self.old.f }
        ensures moment { self.new.moment ≡ self.old.moment }
        ensures range { self.new.range ≡ self.old.range }
        ensures lent { MatchEither from.entry (λ store. OnOk result (stages self.new.buffer ≡ map (windowed_at self.old.f (windows_of_series store.now self.old.series self.old.moment self.old.range)) (fed_by self.old.f at.now (stages arg.now)))) (λ windows. OnOk result (stages self.new.buffer ≡ map (windowed_at self.old.f (windows_of_lent windows.now self.old.moment self.old.range)) (fed_by self.old.f at.now (stages arg.now)))) }
        ensures reached { MatchEither from.entry (λ store. OnOk result (HasReached self.old self.new store.now at.now)) (λ windows. ⊤) }
        ensures fetched { MatchEither from.entry (λ store. work.new.fetched + reads_of self.old.reached store.now self.old.series ≤ work.old.fetched + reads_of (reach_all self.old.range.0 self.old.reached self.old.moment at.now) store.now self.old.series) (λ windows. work.new.fetched ≡ work.old.fetched) }
        ensures counted { MatchEither from.entry (λ store. OnOk result (work.new.fetched + reads_of self.old.reached store.now self.old.series ≡ work.old.fetched + reads_of (reach_all self.old.range.0 self.old.reached self.old.moment at.now) store.now self.old.series)) (λ windows. ⊤) }
        ensures probed { MatchEither from.entry (λ store. work.new.probed + searches_of self.old.reached self.old.series ≤ work.old.probed + searches_of (reach_all self.old.range.0 self.old.reached self.old.moment at.now) self.old.series) (λ windows. work.new.probed ≡ work.old.probed) }
        ensures tested { work.new.tested ≡ work.old.tested }
    {
        match from {
            Either::Left(store) => self.feed_store(store, at, arg, work),
            Either::Right(windows) => self.feed_windows(windows, arg),
        }
    }
}
