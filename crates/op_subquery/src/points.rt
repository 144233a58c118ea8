//! The kernel.
ghost use Rattle.op_subquery.specs.Rings.{AreLent, CanFeed, IsNoEarlier, IsReady, IsUpTo, WasFed, last_kept, span_at, windows_at};
ghost use Rattle.std.specs.Int.{int_rem_euclid};
ghost use Rattle.std.specs.Prelude.{◌≡◌, ◌↔◌, ◌-ℤ◌, ◌<ℤ◌, ◌≤ℤ◌, ◌++◌, [], List, None, Some, pos, ℤ, IfOk, IsTrue, OnOk};
ghost use Rattle.step_batch.specs.Lent.{IsLent, stages};
ghost use Rattle.step_table.specs.Timed.{StepAt};
ghost use Rattle.ticks.specs.Walks.{HasTimes, moment_at};

use crate::raised::RaisedMarks;
use crate::span::Span;
use crate::waiting::Waiting;
use promql_meaning::laws::multiples_are_all;
use std::alloc::{AllocError, Global};
use std::marker::Model;
use step_batch::laws::lent_steps_are_tables;
use step_batch::{Batch, WindowBuffer, Windows};
use ticks::{Ms, WalkMoment};

/// The points of a subquery. It is fed the steps of the inner expression in rising time, at the instants of one walk of multiples
/// with its range, step and moment, and lends for one outer instant after another the windows of those in the range up to its
/// moment. Each point comes into its window once and leaves it once.
#[derive(Drop)]
pub struct Points {
    range: Ms,
    step: Ms,
    moment: WalkMoment,
    last: Option<Ms>,
    reached: Option<Span>,
    waiting: Waiting,
    windows: WindowBuffer,
    raised: RaisedMarks,
}

impl Model for Points {
    ghost use Rattle.op_subquery.specs.Rings.{Kernel};

    ghost Value = { Kernel };

    ghost view = { λ p. record { range = p.range; step = p.step; moment = p.moment; last = p.last; reached = p.reached; waiting = p.waiting; windows = p.windows; raised = p.raised } };
}

impl Points {
    /// The kernel of a subquery with a range and a step in milliseconds, before its first instant. Like the other kernels it may
    /// answer want of memory.
    pub fn new(alloc: Global, range: Ms, step: Ms, moment: WalkMoment) -> Result<Points, AllocError>
        ensures range { IfOk result (λ k. k.range ≡ range) }
        ensures step { IfOk result (λ k. k.step ≡ step) }
        ensures moment { IfOk result (λ k. k.moment ≡ moment) }
        ensures fresh { IfOk result (λ k. k.reached ≡ None) }
        ensures fed { IfOk result (λ k. WasFed k []) }
    {
        Ok(Points {
            range,
            step,
            moment,
            last: None,
            reached: None,
            waiting: Waiting::new(alloc),
            windows: WindowBuffer::new(alloc, Ms(0)),
            raised: RaisedMarks::new(alloc),
        })
    }

    /// Takes more inner instants, later than those that were fed before. The only error is want of memory; then the kernel may only
    /// be dropped.
    pub fn feed(&mut self, rows: &Batch<'_>) -> Result<(), AllocError>
        requires { CanFeed self.old rows.now }
        ensures range { self.new.range ≡ self.old.range }
        ensures step { self.new.step ≡ self.old.step }
        ensures moment { self.new.moment ≡ self.old.moment }
        ensures reached { self.new.reached ≡ self.old.reached }
        ensures fed { OnOk result ((steps : List StepAt) → WasFed self.old steps → WasFed self.new (steps ++ stages rows.now)) }
    {
        lent_steps_are_tables();
        let last = last_instant(rows, self.last);
        let _ = rows.labels();
        self.waiting.take(rows)?;
        self.last = last;
        Ok(())
    }

    /// Whether each multiple of the step in the window of an outer instant is up to the last inner instant that was fed. It takes no
    /// memory.
    pub fn ready(&self, at: Ms) -> bool
        requires times { HasTimes (moment_at self.now.moment at.0) self.now.range.0 }
        requires step { pos 0 <ℤ self.now.step.0 }
        ensures { IsTrue result ↔ IsReady self.now at }
    {
        multiples_are_all();
        let span = Span::of(&self.moment, self.range, at);
        let low = later_of(self.last, span.edge);
        if span.moment.0 <= low.0 {
            return true;
        }
        span.moment.0 - low.0 < way_to_multiple(low, self.step)
    }

    /// Goes on to an outer instant, whose windows are lent from then on; no window begins or ends before that of the last one. The
    /// only error is want of memory; then the kernel may only be dropped.
    pub fn advance(&mut self, at: Ms) -> Result<(), AllocError>
        requires times { HasTimes (moment_at self.old.moment at.0) self.old.range.0 }
        requires on { IsNoEarlier self.old.reached (span_at self.old.moment self.old.range at) }
        requires fed { (steps : List StepAt) × WasFed self.old steps }
        ensures range { self.new.range ≡ self.old.range }
        ensures step { self.new.step ≡ self.old.step }
        ensures moment { self.new.moment ≡ self.old.moment }
        ensures reached { OnOk result (self.new.reached ≡ Some (span_at self.old.moment self.old.range at)) }
        ensures fed { OnOk result ((steps : List StepAt) → WasFed self.old steps → WasFed self.new steps) }
        ensures lent { OnOk result ((steps : List StepAt) → WasFed self.old steps → AreLent self.new.windows at (windows_at self.old.moment self.old.range steps at)) }
    {
        let span = Span::of(&self.moment, self.range, at);
        self.waiting
            .hand_on(span.moment, &mut self.windows, &mut self.raised)?;
        let _ = self.windows.lend().len();
        self.windows.forget(span.edge);
        self.raised.forget(span.edge);
        self.windows.renew(at);
        let marks = self.raised.marks()?;
        self.windows.unite(&marks)?;
        self.reached = Some(span);
        Ok(())
    }

    /// Lends the windows of the outer instant that the kernel went on to last. It takes no memory.
    pub fn lend(&self) -> Windows<'_>
        ensures { result ≡ self.now.windows }
    {
        self.windows.lend()
    }

    /// Goes on to an outer instant as `advance` does, and lends its windows. The only error is want of memory; then the kernel may
    /// only be dropped.
    pub fn windows(&mut self, at: Ms) -> Result<Windows<'_>, AllocError>
        requires times { HasTimes (moment_at self.old.moment at.0) self.old.range.0 }
        requires on { IsNoEarlier self.old.reached (span_at self.old.moment self.old.range at) }
        requires fed { (steps : List StepAt) × WasFed self.old steps }
        ensures { IfOk result (λ lent. (steps : List StepAt) → WasFed self.old steps → AreLent lent at (windows_at self.old.moment self.old.range steps at)) }
    {
        self.advance(at)?;
        Ok(self.lend())
    }
}

/// The later one of an edge and of the last instant, if there is one.
fn later_of(last: Option<Ms>, edge: Ms) -> Ms
    ensures edge { edge.0 ≤ℤ result.0 }
    ensures last { (u : ℤ) → IsUpTo last u → u ≤ℤ result.0 }
    ensures either { (u : ℤ) → edge.0 <ℤ u → u ≤ℤ result.0 → IsUpTo last u }
{
    match last {
        None => edge,
        Some(last) => { if last.0 < edge.0 { edge } else { last } }
    }
}

/// How far it is from a time to the least multiple of a step that is later.
fn way_to_multiple(time: Ms, step: Ms) -> i64
    requires { pos 0 <ℤ step.0 }
    ensures { result ≡ step.0 -ℤ int_rem_euclid time.0 step.0 }
{
    step.0 - time.0.rem_euclid(step.0)
}

/// The last instant of what is fed, or that of before where nothing is fed.
fn last_instant(rows: &Batch<'_>, last: Option<Ms>) -> Option<Ms>
    ensures last { result ≡ last_kept last rows.now.steps }
    ensures lent { IsLent rows.now }
{
    let mut last = last;
    for i in 0..rows.len() {
        last = Some(rows.at(i));
    }
    last
}
