//! The kernel.
ghost use Rattle.op_subquery.specs.Rings.{IsReady};
ghost use Rattle.op_window.specs.Rules.{HasScalars, fed_by, windowed_at};
ghost use Rattle.std.specs.Prelude.{◌≡◌, ◌<◌, ◌≤ℤ◌, ◌∷◌, [], ℤ, Option, None, Some, map, IfNone, IfOk, IfSome, OnOk};
ghost use Rattle.step_batch.specs.Lent.{stages};
ghost use Rattle.step_table.specs.declared.step.Step.{Step};
ghost use Rattle.subquery_rows.specs.Rings.{IsAsked, IsNextAfter, IsNextStep, Stands, time_left, windows_of_points};
ghost use Rattle.ticks.specs.Listed.{IsNext};
ghost use Rattle.ticks.specs.Walks.{IsTime, LeadsToTimes, moment_at};
ghost use Rattle.ticks.specs.declared.walk.Walk.TheVariants.{Multiples};

use func_table::Window;
use holders::{Boxed, Items};
use op_subquery::Points;
use op_subquery::laws::lent_are_meant;
use op_window::WindowRows;
use std::alloc::{AllocError, Global};
use std::marker::Model;
use step_batch::Batch;
use step_table::order_laws::rows_ignore_order;
use ticks::{Ms, Walk, WalkMoment, walks_are_listed};

/// A function of the windows of a subquery. For each outer instant it is fed the steps of the inner expression that the window there
/// still lacks, one after another, and then gives the function's step. Each inner instant is fed once, however many windows it lies in.
#[derive(Drop)]
pub struct SubqueryRows {
    walk: Walk,
    next: Option<Ms>,
    points: Points,
    rows: WindowRows,
}

impl Model for SubqueryRows {
    ghost use Rattle.std.specs.Coded.{codes};
    ghost use Rattle.std.specs.Prelude.{◌≡◌};
    ghost use Rattle.subquery_rows.specs.Rings.{Ring};
    ghost use Rattle.ticks.specs.contracts.walk.Walk.{the_row};

    ghost Value = { Ring };

    ghost coded = { Prim.hlevel (codes, the_row.coded) };

    ghost view = { λ k. record { f = k.rows.f; walk = k.walk; next = k.next; points = k.points; buffer = k.rows.buffer } };

    ghost invariant = { λ k. (k.rows.moment ≡ k.points.moment) × (k.rows.range ≡ k.points.range) };
}

/// The walk of the inner instants that the windows of outer ones want. The only error is want of memory.
fn inner_walk(
    alloc: Global,
    outer: &Walk,
    moment: WalkMoment,
    range: Ms,
    step: Ms,
) -> Result<Walk, AllocError>
    ensures { IfOk result (λ walk. walk ≡ Multiples outer.now moment range step) }
{
    let outer = Boxed::new(alloc, outer.copy()?)?;
    Ok(Walk::Multiples {
        outer,
        moment,
        range,
        step,
    })
}

/// The instant of a walk behind one of it.
fn next_after(walk: &Walk, at: Option<Ms>) -> Option<Ms>
    requires { LeadsToTimes walk.now }
    ensures { IfSome at (λ t. IsNext walk.now t.0 result) }
{
    match at {
        None => None,
        Some(t) => walk.after(t),
    }
}

impl SubqueryRows {
    /// The kernel of a function of the windows of a subquery with a range and a step in milliseconds, at the instants of an outer
    /// walk, before its first instant. The only error is want of memory.
    pub fn new(
        alloc: Global,
        f: Window,
        moment: WalkMoment,
        range: Ms,
        step: Ms,
        outer: &Walk,
    ) -> Result<SubqueryRows, AllocError>
        requires { LeadsToTimes (Multiples outer.now moment range step) }
        ensures f { IfOk result (λ k. k.f ≡ f) }
        ensures moment { IfOk result (λ k. k.points.moment ≡ moment) }
        ensures range { IfOk result (λ k. k.points.range ≡ range) }
        ensures step { IfOk result (λ k. k.points.step ≡ step) }
        ensures next { IfOk result (λ k. IsNextAfter k.walk None k.next) }
        ensures stands { IfOk result (λ k. (inner : ℤ → Step) → Stands k outer.now inner None) }
        ensures lent { IfOk result (λ k. stages k.buffer ≡ []) }
    {
        walks_are_listed();
        let walk = inner_walk(alloc, outer, moment, range, step)?;
        let next = walk.first();
        let points = Points::new(alloc, range, step, moment)?;
        let rows = WindowRows::new(alloc, Items::new(alloc), f, moment, range)?;
        Ok(SubqueryRows {
            walk,
            next,
            points,
            rows,
        })
    }

    /// The next inner instant, where the window of an outer instant still lacks one: the next one that wasn't fed, and not later than
    /// the moment. It takes no memory.
    pub fn wanted(&self, t: Ms) -> Option<Ms>
        requires { (outer : Walk) × (inner : ℤ → Step) × (last : Option Ms) × IsAsked self.now outer inner last t }
        ensures next { IfSome result (λ u. self.now.next ≡ Some u) }
        ensures up_to { IfSome result (λ u. u.0 ≤ℤ moment_at self.now.points.moment t.0) }
        ensures lacks { IfSome result (λ u. IsReady self.now.points t → ⊥) }
        ensures ready { IfNone result (IsReady self.now.points t) }
    {
        if self.points.ready(t) {
            return None;
        }
        self.next
    }

    /// Takes the step of the next inner instant. The only error is want of memory; then the kernel may only be dropped.
    pub fn take(&mut self, rows: &Batch<'_>) -> Result<(), AllocError>
        requires { (outer : Walk) × (inner : ℤ → Step) × (last : Option Ms) × (at : Ms) × IsNextStep self.old outer inner last at rows.now }
        ensures f { self.new.f ≡ self.old.f }
        ensures walk { self.new.walk ≡ self.old.walk }
        ensures moment { self.new.points.moment ≡ self.old.points.moment }
        ensures range { self.new.points.range ≡ self.old.points.range }
        ensures step { self.new.points.step ≡ self.old.points.step }
        ensures buffer { self.new.buffer ≡ self.old.buffer }
        ensures last { OnOk result (self.new.points.last ≡ self.old.next) }
        ensures stands { OnOk result ((outer : Walk) (inner : ℤ → Step) (last : Option Ms) (at : Ms) → IsNextStep self.old outer inner last at rows.now → Stands self.new outer inner last) }
        ensures fewer { OnOk result ((m : ℤ) (at : Ms) → self.old.next ≡ Some at → at.0 ≤ℤ m → time_left self.new.next m < time_left self.old.next m) }
    {
        walks_are_listed();
        self.points.feed(rows)?;
        self.next = next_after(&self.walk, self.next);
        Ok(())
    }

    /// Gives the step of an outer instant whose window lacks nothing, in the place of the one before. Where the function takes a
    /// scalar, `scalar` has its step at that instant, with one row at most; else it isn't read. The only error is want of memory; then
    /// the kernel may only be dropped.
    pub fn give(&mut self, t: Ms, scalar: &Batch<'_>) -> Result<(), AllocError>
        requires asked { (outer : Walk) × (inner : ℤ → Step) × (last : Option Ms) × IsAsked self.old outer inner last t }
        requires ready { IsReady self.old.points t }
        requires time { IsTime t.0 }
        requires scalars { HasScalars self.old.f (t ∷ []) scalar.now }
        ensures f { self.new.f ≡ self.old.f }
        ensures walk { self.new.walk ≡ self.old.walk }
        ensures next { self.new.next ≡ self.old.next }
        ensures moment { self.new.points.moment ≡ self.old.points.moment }
        ensures range { self.new.points.range ≡ self.old.points.range }
        ensures step { self.new.points.step ≡ self.old.points.step }
        ensures stands { OnOk result ((outer : Walk) (inner : ℤ → Step) (last : Option Ms) → IsAsked self.old outer inner last t → Stands self.new outer inner (Some t)) }
        ensures lent { OnOk result ((outer : Walk) (inner : ℤ → Step) (last : Option Ms) → IsAsked self.old outer inner last t → stages self.new.buffer ≡ map (windowed_at self.old.f (windows_of_points self.old inner)) (fed_by self.old.f (t ∷ []) (stages scalar.now))) }
    {
        lent_are_meant();
        rows_ignore_order();
        self.points.advance(t)?;
        let windows = self.points.lend();
        let _ = windows.len();
        self.rows.feed_windows(&windows, scalar)?;
        Ok(())
    }

    /// Lends the step that was given last. It takes no memory.
    pub fn lend(&self) -> Batch<'_>
        ensures { result ≡ self.now.buffer }
    {
        self.rows.lend()
    }
}
