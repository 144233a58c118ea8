ghost use Rattle.std.specs.Prelude.{◌≡◌, ℤ, pos, ◌<ℤ◌, ◌≤ℤ◌, IfNone, IfOk, IfSome};
ghost use Rattle.ticks.specs.Walks.{HasTimes, IsBarren, IsFirstInWindow, IsInstant, IsTime, LeadsToTimes, moment_at};

use crate::step::step_after;
use crate::{Grid, Ms, last_before};
use holders::Boxed;
use std::alloc::AllocError;

/// The moment that a subquery's points are taken from: the instant itself or a fixed one, less the offset. Where it is
/// closed, a point on the left edge of the range that ends there is taken too.
#[derive(Clone, Copy, Debug, PartialEq, Eq)]
pub struct WalkMoment {
    pub fixed: Option<Ms>,
    pub offset: Ms,
    pub closed: bool,
}

impl WalkMoment {
    /// The moment that belongs to an instant, in milliseconds. It takes no memory.
    pub fn at(&self, instant: Ms) -> i64
        requires { IsTime (moment_at self.now instant.0) }
        ensures { result ≡ moment_at self.now instant.0 }
    {
        match self.fixed {
            None => instant.0 - self.offset.0,
            Some(fixed) => fixed.0 - self.offset.0,
        }
    }

    /// A time that is earlier than each instant whose moment is later than a time.
    fn start(&self, t: Ms) -> Ms
        ensures { (o : ℤ) → IsTime o → t.0 <ℤ moment_at self.now o → result.0 <ℤ o }
    {
        match self.fixed {
            None => Ms(t.0.saturating_add(self.offset.0)),
            Some(_) => Ms(i64::MIN),
        }
    }
}

/// A rising list of instants: those of a grid, one alone, or the multiples of a step in the ranges that end at the
/// moments of an outer walk's instants. The range and the step are positive.
#[derive(Debug, PartialEq, Eq, Drop)]
pub enum Walk {
    Grid(Grid),
    Fixed(Ms),
    Multiples {
        outer: Boxed<Walk>,
        moment: WalkMoment,
        range: Ms,
        step: Ms,
    },
}

impl Walk {
    /// The least instant; there is none exactly where the walk has no instant. It takes no memory.
    pub fn first(&self) -> Option<Ms>
        requires times { LeadsToTimes self.now }
        ensures instant { IfSome result (λ at. IsInstant self.now at.0) }
        ensures least { IfSome result (λ at. (t : ℤ) → IsInstant self.now t → at.0 ≤ℤ t) }
        ensures none { IfNone result ((t : ℤ) → IsInstant self.now t → ⊥) }
    {
        self.after(Ms(i64::MIN))
    }

    /// The least instant that is later than a time; there is none exactly where no instant is later. It takes no memory.
    pub fn after(&self, t: Ms) -> Option<Ms>
        requires times { LeadsToTimes self.now }
        ensures instant { IfSome result (λ at. IsInstant self.now at.0) }
        ensures later { IfSome result (λ at. t.0 <ℤ at.0) }
        ensures least { IfSome result (λ at. (u : ℤ) → IsInstant self.now u → t.0 <ℤ u → at.0 ≤ℤ u) }
        ensures none { IfNone result ((u : ℤ) → IsInstant self.now u → t.0 <ℤ u → ⊥) }
    {
        match self {
            Walk::Grid(grid) => grid.after(t),
            Walk::Fixed(at) => { if t.0 < at.0 { Some(*at) } else { None } }
            Walk::Multiples {
                outer,
                moment,
                range,
                step,
            } => {
                let mut instant = outer.get().after(moment.start(t));
                while let Some(at) = instant {
                    let found = multiple_after(moment.at(at), moment.closed, *range, *step, t);
                    if found.is_some() {
                        return found;
                    }
                    if moment.fixed.is_some() {
                        return None;
                    }
                    instant = outer.get().after(at);
                }
                None
            }
        }
    }

    /// An equal walk, on the allocator of this one. The only error is want of memory.
    pub fn copy(&self) -> Result<Walk, AllocError>
        ensures { IfOk result (λ walk. walk ≡ self.now) }
    {
        match self {
            Walk::Grid(grid) => Ok(Walk::Grid(*grid)),
            Walk::Fixed(at) => Ok(Walk::Fixed(*at)),
            Walk::Multiples {
                outer,
                moment,
                range,
                step,
            } => {
                let alloc = outer.allocator();
                let outer = Boxed::new(alloc, outer.get().copy()?)?;
                Ok(Walk::Multiples {
                    outer,
                    moment: *moment,
                    range: *range,
                    step: *step,
                })
            }
        }
    }
}

/// The least multiple of the step that is later than a time and in the range that ends at a moment.
fn multiple_after(moment: i64, closed: bool, range: Ms, step: Ms, t: Ms) -> Option<Ms>
    requires times { HasTimes moment range.0 }
    requires step { pos 0 <ℤ step.0 }
    requires range { pos 0 <ℤ range.0 }
    ensures found { IfSome result (λ at. IsFirstInWindow closed moment range.0 step.0 t.0 at.0) }
    ensures none { IfNone result (IsBarren closed moment range.0 step.0 t.0) }
{
    if moment <= t.0 {
        return None;
    }
    let before = last_before(Ms(moment - range.0), closed);
    match step_after(0, step.0, later_of(t.0, before.0), moment) {
        None => None,
        Some(at) => Some(Ms(at)),
    }
}

fn later_of(s: i64, t: i64) -> i64
    ensures first { s ≤ℤ result }
    ensures second { t ≤ℤ result }
    ensures within { (high : ℤ) → s ≤ℤ high → t ≤ℤ high → result ≤ℤ high }
    ensures below { (u : ℤ) → s <ℤ u → t <ℤ u → result <ℤ u }
{
    if s < t { t } else { s }
}
