//! The instants that a part of a plan is asked at.
ghost use Rattle.logical_plan.specs.Validity.{deepest};
ghost use Rattle.plan_parts.specs.Courses.{AreSpread, AreWindows, AreWindowsNear, BasesLieBetween, IsAsked, IsCourseNear, IsLength, IsMomentNear, ReachBack, reach};
ghost use Rattle.plan_work.specs.TreeBounds.{BeginsAt};
ghost use Rattle.std.specs.Prelude.{◌≡◌, ◌+◌, ◌<◌, ℕ, ℤ, pos, ◌-ℤ◌, ◌<ℤ◌, ◌↔◌, IfOk, IfSome, IsSome, IsSomeAnd, IsTrue};
ghost use Rattle.ticks.specs.Durations.{hundred_years};
ghost use Rattle.ticks.specs.Near.{IsNear};
ghost use Rattle.ticks.specs.Walks.{IsInstant, IsTime, LeadsToTimes};

use holders::Boxed;
use std::alloc::{AllocError, Global};
use std::marker::Model;
use ticks::{Ms, Walk, WalkMoment, walks_are_listed};

/// A walk that leads to times, and two times between which its instants lie.
#[derive(Drop)]
pub struct Course {
    walk: Walk,
    low: Ms,
    high: Ms,
}

impl Model for Course {
    ghost use Rattle.plan_parts.specs.Courses.{Courses, LiesBetween};
    ghost use Rattle.std.specs.Coded.{codes};
    ghost use Rattle.ticks.specs.Walks.{IsTime, LeadsToTimes};
    ghost use Rattle.ticks.specs.contracts.walk.Walk.{the_row};

    ghost Value = { Courses };

    ghost coded = { Prim.hlevel (codes, the_row.coded) };

    ghost view = { λ c. record { walk = c.walk; low = c.low; high = c.high } };

    ghost invariant = { λ c. LeadsToTimes c.walk × IsTime c.low.0 × IsTime c.high.0 × LiesBetween c.walk c.low.0 c.high.0 };
}

fn is_time(t: i64) -> bool
    ensures { IsTrue result ↔ IsTime t }
{
    -1_152_921_504_606_846_976 <= t && t <= 1_152_921_504_606_846_976
}

impl Course {
    /// The course of a walk: of a grid, or of one instant within the times; of another walk there is none. The only error is
    /// want of memory.
    pub fn of(walk: &Walk) -> Result<Option<Course>, AllocError>
        ensures walk { IfOk result (λ o. IfSome o (λ c. c.walk ≡ walk.now)) }
        ensures near { IsAsked walk.now → IfOk result (λ o. IsSomeAnd o (IsCourseNear 0)) }
    {
        match walk {
            Walk::Grid(grid) => Ok(Some(Course {
                walk: walk.copy()?,
                low: grid.start,
                high: grid.end,
            })),
            Walk::Fixed(at) => Ok(Course::at(*at)),
            Walk::Multiples { .. } => Ok(None),
        }
    }

    /// The course of one instant, if it is within the times. It takes no memory.
    pub fn at(t: Ms) -> Option<Course>
        ensures walk { IfSome result (λ c. c.walk ≡ Walk.Fixed t) }
        ensures there { IsTime t.0 → IsSome result }
        ensures near { (n : ℕ) → IsNear (reach n) t.0 → IfSome result (IsCourseNear n) }
    {
        if !is_time(t.0) {
            return None;
        }
        Some(Course {
            walk: Walk::Fixed(t),
            low: t,
            high: t,
        })
    }

    /// The walk. It takes no memory.
    pub fn walk(&self) -> &Walk
        ensures walk { result.now ≡ self.now.walk }
        ensures times { LeadsToTimes self.now.walk }
        ensures instants { (t : ℤ) → IsInstant self.now.walk t → IsTime t }
    {
        &self.walk
    }

    /// The first instant; where there is none, the time 0. It takes no memory.
    pub fn first(&self) -> Ms
        ensures begins { BeginsAt self.now.walk result }
        ensures time { IsTime result.0 }
        ensures near { (n : ℕ) → IsCourseNear n self.now → IsNear (reach n) result.0 }
    {
        walks_are_listed();
        match self.walk.first() {
            Some(t) => t,
            None => Ms(0),
        }
    }

    /// Two times between which the fixed time of a moment lies or, where there is none, the instants. It takes no memory.
    fn bases(&self, moment: &WalkMoment) -> (Ms, Ms)
        ensures between { BasesLieBetween self.now.walk moment.now result.0.0 result.1.0 }
        ensures near { (n : ℕ) → IsCourseNear n self.now → IsMomentNear moment.now → AreWindowsNear n result.0.0 result.1.0 }
    {
        match moment.fixed {
            None => (self.low, self.high),
            Some(at) => (at, at),
        }
    }

    /// Two times between which the windows of the instants lie, if they are within the times and the range is positive, as they are
    /// where the course stands in few enough subqueries. It takes no memory.
    pub fn windows(&self, moment: &WalkMoment, range: Ms) -> Option<(Ms, Ms)>
        ensures windows { IfSome result (λ w. AreWindows self.now.walk moment.now range.0 w.0.0 w.1.0) }
        ensures near { (n : ℕ) → n < deepest → ReachBack n self.now moment.now range → IsSomeAnd result (λ w. AreWindowsNear (n + 1) w.0.0 w.1.0) }
    {
        let (low, high) = self.bases(moment);
        if !is_time(low.0) {
            return None;
        }
        if !is_time(high.0) {
            return None;
        }
        spread(low, high, moment.offset, range)
    }

    /// The course of a subquery's own instants: the multiples of a step in the ranges that end at the moments of the instants.
    /// There is none where these lead beyond the times, or where the range or the step isn't positive; where the course stands in few
    /// enough subqueries they don't. The only error is want of memory.
    pub fn inner(
        &self,
        alloc: Global,
        moment: &WalkMoment,
        range: Ms,
        step: Ms,
    ) -> Result<Option<Course>, AllocError>
        ensures walk { IfOk result (λ o. IfSome o (λ c. c.walk ≡ Walk.Multiples self.now.walk moment.now range step)) }
        ensures near { (n : ℕ) → n < deepest → ReachBack n self.now moment.now range → pos 0 <ℤ step.0 → IfOk result (λ o. IsSomeAnd o (IsCourseNear (n + 1))) }
    {
        if step.0 <= 0 {
            return Ok(None);
        }
        let Some((low, high)) = self.windows(moment, range) else {
            return Ok(None);
        };
        let outer = Boxed::new(alloc, self.walk.copy()?)?;
        Ok(Some(Course {
            walk: Walk::Multiples {
                outer,
                moment: *moment,
                range,
                step,
            },
            low,
            high,
        }))
    }
}

/// How far windows reach that end at two times less an offset.
fn spread(low: Ms, high: Ms, offset: Ms, range: Ms) -> Option<(Ms, Ms)>
    requires low { IsTime low.0 }
    requires high { IsTime high.0 }
    ensures spread { IfSome result (λ w. AreSpread low.0 high.0 offset.0 range.0 w.0.0 w.1.0) }
    ensures near { (n : ℕ) → n < deepest → AreWindowsNear n low.0 high.0 → IsNear hundred_years offset.0 → IsLength range → IsSomeAnd result (λ w. AreWindowsNear (n + 1) w.0.0 w.1.0) }
{
    if !is_time(offset.0) {
        return None;
    }
    if range.0 <= 0 {
        return None;
    }
    if !is_time(range.0) {
        return None;
    }
    let (first, last) = edges(low, high, offset, range);
    if !is_time(first.0) {
        return None;
    }
    if !is_time(last.0) {
        return None;
    }
    Some((first, last))
}

/// Two times less an offset, the first of them less a range too.
fn edges(low: Ms, high: Ms, offset: Ms, range: Ms) -> (Ms, Ms)
    requires low { IsTime low.0 }
    requires high { IsTime high.0 }
    requires offset { IsTime offset.0 }
    requires range { IsTime range.0 }
    ensures first { result.0.0 ≡ (low.0 -ℤ offset.0) -ℤ range.0 }
    ensures last { result.1.0 ≡ high.0 -ℤ offset.0 }
{
    (Ms(low.0 - offset.0 - range.0), Ms(high.0 - offset.0))
}
