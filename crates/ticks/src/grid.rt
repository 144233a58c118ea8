ghost use Rattle.std.specs.Prelude.{◌≡◌, ◌<◌, ◌≤◌, ◌<ℤ◌, ◌≤ℤ◌, ◌+◌, ℤ, IfNone, IfOk, IfSome, IsErrOf};
ghost use Rattle.ticks.specs.Grids.{IsInRange, IsOnGrid, step_count};

use crate::step::step_after;
use crate::{Ms, TickRefusal};

/// No time is further from 0 than this.
const TIME_LIMIT: i64 = 100_000_000_000_000;

/// No grid has more instants than this.
const STEP_LIMIT: u64 = 11_000;

/// The instants of a range query: the start and every step after it, up to the end.
#[derive(Clone, Copy, Debug, PartialEq, Eq)]
pub struct Grid {
    pub start: Ms,
    pub end: Ms,
    pub step: Ms,
    pub ghost in_range: { IsInRange start.0 end.0 step.0 },
    ghost short: { step_count start.0 end.0 step.0 ≤ 11000 },
}

impl Grid {
    /// The grid from `start` to `end` by `step`. It is `OutOfRange` where the start is after the end, the step is below
    /// a millisecond or a time is further from 0 than 10^14 ms, and else `TooManySteps` where it has more than 11,000
    /// instants.
    pub fn of(start: Ms, end: Ms, step: Ms) -> Result<Grid, TickRefusal>
        ensures start { IfOk result (λ grid. grid.start ≡ start) }
        ensures end { IfOk result (λ grid. grid.end ≡ end) }
        ensures step { IfOk result (λ grid. grid.step ≡ step) }
        ensures in_range { IfOk result (λ _. IsInRange start.0 end.0 step.0) }
        ensures short { IfOk result (λ _. step_count start.0 end.0 step.0 ≤ 11000) }
        ensures out_of_range { IsErrOf result TickRefusal.OutOfRange → IsInRange start.0 end.0 step.0 → ⊥ }
        ensures too_many_in_range { IsErrOf result TickRefusal.TooManySteps → IsInRange start.0 end.0 step.0 }
        ensures too_many { IsErrOf result TickRefusal.TooManySteps → 11000 < step_count start.0 end.0 step.0 }
        ensures no_text { IsErrOf result TickRefusal.BadDuration → ⊥ }
    {
        if start.0 < -TIME_LIMIT || end.0 < start.0 || end.0 > TIME_LIMIT || step.0 < 1 {
            return Err(TickRefusal::OutOfRange);
        }
        if count_of(start, end, step) > STEP_LIMIT {
            return Err(TickRefusal::TooManySteps);
        }
        Ok(Grid { start, end, step })
    }

    /// How many instants the grid has, from 1 to 11,000.
    pub fn steps(&self) -> u32
        ensures count { result ≡ step_count self.now.start.0 self.now.end.0 self.now.step.0 }
        ensures some { 0 < result }
        ensures few { result ≤ 11000 }
    {
        count_of(self.start, self.end, self.step) as u32
    }

    /// The least instant of the grid that is later than a time.
    pub(crate) fn after(&self, t: Ms) -> Option<Ms>
        ensures instant { IfSome result (λ at. IsOnGrid self.now.start.0 self.now.end.0 self.now.step.0 at.0) }
        ensures later { IfSome result (λ at. t.0 <ℤ at.0) }
        ensures least { IfSome result (λ at. (u : ℤ) → IsOnGrid self.now.start.0 self.now.end.0 self.now.step.0 u → t.0 <ℤ u → at.0 ≤ℤ u) }
        ensures none { IfNone result ((u : ℤ) → IsOnGrid self.now.start.0 self.now.end.0 self.now.step.0 u → t.0 <ℤ u → ⊥) }
    {
        if self.end.0 <= t.0 {
            return None;
        }
        if t.0 < self.start.0 {
            return Some(self.start);
        }
        match step_after(self.start.0, self.step.0, t.0, self.end.0) {
            None => None,
            Some(at) => Some(Ms(at)),
        }
    }
}

fn count_of(start: Ms, end: Ms, step: Ms) -> u64
    requires { IsInRange start.0 end.0 step.0 }
    ensures { result ≡ step_count start.0 end.0 step.0 }
{
    end.0.abs_diff(start.0) / step.0.unsigned_abs() + 1
}
