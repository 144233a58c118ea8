ghost use Rattle.std.specs.Prelude.{pos, ◌<ℤ◌, ◌≤ℤ◌, IfNone, IfSome};
ghost use Rattle.ticks.specs.Steps.{HasNoStep, IsNeed, IsReach, IsStepAfter};

/// The least of the numbers that are whole steps from a base, among those above `low` and not above `high`.
pub fn step_after(base: i64, step: i64, low: i64, high: i64) -> Option<i64>
    requires base { IsReach base }
    requires low { IsReach low }
    requires high { IsReach high }
    requires step { pos 0 <ℤ step }
    ensures found { IfSome result (λ at. IsStepAfter base step low at) }
    ensures within { IfSome result (λ at. at ≤ℤ high) }
    ensures none { IfNone result (HasNoStep base step low high) }
{
    let need = need_after(base, step, low);
    if need > high - low {
        None
    } else {
        Some(low + need)
    }
}

/// The way from `low` to the least number above it that is whole steps from a base.
fn need_after(base: i64, step: i64, low: i64) -> i64
    requires base { IsReach base }
    requires low { IsReach low }
    requires step { pos 0 <ℤ step }
    ensures { IsNeed base step low result }
{
    step - (low - base).rem_euclid(step)
}
