//! Sums as what is kept of values.
ghost use Rattle.std.specs.Prelude.{◌≡◌, ◌+◌, ◌<◌, ◌^◌, ◌++◌, ◌∷◌, [], List, length};
ghost use Rattle.op_running.specs.Kept.{HaveRoom, IsTotalOf};
ghost use Rattle.window_fn.specs.Aggregates.{average, total as total_of};
ghost use Rattle.window_fn.specs.Totals.{HasRoom, IsSumOf};
ghost use Rattle.xfrac.specs.declared.value.XFrac.{XFrac};

use crate::summary::Summary;
use xfrac::laws::{is_number, part_overflows_whole, sum_ignores_order};
use xfrac::{NumFault, SumAcc, XFrac};

/// The sum of values. There is none from the first overflow on, since no other value mends it.
#[derive(Clone, Copy, Debug)]
pub(crate) struct Total {
    pub sum: Option<SumAcc>,
}

impl Summary for Total {
    ghost use Rattle.op_running.specs.Kept.{IsTotalOf};

    ghost is_of = { IsTotalOf };

    fn none() -> Total {
        Total {
            sum: Some(SumAcc::new()),
        }
    }

    fn more(self, value: &XFrac) -> Total {
        Total {
            sum: with_value(self.sum, value),
        }
    }

    fn joined(&self, behind: &Total) -> Total {
        Total {
            sum: both(&self.sum, &behind.sum),
        }
    }
}

/// The sum with one more number.
pub(crate) fn with_value(sum: Option<SumAcc>, value: &XFrac) -> Option<SumAcc>
    requires { HasRoom sum }
    ensures { (xs : List XFrac) → IsSumOf sum xs → IsSumOf result (xs ++ value.now ∷ []) }
{
    is_number(value);
    match sum {
        Some(sum) => added(sum, value),
        None => {
            part_overflows_whole();
            None
        }
    }
}

fn added(mut sum: SumAcc, value: &XFrac) -> Option<SumAcc>
    requires { sum.count + 1 < 2 ^ 96 }
    ensures { (xs : List XFrac) → IsSumOf (Some sum) xs → IsSumOf result (xs ++ value.now ∷ []) }
{
    is_number(value);
    match sum.add(value) {
        Ok(()) => Some(sum),
        Err(_) => None,
    }
}

/// The sum of two numbers.
pub(crate) fn added_two(a: &XFrac, b: &XFrac) -> Option<SumAcc>
    ensures { IsSumOf result (a.now ∷ b.now ∷ []) }
{
    with_value(with_value(Some(SumAcc::new()), a), b)
}

/// The sum of the numbers of both.
pub(crate) fn both(sum: &Option<SumAcc>, behind: &Option<SumAcc>) -> Option<SumAcc>
    requires { HaveRoom sum.now behind.now }
    ensures { (xs ys : List XFrac) → IsSumOf sum.now xs → IsSumOf behind.now ys → IsSumOf result (xs ++ ys) }
{
    part_overflows_whole();
    sum_ignores_order();
    match sum {
        None => None,
        Some(sum) => match behind {
            None => None,
            Some(behind) => merged(*sum, behind),
        },
    }
}

fn merged(mut sum: SumAcc, behind: &SumAcc) -> Option<SumAcc>
    requires { sum.count + behind.now.count < 2 ^ 96 }
    ensures { (xs ys : List XFrac) → IsSumOf (Some sum) xs → IsSumOf (Some behind.now) ys → IsSumOf result (xs ++ ys) }
{
    // Most counters are never reset, so that there is nothing to add.
    if behind.count() == 0 {
        return Some(sum);
    }
    match sum.merge(behind) {
        Ok(()) => Some(sum),
        Err(_) => None,
    }
}

/// The number that a sum comes to.
pub(crate) fn sum_of(total: &Total) -> Result<XFrac, NumFault>
    ensures { (xs : List XFrac) → IsTotalOf total.now xs → result ≡ total_of xs }
{
    match &total.sum {
        Some(sum) => Ok(sum.value()),
        None => Err(NumFault::Overflow),
    }
}

/// That number divided by how many were added.
pub(crate) fn mean_of(total: &Total) -> Result<XFrac, NumFault>
    requires { (xs : List XFrac) × IsTotalOf total.now xs × (0 < length xs) }
    ensures { (xs : List XFrac) → IsTotalOf total.now xs → result ≡ average xs }
{
    match &total.sum {
        Some(sum) => sum.mean().map_err(|_| NumFault::Overflow),
        None => Err(NumFault::Overflow),
    }
}
