//! Sums that are formed as their numbers come.
ghost use Rattle.std.specs.Prelude.{◌≡◌, ◌+◌, ◌<◌, ◌^◌, ◌++◌, ◌∷◌, [], List, Result, IfNone, Some, None};
ghost use Rattle.window_fn.specs.Aggregates.{total, total_of_answers};
ghost use Rattle.window_fn.specs.Totals.{HasRoom, IsSumOf, IsSumOfAnswers};
ghost use Rattle.xfrac.specs.declared.value.NumFault.{NumFault};
ghost use Rattle.xfrac.specs.declared.value.XFrac.{XFrac};

use xfrac::laws::{is_number, part_overflows_whole};
use xfrac::{NumFault, SumAcc, XFrac};

/// The sum of numbers that come one by one. There is none from the first overflow on, since no later number mends it.
pub type Sum = Option<SumAcc>;

/// The sum of no numbers.
pub fn no_sum() -> Sum
    ensures values { IsSumOf result [] }
    ensures answers { IsSumOfAnswers result [] }
{
    Some(SumAcc::new())
}

/// The sum with one more number.
pub fn with_value(sum: Sum, value: &XFrac) -> Sum
    requires { HasRoom sum }
    ensures sum { (xs : List XFrac) → IsSumOf sum xs → IsSumOf result (xs ++ value.now ∷ []) }
    ensures none { IfNone sum (result ≡ None) }
{
    is_number(value);
    match sum {
        Some(sum) => added(sum, value),
        None => {
            part_overflows_whole();
            None
        }
    }
}

fn added(mut sum: SumAcc, value: &XFrac) -> Sum
    requires { sum.count + 1 < 2 ^ 96 }
    ensures sum { (xs : List XFrac) → IsSumOf (Some sum) xs → IsSumOf result (xs ++ value.now ∷ []) }
{
    is_number(value);
    match sum.add(value) {
        Ok(()) => Some(sum),
        Err(_) => None,
    }
}

/// The sum with one more answer; none where it is a fault.
pub fn with_answer(sum: Sum, answer: Result<XFrac, NumFault>) -> Sum
    requires { HasRoom sum }
    ensures sum { (rs : List (Result XFrac NumFault)) → IsSumOfAnswers sum rs → IsSumOfAnswers result (rs ++ answer ∷ []) }
{
    match answer {
        Ok(value) => {
            is_number(&value);
            with_value(sum, &value)
        }
        Err(_) => None,
    }
}

/// The number that the sum comes to; `Overflow` exactly where there is none.
pub fn sum_of(sum: &Sum) -> Result<XFrac, NumFault>
    ensures values { (xs : List XFrac) → IsSumOf sum.now xs → result ≡ total xs }
    ensures answers { (rs : List (Result XFrac NumFault)) → IsSumOfAnswers sum.now rs → result ≡ total_of_answers rs }
{
    match sum {
        Some(sum) => Ok(sum.value()),
        None => Err(NumFault::Overflow),
    }
}
