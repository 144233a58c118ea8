//! The aggregations over a list of values. (Prometheus querying, "Aggregation operators".)
ghost use Rattle.std.specs.Prelude.{◌≡◌, ◌<◌, length, map};
ghost use Rattle.window_fn.specs.Aggregates.{average, count_of, greater, greatest, least, lesser, squared_distance, total, total_of_answers, variance};
ghost use Rattle.window_fn.specs.Totals.{IsSumOf};
ghost use Rattle.xfrac.specs.Kinds.{is_not_a_number};

use crate::sums::{Sum, no_sum, sum_of, with_answer, with_value};
use xfrac::{ArithOp, CompareOp, NumFault, XFrac, arith, compare, whole};

/// The sum of the values, formed as one: `Overflow` exactly where their common denominator or the sum of their
/// magnitudes is outside the limits, whatever the order of the values.
pub fn total(values: &[XFrac]) -> Result<XFrac, NumFault>
    ensures { result ≡ total values.now }
{
    sum_of(&sum_over(values))
}

fn sum_over(values: &[XFrac]) -> Sum
    ensures { IsSumOf result values.now }
{
    let mut sum = no_sum();
    for value in values {
        sum = with_value(sum, value);
    }
    sum
}

/// The sum of the values divided by how many there are. `Overflow` comes exactly where the sum or the quotient is
/// outside the limits.
pub fn average(values: &[XFrac]) -> Result<XFrac, NumFault>
    requires { 0 < length values.now }
    ensures { result ≡ average values.now }
{
    match sum_over(values) {
        Some(sum) => sum.mean().map_err(|_| NumFault::Overflow),
        None => Err(NumFault::Overflow),
    }
}

/// How many values there are.
pub fn count(values: &[XFrac]) -> XFrac
    ensures { result ≡ count_of values.now }
{
    whole(values.len() as i64)
}

/// The greatest value; NaN only where there is no other.
pub fn greatest(values: &[XFrac]) -> XFrac
    ensures { result ≡ greatest values.now }
{
    values
        .iter()
        .fold(XFrac::NaN, |most, value| greater(&most, value))
}

fn greater(most: &XFrac, value: &XFrac) -> XFrac
    ensures { result ≡ greater most.now value.now }
{
    if is_nan(most) || compare(CompareOp::Gt, value, most) {
        *value
    } else {
        *most
    }
}

/// The least value; NaN only where there is no other.
pub fn least(values: &[XFrac]) -> XFrac
    ensures { result ≡ least values.now }
{
    values
        .iter()
        .fold(XFrac::NaN, |least, value| lesser(&least, value))
}

fn lesser(least: &XFrac, value: &XFrac) -> XFrac
    ensures { result ≡ lesser least.now value.now }
{
    if is_nan(least) || compare(CompareOp::Lt, value, least) {
        *value
    } else {
        *least
    }
}

/// The sum of the squares of how far each value is from the mean, divided by how many there are. `Overflow` comes
/// exactly where one of these numbers is outside the limits. It goes over the values twice, for the mean and for the
/// squares.
pub fn variance(values: &[XFrac]) -> Result<XFrac, NumFault>
    requires { 0 < length values.now }
    ensures { result ≡ variance values.now }
{
    let mean = average(values)?;
    let squares = total_square(values, &mean)?;
    arith(ArithOp::Div, &squares, &count(values))
}

fn total_square(values: &[XFrac], mean: &XFrac) -> Result<XFrac, NumFault>
    ensures { result ≡ total_of_answers (map (squared_distance mean.now) values.now) }
{
    let mut sum = no_sum();
    for value in values {
        sum = with_answer(sum, squared_distance(mean, value));
    }
    sum_of(&sum)
}

fn squared_distance(mean: &XFrac, value: &XFrac) -> Result<XFrac, NumFault>
    ensures { result ≡ squared_distance mean.now value.now }
{
    let distance = arith(ArithOp::Sub, value, mean)?;
    arith(ArithOp::Mul, &distance, &distance)
}

pub(crate) fn is_nan(v: &XFrac) -> bool
    ensures { result ≡ is_not_a_number v.now }
{
    matches!(v, XFrac::NaN)
}
