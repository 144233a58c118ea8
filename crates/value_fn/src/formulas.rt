//! One formula for each element function, by the Prometheus querying documentation.
ghost use Rattle.std.specs.Prelude.{◌≡◌, ◌↔◌, IsTrue, IfErr};
ghost use Rattle.std.specs.Option.{option_and_then};
ghost use Rattle.xfrac.specs.Order.{compares};
ghost use Rattle.value_fn.specs.Elements.{half as half_number, rounded, sign_number, raised, lowered, clamped, element_of, MayFail, is_calendar, is_out_of_calendar, calendar_part as part_of, part_at as part_at_seconds, whole_seconds};

use calendar_fn::{
    day_of_month, day_of_week, day_of_year, days_in_month, hour, minute, month, year,
};
use func_table::{CalendarPart, Element};
use std::cmp::Ordering;
use xfrac::{
    ArithOp, CompareOp, NumFault, XFrac, abs, arith, ceil, cmp_total, compare, floor, is_nan, neg,
    of, parts, whole,
};

/// The value of an element function, or `None` where it gives no row: for `Clamp` with its lower bound above its upper
/// one alone. `first` is the number that `Round` rounds to, or the bound of `ClampMin` and `ClampMax`; `Clamp` has the
/// lower bound as `first` and the upper one as `second`; the others read neither. It is `Overflow` exactly where an
/// operation of `Round` is, `OutOfCalendar` exactly where a calendar function gets what is no time in the years 1 to
/// 9999, and never `Irrational`. It takes no memory.
#[tactic(auto, using(crate::proofs::Faults::fault_is_known, crate::proofs::Faults::no_row_exactly, crate::proofs::Faults::outside_exactly))]
pub fn element(
    f: Element,
    v: &XFrac,
    first: &XFrac,
    second: &XFrac,
) -> Result<Option<XFrac>, NumFault>
    ensures value { result ≡ element_of f v.now first.now second.now }
    ensures no_row { (result ≡ Ok None) ↔ ((f ≡ Element.Clamp) × IsTrue (compares CompareOp.Gt first.now second.now)) }
    ensures faults { IfErr result (MayFail f) }
    ensures outside { (result ≡ Err NumFault.OutOfCalendar) ↔ (IsTrue (is_calendar f) × IsTrue (is_out_of_calendar v.now)) }
{
    match f {
        Element::Abs => Ok(Some(abs(v))),
        Element::Ceil => Ok(Some(ceil(v))),
        Element::Floor => Ok(Some(floor(v))),
        Element::Round => Ok(Some(round(v, first)?)),
        Element::Sgn => Ok(Some(sgn(v))),
        Element::Neg => Ok(Some(neg(v))),
        Element::Clamp => Ok(clamp(v, first, second)),
        Element::ClampMin => Ok(Some(clamp_min(v, first))),
        Element::ClampMax => Ok(Some(clamp_max(v, first))),
        Element::Calendar(part) => Ok(Some(calendar_part(part, v)?)),
    }
}

/// floor(v / to + 1/2) * to: for a positive `to` the nearest multiple, halves up.
fn round(v: &XFrac, to: &XFrac) -> Result<XFrac, NumFault>
    ensures { result ≡ rounded v.now to.now }
{
    let quotient = arith(ArithOp::Div, v, to)?;
    let shifted = arith(ArithOp::Add, &quotient, &half())?;
    arith(ArithOp::Mul, &floor(&shifted), to)
}

#[tactic(auto, using(crate::proofs::Halves::half_is_formed))]
fn half() -> XFrac
    ensures { result ≡ half_number }
{
    of(1, 2).unwrap()
}

/// -1, 0 or 1, by how `v` stands to 0; NaN of NaN.
fn sgn(v: &XFrac) -> XFrac
    ensures { result ≡ sign_number v.now }
{
    if is_nan(v) {
        return XFrac::NaN;
    }
    match cmp_total(v, &whole(0)) {
        Ordering::Less => whole(-1),
        Ordering::Equal => whole(0),
        Ordering::Greater => whole(1),
    }
}

/// `v` between two bounds, where they are in order.
fn clamp(v: &XFrac, low: &XFrac, high: &XFrac) -> Option<XFrac>
    ensures { result ≡ clamped v.now low.now high.now }
{
    if compare(CompareOp::Gt, low, high) {
        None
    } else if is_nan(v) || is_nan(low) || is_nan(high) {
        Some(XFrac::NaN)
    } else if compare(CompareOp::Lt, v, low) {
        Some(*low)
    } else if compare(CompareOp::Gt, v, high) {
        Some(*high)
    } else {
        Some(*v)
    }
}

/// `v`, or the bound that it is below.
fn clamp_min(v: &XFrac, low: &XFrac) -> XFrac
    ensures { result ≡ raised v.now low.now }
{
    if is_nan(v) || is_nan(low) {
        XFrac::NaN
    } else if compare(CompareOp::Lt, v, low) {
        *low
    } else {
        *v
    }
}

/// `v`, or the bound that it is above.
fn clamp_max(v: &XFrac, high: &XFrac) -> XFrac
    ensures { result ≡ lowered v.now high.now }
{
    if is_nan(v) || is_nan(high) {
        XFrac::NaN
    } else if compare(CompareOp::Gt, v, high) {
        *high
    } else {
        *v
    }
}

/// A part of the time that a number of seconds is.
fn calendar_part(part: CalendarPart, v: &XFrac) -> Result<XFrac, NumFault>
    ensures { result ≡ part_of part v.now }
{
    match part_of_number(part, v) {
        Some(number) => Ok(whole(number as i64)),
        None => Err(NumFault::OutOfCalendar),
    }
}

/// The same, or `None` where the number is no time of the calendar.
fn part_of_number(part: CalendarPart, v: &XFrac) -> Option<u32>
    ensures { result ≡ option_and_then (part_at_seconds part) (whole_seconds v.now) }
{
    let XFrac::Fin(fraction) = v else {
        return None;
    };
    let (numerator, denominator) = parts(fraction);
    // What 64 bits don't hold is no time of the calendar.
    match i64::try_from(numerator / denominator) {
        Ok(seconds) => part_at(part, seconds),
        Err(_) => None,
    }
}

fn part_at(part: CalendarPart, seconds: i64) -> Option<u32>
    ensures { result ≡ part_at_seconds part seconds }
{
    match part {
        CalendarPart::DayOfMonth => day_of_month(seconds),
        CalendarPart::DayOfWeek => day_of_week(seconds),
        CalendarPart::DayOfYear => day_of_year(seconds),
        CalendarPart::DaysInMonth => days_in_month(seconds),
        CalendarPart::Hour => hour(seconds),
        CalendarPart::Minute => minute(seconds),
        CalendarPart::Month => month(seconds),
        CalendarPart::Year => year(seconds),
    }
}
