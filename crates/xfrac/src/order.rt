//! The order of numbers, and the comparison operators.
ghost use Rattle.std.specs.Ordering.{is_eq};
ghost use Rattle.std.specs.Prelude.{◌≡◌, IsTrue};
ghost use Rattle.xfrac.specs.Order.{fraction_order, total_order, rank, holds_at, holds_of_nan, compares};

use crate::ratio;
use crate::value::{CompareOp, Frac, XFrac, is_nan};
use std::cmp::Ordering;

/// Whether a comparison holds. With NaN on a side only `!=` does.
pub fn compare(op: CompareOp, a: &XFrac, b: &XFrac) -> bool
    ensures { result ≡ compares op a.now b.now }
{
    if is_nan(a) || is_nan(b) {
        matches!(op, CompareOp::Ne)
    } else {
        match op {
            CompareOp::Eq => are_equal(a, b),
            CompareOp::Ne => !are_equal(a, b),
            _ => holds(op, cmp_total(a, b)),
        }
    }
}

/// Whether neither number is above the other: of fractions in lowest terms, that both parts are the same.
fn are_equal(a: &XFrac, b: &XFrac) -> bool
    ensures { result ≡ is_eq (total_order a.now b.now) }
{
    match (a, b) {
        (XFrac::Fin(x), XFrac::Fin(y)) => are_equal_fractions(x, y),
        _ => place(a) == place(b),
    }
}

fn are_equal_fractions(a: &Frac, b: &Frac) -> bool
    ensures { result ≡ is_eq (fraction_order a.now b.now) }
{
    a.is_same(b)
}

/// The total order: -Inf, the fractions, +Inf, NaN.
pub fn cmp_total(a: &XFrac, b: &XFrac) -> Ordering
    ensures { result ≡ total_order a.now b.now }
{
    match (a, b) {
        (XFrac::Fin(x), XFrac::Fin(y)) => cmp_fractions(x, y),
        _ => place(a).cmp(&place(b)),
    }
}

fn place(a: &XFrac) -> u8
    ensures { result ≡ rank a.now }
{
    match a {
        XFrac::NegInf => 0,
        XFrac::Fin(_) => 1,
        XFrac::PosInf => 2,
        XFrac::NaN => 3,
    }
}

fn holds(op: CompareOp, order: Ordering) -> bool
    ensures { result ≡ holds_at op order }
{
    match op {
        CompareOp::Eq => order.is_eq(),
        CompareOp::Ne => order.is_ne(),
        CompareOp::Lt => order.is_lt(),
        CompareOp::Le => order.is_le(),
        CompareOp::Gt => order.is_gt(),
        CompareOp::Ge => order.is_ge(),
    }
}

/// How two whole numbers stand to one another.
fn cmp_wholes(a: &Frac, b: &Frac) -> Ordering
    requires left { a.now.1 ≡ 1 }
    requires right { b.now.1 ≡ 1 }
    ensures { result ≡ fraction_order a.now b.now }
{
    a.numerator().cmp(&b.numerator())
}

/// How two fractions stand to one another.
fn cmp_fractions(a: &Frac, b: &Frac) -> Ordering
    ensures { result ≡ fraction_order a.now b.now }
{
    let (d, e) = (a.denominator(), b.denominator());
    if d == 1 && e == 1 {
        return cmp_wholes(a, b);
    }
    let (m, n) = (a.magnitude(), b.magnitude());
    match (a.is_negative(), b.is_negative()) {
        (false, false) => ratio::order(m, d, n, e),
        (true, true) => ratio::order(n, e, m, d),
        (true, false) => Ordering::Less,
        (false, true) => Ordering::Greater,
    }
}
