//! Products and quotients, taken after common factors are divided out.
ghost use Rattle.std.specs.Prelude.{◌≡◌, ◌*◌, ◌<◌, pos, IsFalse};
ghost use Rattle.xfrac.specs.Fractions.{IsReduced, with_sign};
ghost use Rattle.xfrac.specs.Forming.{formed};
ghost use Rattle.xfrac.specs.Kinds.{is_zero as is_zero_number};
ghost use Rattle.xfrac.specs.Arithmetic.{product, quotient, reciprocal, sign_of, joint_sign, infinity_of};

use crate::divisors::{limited_product, reduce};
use crate::value::{Frac, XFrac, is_zero, whole};
use std::cmp::Ordering;

/// The product, where its lowest terms are within the limits.
pub fn multiply(a: &XFrac, b: &XFrac) -> Option<XFrac>
    ensures { result ≡ product a.now b.now }
{
    match (a, b) {
        (XFrac::Fin(x), XFrac::Fin(y)) => {
            let (negative, m, d) = x.split();
            let (other_negative, n, e) = y.split();
            ratio_product(negative != other_negative, m, d, n, e)
        }
        _ => Some(infinity(joint(sign(a), sign(b)))),
    }
}

/// The quotient, where its lowest terms are within the limits.
pub fn divide(a: &XFrac, b: &XFrac) -> Option<XFrac>
    ensures { result ≡ quotient a.now b.now }
{
    match (a, b) {
        (_, XFrac::Fin(y)) => {
            if is_zero(b) {
                Some(infinity(sign(a)))
            } else {
                divide_by_fraction(a, y)
            }
        }
        (XFrac::Fin(_), XFrac::PosInf | XFrac::NegInf) => Some(whole(0)),
        _ => Some(XFrac::NaN),
    }
}

fn divide_by_fraction(a: &XFrac, b: &Frac) -> Option<XFrac>
    requires { IsFalse (is_zero_number (XFrac.Fin b.now)) }
    ensures { result ≡ product a.now (XFrac.Fin (reciprocal b.now)) }
{
    let (other_negative, n, e) = b.split();
    match a {
        XFrac::Fin(x) => {
            let (negative, m, d) = x.split();
            ratio_product(negative != other_negative, m, d, e, n)
        }
        _ => {
            if other_negative {
                Some(infinity(sign(a).reverse()))
            } else {
                Some(infinity(sign(a)))
            }
        }
    }
}

/// The product of m/d and n/e with a sign.
fn ratio_product(negative: bool, m: u128, d: u128, n: u128, e: u128) -> Option<XFrac>
    requires left { IsReduced m d }
    requires right { IsReduced n e }
    ensures { result ≡ formed (with_sign negative (m * n)) (d * e) }
{
    let left = reduce(m, e);
    let right = reduce(n, d);
    let p = limited_product(left.0, right.0)?;
    let q = limited_product(right.1, left.1)?;
    Some(XFrac::Fin(Frac::with_parts(negative, p, q)))
}

fn sign(a: &XFrac) -> Ordering
    ensures { result ≡ sign_of a.now }
{
    match a {
        XFrac::Fin(f) => f.numerator().cmp(&0),
        XFrac::PosInf => Ordering::Greater,
        XFrac::NegInf => Ordering::Less,
        XFrac::NaN => Ordering::Equal,
    }
}

fn joint(a: Ordering, b: Ordering) -> Ordering
    ensures { result ≡ joint_sign a b }
{
    match a {
        Ordering::Equal => Ordering::Equal,
        Ordering::Greater => b,
        Ordering::Less => b.reverse(),
    }
}

fn infinity(sign: Ordering) -> XFrac
    ensures { result ≡ infinity_of sign }
{
    match sign {
        Ordering::Greater => XFrac::PosInf,
        Ordering::Less => XFrac::NegInf,
        Ordering::Equal => XFrac::NaN,
    }
}
