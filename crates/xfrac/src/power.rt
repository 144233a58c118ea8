//! Powers.
ghost use Rattle.std.specs.Prelude.{◌≡◌, ◌<◌, ◌≤◌, ◌^◌, ◌%◌, ◌==◌, ◌&&◌, IsFalse, if◌then◌else◌};
ghost use Rattle.std.specs.Option.{SomeIff};
ghost use Rattle.xfrac.specs.Fractions.{IsReduced, limit, with_sign};
ghost use Rattle.xfrac.specs.Forming.{formed};
ghost use Rattle.xfrac.specs.Kinds.{is_zero as is_zero_number};
ghost use Rattle.xfrac.specs.Arithmetic.{power as power_of, proper_power as proper_power_of, finite_power as finite_power_of, infinite_power as infinite_power_of, exact_power as exact_power_of, unit_order as unit_order_of, is_root as is_root_power, is_one as is_one_number, is_odd_whole as is_odd_whole_number};

use crate::divisors::limited_product;
use crate::value::{Frac, NumFault, XFrac, is_nan, is_zero, whole};
use std::cmp::Ordering;

/// The power, by the first case that fits.
pub fn power(a: &XFrac, b: &XFrac) -> Result<XFrac, NumFault>
    ensures { result ≡ power_of a.now b.now }
{
    if is_zero(b) {
        Ok(whole(1))
    } else if is_root(a, b) {
        Err(NumFault::Irrational)
    } else if is_one(a) {
        Ok(whole(1))
    } else if is_nan(a) || is_nan(b) {
        Ok(XFrac::NaN)
    } else {
        proper_power(a, b)
    }
}

fn proper_power(a: &XFrac, b: &XFrac) -> Result<XFrac, NumFault>
    ensures { result ≡ proper_power_of a.now b.now }
{
    match b {
        XFrac::Fin(exponent) => finite_power(a, exponent),
        _ => Ok(infinite_power(unit_order(a), b)),
    }
}

fn finite_power(a: &XFrac, b: &Frac) -> Result<XFrac, NumFault>
    ensures { result ≡ finite_power_of a.now b.now }
{
    match a {
        XFrac::PosInf => Ok(choose(b.is_positive(), XFrac::PosInf, whole(0))),
        XFrac::NegInf => {
            if b.is_negative() {
                Ok(whole(0))
            } else {
                Ok(choose(is_odd_whole(b), XFrac::NegInf, XFrac::PosInf))
            }
        }
        XFrac::NaN => Ok(XFrac::NaN),
        XFrac::Fin(base) => {
            if is_zero(a) {
                Ok(choose(b.is_positive(), whole(0), XFrac::PosInf))
            } else {
                exact_power(base, b).ok_or(NumFault::Overflow)
            }
        }
    }
}

fn choose(first: bool, a: XFrac, b: XFrac) -> XFrac
    ensures { result ≡ (if first then a else b) }
{
    if first { a } else { b }
}

fn infinite_power(magnitude: Ordering, b: &XFrac) -> XFrac
    ensures { result ≡ infinite_power_of magnitude b.now }
{
    match (magnitude, b) {
        (Ordering::Equal, _) => whole(1),
        (Ordering::Greater, XFrac::NegInf) => whole(0),
        (Ordering::Greater, _) | (Ordering::Less, XFrac::NegInf) => XFrac::PosInf,
        (Ordering::Less, _) => whole(0),
    }
}

fn unit_order(a: &XFrac) -> Ordering
    ensures { result ≡ unit_order_of a.now }
{
    match a {
        XFrac::Fin(f) => f.magnitude().cmp(&f.denominator()),
        _ => Ordering::Greater,
    }
}

fn is_root(a: &XFrac, b: &XFrac) -> bool
    ensures { result ≡ is_root_power a.now b.now }
{
    match (a, b) {
        (XFrac::Fin(_), XFrac::Fin(exponent)) => exponent.denominator() != 1,
        _ => false,
    }
}

fn is_one(a: &XFrac) -> bool
    ensures { result ≡ is_one_number a.now }
{
    match a {
        XFrac::Fin(f) => !f.is_negative() && f.magnitude() == f.denominator(),
        _ => false,
    }
}

fn is_odd_whole(b: &Frac) -> bool
    ensures { result ≡ is_odd_whole_number b.now }
{
    b.denominator() == 1 && b.magnitude() % 2 == 1
}

/// A fraction that isn't 0 to a whole power: both parts are raised, turned round where the exponent is
/// below 0.
fn exact_power(base: &Frac, exponent: &Frac) -> Option<XFrac>
    requires { IsFalse (is_zero_number (XFrac.Fin base.now)) }
    ensures { result ≡ exact_power_of base.now exponent.now.0 }
{
    let (negative, m, d) = base.split();
    let k = exponent.magnitude();
    if exponent.is_negative() {
        raise(negative, d, m, k)
    } else {
        raise(negative, m, d, k)
    }
}

/// The sign of the power of a number that isn't 0.
fn has_negative_power(negative: bool, k: u128) -> bool
    ensures { result ≡ (negative && k % 2 == 1) }
{
    negative && k % 2 == 1
}

/// The power k of the ratio m/d with a sign.
fn raise(negative: bool, m: u128, d: u128, k: u128) -> Option<XFrac>
    requires some { 0 < m }
    requires base { IsReduced m d }
    ensures { result ≡ formed (with_sign (negative && k % 2 == 1) (m ^ k)) (d ^ k) }
{
    let p = limited_power(m, k)?;
    let q = limited_power(d, k)?;
    Some(XFrac::Fin(Frac::with_parts(has_negative_power(negative, k), p, q)))
}

/// The power, by squaring, where it is within the limit. It stops at the first square that isn't.
fn limited_power(base: u128, k: u128) -> Option<u128>
    requires positive { 0 < base }
    requires within { base ≤ limit }
    ensures { SomeIff result (base ^ k ≤ limit) (base ^ k) }
{
    if k == 0 {
        return Some(1);
    }
    let half = limited_power(base, k / 2)?;
    let square = limited_product(half, half)?;
    if k % 2 == 1 {
        limited_product(square, base)
    } else {
        Some(square)
    }
}
