//! Numbers formed of a numerator and a denominator, and of one number.
ghost use Rattle.std.specs.Prelude.{◌≡◌, ◌<◌, ◌≤◌, ◌<ℤ◌, pos, unsigned_abs, ok_or};
ghost use Rattle.std.specs.Int.{int_div_euclid};
ghost use Rattle.xfrac.specs.Fractions.{limit, lowest, with_sign};
ghost use Rattle.xfrac.specs.Forming.{formed, negated, magnitude, floor_of, ceiling_of};

use crate::divisors::{quotient, reduce};
use crate::value::{Frac, LIMIT, NumFault, XFrac};

/// The number n/d. It is `Overflow` exactly where its lowest terms are outside the limits.
pub fn of(n: i128, d: i128) -> Result<XFrac, NumFault>
    requires { pos 0 <ℤ d }
    ensures { result ≡ ok_or (formed n (unsigned_abs d)) NumFault.Overflow }
{
    form(n < 0, n.unsigned_abs(), d.unsigned_abs()).ok_or(NumFault::Overflow)
}

/// The fraction of a sign, a magnitude and a denominator that are within the limits, in lowest terms.
pub(crate) fn lowest_terms(negative: bool, m: u128, d: u128) -> Frac
    requires positive { 0 < d }
    requires numerator_within { m ≤ limit }
    requires denominator_within { d ≤ limit }
    ensures { result ≡ lowest (with_sign negative m) d }
{
    let (p, q) = reduce(m, d);
    Frac::with_parts(negative, p, q)
}

/// The number of a sign, a magnitude and a denominator, where its lowest terms are within the limits.
pub(crate) fn form(negative: bool, m: u128, d: u128) -> Option<XFrac>
    requires { 0 < d }
    ensures { result ≡ formed (with_sign negative m) d }
{
    let (p, q) = reduce(m, d);
    if p > LIMIT || q > LIMIT {
        return None;
    }
    Some(XFrac::Fin(Frac::with_parts(negative, p, q)))
}

/// The number with the other sign.
pub fn neg(a: &XFrac) -> XFrac
    ensures { result ≡ negated a.now }
{
    match a {
        XFrac::Fin(f) => XFrac::Fin(f.negated()),
        XFrac::PosInf => XFrac::NegInf,
        XFrac::NegInf => XFrac::PosInf,
        XFrac::NaN => XFrac::NaN,
    }
}

/// The greatest whole number that isn't above `a`.
pub fn floor(a: &XFrac) -> XFrac
    ensures { result ≡ floor_of a.now }
{
    match a {
        XFrac::Fin(f) => XFrac::Fin(whole_below(f)),
        XFrac::PosInf => XFrac::PosInf,
        XFrac::NegInf => XFrac::NegInf,
        XFrac::NaN => XFrac::NaN,
    }
}

/// The least whole number that isn't below `a`.
pub fn ceil(a: &XFrac) -> XFrac
    ensures { result ≡ ceiling_of a.now }
{
    neg(&floor(&neg(a)))
}

fn whole_below(f: &Frac) -> Frac
    ensures { result ≡ (int_div_euclid f.now.0 (pos f.now.1), 1) }
{
    let (m, d) = (f.magnitude(), f.denominator());
    if f.is_negative() {
        Frac::with_parts(true, quotient(m - 1, d) + 1, 1)
    } else {
        Frac::with_parts(false, quotient(m, d), 1)
    }
}

/// The number without its sign.
pub fn abs(a: &XFrac) -> XFrac
    ensures { result ≡ magnitude a.now }
{
    match a {
        XFrac::Fin(f) => XFrac::Fin(f.without_sign()),
        XFrac::PosInf => XFrac::PosInf,
        XFrac::NegInf => XFrac::PosInf,
        XFrac::NaN => XFrac::NaN,
    }
}
