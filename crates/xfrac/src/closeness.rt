//! Whether two numbers are near enough to be taken as equal.
ghost use Rattle.std.specs.Prelude.{◌≡◌, ◌<◌, ◌≤◌, ◌*◌, ◌↔◌, IsTrue};
ghost use Rattle.xfrac.specs.Fractions.{limit};
ghost use Rattle.xfrac.specs.Near.{are_near, is_near};

use crate::ratio::is_less;
use crate::value::{Frac, XFrac};

/// Whether two numbers are both NaN, or equal, or finite with |a - b| * 10^6 < |a| + |b| (the rule of
/// promqltest, on exact numbers).
pub fn near(a: &XFrac, b: &XFrac) -> bool
    ensures { result ≡ is_near a.now b.now }
{
    match (a, b) {
        (XFrac::Fin(x), XFrac::Fin(y)) => near_fractions(x, y),
        (XFrac::PosInf, XFrac::PosInf) => true,
        (XFrac::NegInf, XFrac::NegInf) => true,
        (XFrac::NaN, XFrac::NaN) => true,
        _ => false,
    }
}

fn near_fractions(a: &Frac, b: &Frac) -> bool
    ensures { result ≡ are_near a.now b.now }
{
    if a.is_same(b) {
        return true;
    }
    let (m, d) = (a.magnitude(), a.denominator());
    let (n, e) = (b.magnitude(), b.denominator());
    if m == 0 && n == 0 {
        return true;
    }
    if a.is_negative() != b.is_negative() {
        return false;
    }
    near_magnitudes(m, d, n, e)
}

/// Two magnitudes m/d and n/e that aren't both 0 are near exactly where the greater is less than
/// 1000001/999999 of the smaller.
fn near_magnitudes(m: u128, d: u128, n: u128, e: u128) -> bool
    requires left { 0 < d }
    requires right { 0 < e }
    requires left_within { m ≤ limit }
    requires right_within { n ≤ limit }
    ensures { IsTrue result ↔ ((m * 999999 * e < n * 1000001 * d) × (n * 999999 * d < m * 1000001 * e)) }
{
    is_less(m * 999999, d, n * 1000001, e) && is_less(n * 999999, e, m * 1000001, d)
}
