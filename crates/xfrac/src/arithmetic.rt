//! The arithmetic operators.
ghost use Rattle.std.specs.Prelude.{◌≡◌, IsFalse};
ghost use Rattle.xfrac.specs.Kinds.{is_zero as is_zero_number};
ghost use Rattle.xfrac.specs.Arithmetic.{arithmetic, remainder as remainder_of, fraction_remainder as fraction_remainder_of};

use crate::divisors::{limited_multiple, limited_product, quotient, rest};
use crate::forming::{lowest_terms, neg};
use crate::power::power;
use crate::product::{divide, multiply};
use crate::sums::sum_of_two;
use crate::value::{ArithOp, Frac, NumFault, XFrac, is_zero};

/// The value of an operation. It is `Overflow` exactly where what is formed passes the limits, and
/// `Irrational` exactly where a finite base has an exponent that isn't whole, by `Pow` alone.
pub fn arith(op: ArithOp, a: &XFrac, b: &XFrac) -> Result<XFrac, NumFault>
    ensures { result ≡ arithmetic op a.now b.now }
{
    match op {
        ArithOp::Add => sum_of_two(a, b).ok_or(NumFault::Overflow),
        ArithOp::Sub => sum_of_two(a, &neg(b)).ok_or(NumFault::Overflow),
        ArithOp::Mul => multiply(a, b).ok_or(NumFault::Overflow),
        ArithOp::Div => divide(a, b).ok_or(NumFault::Overflow),
        ArithOp::Rem => remainder(a, b).ok_or(NumFault::Overflow),
        ArithOp::Pow => power(a, b),
    }
}

fn remainder(a: &XFrac, b: &XFrac) -> Option<XFrac>
    ensures { result ≡ remainder_of a.now b.now }
{
    match (a, b) {
        (XFrac::Fin(x), XFrac::Fin(y)) => {
            if is_zero(b) {
                Some(XFrac::NaN)
            } else {
                fraction_remainder(x, y)
            }
        }
        (XFrac::Fin(_), XFrac::PosInf | XFrac::NegInf) => Some(*a),
        _ => Some(XFrac::NaN),
    }
}

/// Both numerators are brought over the common denominator, and the rest of the magnitudes has the
/// sign of `a`.
fn fraction_remainder(a: &Frac, b: &Frac) -> Option<XFrac>
    requires { IsFalse (is_zero_number (XFrac.Fin b.now)) }
    ensures { result ≡ fraction_remainder_of a.now b.now }
{
    let (negative, m, d) = a.split();
    let (_, n, e) = b.split();
    let multiple = limited_multiple(d, e)?;
    let left = limited_product(m, quotient(multiple, d))?;
    let right = limited_product(n, quotient(multiple, e))?;
    Some(XFrac::Fin(lowest_terms(negative, rest(left, right), multiple)))
}
