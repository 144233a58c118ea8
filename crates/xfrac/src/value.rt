//! The values and the names of what is done with them.
ghost use Rattle.std.specs.Prelude.{◌≡◌, ◌<◌, ◌≤◌, ◌<ℤ◌, ◌↔◌, IsTrue, ℤ, pos, neg_ℤ, unsigned_abs, int_lt};
ghost use Rattle.xfrac.specs.Fractions.{IsReduced, limit, with_sign};
ghost use Rattle.xfrac.specs.Kinds.{is_not_a_number, is_positive_infinity, is_negative_infinity, is_zero as is_zero_number};

use crate::halves::Halves;
use std::marker::Model;
use thiserror::Error;

/// The greatest magnitude of a numerator and the greatest denominator: 10^30 (this project's own).
pub const LIMIT: u128 = 1_000_000_000_000_000_000_000_000_000_000;

/// A fraction in lowest terms: a numerator of magnitude at most `LIMIT` over a denominator from 1 to `LIMIT`.
#[derive(Clone, Copy, Debug)]
pub struct Frac {
    /// The bits of the numerator.
    n: Halves,
    d: Halves,
}

impl Model for Frac {
    ghost use Rattle.std.specs.Prelude.{◌<◌, ◌^◌, ℕ, ℤ, unsigned_abs};
    ghost use Rattle.std.specs.Int.{cast_signed, cast_unsigned, w128};
    ghost use Rattle.std.proofs.lemmas.Int.{of_z-to_z};
    ghost use Rattle.xfrac.specs.Fractions.{IsReduced};

    ghost Value = { ℤ × ℕ };

    ghost view = { λ f. (cast_signed w128 f.n, f.d) };

    ghost invariant = { λ f. (f.n < 2 ^ 128) × IsReduced (unsigned_abs (cast_signed w128 f.n)) f.d };

    ghost inverse = { λ v. record { n = cast_unsigned w128 v.0; d = v.1 } };

    ghost inverse_ok = { λ f h i. record { n = of_z-to_z w128 f.n h.0 i; d = f.d } };
}

impl PartialEq for Frac {
    ghost use Rattle.std.proofs.Common.{rules, int_eq, nat_eq, ◌&&◌};
    ghost use Rattle.std.specs.Cmp.Rules.{comparing};

    ghost eq = { λ x y. int_eq x.0 y.0 && nat_eq x.1 y.1 };

    ghost laws = { Prim.search (comparing, rules) };

    fn eq(&self, other: &Frac) -> bool {
        self.is_same(other)
    }
}

impl Eq for Frac {
    ghost use Rattle.std.proofs.Common.{rules};
    ghost use Rattle.std.specs.Cmp.Rules.{comparing};

    ghost laws = { Prim.search (comparing, rules) };
}

impl Frac {
    fn of(n: i128, d: u128) -> Frac
        requires { IsReduced (unsigned_abs n) d }
        ensures { result ≡ (n, d) }
    {
        Frac {
            n: Halves::of(n.cast_unsigned()),
            d: Halves::of(d),
        }
    }

    /// The fraction of this sign, magnitude and denominator.
    pub(crate) fn with_parts(negative: bool, m: u128, d: u128) -> Frac
        requires { IsReduced m d }
        ensures { result ≡ (with_sign negative m, d) }
    {
        let n = m as i128;
        Frac::of(if negative { -n } else { n }, d)
    }

    pub(crate) fn negated(&self) -> Frac
        ensures { result ≡ (neg_ℤ self.now.0, self.now.1) }
    {
        Frac::of(-self.numerator(), self.denominator())
    }

    pub(crate) fn without_sign(&self) -> Frac
        ensures { result ≡ (pos (unsigned_abs self.now.0), self.now.1) }
    {
        Frac::of(self.numerator().abs(), self.denominator())
    }

    pub(crate) fn is_negative(&self) -> bool
        ensures { IsTrue result ↔ (self.now.0 <ℤ pos 0) }
    {
        self.numerator() < 0
    }

    pub(crate) fn is_positive(&self) -> bool
        ensures { result ≡ int_lt (pos 0) self.now.0 }
    {
        0 < self.numerator()
    }

    pub(crate) fn numerator(&self) -> i128
        ensures value { result ≡ self.now.0 }
        ensures reduced { IsReduced (unsigned_abs self.now.0) self.now.1 }
    {
        self.n.get().cast_signed()
    }

    pub(crate) fn magnitude(&self) -> u128
        ensures value { result ≡ unsigned_abs self.now.0 }
        ensures within { result ≤ limit }
    {
        self.numerator().unsigned_abs()
    }

    /// The sign, the magnitude and the denominator.
    pub(crate) fn split(&self) -> (bool, u128, u128)
        ensures value { self.now ≡ (with_sign result.0 result.1, result.2) }
        ensures sign { result.0 ≡ int_lt self.now.0 (pos 0) }
        ensures magnitude { result.1 ≡ unsigned_abs self.now.0 }
        ensures reduced { IsReduced result.1 result.2 }
    {
        let n = self.numerator();
        (n < 0, n.unsigned_abs(), self.d.get())
    }

    /// Whether both parts are the same.
    pub(crate) fn is_same(&self, other: &Frac) -> bool
        ensures same { IsTrue result ↔ (self.now ≡ other.now) }
        ensures left { IsReduced (unsigned_abs self.now.0) self.now.1 }
        ensures right { IsReduced (unsigned_abs other.now.0) other.now.1 }
    {
        self.n == other.n && self.d == other.d
    }

    /// A law, with nothing to run: the fraction is in lowest terms and within the limits.
    pub(crate) fn is_reduced(&self)
        ensures { IsReduced (unsigned_abs self.now.0) self.now.1 }
    {
        let _ = &self.n;
    }

    pub(crate) fn denominator(&self) -> u128
        ensures value { result ≡ self.now.1 }
        ensures positive { 0 < result }
        ensures within { result ≤ limit }
    {
        self.d.get()
    }
}

/// A number: a fraction, an infinity, or NaN.
#[derive(Clone, Copy, Debug, PartialEq, Eq)]
pub enum XFrac {
    Fin(Frac),
    PosInf,
    NegInf,
    NaN,
}

/// A stored sample: a number, or the marker that its series ended there.
#[derive(Clone, Copy, Debug, PartialEq, Eq)]
pub enum Held {
    Value(XFrac),
    Stale,
}

/// The arithmetic operators: `+ - * / % ^`.
#[derive(Clone, Copy, Debug, PartialEq, Eq)]
pub enum ArithOp {
    Add,
    Sub,
    Mul,
    Div,
    Rem,
    Pow,
}

/// The comparison operators: `== != < <= > >=`.
#[derive(Clone, Copy, Debug, PartialEq, Eq)]
pub enum CompareOp {
    Eq,
    Ne,
    Lt,
    Le,
    Gt,
    Ge,
}

/// What is done with a pair of values: arithmetic, a comparison that keeps or drops the left one,
/// or a comparison that gives 1 or 0.
#[derive(Clone, Copy, Debug, PartialEq, Eq)]
pub enum PairOp {
    Arith(ArithOp),
    Filter(CompareOp),
    Flag(CompareOp),
}

/// Why an operation has no value.
#[derive(Clone, Copy, Debug, PartialEq, Eq, Error)]
pub enum NumFault {
    /// The result is outside the limits.
    #[error("overflow")]
    Overflow = 1,
    /// The power is no fraction: its exponent isn't whole.
    #[error("irrational result")]
    Irrational = 2,
    /// The time has no date in the years 1 to 9999. No operation on numbers answers it.
    #[error("time outside the calendar")]
    OutOfCalendar = 3,
}

/// The sum is outside the limits.
#[derive(Clone, Copy, Debug, PartialEq, Eq, Error)]
#[error("overflow")]
pub struct Overflow;

/// The whole number `n`.
pub fn whole(n: i64) -> XFrac
    ensures { result ≡ XFrac.Fin (n, 1) }
{
    XFrac::Fin(Frac::of(n as i128, 1))
}

/// The whole number `n`, a count of at most `LIMIT`.
#[tactic(auto, using(crate::specs::Reduced::whole_is_reduced))]
pub fn whole_count(n: u128) -> XFrac
    requires { n ≤ limit }
    ensures { result ≡ XFrac.Fin (pos n, 1) }
{
    XFrac::Fin(Frac::with_parts(false, n, 1))
}

/// The numerator and the denominator, which is positive: lowest terms within the limits.
pub fn parts(f: &Frac) -> (i128, i128)
    ensures numerator { result.0 ≡ f.now.0 }
    ensures denominator { result.1 ≡ pos f.now.1 }
    ensures reduced { IsReduced (unsigned_abs f.now.0) f.now.1 }
{
    (f.numerator(), f.denominator() as i128)
}

/// Whether the number is NaN.
pub fn is_nan(a: &XFrac) -> bool
    ensures { result ≡ is_not_a_number a.now }
{
    matches!(a, XFrac::NaN)
}

pub(crate) fn is_positive_infinity(a: &XFrac) -> bool
    ensures { result ≡ is_positive_infinity a.now }
{
    matches!(a, XFrac::PosInf)
}

pub(crate) fn is_negative_infinity(a: &XFrac) -> bool
    ensures { result ≡ is_negative_infinity a.now }
{
    matches!(a, XFrac::NegInf)
}

pub(crate) fn is_zero(a: &XFrac) -> bool
    ensures { result ≡ is_zero_number a.now }
{
    match a {
        XFrac::Fin(f) => f.numerator() == 0,
        _ => false,
    }
}
