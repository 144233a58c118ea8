//! The sum of a list of numbers, kept as it grows.
ghost use Rattle.std.specs.Prelude.{◌≡◌, ◌<◌, ◌≤◌, ◌+◌, ◌*◌, ◌^◌, ◌⊎◌, ℕ, ◌-ℤ◌, pos, List, [], ◌∷◌, ◌++◌, OnOk, OnErr, is_ok, is_some, length, Some, None, if◌then◌else◌};
ghost use Rattle.std.specs.Option.{SomeIff, ok_or};
ghost use Rattle.xfrac.specs.Arithmetic.{mean_of, whole_number, quotient as quotient_of};
ghost use Rattle.xfrac.specs.declared.value.XFrac.{XFrac};
ghost use Rattle.xfrac.specs.Fractions.{limit, lowest, with_sign};
ghost use Rattle.std.specs.Int.{IsGcd};
ghost use Rattle.xfrac.specs.Sums.{StandsFor, alone, joined, fits, value_of, sum_of, with_part, upper, lower, denominator_of, part_above, part_below};

use crate::divisors::{limited_multiple, limited_product, quotient, shared_divisor};
use crate::forming::lowest_terms;
use crate::product::divide;
use crate::value::{
    Frac, LIMIT, Overflow, XFrac, is_nan, is_negative_infinity, is_positive_infinity,
};
use std::marker::Model;

/// The sum of a list of numbers, not yet reduced, so that its overflow depends on the numbers alone and
/// not on their order. A contract sees it as the totals of the list that it stands for.
#[derive(Clone, Copy, Debug, PartialEq, Eq)]
pub struct SumAcc {
    multiple: u128,
    above: u128,
    below: u128,
    has_positive_infinity: bool,
    has_negative_infinity: bool,
    has_nan: bool,
    count: u128,
}

impl Model for SumAcc {
    ghost use Rattle.xfrac.specs.Sums.{IsHeld, Totals};

    ghost Value = { Totals };

    ghost view = { λ s. record { multiple = s.multiple; above = s.above; below = s.below; has_positive_infinity = s.has_positive_infinity; has_negative_infinity = s.has_negative_infinity; has_nan = s.has_nan; count = s.count } };

    ghost invariant = { λ s. IsHeld s.multiple s.above s.below s.count };

    ghost inverse = { λ t. record { multiple = t.multiple; above = t.above; below = t.below; has_positive_infinity = t.has_positive_infinity; has_negative_infinity = t.has_negative_infinity; has_nan = t.has_nan; count = t.count } };
}

impl SumAcc {
    /// The sum of no numbers.
    pub fn new() -> SumAcc
        ensures value { StandsFor result [] }
        ensures count { result.count ≡ 0 }
    {
        SumAcc {
            multiple: 1,
            above: 0,
            below: 0,
            has_positive_infinity: false,
            has_negative_infinity: false,
            has_nan: false,
            count: 0,
        }
    }

    /// The sum of one number.
    fn of(v: &XFrac) -> SumAcc
        ensures alone { result ≡ alone v.now }
        ensures value { StandsFor result (v.now ∷ []) }
        ensures count { result.count ≡ 1 }
    {
        let (multiple, above, below) = terms(v);
        SumAcc {
            multiple,
            above,
            below,
            has_positive_infinity: is_positive_infinity(v),
            has_negative_infinity: is_negative_infinity(v),
            has_nan: is_nan(v),
            count: 1,
        }
    }

    /// Adds `v` to the list. `Overflow` comes exactly where the longer list has no sum, and then nothing
    /// is changed. Where its denominator divides the common one, as that of each whole number does, no common divisor is
    /// sought.
    pub fn add(&mut self, v: &XFrac) -> Result<(), Overflow>
        requires { self.old.count + 1 < 2 ^ 96 }
        ensures told { is_ok result ≡ fits (joined self.old (alone v.now)) }
        ensures total { OnOk result (self.new ≡ joined self.old (alone v.now)) }
        ensures appended { (xs : List XFrac) → StandsFor self.old xs → OnOk result (StandsFor self.new (xs ++ v.now ∷ [])) }
        ensures overflow { (xs : List XFrac) → StandsFor self.old xs → is_ok result ≡ is_some (sum_of (xs ++ v.now ∷ [])) }
        ensures counted { OnOk result (self.new.count ≡ self.old.count + 1) }
        ensures unchanged { OnErr result (self.new ≡ self.old) }
    {
        self.add_any(v)
    }

    fn add_any(&mut self, v: &XFrac) -> Result<(), Overflow>
        requires { self.old.count + 1 < 2 ^ 96 }
        ensures told { is_ok result ≡ fits (joined self.old (alone v.now)) }
        ensures total { OnOk result (self.new ≡ joined self.old (alone v.now)) }
        ensures unchanged { OnErr result (self.new ≡ self.old) }
        ensures positive { 0 < self.old.multiple }
        ensures whole { 0 < denominator_of v.now }
    {
        let _ = &self.count;
        match v {
            XFrac::Fin(f) => self.add_fraction(f),
            _ => self.merge(&SumAcc::of(v)),
        }
    }

    fn add_fraction(&mut self, f: &Frac) -> Result<(), Overflow>
        requires { self.old.count + 1 < 2 ^ 96 }
        ensures told { is_ok result ≡ fits (joined self.old (alone (XFrac.Fin f.now))) }
        ensures total { OnOk result (self.new ≡ joined self.old (alone (XFrac.Fin f.now))) }
        ensures unchanged { OnErr result (self.new ≡ self.old) }
        ensures whole { 0 < f.now.1 }
    {
        let (negative, m, d) = f.split();
        let k = quotient(self.multiple, d);
        if k * d == self.multiple {
            self.add_part(negative, m, k)
        } else {
            self.merge(&SumAcc::of(&XFrac::Fin(*f)))
        }
    }

    /// Adds a numerator m that goes k times into the common denominator's terms.
    fn add_part(&mut self, negative: bool, m: u128, k: u128) -> Result<(), Overflow>
        requires few { self.old.count + 1 < 2 ^ 96 }
        requires within { m ≤ limit }
        ensures told { is_ok result ≡ fits (with_part self.old negative (m * k)) }
        ensures total { OnOk result (self.new ≡ with_part self.old negative (m * k)) }
        ensures unchanged { OnErr result (self.new ≡ self.old) }
    {
        match limited_product(m, k) {
            Some(part) if self.above + self.below + part <= LIMIT => {
                if negative {
                    self.below += part;
                } else {
                    self.above += part;
                }
                self.count += 1;
                Ok(())
            }
            _ => Err(Overflow),
        }
    }

    /// Joins the other list to this one. `Overflow` comes exactly where the joint list has no sum, and
    /// then nothing is changed.
    pub fn merge(&mut self, other: &SumAcc) -> Result<(), Overflow>
        requires { self.old.count + other.now.count < 2 ^ 96 }
        ensures told { is_ok result ≡ fits (joined self.old other.now) }
        ensures total { OnOk result (self.new ≡ joined self.old other.now) }
        ensures appended { (xs ys : List XFrac) → StandsFor self.old xs → StandsFor other.now ys
            → OnOk result (StandsFor self.new (xs ++ ys)) }
        ensures overflow { (xs ys : List XFrac) → StandsFor self.old xs → StandsFor other.now ys
            → is_ok result ≡ is_some (sum_of (xs ++ ys)) }
        ensures counted { OnOk result (self.new.count ≡ self.old.count + other.now.count) }
        ensures unchanged { OnErr result (self.new ≡ self.old) }
    {
        match self.joined(other) {
            Some(sum) => {
                *self = sum;
                Ok(())
            }
            None => Err(Overflow),
        }
    }

    fn joined(&self, other: &SumAcc) -> Option<SumAcc>
        requires { self.now.count + other.now.count < 2 ^ 96 }
        ensures value { let t = joined self.now other.now in result ≡ (if fits t then Some t else None) }
        ensures left { 0 < self.now.multiple }
        ensures right { 0 < other.now.multiple }
    {
        let multiple = limited_multiple(self.multiple, other.multiple)?;
        let left = quotient(multiple, self.multiple);
        let right = quotient(multiple, other.multiple);
        match (
            limited_sum(self.above, left, other.above, right),
            limited_sum(self.below, left, other.below, right),
        ) {
            (Some(above), Some(below)) if above + below <= LIMIT => Some(SumAcc {
                multiple,
                above,
                below,
                has_positive_infinity: self.has_positive_infinity || other.has_positive_infinity,
                has_negative_infinity: self.has_negative_infinity || other.has_negative_infinity,
                has_nan: self.has_nan || other.has_nan,
                count: self.count + other.count,
            }),
            _ => None,
        }
    }

    /// How many numbers the list has: fewer than 2^96.
    pub fn count(&self) -> u128
        ensures value { result ≡ self.now.count }
        ensures length { (xs : List XFrac) → StandsFor self.now xs → result ≡ length xs }
        ensures few { result < 2 ^ 96 }
    {
        self.count
    }

    /// The sum of the list.
    pub fn value(&self) -> XFrac
        ensures value { result ≡ value_of self.now }
        ensures sum { (xs : List XFrac) → StandsFor self.now xs → sum_of xs ≡ Some result }
    {
        if self.has_nan || (self.has_positive_infinity && self.has_negative_infinity) {
            XFrac::NaN
        } else if self.has_positive_infinity {
            XFrac::PosInf
        } else if self.has_negative_infinity {
            XFrac::NegInf
        } else {
            XFrac::Fin(difference(self.above, self.below, self.multiple))
        }
    }

    /// The sum of the list divided by how many numbers it has. `Overflow` comes exactly where that
    /// quotient is outside the limits.
    pub fn mean(&self) -> Result<XFrac, Overflow>
        requires { 0 < self.now.count }
        ensures value { result ≡ ok_or (quotient_of (value_of self.now) (whole_number self.now.count)) (record {}) }
        ensures mean { (xs : List XFrac) → StandsFor self.now xs → result ≡ ok_or (mean_of xs) (record {}) }
    {
        let count = XFrac::Fin(Frac::with_parts(false, self.count, 1));
        divide(&self.value(), &count).ok_or(Overflow)
    }
}

/// The sum of two numbers.
pub(crate) fn sum_of_two(a: &XFrac, b: &XFrac) -> Option<XFrac>
    ensures { result ≡ sum_of (a.now ∷ b.now ∷ []) }
{
    match (a, b) {
        (XFrac::Fin(x), XFrac::Fin(y)) => sum_of_fractions(x, y),
        _ => sum_of_any(a, b),
    }
}

/// The sum of two fractions, over the least common multiple of their denominators. Only what these share can divide the
/// sum's numerator and that multiple.
fn sum_of_fractions(x: &Frac, y: &Frac) -> Option<XFrac>
    ensures { result ≡ sum_of (XFrac.Fin x.now ∷ XFrac.Fin y.now ∷ []) }
{
    if x.denominator() == 1 && y.denominator() == 1 {
        return sum_of_wholes(x, y);
    }
    let (negative, m, d) = x.split();
    let (other_negative, n, e) = y.split();
    let shared = shared_divisor(d, e);
    let k = quotient(e, shared);
    let l = quotient(d, shared);
    let multiple = limited_product(d, k)?;
    let left = limited_product(m, k)?;
    let right = limited_product(n, l)?;
    if left + right > LIMIT {
        return None;
    }
    let (below, total) = signed_sum(negative, left, other_negative, right);
    Some(XFrac::Fin(reduced_by(below, total, multiple, shared)))
}

/// The sum of two whole numbers.
fn sum_of_wholes(x: &Frac, y: &Frac) -> Option<XFrac>
    requires left { x.now.1 ≡ 1 }
    requires right { y.now.1 ≡ 1 }
    ensures { result ≡ sum_of (XFrac.Fin x.now ∷ XFrac.Fin y.now ∷ []) }
{
    let (negative, m, _) = x.split();
    let (other_negative, n, _) = y.split();
    if m + n > LIMIT {
        return None;
    }
    let (below, total) = signed_sum(negative, m, other_negative, n);
    Some(XFrac::Fin(Frac::with_parts(below, total, 1)))
}

/// The sum of two magnitudes with their signs.
fn signed_sum(negative: bool, a: u128, other_negative: bool, b: u128) -> (bool, u128)
    requires { a + b ≤ limit }
    ensures value { with_sign result.0 result.1 ≡ pos (upper negative a + upper other_negative b) -ℤ pos (lower negative a + lower other_negative b) }
    ensures parts { (result.1 ≡ a + b) ⊎ ((result.1 + b ≡ a) ⊎ (result.1 + a ≡ b)) }
    ensures within { result.1 ≤ limit }
{
    if negative == other_negative {
        (negative, a + b)
    } else if a < b {
        (other_negative, b - a)
    } else {
        (negative, a - b)
    }
}

/// The lowest terms of m/d, where what divides both divides `shared`.
fn reduced_by(negative: bool, m: u128, d: u128, shared: u128) -> Frac
    requires positive { 0 < d }
    requires some { 0 < shared }
    requires numerator_within { m ≤ limit }
    requires denominator_within { d ≤ limit }
    requires shared { (g : ℕ) → IsGcd m shared g → IsGcd m d g }
    ensures { result ≡ lowest (with_sign negative m) d }
{
    let divisor = shared_divisor(m, shared);
    Frac::with_parts(negative, quotient(m, divisor), quotient(d, divisor))
}

/// The sum of two numbers, by the totals of each.
fn sum_of_any(a: &XFrac, b: &XFrac) -> Option<XFrac>
    ensures { result ≡ sum_of (a.now ∷ b.now ∷ []) }
{
    let left = SumAcc::of(a);
    let right = SumAcc::of(b);
    Some(left.joined(&right)?.value())
}

/// The denominator, and how far the numerator is above and below 0.
fn terms(v: &XFrac) -> (u128, u128, u128)
    ensures value { result ≡ (denominator_of v.now, part_above v.now, part_below v.now) }
    ensures positive { 0 < result.0 }
    ensures denominator_within { result.0 ≤ limit }
    ensures within { result.1 + result.2 ≤ limit }
{
    match v {
        XFrac::Fin(f) => {
            if f.is_negative() {
                (f.denominator(), 0, f.magnitude())
            } else {
                (f.denominator(), f.magnitude(), 0)
            }
        }
        _ => (1, 0, 0),
    }
}

/// a * k + b * l, where it is within the limit.
fn limited_sum(a: u128, k: u128, b: u128, l: u128) -> Option<u128>
    requires left { a ≤ limit }
    requires right { b ≤ limit }
    ensures { SomeIff result (a * k + b * l ≤ limit) (a * k + b * l) }
{
    match (limited_product(a, k), limited_product(b, l)) {
        (Some(left), Some(right)) if left + right <= LIMIT => Some(left + right),
        _ => None,
    }
}

/// The fraction (a - b)/d in lowest terms.
fn difference(a: u128, b: u128, d: u128) -> Frac
    requires positive { 0 < d }
    requires within { d ≤ limit }
    requires left_within { a ≤ limit }
    requires right_within { b ≤ limit }
    ensures { result ≡ lowest (pos a -ℤ pos b) d }
{
    if a < b {
        lowest_terms(true, b - a, d)
    } else {
        lowest_terms(false, a - b, d)
    }
}
