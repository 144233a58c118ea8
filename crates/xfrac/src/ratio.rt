//! Ratios of two natural numbers, compared within 128 bits.
ghost use Rattle.std.specs.Ordering.{nat_cmp};
ghost use Rattle.std.specs.Prelude.{◌≡◌, ◌<◌, ◌*◌, ◌↔◌, IsTrue};

use std::cmp::Ordering;

/// How a/b stands to c/d. Over one denominator no product is formed.
pub fn order(a: u128, b: u128, c: u128, d: u128) -> Ordering
    requires left { 0 < b }
    requires right { 0 < d }
    ensures { result ≡ nat_cmp (a * d) (c * b) }
{
    if b == d {
        return a.cmp(&c);
    }
    if let (Some(left), Some(right)) = (a.checked_mul(d), c.checked_mul(b)) {
        return left.cmp(&right);
    }
    order_by_parts(a, b, c, d)
}

fn order_by_parts(a: u128, b: u128, c: u128, d: u128) -> Ordering
    requires left { 0 < b }
    requires right { 0 < d }
    ensures { result ≡ nat_cmp (a * d) (c * b) }
{
    if is_less_by_parts(a, b, c, d) {
        Ordering::Less
    } else if is_less_by_parts(c, d, a, b) {
        Ordering::Greater
    } else {
        Ordering::Equal
    }
}

/// Whether a/b is less than c/d: by the whole parts, and where these are equal by the reciprocals of
/// the rests.
pub fn is_less(a: u128, b: u128, c: u128, d: u128) -> bool
    requires left { 0 < b }
    requires right { 0 < d }
    ensures { IsTrue result ↔ (a * d < c * b) }
{
    if b == 1 && d == 1 {
        return a < c;
    }
    if let (Some(left), Some(right)) = (a.checked_mul(d), c.checked_mul(b)) {
        return left < right;
    }
    is_less_by_parts(a, b, c, d)
}

fn is_less_by_parts(a: u128, b: u128, c: u128, d: u128) -> bool
    requires left { 0 < b }
    requires right { 0 < d }
    ensures { IsTrue result ↔ (a * d < c * b) }
{
    let left = a / b;
    let right = c / d;
    if left != right {
        return left < right;
    }
    let left_rest = a % b;
    let right_rest = c % d;
    if right_rest == 0 {
        return false;
    }
    if left_rest == 0 {
        return true;
    }
    is_less_by_parts(d, right_rest, b, left_rest)
}
