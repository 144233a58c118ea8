//! Greatest common divisors, and fractions in lowest terms.
ghost use Rattle.std.specs.Prelude.{◌≡◌, ◌<◌, ◌≤◌, ◌*◌, ◌/◌, ◌%◌, ◌^◌};
ghost use Rattle.std.specs.Int.{IsGcd};
ghost use Rattle.std.specs.Option.{SomeIff};
ghost use Rattle.xfrac.specs.Divisors.{gcd as gcd_of, lcm};
ghost use Rattle.xfrac.specs.Fractions.{limit};

use crate::value::LIMIT;

const SMALL: u128 = 0xffff_ffff_ffff_ffff;

/// The greatest common divisor of a number and a positive number. Numbers below 2^64 are divided as such.
pub fn gcd(a: u128, b: u128) -> u128
    requires { 0 < b }
    ensures value { result ≡ gcd_of a b }
    ensures greatest { IsGcd a b result }
    ensures positive { 0 < result }
{
    common_divisor(a, b)
}

fn common_divisor(a: u128, b: u128) -> u128
    ensures { IsGcd a b result }
{
    if b == 0 {
        return a;
    }
    if a <= SMALL && b <= SMALL {
        return divided_common_divisor(a as u64, b as u64) as u128;
    }
    common_divisor(b, a % b)
}

/// By two divisions, which often end it, and else bring numbers of unlike sizes together.
fn divided_common_divisor(a: u64, b: u64) -> u64
    requires { 0 < b }
    ensures { IsGcd a b result }
{
    let rest = a % b;
    if rest == 0 {
        return b;
    }
    let next = b % rest;
    if next == 0 {
        return rest;
    }
    small_common_divisor(rest, next)
}

/// By differences of odd numbers, after the twos that both numbers have.
fn small_common_divisor(a: u64, b: u64) -> u64
    requires { 0 < b }
    ensures { IsGcd a b result }
{
    if a == 0 {
        return b;
    }
    let twos = a.trailing_zeros();
    let other_twos = b.trailing_zeros();
    if twos <= other_twos {
        odd_common_divisor(b >> twos, a >> twos) << twos
    } else {
        odd_common_divisor(a >> other_twos, b >> other_twos) << other_twos
    }
}

/// The greatest common divisor of a number and an odd one.
fn odd_common_divisor(a: u64, b: u64) -> u64
    requires { b % 2 ≡ 1 }
    ensures { IsGcd a b result }
{
    let mut x = a;
    let mut y = b;
    while x != 0 {
        let odd = x >> x.trailing_zeros();
        x = odd.abs_diff(y);
        y = odd.min(y);
    }
    y
}

/// The greatest common divisor of a number and a positive number, with nothing sought where they are equal or one is 1.
pub fn shared_divisor(a: u128, b: u128) -> u128
    requires { 0 < b }
    ensures value { IsGcd a b result }
    ensures positive { 0 < result }
{
    if a == b {
        b
    } else if a == 1 || b == 1 {
        1
    } else {
        gcd(a, b)
    }
}

/// The quotient of two numbers. Numbers below 2^64 are divided as such.
pub fn quotient(a: u128, b: u128) -> u128
    requires { 0 < b }
    ensures { result ≡ a / b }
{
    if b == 1 {
        a
    } else if a == b {
        1
    } else if a <= SMALL && b <= SMALL {
        (a as u64 / b as u64) as u128
    } else {
        a / b
    }
}

/// The rest of a division. Numbers below 2^64 are divided as such.
pub fn rest(a: u128, b: u128) -> u128
    requires { 0 < b }
    ensures { result ≡ a % b }
{
    if a <= SMALL && b <= SMALL {
        (a as u64 % b as u64) as u128
    } else {
        a % b
    }
}

/// The product, where it is within the limit.
pub fn limited_product(a: u128, b: u128) -> Option<u128>
    requires { a ≤ limit }
    ensures { SomeIff result (a * b ≤ limit) (a * b) }
{
    if b == 1 {
        return Some(a);
    }
    match a.checked_mul(b) {
        Some(product) if product <= LIMIT => Some(product),
        _ => None,
    }
}

/// The least common multiple of two positive numbers, where it is within the limit.
pub fn limited_multiple(a: u128, b: u128) -> Option<u128>
    requires left { 0 < a }
    requires right { 0 < b }
    requires left_within { a ≤ limit }
    requires right_within { b ≤ limit }
    ensures { SomeIff result (lcm a b ≤ limit) (lcm a b) }
{
    if a == b || b == 1 {
        Some(a)
    } else if a == 1 {
        Some(b)
    } else {
        limited_product(quotient(a, gcd(a, b)), b)
    }
}

/// The magnitude m and the denominator d in lowest terms.
pub fn reduce(m: u128, d: u128) -> (u128, u128)
    requires { 0 < d }
    ensures { result ≡ (m / gcd_of m d, d / gcd_of m d) }
{
    if d == 1 {
        return (m, 1);
    }
    let divisor = gcd(m, d);
    (quotient(m, divisor), quotient(d, divisor))
}
