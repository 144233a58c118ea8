//! The spelling of numbers.
ghost use Rattle.arrayvec.specs.ArrayVec.{array_vec_len};
ghost use Rattle.std.specs.Int.{IsGcd};
ghost use Rattle.xfrac.specs.Fractions.{IsReduced};
ghost use Rattle.frac_text.specs.Spellings.{IsStripped, ends, magnitude_text, places, sign, spelling, tail};
ghost use Rattle.std.specs.Prelude.{◌≡◌, ◌<◌, ◌≤◌, ◌%◌, ◌/◌, ◌^◌, ◌++◌, ◌+◌, ◌∷◌, [], codes, decimal, length, unsigned_abs, OnOk, OnErr};

use arrayvec::ArrayVec;
use itoa::Buffer;
use std::alloc::AllocError;
use std::marker::Model;
use xfrac::{XFrac, parts};

/// A number within the limits has at most so many decimal places, if they end.
const MOST_PLACES: usize = 100;

/// The room that a spelling has: a sign, 31 digits, a point and 100 places.
const ROOM: usize = 160;

const SMALL: u128 = 0xffff_ffff_ffff_ffff;

/// Whether the decimal places of r/d end: where twos and fives are all that its denominator has.
fn ends(r: u128, d: u128) -> bool
    requires positive { 0 < d }
    requires within { d ≤ 10 ^ 30 }
    requires lowest { IsGcd r d 1 }
    ensures { result ≡ ends r d }
{
    without_fives(without_twos(d)) == 1
}

fn without_twos(d: u128) -> u128
    requires { 0 < d }
    ensures { IsStripped 2 d result }
{
    let mut rest = d;
    while rest % 2 == 0 {
        rest /= 2;
    }
    rest
}

fn without_fives(d: u128) -> u128
    requires { 0 < d }
    ensures { IsStripped 5 d result }
{
    let mut rest = d;
    while fifth(rest) * 5 == rest {
        rest = fifth(rest);
    }
    rest
}

/// A fifth, without what is left. Numbers below 2^64 are divided as such.
fn fifth(n: u128) -> u128
    ensures { result ≡ n / 5 }
{
    if n <= SMALL {
        (n as u64 / 5) as u128
    } else {
        n / 5
    }
}

/// The quotient and the rest of a division. Numbers below 2^64 are divided as such.
fn divided(n: u128, d: u128) -> (u128, u128)
    requires { 0 < d }
    ensures quotient { result.0 ≡ n / d }
    ensures rest { result.1 ≡ n % d }
{
    if n <= SMALL && d <= SMALL {
        ((n as u64 / d as u64) as u128, (n as u64 % d as u64) as u128)
    } else {
        (n / d, n % d)
    }
}

/// The spelling of a number. It stands on the stack.
#[derive(Drop)]
pub struct NumberText {
    text: ArrayVec<u8, ROOM>,
}

impl Model for NumberText {
    ghost use Rattle.std.specs.Prelude.{ℕ, List};

    ghost Value = { List ℕ };

    ghost view = { λ n. n.text.items };
}

impl NumberText {
    fn new() -> NumberText
        ensures { result ≡ [] }
    {
        NumberText {
            text: ArrayVec::new(),
        }
    }

    /// Its bytes. It takes no memory.
    pub fn as_bytes(&self) -> &[u8]
        ensures { result.now ≡ self.now }
    {
        self.text.as_slice()
    }

    fn push(&mut self, byte: u8)
        requires room { length self.old < 160 }
        ensures { self.new ≡ self.old ++ byte ∷ [] }
    {
        self.text.push(byte);
    }

    fn append(&mut self, bytes: &[u8])
        requires room { length self.old + length bytes.now ≤ 160 }
        ensures { self.new ≡ self.old ++ bytes.now }
    {
        let _fits = self.text.try_extend_from_slice(bytes);
    }

    fn append_decimal(&mut self, n: u128)
        requires room { length self.old ≤ 120 }
        ensures text { self.new ≡ self.old ++ decimal n }
        ensures short { length self.new ≤ length self.old + 40 }
    {
        let mut buffer = Buffer::new();
        self.append(buffer.format(n).as_bytes());
    }

    /// Appends the decimal places of r/d.
    fn append_places(&mut self, r: u128, d: u128)
        requires left { r < d }
        requires within { d ≤ 10 ^ 30 }
        requires room { length self.old ≤ 60 }
        ensures { self.new ≡ self.old ++ places 100 r d }
    {
        let mut left = r;
        for _ in 0..MOST_PLACES {
            if left == 0 {
                return;
            }
            let (digit, rest) = divided(left * 10, d);
            self.push(b'0' + digit as u8);
            left = rest;
        }
    }

    /// Appends what stands after the whole digits.
    fn append_tail(&mut self, r: u128, d: u128)
        requires left { r < d }
        requires within { d ≤ 10 ^ 30 }
        requires room { length self.old ≤ 59 }
        ensures { self.new ≡ self.old ++ tail r d }
    {
        if r == 0 {
            return;
        }
        self.push(b'.');
        self.append_places(r, d);
    }

    fn append_magnitude(&mut self, m: u128, d: u128)
        requires reduced { IsReduced m d }
        requires room { length self.old ≤ 1 }
        ensures { self.new ≡ self.old ++ magnitude_text m d }
    {
        let (whole, rest) = divided(m, d);
        if ends(rest, d) {
            self.append_decimal(whole);
            self.append_tail(rest, d);
        } else {
            self.append_decimal(m);
            self.push(b'/');
            self.append_decimal(d);
        }
    }
}

/// The one spelling of a number: `+Inf`, `-Inf` or `NaN`; a plain decimal without needless zeros where that ends; else the lowest
/// terms as `n/d`. It takes no memory.
pub fn spelled(v: &XFrac) -> NumberText
    ensures { result ≡ spelling v.now }
{
    let mut text = NumberText::new();
    match v {
        XFrac::Fin(fraction) => {
            let (n, d) = parts(fraction);
            if n < 0 {
                text.push(b'-');
            }
            text.append_magnitude(n.unsigned_abs(), d.unsigned_abs());
        }
        XFrac::PosInf => text.append(b"+Inf"),
        XFrac::NegInf => text.append(b"-Inf"),
        XFrac::NaN => text.append(b"NaN"),
    }
    text
}

/// Writes the one spelling of a number at the end of a list. The only error is want of memory; then the list is as it was.
pub fn write_number(v: &XFrac, into: &mut Vec<u8>) -> Result<(), AllocError>
    ensures ok { OnOk result (into.new.items ≡ into.old.items ++ spelling v.now) }
    ensures err { OnErr result (into.new.items ≡ into.old.items) }
{
    into.extend_from_slice(spelled(v).as_bytes())
}
