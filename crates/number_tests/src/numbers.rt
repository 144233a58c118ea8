//! Rows whose answers were worked out by hand or by exact arithmetic elsewhere.
ghost use Rattle.std.specs.Prelude.{◌≡◌};

use crate::fractions::{field, number, read, rows_hold};
use std::cmp::Ordering;
use std::test::Fail;
use xfrac::{
    ArithOp, CompareOp, Held, LIMIT, NumFault, SumAcc, XFrac, abs, arith, ceil, cmp_total, compare,
    floor, near, neg, of, parts, whole, whole_count,
};

/// An operation a line: the operator, its operands and its answer.
const OPERATIONS: &str = "+ 1/2 1/3 5/6
+ 1000000000000000000000000000000/1 0/1 1000000000000000000000000000000/1
+ 1000000000000000000000000000000/1 1/1 overflow
- 1000000000000000000000000000000/1 1000000000000000000000000000000/1 overflow
+ inf -inf nan
- inf inf nan
+ 1000000000000000000000000000000/1 -inf -inf
- 5/1 inf -inf
+ nan 1/1 nan
+ 1/1000000000000000000000000000000 1/999999999999999999999999999999 overflow
+ 500000000000000000000000000000/1 -500000000000000000000000000000/1 0/1
+ 500000000000000000000000000001/1 -500000000000000000000000000000/1 overflow
+ 1/1000000000000000 1/1000000000000001 overflow
+ -1/3 1/3 0/1
* 1000000000000000/1 1000000000000000/1 1000000000000000000000000000000/1
* 1000000000000000/1 1000000000000001/1 overflow
* 0/1 inf nan
* -inf -2/3 inf
* 2/1 -inf -inf
* nan inf nan
* -inf -inf inf
* 1000000000000000000000000000000/7 7/1000000000000000000000000000000 1/1
* 999999999999999999999999999999/3 3/1 999999999999999999999999999999/1
* 1/1000000000000000 1/1000000000000000 1/1000000000000000000000000000000
* 1/1000000000000000 1/1000000000000001 overflow
* -2/3 3/4 -1/2
/ 1/1 3/1 1/3
/ 1/1 0/1 inf
/ -1/2 0/1 -inf
/ 0/1 0/1 nan
/ inf 0/1 inf
/ -inf 0/1 -inf
/ nan 0/1 nan
/ inf -inf nan
/ 5/1 -inf 0/1
/ -inf -3/1 inf
/ inf -3/7 -inf
/ 1/1000000000000000000000000000000 2/1 overflow
/ 1000000000000000000000000000000/1 1/2 overflow
/ -3/4 -9/8 2/3
/ 3/4 nan nan
% -7/1 3/2 -1/1
% 7/1 -3/1 1/1
% -7/1 -3/1 -1/1
% 5/1 inf 5/1
% -5/2 -inf -5/2
% inf 3/1 nan
% 5/1 0/1 nan
% 5/1 nan nan
% 1000000000000000000000000000000/1 1/2 overflow
% 1/1000000000000000000000000000000 1/999999999999999999999999999999 overflow
% 500000000000000000000000000000/1 1/2 0/1
% 10/1 500000000000000000000000000001/2 10/1
^ 2/1 -2/1 1/4
^ 1/2 99/1 1/633825300114114700748351602688
^ 1/2 100/1 overflow
^ 10/1 30/1 1000000000000000000000000000000/1
^ 10/1 31/1 overflow
^ 10/1 -30/1 1/1000000000000000000000000000000
^ -1/1 1000000000000000000000000000000/1 1/1
^ -1/1 999999999999999999999999999999/1 -1/1
^ 0/1 0/1 1/1
^ nan 0/1 1/1
^ 4/1 1/2 irrational
^ 1/1 1/2 irrational
^ 1/1 nan 1/1
^ 1/1 inf 1/1
^ nan 1/1 nan
^ 2/1 nan nan
^ -1/1 -inf 1/1
^ -3/2 inf inf
^ -3/2 -inf 0/1
^ -inf -inf 0/1
^ 1/2 inf 0/1
^ 0/1 -inf inf
^ inf -1/2 0/1
^ inf 1/2 inf
^ -inf 3/1 -inf
^ -inf 2/1 inf
^ -inf 1/2 inf
^ -inf -3/1 0/1
^ 0/1 5/1 0/1
^ 0/1 -5/1 inf
^ -2/3 3/1 -8/27
^ -2/3 -3/1 -27/8
^ 2/1 1000000000000000000000000000000/1 overflow
^ -2/1 2/1 4/1";

fn operator(text: &str) -> ArithOp {
    match text {
        "+" => ArithOp::Add,
        "-" => ArithOp::Sub,
        "*" => ArithOp::Mul,
        "/" => ArithOp::Div,
        "%" => ArithOp::Rem,
        _ => ArithOp::Pow,
    }
}

fn answer(text: &str) -> Result<Result<XFrac, NumFault>, Fail> {
    match text {
        "overflow" => Ok(Err(NumFault::Overflow)),
        "irrational" => Ok(Err(NumFault::Irrational)),
        _ => Ok(Ok(read(text)?)),
    }
}

fn operation_holds(row: &str) -> Result<bool, Fail> {
    let op = operator(field(row, 0)?);
    let (a, b) = (number(row, 1)?, number(row, 2)?);
    Ok(arith(op, &a, &b) == answer(field(row, 3)?)?)
}

#[test]
fn operators(_rt: HostRuntime) -> Result<(), Fail> {
    rows_hold(OPERATIONS, 87, operation_holds)
}

/// A numerator, a denominator and the fraction that they form, in its lowest terms.
const FORMED: &str = "1000000000000000000000000000000 1 1000000000000000000000000000000/1
1000000000000000000000000000001 1 overflow
-1000000000000000000000000000001 1 overflow
1 1000000000000000000000000000000 1/1000000000000000000000000000000
1 1000000000000000000000000000001 overflow
-170141183460469231731687303715884105728 170141183460469231731687303715884105727 overflow
2000000000000000000000000000000 4000000000000000000000000000000 1/2
0 170141183460469231731687303715884105727 0/1
-6 4 -3/2";

/// A count a line, and the number that it is.
const COUNTS: &str = "0 0/1
1000000000000000000000000000000 1000000000000000000000000000000/1
79228162514264337593543950336 79228162514264337593543950336/1";

fn has_parts(value: &XFrac, text: &str) -> Result<bool, Fail> {
    let (n, d) = text.split_once('/').ok_or("no fraction")?;
    let (n, d): (i128, i128) = (n.parse()?, d.parse()?);
    match value {
        XFrac::Fin(f) => Ok(parts(f) == (n, d)),
        _ => Ok(false),
    }
}

fn forming_holds(row: &str) -> Result<bool, Fail> {
    let n: i128 = field(row, 0)?.parse()?;
    let d: i128 = field(row, 1)?.parse()?;
    if d <= 0 {
        return Err("no denominator")?;
    }
    match of(n, d) {
        Ok(value) => has_parts(&value, field(row, 2)?),
        Err(fault) => Ok(answer(field(row, 2)?)? == Err(fault)),
    }
}

fn count_holds(row: &str) -> Result<bool, Fail> {
    let count: u128 = field(row, 0)?.parse()?;
    if count > LIMIT {
        return Err("a count outside the limits")?;
    }
    has_parts(&whole_count(count), field(row, 1)?)
}

#[test]
fn forming(rt: HostRuntime) -> Result<(), Fail> {
    let is_limit = LIMIT == 1_000_000_000_000_000_000_000_000_000_000;
    let zero = whole(0);
    assert!(rt; is_limit && whole_count(0) == zero && Held::Value(zero) != Held::Stale);
    rows_hold(COUNTS, 3, count_holds)?;
    rows_hold(FORMED, 9, forming_holds)
}

/// A number a line, and what neg, abs, floor and ceil give.
const ROUNDING: &str = "-7/2 7/2 7/2 -4/1 -3/1
7/2 -7/2 7/2 3/1 4/1
5/1 -5/1 5/1 5/1 5/1
-5/1 5/1 5/1 -5/1 -5/1
-1/1000000000000000000000000000000 1/1000000000000000000000000000000 1/1000000000000000000000000000000 -1/1 0/1
999999999999999999999999999999/1000000000000000000000000000000 -999999999999999999999999999999/1000000000000000000000000000000 999999999999999999999999999999/1000000000000000000000000000000 0/1 1/1
1000000000000000000000000000000/3 -1000000000000000000000000000000/3 1000000000000000000000000000000/3 333333333333333333333333333333/1 333333333333333333333333333334/1
-1000000000000000000000000000000/1 1000000000000000000000000000000/1 1000000000000000000000000000000/1 -1000000000000000000000000000000/1 -1000000000000000000000000000000/1
inf -inf inf inf inf
-inf inf inf -inf -inf
nan nan nan nan nan";

/// Two numbers a line, and whether they are near.
const NEARNESS: &str = "1/3 333333/1000000 near
1/3 33333/100000 far
999999/1 1000001/1 far
999999/1 1000000/1 near
142857/1 1000001/7 far
-142857/1 -1000001/7 far
-142857/1 -1000000/7 near
1000000000000000000000000000000/1 999998000001999998000001999998/1 far
1000000000000000000000000000000/1 999998000001999998000001999999/1 near
1/1000000000000000000000000000000 1/999999999999999999999999999999 near
1/1000000000000000000000000000000 -1/1000000000000000000000000000000 far
0/1 1/1000000000000000000000000000000 far
0/1 0/1 near
inf inf near
inf -inf far
inf 1000000000000000000000000000000/1 far
nan nan near
nan inf far";

/// Numbers in rising order.
const RISING: &str = "-inf
-1000000000000000000000000000000/1
-1/2
-1/3
-1/1000000000000000000000000000000
0/1
1/1000000000000000000000000000000
1/999999999999999999999999999999
333333/1000000
1/3
999999999999999999999999999999/1000000000000000000000000000000
1/1
1000000000000000000000000000000/999999999999999999999999999999
1000000000000000000000000000000/1
inf";

fn rounding_holds(row: &str) -> Result<bool, Fail> {
    let a = number(row, 0)?;
    let negated = neg(&a) == number(row, 1)? && abs(&a) == number(row, 2)?;
    let rounded = floor(&a) == number(row, 3)? && ceil(&a) == number(row, 4)?;
    Ok(negated && rounded)
}

fn nearness_holds(row: &str) -> Result<bool, Fail> {
    let (a, b) = (number(row, 0)?, number(row, 1)?);
    let is_near = field(row, 2)? == "near";
    Ok(near(&a, &b) == is_near && near(&b, &a) == is_near)
}

#[test]
fn rounding_and_nearness(_rt: HostRuntime) -> Result<(), Fail> {
    rows_hold(ROUNDING, 11, rounding_holds)?;
    rows_hold(NEARNESS, 18, nearness_holds)
}

/// Whether two numbers compare as their places do.
fn are_ordered(x: &XFrac, y: &XFrac, order: Ordering) -> bool {
    cmp_total(x, y) == order
        && compare(CompareOp::Lt, x, y) == order.is_lt()
        && compare(CompareOp::Le, x, y) == order.is_le()
        && compare(CompareOp::Eq, x, y) == order.is_eq()
        && compare(CompareOp::Ne, x, y) == order.is_ne()
        && compare(CompareOp::Gt, x, y) == order.is_gt()
        && compare(CompareOp::Ge, x, y) == order.is_ge()
}

/// Whether a number lies among the rising ones as its place does, and below NaN, to which nothing is equal.
fn is_in_order(x: &XFrac, place: usize) -> Result<bool, Fail> {
    for (other, text) in RISING.lines().enumerate() {
        if !are_ordered(x, &read(text)?, place.cmp(&other)) {
            return Ok(false);
        }
    }
    Ok(
        cmp_total(x, &XFrac::NaN) == Ordering::Less
            && !compare(CompareOp::Lt, x, &XFrac::NaN)
            && compare(CompareOp::Ne, &XFrac::NaN, x),
    )
}

#[test]
fn order(rt: HostRuntime) -> Result<(), Fail> {
    for (place, text) in RISING.lines().enumerate() {
        if !is_in_order(&read(text)?, place)? {
            return Err(Fail::new(text));
        }
    }
    let nan = XFrac::NaN;
    assert!(rt;
        cmp_total(&nan, &nan) == Ordering::Equal
            && !compare(CompareOp::Eq, &nan, &nan)
            && !compare(CompareOp::Ge, &nan, &nan)
    );
    Ok(())
}

/// Numbers that are added to a sum in turn, and then its value, how many they are, and their mean. Behind `+` stand the numbers of a
/// sum that is merged, and behind `!` what is refused, which leaves the sum as it was.
const SUMS: &str = "+ => 0/1 0 none
1/2 1/3 => 5/6 2 5/12
1/2 1/3 -5/6 + => 0/1 3 0/1
500000000000000000000000000000/1 -500000000000000000000000000000/1 !1/1 !+1/2,1/3,-5/6 => 0/1 2 0/1
500000000000000000000000000000/1 -500000000000000000000000000000/1 -inf !1/2 => -inf 3 -inf
500000000000000000000000000000/1 -500000000000000000000000000000/1 -inf inf => nan 4 nan
1/1000000000000000000000000000000 !1/999999999999999999999999999999 0/1 => 1/1000000000000000000000000000000 2 overflow";

/// Adds a number to a sum of few, and answers whether it's taken.
fn is_added(sum: &mut SumAcc, word: &str) -> Result<bool, Fail> {
    let number = read(word)?;
    Ok(sum.count() < 10 && sum.add(&number).is_ok())
}

fn sum_of(words: &str) -> Result<SumAcc, Fail> {
    let mut sum = SumAcc::new();
    for word in words.split(',') {
        if word != "" && !is_added(&mut sum, word)? {
            return Err("no sum")?;
        }
    }
    Ok(sum)
}

fn is_taken(sum: &mut SumAcc, word: &str) -> Result<bool, Fail> {
    let Some(words) = word.strip_prefix('+') else {
        return is_added(sum, word);
    };
    let other = sum_of(words)?;
    Ok(sum.count() < 10 && other.count() < 10 && sum.merge(&other).is_ok())
}

/// Whether a word is taken, or refused as it says.
fn is_put(sum: &mut SumAcc, word: &str) -> Result<bool, Fail> {
    let before = *sum;
    match word.strip_prefix('!') {
        None => is_taken(sum, word),
        Some(refused) => Ok(!is_taken(sum, refused)? && *sum == before),
    }
}

fn has_mean(sum: &SumAcc, wanted: &str) -> Result<bool, Fail> {
    if sum.count() == 0 {
        return Ok(wanted == "none");
    }
    match sum.mean() {
        Ok(mean) => Ok(answer(wanted)? == Ok(mean)),
        Err(_) => Ok(wanted == "overflow"),
    }
}

fn sum_holds(row: &str) -> Result<bool, Fail> {
    let (words, wanted) = row.split_once(" => ").ok_or("no sum")?;
    let mut sum = SumAcc::new();
    for word in words.split(' ') {
        if !is_put(&mut sum, word)? {
            return Ok(false);
        }
    }
    let (value, count) = (number(wanted, 0)?, field(wanted, 1)?.parse::<u128>()?);
    Ok(sum.value() == value && sum.count() == count && has_mean(&sum, field(wanted, 2)?)?)
}

#[test]
fn sums(rt: HostRuntime) -> Result<(), Fail> {
    let sum = sum_of("1/2,1/3,-5/6")?;
    let told = format!(in rt.alloc(); "{sum:?}")?;
    let totals = "SumAcc { multiple: 6, above: 5, below: 5, ";
    assert!(rt; told.starts_with(totals), "multiple 6 and magnitude 10");
    rows_hold(SUMS, 7, sum_holds)
}
