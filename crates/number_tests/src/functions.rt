//! Rows whose answers were worked out by exact arithmetic elsewhere.
ghost use Rattle.std.specs.Prelude.{◌≡◌};

use crate::fractions::{field, number, read, rows_hold};
use func_table::{Element, Found, Func, find};
use std::test::Fail;
use value_fn::element;
use xfrac::{NumFault, XFrac};

/// A call a line: the function, the value, both parameters and the answer. `-` is the sign minus.
const CALLS: &str = "abs -3/2 nan nan 3/2
abs 3/2 nan nan 3/2
abs -inf nan nan inf
abs nan nan nan nan
ceil -3/2 nan nan -1/1
ceil 1/3 nan nan 1/1
ceil inf nan nan inf
floor -1/3 nan nan -1/1
floor 7/2 nan nan 3/1
floor nan nan nan nan
- 3/4 nan nan -3/4
- 0/1 nan nan 0/1
- inf nan nan -inf
- nan nan nan nan
sgn -3/7 nan nan -1/1
sgn 0/1 nan nan 0/1
sgn 1000000000000000000000000000000/1 nan nan 1/1
sgn inf nan nan 1/1
sgn -inf nan nan -1/1
sgn nan nan nan nan
round 1/2 1/1 nan 1/1
round -1/2 1/1 nan 0/1
round 3/2 1/1 nan 2/1
round -3/2 1/1 nan -1/1
round 5/2 1/1 nan 3/1
round 49/100 1/1 nan 0/1
round 7/10 1/5 nan 4/5
round 7/1 5/1 nan 5/1
round 1/3 1/10 nan 3/10
round 5/1 0/1 nan nan
round -5/1 0/1 nan nan
round 0/1 0/1 nan nan
round 1/1 -2/1 nan 0/1
round 3/1 -2/1 nan 2/1
round -3/1 -2/1 nan -4/1
round 1/1 inf nan nan
round -1/1 -inf nan nan
round 1/1 nan nan nan
round nan 1/1 nan nan
round inf 1/1 nan inf
round inf -1/1 nan inf
round -inf 1/1 nan -inf
round inf 0/1 nan nan
round inf inf nan nan
round 0/1 7/1 nan 0/1
round 1000000000000000000000000000000/1 1/1 nan overflow
round 1000000000000000000000000000000/1 2/1 nan overflow
round 1000000000000000000000000000000/1 1/2 nan overflow
round 1000000000000000000000000000000/1 1000000000000000000000000000000/1 nan 1000000000000000000000000000000/1
round 1000000000000000000000000000000/1 600000000000000000000000000000/1 nan overflow
round 1/3 1/1000000000000000000000000000000 nan overflow
round 1/2 1/500000000000000000000000000000 nan 1/2
clamp 5/1 0/1 3/1 3/1
clamp -1/1 0/1 3/1 0/1
clamp 2/1 0/1 3/1 2/1
clamp 3/1 3/1 3/1 3/1
clamp 4/1 3/1 3/1 3/1
clamp 2/1 3/1 0/1 none
clamp nan 3/1 0/1 none
clamp 1/1 inf -inf none
clamp 2/1 nan 3/1 nan
clamp 2/1 0/1 nan nan
clamp 5/1 nan nan nan
clamp nan 0/1 3/1 nan
clamp inf 0/1 3/1 3/1
clamp -inf -inf inf -inf
clamp 1/3 1/2 2/3 1/2
clamp -inf 1/2 inf 1/2
clamp_min 1/1 2/1 nan 2/1
clamp_min 3/1 2/1 nan 3/1
clamp_min nan 2/1 nan nan
clamp_min 2/1 nan nan nan
clamp_min -inf 2/1 nan 2/1
clamp_min 2/1 inf nan inf
clamp_max 1/1 2/1 nan 1/1
clamp_max 3/1 2/1 nan 2/1
clamp_max nan 2/1 nan nan
clamp_max 2/1 nan nan nan
clamp_max inf 2/1 nan 2/1
clamp_max 2/1 -inf nan -inf
day_of_month -62135596800/1 nan nan 1/1
day_of_week -62135596800/1 nan nan 1/1
day_of_year -62135596800/1 nan nan 1/1
days_in_month -62135596800/1 nan nan 31/1
hour -62135596800/1 nan nan 0/1
minute -62135596800/1 nan nan 0/1
month -62135596800/1 nan nan 1/1
year -62135596800/1 nan nan 1/1
day_of_month 253402300799/1 nan nan 31/1
day_of_week 253402300799/1 nan nan 5/1
day_of_year 253402300799/1 nan nan 365/1
days_in_month 253402300799/1 nan nan 31/1
hour 253402300799/1 nan nan 23/1
minute 253402300799/1 nan nan 59/1
month 253402300799/1 nan nan 12/1
year 253402300799/1 nan nan 9999/1
day_of_month 0/1 nan nan 1/1
day_of_week 0/1 nan nan 4/1
day_of_year 0/1 nan nan 1/1
days_in_month 0/1 nan nan 31/1
hour 0/1 nan nan 0/1
minute 0/1 nan nan 0/1
month 0/1 nan nan 1/1
year 0/1 nan nan 1970/1
day_of_month -1/1 nan nan 31/1
day_of_week -1/1 nan nan 3/1
day_of_year -1/1 nan nan 365/1
days_in_month -1/1 nan nan 31/1
hour -1/1 nan nan 23/1
minute -1/1 nan nan 59/1
month -1/1 nan nan 12/1
year -1/1 nan nan 1969/1
day_of_month 951868799/1 nan nan 29/1
day_of_week 951868799/1 nan nan 2/1
day_of_year 951868799/1 nan nan 60/1
days_in_month 951868799/1 nan nan 29/1
hour 951868799/1 nan nan 23/1
minute 951868799/1 nan nan 59/1
month 951868799/1 nan nan 2/1
year 951868799/1 nan nan 2000/1
year -62135596801/1 nan nan outside
hour 253402300800/1 nan nan outside
minute inf nan nan outside
day_of_week -inf nan nan outside
month nan nan nan outside
days_in_month 1000000000000000000000000000000/1 nan nan outside
year 506804601599/2 nan nan 9999/1
year -124271193601/2 nan nan 1/1
hour -1/2 nan nan 0/1
hour -1/1 nan nan 23/1
minute -3/2 nan nan 59/1
day_of_year 172799/2 nan nan 1/1";

fn function(name: &str) -> Result<Element, Fail> {
    if name == "-" {
        return Ok(Element::Neg);
    }
    match find(name) {
        Found::Known(Func::Element(element)) => Ok(element),
        _ => Err("no element function")?,
    }
}

fn answer(text: &str) -> Result<Result<Option<XFrac>, NumFault>, Fail> {
    match text {
        "overflow" => Ok(Err(NumFault::Overflow)),
        "outside" => Ok(Err(NumFault::OutOfCalendar)),
        "none" => Ok(Ok(None)),
        _ => Ok(Ok(Some(read(text)?))),
    }
}

fn call_holds(row: &str) -> Result<bool, Fail> {
    let f = function(field(row, 0)?)?;
    let (v, first, second) = (number(row, 1)?, number(row, 2)?, number(row, 3)?);
    Ok(element(f, &v, &first, &second) == answer(field(row, 4)?)?)
}

#[test]
fn elements(_rt: HostRuntime) -> Result<(), Fail> {
    rows_hold(CALLS, 132, call_holds)
}
