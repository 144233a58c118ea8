use crate::fractions::{read, rows_hold};
use frac_text::NumberRefusal::{BadNumber, LeadingZero, NumberRange};
use frac_text::{
    NumberRefusal, TimeRefusal, durations_are_times, read_number, read_script_number, read_time,
    spellings_are_numbers, times_are_told, write_number,
};
use std::alloc::{AllocError, Global};
use std::test::Fail;
use ticks::Ms;
use xfrac::XFrac;

// Each line is a text and the spelling of its value or the name of its refusal, found by exact fractions in Python.
const LITERALS: &str = "0 0
7 7
10 10
1_000 1000
007 LeadingZero
00 LeadingZero
0_7 LeadingZero
08 LeadingZero
1__0 BadNumber
1_ BadNumber
_1 BadNumber
1_.5 BadNumber
1._5 BadNumber
.2_5 0.25
0.2_5 0.25
. BadNumber
.5 0.5
5. 5
5.e2 500
.5e1 5
1e BadNumber
.e1 BadNumber
0.5e BadNumber
1e+ BadNumber
1e- BadNumber
1e+1 10
1E-1 0.1
1e1_0 10000000000
1e_1 BadNumber
1e1_ BadNumber
1e1__0 BadNumber
0x8f 143
0X8F 143
0x_8f 143
0x__8f BadNumber
0x BadNumber
0x_ BadNumber
0x8_ BadNumber
0x8g BadNumber
0x1_f 31
0xC9F2C9CD04674EDEA40000000 1000000000000000000000000000000
0xC9F2C9CD04674EDEA40000001 NumberRange
0x1p3 BadNumber
Inf +Inf
inf +Inf
iNF +Inf
+Inf BadNumber
-1 BadNumber
+1 BadNumber
NaN NaN
nan NaN
NANN BadNumber
infinity BadNumber
1e30 1000000000000000000000000000000
1e31 NumberRange
1000000000000000000000000000001 NumberRange
0.1e-30 NumberRange
5e-31 NumberRange
2e-30 0.000000000000000000000000000002
1e-30 0.000000000000000000000000000001
1e-31 NumberRange
4e-32 NumberRange
007e1 70
0.0 0
00.5 0.5
00e0 0
09999999999999999999999999999999 NumberRange
1.2.3 BadNumber
1x BadNumber
1s BadNumber
0.5s BadNumber
3.25 3.25
100.00 100
0.125 0.125
1.10 1.1
12e-1 1.2
0e99999999999999999999999999999999999999999999 0
0e-99999999999999999999999999999999999999999999 0
0.000e-5 0
1e99999999999999999999999999999999999999999999 NumberRange
1e-99999999999999999999999999999999999999999999 NumberRange
1000000000000000000000000000000000000000000000000000000000000e-60 1
0.0000000000000000000000000000000000000000000000000000000000001e61 1
000000000000000000000000000000000000000000000000000000000001.5 1.5
1577721810442023610823457130565572459346412870218046009540557861328125e-99 0.000000000000000000000000000001577721810442023610823457130565572459346412870218046009540557861328125
1577721810442023610823457130565572459346412870218046009540557861328125e-100 NumberRange
1577721810442023610823457130563994737535970846607222552409992288868778587129781953990459442138671875e-99 1.577721810442023610823457130563994737535970846607222552409992288868778587129781953990459442138671875
0x00000000000000000000000000000000000000001 1
6821210263296961784362792968750000000000000000000000000000000000000000000000000000000000000000000000e-112 0.000000000000682121026329696178436279296875";

const SCRIPT_NUMBERS: &str = "0 0
-0 0
+0 0
-3 -3
+3 3
-0.5 -0.5
.5 0.5
5. 5
-.5e1 -5
1e-2 0.01
1_000 BadNumber
0x8f BadNumber
007 LeadingZero
-007 LeadingZero
00.5 0.5
- BadNumber
+ BadNumber
-- BadNumber
+-1 BadNumber
. BadNumber
-. BadNumber
1e BadNumber
Inf +Inf
-Inf -Inf
+inf +Inf
-nan NaN
NaN NaN
nan1 BadNumber
1e30 1000000000000000000000000000000
-1e30 -1000000000000000000000000000000
-1e31 NumberRange
1e-30 0.000000000000000000000000000001
5e-31 NumberRange
2e-30 0.000000000000000000000000000002
-2e-30 -0.000000000000000000000000000002
1e+1 10
1e BadNumber
1e1.5 BadNumber
12.50 12.5
-100 -100
1e0 1
--1 BadNumber
1-1 BadNumber
1/3 BadNumber";

const TIMES: &str = "0 0
-0 0
5 5000
+5 5000
-5 -5000
0.001 1
1e-3 1
0.0005 BadTime
1.5 1500
1_0 10000
0x10 16000
5m 300000
-1h30m -5400000
+1d 86400000
100y 3153600000000
-100y -3153600000000
100y1ms OutOfRange
-101y OutOfRange
100000000000 100000000000000
-1e11 -100000000000000
100000000000.001 OutOfRange
1e12 OutOfRange
1e31 OutOfRange
-1e31 OutOfRange
1e-31 OutOfRange
0x1000000000000000000000000000 OutOfRange
Inf BadTime
NaN BadTime
-Inf BadTime
007 BadTime
--5 BadTime
- BadTime
5x BadTime
30m1h BadTime
1.5m BadTime
-+1 BadTime
1s_ BadTime";

fn answer_text(alloc: Global, answer: Result<XFrac, NumberRefusal>) -> Result<Vec<u8>, AllocError> {
    match answer {
        Ok(value) => {
            let mut text = Vec::new(alloc);
            write_number(&value, &mut text)?;
            Ok(text)
        }
        Err(BadNumber) => Vec::from_slice(alloc, b"BadNumber"),
        Err(NumberRange) => Vec::from_slice(alloc, b"NumberRange"),
        Err(LeadingZero) => Vec::from_slice(alloc, b"LeadingZero"),
    }
}

fn literal_holds(alloc: Global, row: &str) -> Result<bool, Fail> {
    let (text, wanted) = row.split_once(' ').ok_or("a row without a blank")?;
    let answer = answer_text(alloc, read_number(text))?;
    Ok(answer.as_slice() == wanted.as_bytes())
}

fn script_number_holds(alloc: Global, row: &str) -> Result<bool, Fail> {
    let (text, wanted) = row.split_once(' ').ok_or("a row without a blank")?;
    let answer = answer_text(alloc, read_script_number(text))?;
    Ok(answer.as_slice() == wanted.as_bytes())
}

#[test]
fn texts_have_their_values(rt: HostRuntime) -> Result<(), Fail> {
    let alloc = rt.alloc();
    assert!(rt; read_number("") == Err(BadNumber) && read_script_number("") == Err(BadNumber));
    rows_hold(LITERALS, 89, |row| literal_holds(alloc, row))?;
    rows_hold(SCRIPT_NUMBERS, 44, |row| {
        script_number_holds(alloc, row)
    })
}

fn time_text(alloc: Global, time: Result<Ms, TimeRefusal>) -> Result<String, AllocError> {
    match time {
        Ok(Ms(milliseconds)) => format!(in alloc; "{milliseconds}"),
        Err(TimeRefusal::BadTime) => String::from_str(alloc, "BadTime"),
        Err(TimeRefusal::OutOfRange) => String::from_str(alloc, "OutOfRange"),
    }
}

fn time_holds(alloc: Global, row: &str) -> Result<bool, Fail> {
    let (text, wanted) = row.split_once(' ').ok_or("a row without a blank")?;
    let answer = time_text(alloc, read_time(text))?;
    Ok(answer.as_str() == wanted)
}

#[test]
fn times_are_read(rt: HostRuntime) -> Result<(), Fail> {
    times_are_told();
    durations_are_times();
    let alloc = rt.alloc();
    assert!(rt; read_time("") == Err(TimeRefusal::BadTime));
    rows_hold(TIMES, 37, |row| time_holds(alloc, row))
}

// Each line is a number, and its spelling behind what stands before it.
const SPELLINGS: &str = "0/1 =0
1/3 =1/3
-3/1 =-3
1/2 =0.5
-1/2 =-0.5
-22/7 =-22/7
1000000000000000000000000000000/1 =1000000000000000000000000000000
1/1000000000000000000000000000000 =0.000000000000000000000000000001
1/633825300114114700748351602688 =0.000000000000000000000000000001577721810442023610823457130565572459346412870218046009540557861328125
inf =+Inf
-inf =-Inf
nan =NaN";

fn spelling_holds(alloc: Global, row: &str) -> Result<bool, Fail> {
    let (number, wanted) = row.split_once(' ').ok_or("a row without a blank")?;
    let mut text = Vec::from_slice(alloc, b"=")?;
    write_number(&read(number)?, &mut text)?;
    Ok(text.as_slice() == wanted.as_bytes())
}

#[test]
fn numbers_have_one_spelling(rt: HostRuntime) -> Result<(), Fail> {
    spellings_are_numbers();
    let alloc = rt.alloc();
    rows_hold(SPELLINGS, 12, |row| spelling_holds(alloc, row))
}
