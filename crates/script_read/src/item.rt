//! The items of a series: numbers, gaps, markers of staleness, and runs of numbers.
ghost use Rattle.script_read.specs.Items.{count_spelled, gap_spelled, is_exponent, is_sign, item_spelled, item_unmarked, run_spelled, run_values, step_behind, step_place, step_signed, value_spelled, values_spelled};
ghost use Rattle.script_read.specs.declared.script.SeriesItem.TheVariants.{Gap};
ghost use Rattle.script_read.specs.Outcomes.{then_give};
ghost use Rattle.std.specs.Prelude.{◌≡◌, ◌<◌, ◌==◌, length, position, IfSome};

use crate::fault::LineFault;
use crate::script::SeriesItem;
use crate::word::read_number;
use xfrac::{XFrac, neg, whole};

/// The least number that no count has.
const COUNT_LIMIT: u64 = 1 << 32;

/// How often: decimal digits, for a number below 2^32.
fn read_count(text: &[u8]) -> Result<u32, LineFault>
    ensures { result ≡ count_spelled text.now }
{
    if text.is_empty() {
        return Err(LineFault::Malformed);
    }
    let mut count = 0u64;
    for digit in text {
        if !digit.is_ascii_digit() {
            return Err(LineFault::Malformed);
        }
        count = count * 10 + u64::from(*digit - b'0');
        if count >= COUNT_LIMIT {
            return Err(LineFault::Malformed);
        }
    }
    Ok(count as u32)
}

const fn is_sign(byte: u8) -> bool
    ensures { result ≡ is_sign byte }
{
    byte == b'+' || byte == b'-'
}

/// Whether a sign right behind the byte is that of an exponent.
const fn is_exponent(byte: u8) -> bool
    ensures { result ≡ is_exponent byte }
{
    byte == b'e' || byte == b'E'
}

/// The place of the first sign that stands for a step, behind a byte.
fn step_behind(first: u8, text: &[u8]) -> Option<usize>
    ensures place { result ≡ step_behind first text.now }
    ensures within { IfSome result (λ place. place < length text.now) }
{
    let mut before = first;
    for (place, byte) in text.iter().enumerate() {
        if is_sign(*byte) && !is_exponent(before) {
            return Some(place);
        }
        before = *byte;
    }
    None
}

/// The place of the sign between the first value of a run and its step.
fn step_place(text: &[u8]) -> Option<usize>
    ensures place { result ≡ step_place text.now }
    ensures within { IfSome result (λ place. place < length text.now) }
{
    let [first, rest @ ..] = text else {
        return None;
    };
    match step_behind(*first, rest) {
        Some(place) => Some(place + 1),
        None => None,
    }
}

/// The step that stands behind its sign.
fn read_step(text: &[u8]) -> Result<XFrac, LineFault>
    ensures { result ≡ step_signed text.now }
{
    let [sign, rest @ ..] = text else {
        return Err(LineFault::Malformed);
    };
    let step = read_number(rest)?;
    if *sign == b'-' {
        Ok(neg(&step))
    } else {
        Ok(step)
    }
}

/// The first value of a run, and its step.
fn read_run_values(text: &[u8]) -> Result<(XFrac, XFrac), LineFault>
    ensures { result ≡ run_values (step_place text.now) text.now }
{
    match step_place(text) {
        Some(place) => {
            let (first, step) = text.split_at(place);
            Ok((read_number(first)?, read_step(step)?))
        }
        None => Ok((read_number(text)?, whole(0))),
    }
}

/// A run of so many values more than the first.
fn read_run(values: &[u8], count: &[u8]) -> Result<SeriesItem, LineFault>
    ensures { result ≡ run_spelled values.now count.now }
{
    let (first, by) = read_run_values(values)?;
    let more = read_count(count)?;
    Ok(SeriesItem::Run { first, by, more })
}

/// One number, as a run with none more.
fn read_value(text: &[u8]) -> Result<SeriesItem, LineFault>
    ensures { result ≡ value_spelled text.now }
{
    let first = read_number(text)?;
    Ok(SeriesItem::Run {
        first,
        by: whole(0),
        more: 0,
    })
}

/// What stands behind the underscore of gaps.
fn read_gap(text: &[u8]) -> Result<SeriesItem, LineFault>
    ensures { result ≡ gap_spelled text.now }
{
    match text {
        [] => Ok(SeriesItem::Gap(1)),
        [b'x', count @ ..] => Ok(SeriesItem::Gap(read_count(count)?)),
        _ => Err(LineFault::Malformed),
    }
}

fn times_place(text: &[u8]) -> Option<usize>
    ensures place { result ≡ position (λ byte. byte == 120) text.now }
    ensures within { IfSome result (λ place. place < length text.now) }
{
    text.iter().position(|byte| *byte == b'x')
}

/// Values, and how many more where an `x` stands.
fn read_values(text: &[u8]) -> Result<SeriesItem, LineFault>
    ensures { result ≡ values_spelled (position (λ byte. byte == 120) text.now) text.now }
{
    match times_place(text) {
        Some(place) => read_run(text.split_at(place).0, text.split_at(place + 1).1),
        None => read_value(text),
    }
}

/// What a word that isn't `stale` says.
fn read_unmarked(word: &[u8]) -> Result<SeriesItem, LineFault>
    ensures { result ≡ item_unmarked word.now }
{
    match word {
        [] => Err(LineFault::Malformed),
        [b'_', gap @ ..] => read_gap(gap),
        _ => read_values(word),
    }
}

/// An item of a series. `NumberRange` comes exactly where the first part that is refused is a number outside the limits,
/// `Malformed` where the word is no item otherwise. It takes no memory.
pub fn read_item(word: &[u8]) -> Result<SeriesItem, LineFault>
    ensures { result ≡ item_spelled word.now }
{
    if word == b"stale".as_slice() {
        return Ok(SeriesItem::Stale);
    }
    read_unmarked(word)
}
