//! Where a text stands in the order of notes. What is found by it is looked at again, so nothing is promised of it.

use crate::note_text::{BAD_BUCKET, FIXED_BUCKETS, NOT_COUNTER, QUANTILE_RANGE};
use crate::pieces::behind;
use crate::tested::text_in;
use frac_text::read_script_number;
use std::cmp::Ordering;
use step_table::Note;
use xfrac::{XFrac, of, parts};

/// The note that a text tells.
#[derive(Drop)]
pub enum Told<'a> {
    /// One on this quantile.
    Quantile(XFrac),
    /// One on a bucket, whose bound stands in these quotes; the first quote is left out.
    Bucket(&'a [u8]),
    /// One on this name of a counter.
    Counter(&'a [u8]),
    /// The one on buckets.
    Buckets,
}

/// The numerator of a fraction.
fn numerator(number: &XFrac) -> Option<i128> {
    match number {
        XFrac::Fin(fraction) => Some(parts(fraction).0),
        _ => None,
    }
}

/// The integer that a text spells, if it spells one.
fn integer_in(text: &str) -> Option<i128> {
    match read_script_number(text) {
        Ok(number) => numerator(&number),
        Err(_) => None,
    }
}

/// The fraction of two integers that texts spell, if they spell any.
fn fraction_in(numerator: &str, denominator: &str) -> Option<XFrac> {
    match (integer_in(numerator), integer_in(denominator)) {
        (Some(n), Some(d)) if d > 0 => of(n, d).ok(),
        _ => None,
    }
}

/// The number that a text spells, if it spells one.
fn number_in(text: &[u8]) -> Option<XFrac> {
    match text_in(text) {
        Some(text) => match text.split_once("/") {
            Some((numerator, denominator)) => fraction_in(numerator, denominator),
            None => read_script_number(text).ok(),
        },
        None => None,
    }
}

fn quantile_in(text: &[u8]) -> Option<Told<'_>> {
    match number_in(text) {
        Some(quantile) => Some(Told::Quantile(quantile)),
        None => None,
    }
}

fn bucket_in(text: &[u8]) -> Option<Told<'_>> {
    match behind(text, b"\"") {
        Some(rest) => Some(Told::Bucket(rest)),
        None => None,
    }
}

/// The note that a text tells, if it tells one. It takes no memory.
pub fn told_by(text: &[u8]) -> Option<Told<'_>> {
    if let Some(rest) = behind(text, QUANTILE_RANGE.as_bytes()) {
        return quantile_in(rest);
    }
    if let Some(rest) = behind(text, BAD_BUCKET.as_bytes()) {
        return bucket_in(rest);
    }
    if let Some(rest) = behind(text, NOT_COUNTER.as_bytes()) {
        return Some(Told::Counter(rest));
    }
    if text == FIXED_BUCKETS.as_bytes() {
        return Some(Told::Buckets);
    }
    None
}

/// The first byte of a text in quotes and what stands behind it, unless the text ends. The first quote is left out.
fn first_byte(text: &[u8]) -> Option<(u8, &[u8])> {
    match text {
        [b'\\', b'n', ..] => Some((b'\n', text.split_at(2).1)),
        [b'\\', byte, ..] => Some((*byte, text.split_at(2).1)),
        [b'"', ..] => None,
        [byte, ..] => Some((*byte, text.split_at(1).1)),
        [] => None,
    }
}

/// A text against one in quotes, whose first quote is left out, in the order of what they say.
fn against_quoted(plain: &[u8], text: &[u8]) -> Ordering {
    let mut rest = text;
    for byte in plain {
        match first_byte(rest) {
            Some((other, more)) if *byte == other => rest = more,
            Some((other, _)) => return byte.cmp(&other),
            None => return Ordering::Greater,
        }
    }
    if first_byte(rest).is_some() {
        Ordering::Less
    } else {
        Ordering::Equal
    }
}

fn rank_of(note: &Note) -> u8 {
    match note {
        Note::QuantileRange(_) => 0,
        Note::BadBucket(_) => 1,
        Note::NotCounter(_) => 2,
        Note::FixedBuckets => 3,
    }
}

fn rank_of_told(told: &Told<'_>) -> u8 {
    match told {
        Told::Quantile(_) => 0,
        Told::Bucket(_) => 1,
        Told::Counter(_) => 2,
        Told::Buckets => 3,
    }
}

/// A note against one that a text tells, in the order of notes. It takes no memory.
pub fn against(note: &Note, told: &Told<'_>) -> Ordering {
    match (note, told) {
        (Note::QuantileRange(_), Told::Quantile(quantile)) => {
            note.cmp(&Note::QuantileRange(*quantile))
        }
        (Note::BadBucket(bound), Told::Bucket(text)) => {
            against_quoted(bound.as_str().as_bytes(), text)
        }
        (Note::NotCounter(name), Told::Counter(text)) => name.as_str().as_bytes().cmp(text),
        _ => rank_of(note).cmp(&rank_of_told(told)),
    }
}
