//! Texts of queries over a few series, and what comes of each.
ghost use Rattle.query_engine.specs.Batches.{IsBatch};
ghost use Rattle.std.specs.Prelude.{◌≡◌};

mod rows;

use frac_text::write_number;
use label_set::{Items, Labels, METRIC_NAME, Text};
use promql_meaning::{Answer, Outcome, ResultSeries};
use query_engine::{Options, evaluate};
use remote_api::{Engine, InOrder};
use sample_store::Store;
use std::alloc::{AllocError, Global};
use std::marker::Brand;
use std::sync::ledger::{Blank, Ledger};
use std::test::Fail;
use step_table::{Mark, Note};
use ticks::{Grid, Ms, Work};
use xfrac::{Held, XFrac, of};

fn value(text: &str) -> Result<XFrac, Fail> {
    match text {
        "inf" => Ok(XFrac::PosInf),
        "-inf" => Ok(XFrac::NegInf),
        "nan" => Ok(XFrac::NaN),
        _ => {
            let n: i128 = text.parse()?;
            Ok(of(n, 1)?)
        }
    }
}

fn seconds(text: &str) -> Result<Ms, Fail> {
    let n: i32 = text.parse()?;
    Ok(Ms(i64::from(n) * 1000))
}

pub(crate) fn labels(alloc: Global, text: &str) -> Result<Labels, Fail> {
    let mut labels = Labels::empty(alloc);
    for word in text.split(',') {
        let (name, value) = word.split_once('=').unwrap_or((METRIC_NAME, word));
        labels.set(name, value)?;
    }
    Ok(labels)
}

pub(crate) fn load(alloc: Global, store: &mut Store, text: &str) -> Result<(), Fail> {
    let mut parts = text.split(':');
    let labels = labels(alloc, parts.next().ok_or("no labels")?)?;
    let step = seconds(parts.next().ok_or("no step")?)?;
    let mut t = Ms(0);
    for item in parts.next().ok_or("no items")?.split('/') {
        if item == "stale" {
            store.append(&labels, t, &Held::Stale)?;
        } else if item != "_" {
            store.append(&labels, t, &Held::Value(value(item)?))?;
        }
        t = Ms(t.0.saturating_add(step.0));
    }
    Ok(())
}

fn loaded(alloc: Global, text: &str) -> Result<Store, Fail> {
    let mut store = Store::new(alloc);
    for line in text.split('~') {
        if line != "-" {
            load(alloc, &mut store, line)?;
        }
    }
    Ok(store)
}

/// An instant, or a start, an end and a step, in seconds; and whether it is an instant.
pub(crate) fn grid(text: &str) -> Result<(Grid, bool), Fail> {
    match text.split_once("..") {
        None => {
            let t = seconds(text)?;
            Ok((Grid::of(t, t, Ms(1))?, true))
        }
        Some((start, rest)) => {
            let (end, step) = rest.split_once('/').ok_or("no step")?;
            Ok((
                Grid::of(seconds(start)?, seconds(end)?, seconds(step)?)?,
                false,
            ))
        }
    }
}

fn add_series(scalar: bool, series: &ResultSeries, into: &mut Vec<u8>) -> Result<(), AllocError> {
    if scalar {
        into.extend_from_slice(b"scalar")?;
    } else {
        series.labels.write(into)?;
    }
    let alloc = *into.allocator();
    for point in series.points.as_slice() {
        into.push(b' ')?;
        write_number(&point.value, into)?;
        let at = point.at.0;
        into.extend_from_slice(format!(in alloc; "@{at}")?.as_bytes())?;
    }
    Ok(())
}

fn add_note(note: &Note, into: &mut Vec<u8>) -> Result<(), AllocError> {
    match note {
        Note::QuantileRange(q) => {
            into.extend_from_slice(b"range ")?;
            write_number(q, into)
        }
        Note::BadBucket(text) => {
            into.extend_from_slice(b"bucket ")?;
            into.extend_from_slice(text.as_str().as_bytes())
        }
        Note::NotCounter(name) => {
            into.extend_from_slice(b"counter ")?;
            into.extend_from_slice(name.as_str().as_bytes())
        }
        Note::FixedBuckets => into.extend_from_slice(b"fixed"),
    }
}

fn add_answer(answer: &Answer, into: &mut Vec<u8>) -> Result<(), AllocError> {
    let mut first = true;
    for series in answer.series.as_slice() {
        if !first {
            into.extend_from_slice(b", ")?;
        }
        first = false;
        add_series(answer.scalar, series, into)?;
    }
    if first {
        into.extend_from_slice(b"empty")?;
    }
    for note in answer.notes.as_slice() {
        into.extend_from_slice(b", ")?;
        add_note(note, into)?;
    }
    Ok(())
}

fn add_mark(mark: &Mark, into: &mut Vec<u8>) -> Result<(), AllocError> {
    let (word, labels) = match mark {
        Mark::Overflow => ("overflow", None),
        Mark::Irrational => ("irrational", None),
        Mark::SameLabelset(labels) => ("same ", Some(labels)),
        Mark::DuplicateOneSide(labels) => ("one side ", Some(labels)),
        Mark::ImplicitManyToOne(labels) => ("many ", Some(labels)),
        Mark::DuplicateResult(labels) => ("result ", Some(labels)),
        Mark::OutOfCalendar => ("calendar", None),
    };
    into.extend_from_slice(word.as_bytes())?;
    match labels {
        Some(labels) => labels.write(into),
        None => Ok(()),
    }
}

pub(crate) fn outcome_text(alloc: Global, outcome: &Outcome) -> Result<Vec<u8>, AllocError> {
    let mut text = Vec::new(alloc);
    match outcome {
        Outcome::Answer(answer) => add_answer(answer, &mut text)?,
        Outcome::Refused(refusal) => {
            let place = refusal.place();
            text.extend_from_slice(format!(in alloc; "REFUSED at {place}")?.as_bytes())?;
        }
        Outcome::Failed { at, mark } => {
            let at = at.0;
            text.extend_from_slice(format!(in alloc; "FAILED at {at} ")?.as_bytes())?;
            add_mark(mark, &mut text)?;
        }
        Outcome::TooManyRows { .. } => text.extend_from_slice(b"too many rows")?,
    }
    Ok(text)
}

/// All that is chosen for plans, with windows that are open on the left, and batches of so many instants.
pub(crate) fn options_of(batch: u32) -> Options
    ensures { result.batch ≡ batch }
{
    Options {
        sort: true,
        propagate: true,
        merge: true,
        trim: true,
        avg: true,
        remote: true,
        batch,
        closed: false,
    }
}

/// What a text comes to over a store, in batches of so many instants.
fn counted<W: Ledger>(
    alloc: Global,
    store: &Store,
    when: &(Grid, bool),
    query: &Text,
    batch: u32,
    blank: Blank,
) -> Result<Outcome, AllocError>
    requires batch { IsBatch batch }
    requires name { blank.name ≡ W.name }
    requires parts { blank.parts ≡ W.parts }
    requires three { blank.parts ≡ 3 }
{
    let mut work = Work::<W>::new(blank);
    let mut engines: Vec<Box<dyn Engine>> = Vec::new(alloc);
    let mut declared = Items::new(alloc);
    match evaluate(
        alloc,
        query.as_str(),
        &when.0,
        when.1,
        &options_of(batch),
        store,
        &mut engines,
        &mut declared,
        &mut InOrder::new(),
        &mut work,
    ) {
        Ok(outcome) => Ok(outcome),
        Err(_) => Err(AllocError),
    }
}

/// What a text comes to, with counters that nobody reads.
pub(crate) fn outcome_of(
    alloc: Global,
    store: &Store,
    when: &(Grid, bool),
    query: &str,
    batch: u32,
) -> Result<Outcome, AllocError>
    requires { IsBatch batch }
{
    let query = Text::of(alloc, query)?;
    counted::<Brand>(alloc, store, when, &query, batch, Blank::new(3))
}

fn comes_to(
    alloc: Global,
    series: &str,
    when: &str,
    query: &str,
    batch: u32,
) -> Result<Vec<u8>, Fail>
    requires { IsBatch batch }
{
    let store = loaded(alloc, series)?;
    let when = grid(when)?;
    let outcome = outcome_of(alloc, &store, &when, query, batch)?;
    Ok(outcome_text(alloc, &outcome)?)
}

/// What a row comes to in batches of so many instants, and what is wanted.
fn row_of<'a>(alloc: Global, line: &'a str, batch: u32) -> Result<(Vec<u8>, &'a str), Fail>
    requires { IsBatch batch }
{
    let mut parts = line.split(" ; ");
    let series = parts.next().ok_or("no series")?;
    let when = parts.next().ok_or("no time")?;
    let query = parts.next().ok_or("no query")?;
    let got = comes_to(alloc, series, when, query, batch)?;
    Ok((got, parts.next().ok_or("no outcome")?))
}

/// Whether a row comes to what is wanted in batches of so many instants.
fn holds_by(alloc: Global, line: &str, batch: u32) -> Result<bool, Fail>
    requires { IsBatch batch }
{
    let (got, wanted) = row_of(alloc, line, batch)?;
    Ok(got.as_slice() == wanted.as_bytes())
}

/// Whether a row holds at once, instant by instant, and by threes.
fn holds(alloc: Global, line: &str) -> Result<bool, Fail> {
    Ok(holds_by(alloc, line, 64)? && holds_by(alloc, line, 1)? && holds_by(alloc, line, 3)?)
}

#[test]
fn texts_come_to(rt: HostRuntime) -> Result<(), Fail> {
    assert_eq!(rt; rows::ROWS.lines().count(), 44);
    for line in rows::ROWS.lines() {
        if !holds(rt.alloc(), line)? {
            return Err(Fail::new(line));
        }
    }
    Ok(())
}
