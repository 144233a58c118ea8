//! What selectors give, read from the store.
ghost use Rattle.match_rule.specs.Patterns.{HaveTheirPatterns};
ghost use Rattle.plain_eval.specs.Numbered.{fresh_until, row_numbered, window_numbered};
ghost use Rattle.promql_meaning.specs.Selecting.{base_of, fresh as fresh_value, fresh_sample, lookback, newest, newest_row, passing, sample_times, sample_values, series_window, window};
ghost use Rattle.sample_store.specs.Samples.{IsRising, Names, Samples};
ghost use Rattle.std.specs.List.{filter_map};
ghost use Rattle.std.specs.Option.{option_and_then, option_to_list};
ghost use Rattle.std.specs.Prelude.{◌≡◌, ◌<◌, ◌≤◌, ◌+◌, ◌++◌, ◌-ℤ◌, None, Some, if◌then◌else◌, int_lt, length, slice_get, IfOk, OnOk};
ghost use Rattle.ticks.specs.Edges.{before};
ghost use Rattle.ticks.specs.Walks.{IsTime};

use label_set::{Items, Rule};
use match_rule::Patterns;
use promql_ast::{Fixed, Moment};
use promql_meaning::Stamped;
use sample_store::{Cursor, Store};
use std::alloc::{AllocError, Global};
use std::sync::ledger::Ledger;
use step_rules::{earlier, window_of};
use step_table::WindowRow;
use ticks::{Grid, Ms, Work, last_before};
use xfrac::{Held, XFrac};

/// How far back an instant selector looks for a sample, in milliseconds; a sample just that old is taken where the window is
/// closed on the left.
const LOOKBACK: Ms = Ms(300_000);

/// The fixed time, if there is one, or the instant.
fn base_at(fixed: Option<Fixed>, span: &Grid, t: Ms) -> Ms
    ensures { result.0 ≡ base_of span.now.start.0 span.now.end.0 t.0 fixed }
{
    match fixed {
        None => t,
        Some(Fixed::At(at)) => at,
        Some(Fixed::Start) => span.start,
        Some(Fixed::End) => span.end,
    }
}

/// The moment that belongs to an instant.
pub fn moment_at(moment: &Moment, span: &Grid, t: Ms) -> Ms
    requires { IsTime (base_of span.now.start.0 span.now.end.0 t.0 moment.now.fixed -ℤ moment.now.offset.0) }
    ensures { result.0 ≡ base_of span.now.start.0 span.now.end.0 t.0 moment.now.fixed -ℤ moment.now.offset.0 }
{
    let base = base_at(moment.fixed, span, t);
    Ms(base.0 - moment.offset.0)
}

/// The value of a sample, unless it is a marker of staleness.
fn fresh(held: &Held) -> Option<XFrac>
    ensures { result ≡ fresh_value held.now }
{
    match held {
        Held::Value(value) => Some(*value),
        Held::Stale => None,
    }
}

/// A sample with its time, unless it is a marker of staleness.
fn fresh_at(time: Ms, held: &Held) -> Option<(Ms, XFrac)>
    ensures { result ≡ fresh_sample (time, held.now) }
{
    match fresh(held) {
        Some(value) => Some((time, value)),
        None => None,
    }
}

/// A sample that is later than a time, unless it is a marker of staleness.
fn fresh_behind(edge: Ms, time: Ms, held: &Held) -> Option<(Ms, XFrac)>
    ensures { result ≡ option_and_then fresh_sample (if int_lt edge.0 time.0 then Some (time, held.now) else None) }
{
    if edge.0 < time.0 {
        fresh_at(time, held)
    } else {
        None
    }
}

/// The last time before a range that ends at a moment.
fn before_range(m: Ms, range: Ms, closed: bool) -> Ms
    requires { IsTime (m.0 -ℤ range.0) }
    ensures { result ≡ record { 0 = before closed (m.0 -ℤ range.0) } }
{
    last_before(earlier(m, range), closed)
}

/// The newest sample of a series at a moment; one sample at most is fetched.
fn newest<W: Ledger>(
    store: &Store,
    s: u32,
    m: Ms,
    closed: bool,
    work: &mut Work<W>,
) -> Option<(Ms, XFrac)>
    requires there { s < length store.now }
    requires edge { IsTime (m.0 -ℤ lookback) }
    ensures newest { (one : Names × Samples) → slice_get store.now s ≡ Some one → result ≡ newest closed m.0 one.1 }
    ensures fetched { work.new.fetched ≤ work.old.fetched + 1 }
{
    let cursor = store.seek(s, m, work);
    match cursor.previous(work) {
        Some((time, held)) => fresh_behind(before_range(m, LOOKBACK, closed), time, &held),
        None => None,
    }
}

/// The row of a series at a moment, if it has a newest value; one sample at most is fetched.
fn row_at<W: Ledger>(
    store: &Store,
    s: u32,
    m: Ms,
    closed: bool,
    work: &mut Work<W>,
) -> Result<Option<Stamped>, AllocError>
    requires there { s < length store.now }
    requires edge { IsTime (m.0 -ℤ lookback) }
    ensures row { IfOk result (λ row. row ≡ row_numbered closed m.0 store.now s) }
    ensures fetched { work.new.fetched ≤ work.old.fetched + 1 }
{
    match newest(store, s, m, closed, work) {
        Some((at, value)) => Ok(Some(Stamped {
            labels: store.labels(s).copy()?,
            at,
            value,
        })),
        None => Ok(None),
    }
}

/// Adds a row, if there is one.
fn add_row<T: Drop>(rows: &mut Items<T>, row: Option<T>) -> Result<(), AllocError>
    ensures { OnOk result (rows.new ≡ rows.old ++ option_to_list row) }
{
    match row {
        Some(row) => rows.push(row),
        None => Ok(()),
    }
}

/// The newest rows of a selector at a moment, in the order of labels; of each series one sample at most is fetched. The only
/// error is want of memory.
pub fn newest_rows<W: Ledger>(
    alloc: Global,
    store: &Store,
    rules: &Items<Rule>,
    patterns: &mut Patterns,
    m: Ms,
    closed: bool,
    work: &mut Work<W>,
) -> Result<Items<Stamped>, AllocError>
    requires edge { IsTime (m.0 -ℤ lookback) }
    requires patterns { HaveTheirPatterns patterns.old rules.now }
    ensures rows { IfOk result (λ rows. rows ≡ filter_map (newest_row closed m.0) (passing store.now patterns.old rules.now)) }
    ensures fetched { IfOk result (λ _. work.new.fetched ≤ work.old.fetched + length (passing store.now patterns.old rules.now)) }
    ensures same { patterns.new ≡ patterns.old }
{
    let places = store.select(rules, patterns, work)?;
    let mut rows = Items::new(alloc);
    for s in places.as_slice() {
        let row = row_at(store, *s, m, closed, work)?;
        add_row(&mut rows, row)?;
    }
    Ok(rows)
}

/// The times of samples, and their values beside them.
#[derive(Drop)]
struct Columns {
    times: Items<Ms>,
    values: Items<XFrac>,
}

/// Adds a sample that is no marker of staleness.
fn add_sample(read: &mut Columns, time: Ms, held: &Held) -> Result<(), AllocError>
    ensures times { OnOk result (read.new.times ≡ read.old.times ++ sample_times (option_to_list (fresh_sample (time, held.now)))) }
    ensures values { OnOk result (read.new.values ≡ read.old.values ++ sample_values (option_to_list (fresh_sample (time, held.now)))) }
{
    match fresh(held) {
        Some(value) => {
            read.times.push(time)?;
            read.values.push(value)
        }
        None => Ok(()),
    }
}

/// The samples up to a time that are no markers of staleness, of those that come from a cursor.
fn fresh_until<W: Ledger>(
    alloc: Global,
    cursor: Cursor<'_>,
    m: Ms,
    work: &mut Work<W>,
) -> Result<Columns, AllocError>
    requires { IsRising cursor.rest }
    ensures times { IfOk result (λ read. read.times ≡ sample_times (fresh_until m.0 cursor.entry.rest)) }
    ensures values { IfOk result (λ read. read.values ≡ sample_values (fresh_until m.0 cursor.entry.rest)) }
{
    let mut ahead = cursor;
    let mut read = Columns {
        times: Items::new(alloc),
        values: Items::new(alloc),
    };
    while let Some((time, held)) = ahead.next(work) {
        if time.0 > m.0 {
            return Ok(read);
        }
        add_sample(&mut read, time, &held)?;
    }
    Ok(read)
}

/// The window of a series, if it has a sample in it.
fn window_at<W: Ledger>(
    alloc: Global,
    store: &Store,
    s: u32,
    range: Ms,
    m: Ms,
    closed: bool,
    work: &mut Work<W>,
) -> Result<Option<WindowRow>, AllocError>
    requires there { s < length store.now }
    requires edge { IsTime (m.0 -ℤ range.0) }
    ensures { IfOk result (λ row. row ≡ window_numbered closed m.0 range.0 store.now s) }
{
    let Columns { times, values } = samples_at(alloc, store, s, range, m, closed, work)?;
    if values.as_slice().is_empty() {
        return Ok(None);
    }
    Ok(window_of(store.labels(s).copy()?, times, values))
}

/// The samples of the window of a series.
fn samples_at<W: Ledger>(
    alloc: Global,
    store: &Store,
    s: u32,
    range: Ms,
    m: Ms,
    closed: bool,
    work: &mut Work<W>,
) -> Result<Columns, AllocError>
    requires there { s < length store.now }
    requires edge { IsTime (m.0 -ℤ range.0) }
    ensures times { IfOk result (λ read. (one : Names × Samples) → slice_get store.now s ≡ Some one → read.times ≡ sample_times (window closed m.0 range.0 one.1)) }
    ensures values { IfOk result (λ read. (one : Names × Samples) → slice_get store.now s ≡ Some one → read.values ≡ sample_values (window closed m.0 range.0 one.1)) }
{
    let cursor = store.seek(s, before_range(m, range, closed), work);
    fresh_until(alloc, cursor, m, work)
}

/// The windows of a selector at a moment, in the order of labels. The only error is want of memory.
pub fn window_rows<W: Ledger>(
    alloc: Global,
    store: &Store,
    rules: &Items<Rule>,
    range: Ms,
    patterns: &mut Patterns,
    m: Ms,
    closed: bool,
    work: &mut Work<W>,
) -> Result<Items<WindowRow>, AllocError>
    requires edge { IsTime (m.0 -ℤ range.0) }
    requires patterns { HaveTheirPatterns patterns.old rules.now }
    ensures rows { IfOk result (λ rows. rows ≡ filter_map (series_window closed m.0 range.0) (passing store.now patterns.old rules.now)) }
    ensures same { patterns.new ≡ patterns.old }
{
    let places = store.select(rules, patterns, work)?;
    let mut rows = Items::new(alloc);
    for s in places.as_slice() {
        let row = window_at(alloc, store, *s, range, m, closed, work)?;
        add_row(&mut rows, row)?;
    }
    Ok(rows)
}
