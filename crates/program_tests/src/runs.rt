//! Scripts that are run, and queries that are answered over what they load.
ghost use Rattle.script_check.specs.Verdicts.{KeepsPatterns};
ghost use Rattle.std.specs.Prelude.{◌≡◌, ◌<◌, ◌^◌, [], length, IfOk};

use crate::rows::rows_hold;
use edge_io::MemSink;
use frac_text::write_number;
use holders::{Items, Text};
use match_rule::{PatternRoom, Patterns};
use promql_meaning::{Answer, Outcome};
use query_engine::Options;
use remote_api::{Engine, InOrder};
use script_check::{append_outcome, scripts_keep_their_patterns};
use script_read::{ReadFault, Script};
use std::alloc::{AllocError, Global};
use std::marker::Brand;
use std::sync::ledger::{Blank, Ledger};
use std::test::Fail;
use test_runner::{
    LoadRefusal, RunnerFault, Totals, answer, each_evaluation_has_one_verdict,
    loads_put_their_samples, run,
};
use ticks::{Grid, Ms, Work};
use xfrac::Held;

/// Each row is what a run comes to, what is written, its lines parted by `;`, the number of the write that fails, and the
/// script, whose line feeds are written `|`.
const RUNS: &str = r##"
passed 0 failed 0||0|
passed 1 failed 1|PASS a.test:4;FAIL a.test:7 up expected 3 got 2;|0|load 5m|up 1 2||eval instant at 0 up|up 1||eval instant at 5m up|up 3|
passed 1 failed 1|PASS a.test:4;FAIL a.test:7 up expected 3 got 2;|3|load 5m|up 1 2||eval instant at 0 up|up 1||eval instant at 5m up|up 3|
Write|PASS a.test:4;|2|load 5m|up 1 2||eval instant at 0 up|up 1||eval instant at 5m up|up 3|
Write||1|load 5m|up 1 2||eval instant at 0 up|up 1||eval instant at 5m up|up 3|
passed 2 failed 0|PASS a.test:4;PASS a.test:9;|0|load 5m|x 1||eval instant at 0 x|x 1||clear||eval instant at 0 x|
passed 1 failed 0|PASS a.test:8;|0|load 5m|x 1||clear|load 5m|x 2||eval instant at 0 x|x 2|
passed 1 failed 3|PASS a.test:4;FAIL a.test:7 x at 120000 expected 4 got 3;FAIL a.test:10 x at 60000 expected nothing got 2;FAIL a.test:13 x at 0 expected 1 got nothing;|0|load 1m|x 1 2 3||eval range from 0 to 2m step 1m x|x 1 2 3||eval range from 0 to 2m step 1m x|x 1 2 4||eval range from 0 to 2m step 1m x|x 1 _ 3||eval range from 0 to 2m step 1m x > 1|x 1 2 3|
passed 1 failed 2|FAIL a.test:1 unexpected Expected at 2;FAIL a.test:3 unexpected overflow;PASS a.test:5;|0|eval instant at 0 x y||eval instant at 0 1e30 * 10||eval_fail instant at 0 1 +|
passed 0 failed 2|FAIL a.test:4 missing x{a="2"};FAIL a.test:7 scalar expected 2 got 1;|0|load 5m|x{a="1"} 1||eval instant at 0 x|x{a="2"} 1||eval instant at 0 1|2|
Range 2||0|load 1m|x 1e30+1x1|
Range 2||0|load 100y|x 1 _x31 1|
Conflict 5 1 2||0|load 5m|x 1||load 5m|x 2||eval instant at 0 x|x 1|
Conflict 8 1 stale||0|load 5m|x 1||eval instant at 0 x|x 1||load 5m|x stale|
TooManySamples 2||0|load 1s|x 0x2000000
"##;

/// Each row is what a query comes to, its start, end and step in seconds, of which an instant has the first alone, its text,
/// and the script, whose line feeds are written `|`.
const ANSWERS: &str = r##"
x 1@0|0|x|load 1m|x 1 2 3|
x 1@0 2@60000 3@120000|0 120 60|x|load 1m|x 1 2 3|
y 2@0|0|{__name__=~"[xy]"}|load 1m|x 1||eval instant at 0 x|x 7||clear|load 1m|y 2|
scalar 2@0|0|1 + 1|
refused or failed: Expected at 2|0|x y|load 1m|x 1|
refused or failed: overflow|0|x * 10|load 1m|x 1e30|
Conflict 3 1 2|0|x|load 1m|x 1|x 2|
Range 2|0|x|load 1m|x 1e30+1x1|
"##;

/// Appends a text with a line feed for each sign.
fn push_lines(text: &mut Vec<u8>, written: &str, sign: u8) -> Result<(), AllocError> {
    for byte in written.as_bytes() {
        text.push(if *byte == sign { b'\n' } else { *byte })?;
    }
    Ok(())
}

fn sink_of(alloc: Global, fails: u32) -> Result<MemSink, AllocError> {
    let mut failing = Items::new(alloc);
    failing.push(fails)?;
    Ok(MemSink::of(alloc, failing))
}

/// The script of a row, over new patterns.
fn script_of(alloc: Global, written: &str, searches: &mut Patterns) -> Result<Script, ReadFault>
    ensures kept { IfOk result (KeepsPatterns searches.new) }
    ensures few { IfOk result (λ script. length script.commands < 2 ^ 32) }
{
    let mut bytes = Vec::new(alloc);
    push_lines(&mut bytes, written, b'|')?;
    let script = script_read::read(alloc, &bytes, searches);
    scripts_keep_their_patterns();
    script
}

fn push_held(held: &Held, into: &mut Vec<u8>) -> Result<(), AllocError> {
    match held {
        Held::Value(value) => write_number(value, into),
        Held::Stale => into.extend_from_slice(b"stale"),
    }
}

fn push_conflict(
    line: u32,
    kept: &Held,
    given: &Held,
    into: &mut Vec<u8>,
) -> Result<(), AllocError> {
    let alloc = *into.allocator();
    into.extend_from_slice(format!(in alloc; "Conflict {line} ")?.as_bytes())?;
    push_held(kept, into)?;
    into.push(b' ')?;
    push_held(given, into)
}

fn fault_text(alloc: Global, fault: &RunnerFault) -> Result<Vec<u8>, AllocError> {
    let mut text = Vec::new(alloc);
    match fault {
        RunnerFault::Refused(LoadRefusal::Conflict { line, kept, given }) => {
            push_conflict(*line, kept, given, &mut text)?;
        }
        RunnerFault::Refused(LoadRefusal::Unplaced { line }) => {
            text.extend_from_slice(format!(in alloc; "Unplaced {line}")?.as_bytes())?;
        }
        RunnerFault::Refused(LoadRefusal::TooManySamples { line }) => {
            text.extend_from_slice(format!(in alloc; "TooManySamples {line}")?.as_bytes())?;
        }
        RunnerFault::Refused(LoadRefusal::TooManySeries { line }) => {
            text.extend_from_slice(format!(in alloc; "TooManySeries {line}")?.as_bytes())?;
        }
        RunnerFault::Range(line) => {
            text.extend_from_slice(format!(in alloc; "Range {line}")?.as_bytes())?;
        }
        RunnerFault::Run(_) => text.extend_from_slice(b"Run")?,
        RunnerFault::Write => text.extend_from_slice(b"Write")?,
        RunnerFault::Memory => return Err(AllocError),
    }
    Ok(text)
}

fn ending_text(alloc: Global, ended: Result<Totals, RunnerFault>) -> Result<Vec<u8>, AllocError> {
    match ended {
        Ok(totals) => {
            let (passed, failed) = (totals.passed, totals.failed);
            Ok(format!(in alloc; "passed {passed} failed {failed}")?.into_bytes())
        }
        Err(fault) => fault_text(alloc, &fault),
    }
}

fn answer_text(alloc: Global, answer: &Answer) -> Result<Vec<u8>, AllocError> {
    let mut text = Vec::new(alloc);
    for series in answer.series.as_slice() {
        if answer.scalar {
            text.extend_from_slice(b"scalar")?;
        } else {
            series.labels.write(&mut text)?;
        }
        for point in series.points.as_slice() {
            text.push(b' ')?;
            write_number(&point.value, &mut text)?;
            let at = point.at.0;
            text.extend_from_slice(format!(in alloc; "@{at}")?.as_bytes())?;
        }
    }
    Ok(text)
}

fn outcome_text(
    alloc: Global,
    answered: &Result<Outcome, RunnerFault>,
) -> Result<Vec<u8>, AllocError> {
    match answered {
        Ok(Outcome::Answer(answer)) => answer_text(alloc, answer),
        Ok(outcome) => {
            let mut text = Vec::new(alloc);
            text.extend_from_slice(b"refused or failed: ")?;
            append_outcome(alloc, outcome, &mut text)?;
            Ok(text)
        }
        Err(fault) => fault_text(alloc, fault),
    }
}

/// All rewrites are chosen, windows are open on the left, and three instants are computed at once.
const OPEN: Options = Options {
    sort: true,
    propagate: true,
    merge: true,
    trim: true,
    avg: true,
    remote: true,
    batch: 3,
    closed: false,
};

/// Runs a script with counters of its own.
fn run_counted<W: Ledger>(
    alloc: Global,
    blank: Blank,
    script: &Script,
    searches: &mut Patterns,
    out: &mut MemSink,
) -> Result<Totals, RunnerFault>
    requires name { blank.name ≡ W.name }
    requires parts { blank.parts ≡ W.parts }
    requires three { blank.parts ≡ 3 }
    requires kept { KeepsPatterns searches.old script.now }
    requires few { length script.now.commands < 2 ^ 32 }
{
    let mut engines: Vec<Box<dyn Engine>> = Vec::new(alloc);
    let mut declared = Items::new(alloc);
    let mut courier = InOrder::new();
    let mut work = Work::<W>::new(blank);
    run(
        alloc,
        "a.test",
        script,
        searches,
        &OPEN,
        &mut engines,
        &mut declared,
        &mut courier,
        out,
        &mut work,
    )
}

fn run_script(
    alloc: Global,
    script: &Script,
    searches: &mut Patterns,
    out: &mut MemSink,
) -> Result<Totals, RunnerFault>
    requires kept { KeepsPatterns searches.old script.now }
    requires few { length script.now.commands < 2 ^ 32 }
{
    run_counted::<Brand>(alloc, Blank::new(3), script, searches, out)
}

/// Answers a query with counters of its own.
fn answer_counted<W: Ledger>(
    alloc: Global,
    blank: Blank,
    script: &Script,
    query: &Text,
    grid: &Grid,
    instant: bool,
) -> Result<Outcome, RunnerFault>
    requires name { blank.name ≡ W.name }
    requires parts { blank.parts ≡ W.parts }
    requires three { blank.parts ≡ 3 }
{
    let mut engines: Vec<Box<dyn Engine>> = Vec::new(alloc);
    let mut declared = Items::new(alloc);
    let mut courier = InOrder::new();
    let mut work = Work::<W>::new(blank);
    answer(
        alloc,
        script,
        query.as_str(),
        grid,
        instant,
        &OPEN,
        &mut engines,
        &mut declared,
        &mut courier,
        &mut work,
    )
}

fn answer_query(
    alloc: Global,
    script: &Script,
    query: &str,
    when: &(Grid, bool),
) -> Result<Outcome, RunnerFault> {
    let query = Text::of(alloc, query)?;
    answer_counted::<Brand>(alloc, Blank::new(3), script, &query, &when.0, when.1)
}

fn seconds(word: Option<&str>) -> Ms {
    let n: i32 = word.unwrap_or("0").parse().unwrap_or(0);
    Ms(i64::from(n) * 1000)
}

/// The grid that a row names, and whether it is an instant.
fn grid_of(written: &str) -> Result<(Grid, bool), Fail> {
    let mut words = written.split(' ');
    let start = seconds(words.next());
    match words.next() {
        None => Ok((Grid::of(start, start, Ms(1))?, true)),
        Some(end) => {
            let grid = Grid::of(start, seconds(Some(end)), seconds(words.next()))?;
            Ok((grid, false))
        }
    }
}

/// Whether a row's script ends and writes as its row says.
fn row_runs_so(alloc: Global, row: &str) -> Result<bool, Fail> {
    let mut fields = row.splitn(4, '|');
    let ending = fields.next().unwrap_or("");
    let mut written = Vec::new(alloc);
    push_lines(&mut written, fields.next().unwrap_or(""), b';')?;
    let fails = fields.next().unwrap_or("").parse::<u32>()?;
    let mut room = PatternRoom::new(alloc)?;
    let mut searches = Patterns::new(alloc, &mut room);
    let script = script_of(alloc, fields.next().unwrap_or(""), &mut searches)?;
    let mut out = sink_of(alloc, fails)?;
    let ended = run_script(alloc, &script, &mut searches, &mut out);
    let got = ending_text(alloc, ended)?;
    Ok(got.as_slice() == ending.as_bytes() && out.written() == written.as_slice())
}

/// Whether a row's query has the answer of its row.
fn row_answers_so(alloc: Global, row: &str) -> Result<bool, Fail> {
    let mut fields = row.splitn(4, '|');
    let told = fields.next().unwrap_or("");
    let when = grid_of(fields.next().unwrap_or(""))?;
    let query = fields.next().unwrap_or("");
    let mut room = PatternRoom::new(alloc)?;
    let mut searches = Patterns::new(alloc, &mut room);
    let script = script_of(alloc, fields.next().unwrap_or(""), &mut searches)?;
    let answered = answer_query(alloc, &script, query, &when);
    Ok(outcome_text(alloc, &answered)?.as_slice() == told.as_bytes())
}

#[test]
fn scripts_are_run(rt: HostRuntime) -> Result<(), Fail> {
    loads_put_their_samples();
    each_evaluation_has_one_verdict();
    rows_hold(rt.alloc(), RUNS, 15, row_runs_so)
}

#[test]
fn queries_are_answered(rt: HostRuntime) -> Result<(), Fail> {
    rows_hold(rt.alloc(), ANSWERS, 8, row_answers_so)
}
