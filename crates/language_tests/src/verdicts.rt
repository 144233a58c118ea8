//! Judgements of outcomes that no small script has.
ghost use Rattle.script_check.specs.Verdicts.{HasPatterns, KeepsPatterns, PatternList};
ghost use Rattle.std.specs.Prelude.{IfOk};

use crate::rows::rows_hold;
use frac_text::write_number;
use label_set::{Items, Labels, Text};
use match_rule::{PatternRoom, Patterns};
use promql_ast::QueryRefusal;
use promql_meaning::{Answer, Outcome, Point, ResultSeries};
use script_check::{Reason, Verdict, append_outcome, judge, scripts_keep_their_patterns};
use script_read::{Expectations, Expected, Script, What, read};
use std::alloc::{AllocError, Global};
use std::test::Fail;
use step_table::Mark;
use ticks::Ms;
use xfrac::{XFrac, whole};

// ---- rows, whose verdicts were worked out from the rules

/// Outcomes that no small script has. A verdict, then `i` for an instant at 1 s or `r` for a range from 0 to 2 s and the lines
/// behind the evaluation, and then the outcome: `vector` or `scalar`, and its series by their values from 0, or at the instant; or
/// a failure, `clash` with the labels that clash. A line feed is written `¶`.
const JUDGED: &str = r##"pass§r¶expect fail§rows
pass§r¶expect fail msg: too many rows§rows
expected a failure§r¶expect fail regex: .*§scalar¶{} 1
unexpected too many rows§r§rows
unexpected TooLong at 0§i¶1§long
unexpected WrongType at 4294967295§i§type
failure text too many rows§r¶expect fail regex: rows$¶expect fail msg: rows§rows
expected an info§r¶expect info§scalar¶{} 1
pass§i¶1§scalar¶{} 1¶x 2
expected a vector§i¶expect ordered¶x 1§scalar
scalar expected 1 got nothing§i¶1§scalar
scalar expected NaN got nothing§i¶NaN§scalar¶{} _
missing {}§r¶{} 1§scalar
pass§r¶x _x3§vector¶x _x3
x at 1000 expected 1 got nothing§r¶x _ 1§vector¶x _x3
x at 1000 expected 1 got nothing§i¶x 1§vector¶x _
pass§i¶y 1¶x 2§vector¶x 2¶y 1
pass§i¶x 1¶y 2§vector¶y 2¶x 1
pass§i¶y 1¶x 2¶z 3§vector¶z 3¶x 2¶y 1
y at 1000 expected 1 got 3§i¶y 1¶x 2§vector¶x 2¶y 3
missing y§i¶y 1¶x 2§vector¶x 2¶z 1
pass§i¶expect ordered¶y 1¶x 2¶z 3§vector¶y 1¶x 2¶z 3
pass§i¶y 1¶x 2¶z 3§vector¶y 1¶z 3¶x 2
another reason§i¶expect ordered¶y 1¶x 2¶z 3§vector¶y 1¶z 3¶x 2
z at 1000 expected 3 got 4§i¶expect ordered¶y 1¶x 2¶z 3§vector¶y 1¶x 2¶z 4
missing z§i¶expect ordered¶y 1¶x 2¶z 3§vector¶y 1¶x 2¶zz 3
pass§r¶expect fail msg: UnknownFunction fo at 17¶expect fail§unknown
failure text UnknownFunction fo at 17§r¶expect fail msg: UnknownFunction fo at 1§unknown
failure text UnknownFunction fo at 17§r¶expect fail msg: UnknownFunction foo at 17§unknown
pass§r¶expect fail msg: WrongType at 4294967295§type
failure text WrongType at 4294967295§r¶expect fail msg: WrongType at 42949672950§type
pass§r¶expect fail msg: irrational result§irrational
failure text irrational result§r¶expect fail msg: irrational results§irrational
pass§r¶expect fail msg: vector cannot contain metrics with the same labelset: {}§clash¶{}
pass§r¶expect fail msg: vector cannot contain metrics with the same labelset: x§clash¶x
pass§r¶expect fail msg: vector cannot contain metrics with the same labelset: a:b{l="v",m="w"}§clash¶a:b{l="v",m="w"}
pass§r¶expect fail msg: vector cannot contain metrics with the same labelset: {"x y","l m"="v",n="a\\b\"c"}§clash¶{"x y","l m"="v",n="a\\b\"c"}
failure text vector cannot contain metrics with the same labelset: x{l="v"}§r¶expect fail msg: vector cannot contain metrics with the same labelset: x{l="v"§clash¶x{l="v"}
failure text vector cannot contain metrics with the same labelset: x§r¶expect fail msg: vector cannot contain metrics with the same labelset: x{}§clash¶x
failure text vector cannot contain metrics with the same labelset: {l="v"}§r¶expect fail msg: vector cannot contain metrics with the same labelset: {"l"="v"}§clash¶{l="v"}
"##;

// ---- what a row says

/// The expectations of the lines behind an evaluation.
fn expectations(
    alloc: Global,
    heading: &str,
    lines: &str,
    searches: &mut Patterns,
) -> Result<Expectations, Fail>
    ensures { IfOk result (λ e. HasPatterns searches.new e) }
{
    let lines = lines.replace(alloc, "¶", "\n")?;
    let lines = lines.as_str();
    let text = format!(in alloc; "eval {heading} q\n{lines}")?;
    scripts_keep_their_patterns();
    match read(alloc, text.as_bytes(), searches) {
        Ok(script) => first_expectations(&script),
        Err(fault) => Err(Fail::from(fault)),
    }
}

/// What a script's first command expects.
fn first_expectations(script: &Script) -> Result<Expectations, Fail>
    ensures { (kept : PatternList) → KeepsPatterns kept script.now → IfOk result (λ e. HasPatterns kept e) }
{
    match script.commands.as_slice() {
        [command, ..] => match &command.what {
            What::Eval { expected, .. } => Ok(expected.copy()?),
            _ => Err("no evaluation".into()),
        },
        [] => Err("no command".into()),
    }
}

/// The series of lines, in a range of which 1 s is one step.
fn series(alloc: Global, range: &str, lines: &str) -> Result<Items<ResultSeries>, Fail> {
    let mut room = PatternRoom::new(alloc)?;
    let mut searches = Patterns::new(alloc, &mut room);
    let read = expectations(alloc, range, lines, &mut searches)?;
    match &read.result {
        Expected::Rows(rows) => Ok(rows.copy()?),
        Expected::Scalar(_) => Ok(Items::new(alloc)),
    }
}

/// An outcome that is no answer.
fn failure(alloc: Global, kind: &str) -> Result<Outcome, Fail> {
    match kind {
        "long" => Ok(Outcome::Refused(QueryRefusal::TooLong(0))),
        "type" => Ok(Outcome::Refused(QueryRefusal::WrongType(4294967295))),
        "unknown" => Ok(Outcome::Refused(QueryRefusal::UnknownFunction(
            17,
            Text::of(alloc, "fo")?,
        ))),
        "irrational" => Ok(Outcome::Failed {
            at: Ms(1000),
            mark: Mark::Irrational,
        }),
        _ => Ok(Outcome::TooManyRows { at: Ms(1000) }),
    }
}

/// A failure of rows that came to share the labels of the first one of some series.
fn clash(all: &Items<ResultSeries>) -> Result<Outcome, Fail> {
    match all.as_slice() {
        [first, ..] => Ok(Outcome::Failed {
            at: Ms(1000),
            mark: Mark::SameLabelset(first.labels.copy()?),
        }),
        [] => Err("no labels".into()),
    }
}

/// An outcome: its kind, and its series behind it.
fn outcome(alloc: Global, range: &str, text: &str) -> Result<Outcome, Fail> {
    let (kind, lines) = text.split_once("¶").unwrap_or((text, ""));
    if kind == "clash" {
        let line = format!(in alloc; "{lines} _x3")?;
        return clash(&series(alloc, range, line.as_str())?);
    }
    if kind != "vector" && kind != "scalar" {
        return failure(alloc, kind);
    }
    Ok(Outcome::Answer(Answer {
        scalar: kind == "scalar",
        series: series(alloc, range, lines)?,
        notes: Items::new(alloc),
    }))
}

// ---- what a judgement says

fn push(out: &mut Vec<u8>, text: &str) -> Result<(), AllocError> {
    out.extend_from_slice(text.as_bytes())
}

fn push_value(out: &mut Vec<u8>, value: &Option<XFrac>) -> Result<(), AllocError> {
    match value {
        Some(value) => write_number(value, out),
        None => push(out, "nothing"),
    }
}

fn push_values(
    out: &mut Vec<u8>,
    wanted: &Option<XFrac>,
    got: &Option<XFrac>,
) -> Result<(), AllocError> {
    push(out, " expected ")?;
    push_value(out, wanted)?;
    push(out, " got ")?;
    push_value(out, got)
}

fn push_outcome(
    out: &mut Vec<u8>,
    alloc: Global,
    text: &str,
    outcome: &Outcome,
) -> Result<(), AllocError> {
    push(out, text)?;
    append_outcome(alloc, outcome, out)
}

fn push_reason(
    out: &mut Vec<u8>,
    alloc: Global,
    reason: &Reason,
    o: &Outcome,
) -> Result<(), AllocError> {
    match reason {
        Reason::NoFailure => push(out, "expected a failure"),
        Reason::Unexpected => push_outcome(out, alloc, "unexpected ", o),
        Reason::FailureText => push_outcome(out, alloc, "failure text ", o),
        Reason::NoInfo => push(out, "expected an info"),
        Reason::NotVector => push(out, "expected a vector"),
        Reason::Missing(labels) => {
            push(out, "missing ")?;
            labels.write(out)
        }
        Reason::Differs {
            labels,
            at: Ms(at),
            wanted,
            got,
        } => {
            labels.write(out)?;
            push(out, format!(in alloc; " at {at}")?.as_str())?;
            push_values(out, wanted, got)
        }
        Reason::ScalarDiffers { wanted, got } => {
            push(out, "scalar")?;
            push_values(out, &Some(*wanted), got)
        }
        _ => push(out, "another reason"),
    }
}

fn verdict_text(alloc: Global, verdict: &Verdict, o: &Outcome) -> Result<Vec<u8>, AllocError> {
    let mut out = Vec::new(alloc);
    match verdict {
        Verdict::Pass => push(&mut out, "pass")?,
        Verdict::Fail(reason) => push_reason(&mut out, alloc, reason, o)?,
    }
    Ok(out)
}

/// What comes of a row: `i` for an instant at 1 s, or `r` for a range from 0 to 2 s, then the lines behind the evaluation, and
/// then the outcome.
fn judged(alloc: Global, lines: &str, got: &str) -> Result<Vec<u8>, Fail> {
    let (kind, lines) = lines.split_once("¶").unwrap_or((lines, ""));
    let instant = kind == "i";
    let (heading, range) = if instant {
        ("instant at 1", "range from 1 to 1 step 1")
    } else {
        ("range from 0 to 2 step 1", "range from 0 to 2 step 1")
    };
    let mut room = PatternRoom::new(alloc)?;
    let mut searches = Patterns::new(alloc, &mut room);
    let expected = expectations(alloc, heading, lines, &mut searches)?;
    let got = outcome(alloc, range, got)?;
    let verdict = judge(alloc, &expected, instant, &got, &mut searches)?;
    Ok(verdict_text(alloc, &verdict, &got)?)
}

/// Whether a row's verdict is the one that it tells.
fn is_judged(alloc: Global, row: &str) -> Result<bool, Fail> {
    let (wanted, row) = row.split_once("§").ok_or("no lines")?;
    let (lines, got) = row.split_once("§").ok_or("no outcome")?;
    let verdict = judged(alloc, lines, got)?;
    Ok(verdict.as_slice() == wanted.as_bytes())
}

#[test]
fn verdicts_are_those_of_the_rules(rt: HostRuntime) -> Result<(), Fail> {
    rows_hold(rt.alloc(), JUDGED, 40, is_judged)
}

fn numbered_labels(alloc: Global, k: u32) -> Result<Labels, Fail> {
    let mut labels = Labels::empty(alloc);
    labels.set("i", format!(in alloc; "{k}")?.as_str())?;
    Ok(labels)
}

/// So many series, with one point each, whose labels don't come in their order.
fn shuffled(alloc: Global, count: u32, stride: u32) -> Result<Items<ResultSeries>, Fail> {
    let mut all = Items::new(alloc);
    let mut k = 0u32;
    for _ in 0..count {
        k = k.wrapping_add(stride) % count;
        let mut points = Items::new(alloc);
        points.push(Point {
            at: Ms(0),
            value: whole(i64::from(k)),
        })?;
        all.push(ResultSeries {
            labels: numbered_labels(alloc, k)?,
            points,
        })?;
    }
    Ok(all)
}

/// What expects so many series, and nothing else.
fn expecting(alloc: Global, count: u32, stride: u32, ordered: bool) -> Result<Expectations, Fail>
    ensures { (kept : PatternList) → IfOk result (λ e. HasPatterns kept e) }
{
    Ok(Expectations {
        fail: Items::new(alloc),
        warn: Items::new(alloc),
        no_warn: false,
        info: Items::new(alloc),
        no_info: false,
        ordered,
        result: Expected::Rows(shuffled(alloc, count, stride)?),
    })
}

/// An answer of so many series in an order of its own.
fn answering(alloc: Global, count: u32) -> Result<Outcome, Fail> {
    Ok(Outcome::Answer(Answer {
        scalar: false,
        series: shuffled(alloc, count, 17_389)?,
        notes: Items::new(alloc),
    }))
}

#[test]
fn judges_40000_series(rt: HostRuntime) -> Result<(), Fail> {
    let expected = expecting(rt.alloc(), 40_000, 1, false)?;
    let got = answering(rt.alloc(), 40_000)?;
    let mut room = PatternRoom::new(rt.alloc())?;
    let mut searches = Patterns::new(rt.alloc(), &mut room);
    let verdict = judge(rt.alloc(), &expected, true, &got, &mut searches)?;
    assert_eq!(rt; verdict, Verdict::Pass);
    Ok(())
}

/// Both sides stand in one order, which isn't that of their labels, and are more than are compared in one round.
#[test]
fn judges_70000_series_in_order(rt: HostRuntime) -> Result<(), Fail> {
    let expected = expecting(rt.alloc(), 70_000, 17_389, true)?;
    let got = answering(rt.alloc(), 70_000)?;
    let mut room = PatternRoom::new(rt.alloc())?;
    let mut searches = Patterns::new(rt.alloc(), &mut room);
    let verdict = judge(rt.alloc(), &expected, true, &got, &mut searches)?;
    assert_eq!(rt; verdict, Verdict::Pass);
    Ok(())
}
