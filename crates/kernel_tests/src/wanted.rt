//! What a line wants: series with their points, or the instant and the mark at which the evaluation ends.
use label_set::{Grouping, Items};
use promql_meaning::{Outcome, Point, ResultSeries};
use std::alloc::Global;
use std::test::Fail;
use step_rules::ByValue;
use step_table::Mark;
use ticks::Ms;
use written_steps::{labels, names, steps, value};

/// The order of a text: `labels`, or `up` or `down` with the names by which series are grouped behind a blank.
pub fn order(alloc: Global, text: &str) -> Result<Option<ByValue>, Fail> {
    let (word, by) = text.split_once(' ').unwrap_or((text, ""));
    if word == "labels" {
        return Ok(None);
    }
    Ok(Some(ByValue {
        down: word == "down",
        by: Grouping {
            without: false,
            names: names(alloc, by)?,
        },
    }))
}

/// A point: its instant, and its value behind a colon.
fn point(text: &str) -> Result<Point, Fail> {
    let (at, number) = text.split_once(':').ok_or("a point without a value")?;
    Ok(Point {
        at: Ms(at.parse::<i64>()?),
        value: value(number)?,
    })
}

/// A series: its labels, and its points behind blanks.
fn one_series(alloc: Global, text: &str) -> Result<ResultSeries, Fail> {
    let (names, words) = text.split_once(' ').ok_or("a series without points")?;
    let mut points = Items::new(alloc);
    for word in words.split(' ') {
        let Point { at, value } = point(word)?;
        points.push(Point { at, value })?;
    }
    Ok(ResultSeries {
        labels: labels(alloc, names)?,
        points,
    })
}

/// Series, parted by semicolons; `-` has none.
fn series(alloc: Global, text: &str) -> Result<Items<ResultSeries>, Fail> {
    let mut series = Items::new(alloc);
    if text == "-" {
        return Ok(series);
    }
    for one in text.split(';') {
        series.push(one_series(alloc, one)?)?;
    }
    Ok(series)
}

/// Whether the step of a text is at this instant, and this is its first mark.
fn stops_at(alloc: Global, at: Ms, mark: &Mark, text: &str) -> Result<bool, Fail> {
    let wanted = steps(alloc, text)?;
    match wanted.as_slice() {
        [(instant, step), ..] => match step.marks.fatal.as_slice() {
            [first, ..] => Ok(instant.0 == at.0 && first.is_same(mark)),
            [] => Ok(false),
        },
        [] => Ok(false),
    }
}

/// Whether an outcome is that of a text: the series, or, behind `stop `, a step with the instant and the mark.
pub fn is_wanted(alloc: Global, outcome: &Outcome, text: &str) -> Result<bool, Fail> {
    match (outcome, text.strip_prefix("stop ")) {
        (Outcome::Answer(answer), None) => Ok(answer.series == series(alloc, text)?),
        (Outcome::Failed { at, mark }, Some(step)) => stops_at(alloc, *at, mark, step),
        _ => Ok(false),
    }
}
