//! Texts of numbers, labels, rows and marks, as the rows of tests have them.
use label_set::{Items, Labels, METRIC_NAME, Text};
use std::alloc::Global;
use std::test::Fail;
use step_table::{Mark, Marks, Note, Row, Step, Table};
use xfrac::{XFrac, of};

const BIG: i128 = 1_000_000_000_000_000_000_000_000_000_000;

fn fraction(text: &str) -> Result<XFrac, Fail> {
    let (n, d) = text.split_once('/').unwrap_or((text, "1"));
    let n: i128 = n.parse()?;
    let d: i128 = d.parse()?;
    if d <= 0 {
        return Err("no denominator")?;
    }
    Ok(of(n, d)?)
}

/// A whole number, a fraction n/d, `inf`, `-inf`, `nan`, or `big`, which is 10^30.
pub fn value(text: &str) -> Result<XFrac, Fail> {
    match text {
        "inf" => Ok(XFrac::PosInf),
        "-inf" => Ok(XFrac::NegInf),
        "nan" => Ok(XFrac::NaN),
        "big" => Ok(of(BIG, 1)?),
        _ => fraction(text),
    }
}

fn set_many(alloc: Global, labels: &mut Labels, count: u32) -> Result<(), Fail> {
    for i in 0..count {
        labels.set(format!(in alloc; "l{i}")?.as_str(), "v")?;
    }
    Ok(())
}

fn set_label(alloc: Global, labels: &mut Labels, word: &str) -> Result<(), Fail> {
    if let Some(count) = word.strip_prefix('#') {
        return set_many(alloc, labels, count.parse()?);
    }
    let (name, value) = word.split_once('=').unwrap_or((METRIC_NAME, word));
    labels.set(name, value)?;
    Ok(())
}

/// A metric's name and labels, parted by commas; `#N` is N labels from `l0` on.
fn labels(alloc: Global, text: &str) -> Result<Labels, Fail> {
    let mut labels = Labels::empty(alloc);
    for word in text.split(',') {
        if word != "" {
            set_label(alloc, &mut labels, word)?;
        }
    }
    Ok(labels)
}

fn mark_of(kind: &str, labels: Labels) -> Mark {
    match kind {
        "O" => Mark::Overflow,
        "I" => Mark::Irrational,
        "S" => Mark::SameLabelset(labels),
        "D" => Mark::DuplicateOneSide(labels),
        "M" => Mark::ImplicitManyToOne(labels),
        "C" => Mark::OutOfCalendar,
        _ => Mark::DuplicateResult(labels),
    }
}

/// A mark: the letter of its kind, and its labels.
fn mark(alloc: Global, text: &str) -> Result<Mark, Fail> {
    let (kind, names) = text.split_once(',').unwrap_or((text, ""));
    Ok(mark_of(kind, labels(alloc, names)?))
}

/// A row: its labels, and its value behind a colon.
fn row(alloc: Global, word: &str) -> Result<Row, Fail> {
    let (names, number) = word.split_once(':').ok_or("a row without a value")?;
    let value = value(number)?;
    Ok(Row {
        labels: labels(alloc, names)?,
        value,
    })
}

/// Names, parted by commas.
pub fn names(alloc: Global, text: &str) -> Result<Items<Text>, Fail> {
    let mut names = Items::new(alloc);
    for word in text.split(',') {
        if word == "" {
            continue;
        }
        names.push(Text::of(alloc, word)?)?;
    }
    Ok(names)
}

fn no_step(alloc: Global) -> Step {
    Step {
        table: Table {
            rows: Items::new(alloc),
        },
        marks: Marks {
            fatal: Items::new(alloc),
            notes: Items::new(alloc),
        },
    }
}

/// Adds a mark, or the note of a quantile behind `Q`; `-` is none.
fn add_mark(alloc: Global, marks: &mut Marks, word: &str) -> Result<(), Fail> {
    if word == "-" {
        return Ok(());
    }
    match word.strip_prefix('Q') {
        Some(number) => marks.notes.push(Note::QuantileRange(value(number)?))?,
        None => marks.fatal.push(mark(alloc, word)?)?,
    }
    Ok(())
}

/// Adds a row, or a mark behind `!`; `-` is none.
fn add_word(alloc: Global, step: &mut Step, word: &str) -> Result<(), Fail> {
    if word == "-" {
        return Ok(());
    }
    match word.strip_prefix('!') {
        Some(word) => add_mark(alloc, &mut step.marks, word),
        None => Ok(step.table.rows.push(row(alloc, word)?)?),
    }
}

/// A vector: rows, and marks behind `!`.
pub fn vector(alloc: Global, text: &str) -> Result<Step, Fail> {
    let mut step = no_step(alloc);
    for word in text.split(';') {
        add_word(alloc, &mut step, word)?;
    }
    Ok(step)
}

/// The step of rows and of marks.
fn wanted(alloc: Global, rows: &str, marks: &str) -> Result<Step, Fail> {
    let mut step = vector(alloc, rows)?;
    for word in marks.split(';') {
        add_mark(alloc, &mut step.marks, word)?;
    }
    Ok(step)
}

/// Whether a step has these rows and these marks, which stand behind a blank.
pub fn is_wanted(alloc: Global, answer: &Step, texts: &str) -> Result<bool, Fail> {
    let (rows, marks) = texts.split_once(' ').ok_or("no marks")?;
    let wanted = wanted(alloc, rows, marks)?;
    Ok(wanted.is_same(answer) && wanted == *answer)
}
