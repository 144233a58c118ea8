//! A step is an instant in milliseconds, its rows and its marks, as `10 a,x=1:1;b:2!O~2`.
use crate::words::{mark, row, value};
use label_set::Items;
use std::alloc::Global;
use std::test::Fail;
use step_table::{Marks, Note, Row, Step, Table};
use ticks::Ms;

/// The rows of a word, parted by semicolons, in their order; `-` has none.
fn rows(alloc: Global, word: &str) -> Result<Items<Row>, Fail> {
    let mut rows = Items::new(alloc);
    for text in word.split(';') {
        if text != "-" {
            rows.push(row(alloc, text)?)?;
        }
    }
    Ok(rows)
}

/// The fatal marks of a word, each behind `!`.
fn marks(alloc: Global, word: &str) -> Result<Marks, Fail> {
    let mut fatal = Items::new(alloc);
    for text in word.split('!') {
        if text != "" {
            fatal.push(mark(alloc, text)?)?;
        }
    }
    Ok(Marks {
        fatal,
        notes: Items::new(alloc),
    })
}

/// Rows, and marks behind `!`.
fn table(alloc: Global, text: &str) -> Result<Step, Fail> {
    let (row_words, mark_words) = text.split_once('!').unwrap_or((text, ""));
    let rows = rows(alloc, row_words)?;
    let marks = marks(alloc, mark_words)?;
    Ok(Step {
        table: Table { rows },
        marks,
    })
}

/// Rows, marks, and behind `~` the parameter of a quantile that lies outside 0 and 1, which is noted.
fn noted(alloc: Global, text: &str) -> Result<Step, Fail> {
    let (plain, number) = text.split_once('~').unwrap_or((text, ""));
    let mut step = table(alloc, plain)?;
    if number != "" {
        step.marks.notes.push(Note::QuantileRange(value(number)?))?;
    }
    Ok(step)
}

/// An instant and a step.
fn step(alloc: Global, text: &str) -> Result<(Ms, Step), Fail> {
    let (at, rest) = text.split_once(' ').ok_or("a step without rows")?;
    let at: i64 = at.parse()?;
    Ok((Ms(at), noted(alloc, rest)?))
}

/// The steps of a text, parted by ` | `; `same` has none.
pub fn steps(alloc: Global, text: &str) -> Result<Items<(Ms, Step)>, Fail> {
    let mut steps = Items::new(alloc);
    if text == "same" {
        return Ok(steps);
    }
    for one in text.split(" | ") {
        steps.push(step(alloc, one)?)?;
    }
    Ok(steps)
}
