//! Texts of numbers, labels, marks and notes, as the rows of tests have them.
use label_set::{Items, LabelRefusal, Labels, METRIC_NAME};
use std::alloc::{AllocError, Global};
use std::test::Fail;
use step_table::{Mark, Marks, Note};
use xfrac::{XFrac, whole};

/// Fails, with the line, at the first line that tells something else than what stands behind its arrow.
pub fn lines_hold<F: Fn(Global, &str) -> Result<String, LabelRefusal>>(
    alloc: Global,
    lines: &str,
    told: F,
) -> Result<(), Fail>
    requires { F.IsAlwaysCallable told }
{
    for line in lines.split('\n') {
        let (calls, wanted) = line.split_once(" > ").ok_or("a line without an arrow")?;
        if told(alloc, calls)?.as_str() != wanted {
            return Err(Fail::new(line));
        }
    }
    Ok(())
}

/// The labels of a metric's name alone.
pub fn named(alloc: Global, name: &str) -> Result<Labels, LabelRefusal> {
    let mut labels = Labels::empty(alloc);
    labels.put(METRIC_NAME, name)?;
    Ok(labels)
}

/// The number of a word, else 0.
pub fn number(word: &str) -> i64 {
    word.parse::<i64>().unwrap_or(0)
}

/// Which whole number below 100 a value is, else -1.
pub fn digits(value: &XFrac) -> i64 {
    for n in 0..100 {
        if *value == whole(n) {
            return n;
        }
    }
    -1
}

/// The mark of an overflow for `O`, the note of buckets for `B`, of marks and notes that are otherwise empty.
pub fn marks(alloc: Global, word: &str) -> Result<Marks, AllocError> {
    let mut fatal = Items::new(alloc);
    let mut notes = Items::new(alloc);
    match word {
        "O" => fatal.push(Mark::Overflow)?,
        "I" => fatal.push(Mark::Irrational)?,
        "B" => notes.push(Note::FixedBuckets)?,
        _ => {}
    }
    Ok(Marks { fatal, notes })
}

/// The marks as letters behind `!`, and how many notes there are behind `?`.
pub fn write_marks(alloc: Global, text: &mut String, marks: &Marks) -> Result<(), AllocError> {
    for mark in marks.fatal.as_slice() {
        let letter = match mark {
            Mark::Overflow => "!O",
            Mark::Irrational => "!I",
            _ => "!",
        };
        text.push_str(letter)?;
    }
    let notes = marks.notes.as_slice().len();
    if notes > 0 {
        text.push_str(format!(in alloc; "?{notes}")?.as_str())?;
    }
    Ok(())
}
