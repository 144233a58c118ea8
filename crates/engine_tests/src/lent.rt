//! Whether an exchange lends what the lines of a table say. A line is a kind of cells, a metric, and the steps that are lent of them,
//! parted by ` | `. A step of rows is its instant and its rows, as `10 a,x=1:2;b:3`, and one of windows its instant and their series, as
//! `10 a,x=1 0=1 10=2;b 5=3`.
ghost use Rattle.std.specs.Prelude.{◌≤◌, ◌<◌, length};

use exchange::Exchange;
use std::alloc::Global;
use std::test::Fail;
use step_batch::Windows;
use ticks::Ms;
use written_engines::sample;
use written_steps::{are_lent, labels, steps};
use xfrac::{Held, XFrac};

/// The kind of cells, the metric, and the steps of a line.
pub fn fields(line: &str) -> Result<(&str, &str, &str), Fail> {
    let (word, rest) = line.split_once(" > ").ok_or("no kind")?;
    let (metric, wanted) = rest.split_once(" > ").ok_or("no metric")?;
    Ok((word, metric, wanted))
}

fn is_sample(text: &str, at: Ms, value: &XFrac) -> Result<bool, Fail> {
    let (time, held) = sample(text)?;
    Ok(time.0 == at.0 && held == Held::Value(*value))
}

/// Whether these are the samples of a text, parted by blanks.
fn are_samples(text: &str, times: &[Ms], values: &[XFrac]) -> Result<bool, Fail> {
    let mut k = 0usize;
    for word in text.split(' ') {
        if k >= times.len() || k >= values.len() {
            return Ok(false);
        }
        if !is_sample(word, times[k], &values[k])? {
            return Ok(false);
        }
        k += 1;
    }
    Ok(k == times.len())
}

/// Whether the window at a place is that of a series.
fn is_window(alloc: Global, windows: &Windows<'_>, i: usize, series: &str) -> Result<bool, Fail> {
    let (names, samples) = series.split_once(' ').ok_or("no samples")?;
    let labels = labels(alloc, names)?;
    if i >= windows.len() || !windows.labels(i).is_same(&labels) {
        return Ok(false);
    }
    are_samples(samples, windows.times(i), windows.values(i))
}

/// Whether the windows that are lent are those of a step, in their order, without marks.
fn are_windows(alloc: Global, windows: &Windows<'_>, step: &str) -> Result<bool, Fail> {
    let (at, all) = step.split_once(' ').ok_or("no windows")?;
    let at: i64 = at.parse()?;
    let mut count = 0usize;
    for series in all.split(';') {
        if !is_window(alloc, windows, count, series)? {
            return Ok(false);
        }
        count = count.saturating_add(1);
    }
    let calm = windows.marks().fatal.as_slice().is_empty();
    Ok(count == windows.len() && at == windows.at().0 && calm)
}

/// Whether a gather lends the step of its line at a place, and no other.
fn is_wanted(
    alloc: Global,
    exchange: &Exchange,
    k: usize,
    line: &str,
    i: usize,
) -> Result<bool, Fail>
    requires { k < length exchange.now.places }
{
    let (word, _, wanted) = fields(line)?;
    let step = wanted.split(" | ").nth(i).ok_or("no such step")?;
    if word == "windows" {
        return are_windows(alloc, &exchange.lend_windows(k), step);
    }
    let wanted = steps(alloc, step)?;
    Ok(are_lent(&exchange.lend(k), wanted.as_slice()))
}

/// Fails, with the line, where one of the gathers doesn't lend the step of its line at a place.
pub fn are_wanted(
    alloc: Global,
    exchange: &Exchange,
    lines: &str,
    count: usize,
    i: usize,
) -> Result<(), Fail>
    requires { count ≤ length exchange.now.places }
{
    let mut k = 0usize;
    for line in lines.split('\n') {
        if k >= count {
            return Ok(());
        }
        if !is_wanted(alloc, exchange, k, line, i)? {
            return Err(Fail::new(line));
        }
        k += 1;
    }
    Ok(())
}
