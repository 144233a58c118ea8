//! The lines that are commands.
ghost use Rattle.script_read.specs.Commands.{Clearing, after_word, eval_heading, eval_mode, heading_of, if_alone, instant_heading, load_heading, moments_from, range_heading, range_of};
ghost use Rattle.script_read.specs.Expects.{filled};
ghost use Rattle.script_read.specs.Moments.{grid_taken};
ghost use Rattle.script_read.specs.Outcomes.{then_give};
ghost use Rattle.script_read.specs.Views.{evaluation_seen, heading_seen};
ghost use Rattle.ticks.specs.Moments.{moments_in};
ghost use Rattle.std.specs.Prelude.{◌≡◌, false};

use crate::expectation::Mode;
use crate::fault::LineFault;
use crate::line::cut_word;
use crate::word::{read_interval, read_time, text_in};
use ticks::{Grid, Ms};

/// What a command's line asks for.
#[derive(Clone, Copy)]
pub enum Heading<'a> {
    Clear,
    Load(Ms),
    Eval(Evaluation<'a>),
}

/// What the line of an evaluation says.
#[derive(Clone, Copy)]
pub struct Evaluation<'a> {
    pub mode: Mode,
    pub grid: Grid,
    pub instant: bool,
    pub text: &'a str,
}

/// A grid that is taken.
fn grid_of(start: Ms, end: Ms, step: Ms) -> Result<Grid, LineFault>
    ensures { then_give result (λ grid. moments_in grid false) ≡ grid_taken (moments_from start end step) }
{
    match Grid::of(start, end, step) {
        Ok(grid) => Ok(grid),
        Err(_) => Err(LineFault::Malformed),
    }
}

/// What stands behind a word that has to stand at the front of a text.
fn after_word<'a>(text: &'a [u8], word: &[u8]) -> Result<&'a [u8], LineFault>
    ensures { then_give result (λ behind. behind.now) ≡ after_word word.now text.now }
{
    let (first, behind) = cut_word(text);
    if first == word {
        Ok(behind)
    } else {
        Err(LineFault::Malformed)
    }
}

/// The expression of an evaluation: the rest of the line, of at least one byte.
fn expression(text: &[u8]) -> Result<&str, LineFault>
    ensures { then_give result (λ expression. expression.now) ≡ filled text.now }
{
    if text.is_empty() {
        return Err(LineFault::Malformed);
    }
    text_in(text)
}

/// The mode that a word names, if it begins an evaluation.
fn eval_mode(word: &[u8]) -> Option<Mode>
    ensures { result ≡ eval_mode word.now }
{
    if word == b"eval".as_slice() {
        return Some(Mode::Plain);
    }
    if word == b"eval_fail".as_slice() {
        return Some(Mode::Fail);
    }
    if word == b"eval_warn".as_slice() {
        return Some(Mode::Warn);
    }
    if word == b"eval_info".as_slice() {
        return Some(Mode::Info);
    }
    if word == b"eval_ordered".as_slice() {
        return Some(Mode::Ordered);
    }
    None
}

/// `at <time> <expr>`, behind `instant`. The grid has this one instant.
fn instant_of(mode: Mode, text: &[u8]) -> Result<Evaluation<'_>, LineFault>
    ensures { then_give result evaluation_seen ≡ instant_heading mode text.now }
{
    let (time, behind) = cut_word(after_word(text, b"at")?);
    let at = read_time(time)?;
    Ok(Evaluation {
        mode,
        grid: grid_of(at, at, Ms(1))?,
        instant: true,
        text: expression(behind)?,
    })
}

/// `from <time> to <time> step <duration> <expr>`, behind `range`.
fn range_of(mode: Mode, text: &[u8]) -> Result<Evaluation<'_>, LineFault>
    ensures { then_give result evaluation_seen ≡ range_heading mode text.now }
{
    let (time, behind) = cut_word(after_word(text, b"from")?);
    let start = read_time(time)?;
    let (time, behind) = cut_word(after_word(behind, b"to")?);
    let end = read_time(time)?;
    let (duration, behind) = cut_word(after_word(behind, b"step")?);
    let step = read_interval(duration)?;
    Ok(Evaluation {
        mode,
        grid: grid_of(start, end, step)?,
        instant: false,
        text: expression(behind)?,
    })
}

/// What stands behind `range`. The mode `ordered` is for instants alone.
fn range_by(mode: Mode, text: &[u8]) -> Result<Evaluation<'_>, LineFault>
    ensures { then_give result evaluation_seen ≡ range_of mode text.now }
{
    match mode {
        Mode::Ordered => Err(LineFault::Malformed),
        _ => range_of(mode, text),
    }
}

/// An evaluation behind its first word.
fn evaluation_of(mode: Mode, text: &[u8]) -> Result<Evaluation<'_>, LineFault>
    ensures { then_give result evaluation_seen ≡ eval_heading mode text.now }
{
    let (word, behind) = cut_word(text);
    if word == b"instant".as_slice() {
        return instant_of(mode, behind);
    }
    if word == b"range".as_slice() {
        return range_by(mode, behind);
    }
    Err(LineFault::Malformed)
}

/// `load <duration>`, behind its first word.
fn load_of<'a>(text: &'a [u8]) -> Result<Heading<'a>, LineFault>
    ensures { then_give result heading_seen ≡ load_heading text.now }
{
    let (duration, behind) = cut_word(text);
    let interval = read_interval(duration)?;
    if behind.is_empty() {
        Ok(Heading::Load(interval))
    } else {
        Err(LineFault::Malformed)
    }
}

/// `clear`, behind its first word.
fn clear_of<'a>(text: &'a [u8]) -> Result<Heading<'a>, LineFault>
    ensures { then_give result heading_seen ≡ if_alone Clearing text.now }
{
    if text.is_empty() {
        Ok(Heading::Clear)
    } else {
        Err(LineFault::Malformed)
    }
}

/// What the line of a command asks for. `NativeHistogram` comes exactly where its first word is `load_with_nhcb`,
/// `Malformed` where it is no command.
pub fn heading_of(text: &[u8]) -> Result<Heading<'_>, LineFault>
    ensures { then_give result heading_seen ≡ heading_of text.now }
{
    let (word, behind) = cut_word(text);
    if word == b"clear".as_slice() {
        return clear_of(behind);
    }
    if word == b"load".as_slice() {
        return load_of(behind);
    }
    if word == b"load_with_nhcb".as_slice() {
        return Err(LineFault::NativeHistogram);
    }
    match eval_mode(word) {
        Some(mode) => Ok(Heading::Eval(evaluation_of(mode, behind)?)),
        None => Err(LineFault::Malformed),
    }
}
