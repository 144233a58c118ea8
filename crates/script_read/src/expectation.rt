//! The lines behind an evaluation that say what is expected of it, its result aside.
ghost use Rattle.script_read.specs.Expects.{GrowsBy, RefusesPattern, alone, behind_mark, expect_of, expectation_added, expectation_of, filled, fits, has_no_result, is_expectation, is_marked, mode_wants, nothing_wanted, plain_worded, search_asked, search_on, search_tested, test_of, tested_worded, wanted_for, with_asked};
ghost use Rattle.script_read.specs.Outcomes.{MakesWith, SaysWith, then_give, then_try};
ghost use Rattle.script_read.specs.Views.{asked_seen, test_seen};
ghost use Rattle.std.specs.Prelude.{◌≡◌, false, true, option_map, IfErr, IfOk, MatchOption};

use crate::fault::LineFault;
use crate::line::{cut_word, skip_blanks};
use crate::script::{Expectations, Expected, Wanted};
use crate::word::text_in;
use label_set::{Items, Text};
use match_rule::Patterns;
use std::alloc::{AllocError, Global};

/// What a failure, a warning or an info note is tested by, as a line writes it.
#[derive(Clone, Copy)]
pub enum Test<'a> {
    Any,
    Message(&'a str),
    Search(&'a str),
}

/// What an expectation says.
#[derive(Clone, Copy)]
pub enum Asked<'a> {
    Ordered,
    Fail(Test<'a>),
    Warn(Test<'a>),
    Info(Test<'a>),
    NoWarn,
    NoInfo,
}

/// The mode of an evaluation, behind the word `eval`.
#[derive(Clone, Copy)]
pub enum Mode {
    Plain,
    Fail,
    Warn,
    Info,
    Ordered,
}

/// Whether a line is an expectation: its first word is `expect`, or one of the two of the older forms.
pub fn is_expectation(text: &[u8]) -> bool
    ensures { result ≡ is_expectation text.now }
{
    let word = cut_word(text).0;
    word == b"expect".as_slice()
        || word == b"expected_fail_message".as_slice()
        || word == b"expected_fail_regexp".as_slice()
}

/// A text to the end of a line, of at least one byte.
fn filled(text: &[u8]) -> Result<&str, LineFault>
    ensures { then_give result (λ filling. filling.now) ≡ filled text.now }
{
    if text.is_empty() {
        return Err(LineFault::Malformed);
    }
    text_in(text)
}

/// The text behind a mark at the front, if it stands there.
fn behind_mark<'a>(text: &'a [u8], mark: &[u8]) -> Option<&'a [u8]>
    ensures { MatchOption result (is_marked mark.now text.now ≡ false) (λ behind. (is_marked mark.now text.now ≡ true) × (behind.now ≡ behind_mark mark.now text.now)) }
{
    if text.len() < mark.len() {
        return None;
    }
    let (front, behind) = text.split_at(mark.len());
    if front == mark {
        Some(skip_blanks(behind))
    } else {
        None
    }
}

/// What stands behind `fail`, `warn` or `info`: nothing, or `msg:` or `regex:` and a text.
fn test_of(text: &[u8]) -> Result<Test<'_>, LineFault>
    ensures { then_give result test_seen ≡ test_of text.now }
{
    if text.is_empty() {
        return Ok(Test::Any);
    }
    if let Some(message) = behind_mark(text, b"msg:") {
        return Ok(Test::Message(filled(message)?));
    }
    match behind_mark(text, b"regex:") {
        Some(pattern) => Ok(Test::Search(filled(pattern)?)),
        None => Err(LineFault::Malformed),
    }
}

/// An expectation that nothing stands behind.
fn alone<'a>(asked: Asked<'a>, behind: &[u8]) -> Result<Asked<'a>, LineFault>
    ensures { then_give result asked_seen ≡ alone (asked_seen asked.entry) behind.now }
{
    if behind.is_empty() {
        Ok(asked)
    } else {
        Err(LineFault::Malformed)
    }
}

/// An expectation that stands alone behind `expect`, by its word.
fn plain_of<'a>(word: &[u8]) -> Option<Asked<'a>>
    ensures { option_map asked_seen result ≡ plain_worded word.now }
{
    if word == b"ordered".as_slice() {
        return Some(Asked::Ordered);
    }
    if word == b"no_warn".as_slice() {
        return Some(Asked::NoWarn);
    }
    if word == b"no_info".as_slice() {
        return Some(Asked::NoInfo);
    }
    None
}

/// An expectation that a test may follow, by its word.
fn tested_of<'a>(word: &[u8], test: Test<'a>) -> Result<Asked<'a>, LineFault>
    ensures { then_give result asked_seen ≡ tested_worded word.now (test_seen test.entry) }
{
    if word == b"fail".as_slice() {
        return Ok(Asked::Fail(test));
    }
    if word == b"warn".as_slice() {
        return Ok(Asked::Warn(test));
    }
    if word == b"info".as_slice() {
        return Ok(Asked::Info(test));
    }
    Err(LineFault::Malformed)
}

/// The expectation behind the word `expect`.
fn expect_of(text: &[u8]) -> Result<Asked<'_>, LineFault>
    ensures { then_give result asked_seen ≡ expect_of text.now }
{
    let (word, behind) = cut_word(text);
    match plain_of(word) {
        Some(asked) => alone(asked, behind),
        None => tested_of(word, test_of(behind)?),
    }
}

/// What an expectation says. The older forms are taken as `expect fail msg:` and `expect fail regex:`.
pub fn expectation_of(text: &[u8]) -> Result<Asked<'_>, LineFault>
    ensures { then_give result asked_seen ≡ expectation_of text.now }
{
    let (word, behind) = cut_word(text);
    if word == b"expect".as_slice() {
        return expect_of(behind);
    }
    if word == b"expected_fail_message".as_slice() {
        return Ok(Asked::Fail(Test::Message(filled(behind)?)));
    }
    if word == b"expected_fail_regexp".as_slice() {
        return Ok(Asked::Fail(Test::Search(filled(behind)?)));
    }
    Err(LineFault::Malformed)
}

fn has_no_result(expected: &Expected) -> bool
    ensures { result ≡ has_no_result expected.now }
{
    match expected {
        Expected::Scalar(_) => false,
        Expected::Rows(rows) => rows.as_slice().is_empty(),
    }
}

/// Whether an expectation may stand beside the earlier lines of its evaluation: a failure beside no result, warnings and
/// info notes not beside their absence, and an order in an instant alone.
fn fits(expected: &Expectations, instant: bool, asked: Asked<'_>) -> bool
    ensures { result ≡ fits expected.now instant (asked_seen asked.entry) }
{
    match asked {
        Asked::Ordered => instant,
        Asked::Fail(_) => has_no_result(&expected.result),
        Asked::Warn(_) => !expected.no_warn,
        Asked::Info(_) => !expected.no_info,
        Asked::NoWarn => expected.warn.as_slice().is_empty(),
        Asked::NoInfo => expected.info.as_slice().is_empty(),
    }
}

/// What a test wants, its pattern kept. `BadPattern` comes exactly where `regex` refuses the pattern or it is the 33rd;
/// after an error the patterns are as they were.
fn wanted_for(alloc: Global, test: Test<'_>, searches: &mut Patterns) -> Result<Wanted, LineFault>
    ensures said { SaysWith result searches.new (λ kept. wanted_for kept (test_seen test.entry)) }
    ensures refused { IfErr result (RefusesPattern searches.new (search_tested (test_seen test.entry))) }
    ensures grows { GrowsBy (search_tested (test_seen test.entry)) searches.old searches.new }
{
    match test {
        Test::Any => Ok(Wanted::Any),
        Test::Message(text) => Ok(Wanted::Msg(Text::of(alloc, text)?)),
        Test::Search(text) => Ok(Wanted::Regex(searches.search(text)?)),
    }
}

/// Adds an expectation to those of an evaluation.
fn add_asked(
    alloc: Global,
    expected: &mut Expectations,
    asked: Asked<'_>,
    searches: &mut Patterns,
) -> Result<(), LineFault>
    ensures added { MakesWith result expected.new searches.new (λ kept. with_asked kept expected.old (asked_seen asked.entry)) }
    ensures refused { IfErr result (RefusesPattern searches.new (search_asked (asked_seen asked.entry))) }
    ensures grows { GrowsBy (search_asked (asked_seen asked.entry)) searches.old searches.new }
{
    match asked {
        Asked::Ordered => expected.ordered = true,
        Asked::NoWarn => expected.no_warn = true,
        Asked::NoInfo => expected.no_info = true,
        Asked::Fail(test) => expected.fail.push(wanted_for(alloc, test, searches)?)?,
        Asked::Warn(test) => expected.warn.push(wanted_for(alloc, test, searches)?)?,
        Asked::Info(test) => expected.info.push(wanted_for(alloc, test, searches)?)?,
    }
    Ok(())
}

/// Adds what a line expects of an evaluation. `Malformed` comes where the line is no expectation or doesn't fit the earlier
/// ones, and before `BadPattern`.
pub fn add_expectation(
    alloc: Global,
    expected: &mut Expectations,
    instant: bool,
    text: &[u8],
    searches: &mut Patterns,
) -> Result<(), LineFault>
    ensures added { MakesWith result expected.new searches.new (λ kept. expectation_added kept expected.old instant text.now) }
    ensures refused { IfErr result (RefusesPattern searches.new (search_on text.now)) }
    ensures grows { GrowsBy (search_on text.now) searches.old searches.new }
{
    let asked = expectation_of(text)?;
    if !fits(expected, instant, asked) {
        return Err(LineFault::Malformed);
    }
    add_asked(alloc, expected, asked, searches)
}

/// No expectation, of an empty result. It takes no memory.
fn nothing_wanted(alloc: Global) -> Expectations
    ensures { result ≡ nothing_wanted }
{
    Expectations {
        fail: Items::new(alloc),
        warn: Items::new(alloc),
        no_warn: false,
        info: Items::new(alloc),
        no_info: false,
        ordered: false,
        result: Expected::Rows(Items::new(alloc)),
    }
}

/// What a mode expects: it stands for the line `expect` of its name.
pub fn expected_by(alloc: Global, mode: Mode) -> Result<Expectations, AllocError>
    ensures { IfOk result (λ expected. expected ≡ mode_wants mode) }
{
    let mut expected = nothing_wanted(alloc);
    match mode {
        Mode::Plain => {}
        Mode::Fail => expected.fail.push(Wanted::Any)?,
        Mode::Warn => expected.warn.push(Wanted::Any)?,
        Mode::Info => expected.info.push(Wanted::Any)?,
        Mode::Ordered => expected.ordered = true,
    }
    Ok(expected)
}
