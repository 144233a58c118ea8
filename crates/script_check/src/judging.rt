//! The verdict on an evaluation.
ghost use Rattle.script_check.specs.Verdicts.{AreKept, HasPatterns, PatternList, answer_reason, bare_reason, failure_reason, failure_text_holds, is_answer, is_scalar, meets, no_note, noted_holds, notes_in, notes_reason, reason_of, result_reason, some_note, verdict_of};
ghost use Rattle.script_read.specs.Lines.{is_empty};
ghost use Rattle.std.specs.List.{list_all, list_any};
ghost use Rattle.std.specs.Prelude.{◌≡◌, not, true, IfOk, IsTrue};

use crate::failure_text::meets_lines;
use crate::note_text::{has_texts, texts_of};
use crate::noted::agree_with_notes;
use crate::outcome_text::text_of;
use crate::series::{judge_scalar, judge_series, scalar_in};
use crate::tested::{are_bare, are_met, is_silent, meets_all};
use crate::verdict::{Reason, Verdict};
use label_set::Items;
use match_rule::Patterns;
use promql_meaning::{Answer, Outcome};
use script_read::{Expectations, Expected, Wanted};
use std::alloc::{AllocError, Global};

// ---- failures

fn is_answer(o: &Outcome) -> bool
    ensures { result ≡ is_answer o.now }
{
    match o {
        Outcome::Answer(_) => true,
        Outcome::Refused(_) => false,
        Outcome::Failed { .. } => false,
        Outcome::TooManyRows { .. } => false,
    }
}

fn judge_failure(e: &Expectations, o: &Outcome) -> Option<Reason>
    ensures { result ≡ failure_reason e.now o.now }
{
    let wanted = !e.fail.as_slice().is_empty();
    if is_answer(o) {
        if wanted {
            Some(Reason::NoFailure)
        } else {
            None
        }
    } else {
        if wanted {
            None
        } else {
            Some(Reason::Unexpected)
        }
    }
}

/// Whether the text of an outcome is what each `expect fail` wants. Where it is and none of them searches, it takes no memory; else
/// its only error is want of memory.
fn has_failure_text(
    alloc: Global,
    e: &Expectations,
    o: &Outcome,
    searches: &mut Patterns,
) -> Result<bool, AllocError>
    requires { AreKept searches.old e.now.fail }
    ensures answer { IfOk result (λ b. b ≡ failure_text_holds searches.old e.now o.now) }
    ensures same { searches.new ≡ searches.old }
{
    if meets_lines(o, e.fail.as_slice()) {
        return Ok(true);
    }
    let text = text_of(alloc, o)?;
    meets_all(text.as_slice(), e.fail.as_slice(), searches)
}

// ---- warnings and info notes

fn no_note(warnings: bool) -> Reason
    ensures { result ≡ no_note warnings }
{
    if warnings {
        Reason::NoWarning
    } else {
        Reason::NoInfo
    }
}

fn some_note(warnings: bool) -> Reason
    ensures { result ≡ some_note warnings }
{
    if warnings {
        Reason::Warned
    } else {
        Reason::Informed
    }
}

/// The texts of an outcome's warnings, or else of its info notes.
fn notes_in(alloc: Global, warnings: bool, o: &Outcome) -> Result<Items<Items<u8>>, AllocError>
    ensures { IfOk result (λ texts. texts ≡ notes_in warnings o.now) }
{
    match o {
        Outcome::Answer(answer) => texts_of(alloc, answer.notes.as_slice(), warnings),
        _ => Ok(Items::new(alloc)),
    }
}

/// Whether an outcome has a warning, or else an info note. It takes no memory.
fn has_notes(warnings: bool, o: &Outcome) -> bool
    ensures { result ≡ not (is_empty (notes_in warnings o.now)) }
{
    match o {
        Outcome::Answer(answer) => has_texts(answer.notes.as_slice(), warnings),
        _ => false,
    }
}

/// Whether lines on warnings, or else on info notes, agree with those of an outcome, so far as that is told without memory.
fn agree_on_notes(warnings: bool, lines: &[Wanted], o: &Outcome) -> bool
    ensures noted { IsTrue result → (kept : PatternList) → noted_holds kept lines.now (notes_in warnings o.now) ≡ true }
    ensures silent { IsTrue result → (kept : PatternList) → list_all (λ note. list_any (meets kept note) lines.now) (notes_in warnings o.now) ≡ true }
{
    match o {
        Outcome::Answer(answer) => agree_with_notes(warnings, answer.notes.as_slice(), lines),
        _ => false,
    }
}

/// Why lines that want nothing of a note but that there is one don't hold, if they don't.
fn bare_reason(warnings: bool, none: bool, noted: bool) -> Option<Reason>
    ensures { result ≡ bare_reason warnings none noted }
{
    if !noted {
        return Some(no_note(warnings));
    }
    if none {
        Some(some_note(warnings))
    } else {
        None
    }
}

/// The first reason among the lines on warnings, or else on info notes. Where there are no such lines, or none of them searches and
/// they hold, it takes no memory; else its only error is want of memory.
fn judge_notes(
    alloc: Global,
    warnings: bool,
    lines: &[Wanted],
    none: bool,
    o: &Outcome,
    searches: &mut Patterns,
) -> Result<Option<Reason>, AllocError>
    requires { AreKept searches.old lines.now }
    ensures reason { IfOk result (λ reason. reason ≡ notes_reason searches.old warnings lines.now none (notes_in warnings o.now)) }
    ensures same { searches.new ≡ searches.old }
{
    if lines.is_empty() {
        return Ok(if none && has_notes(warnings, o) {
            Some(some_note(warnings))
        } else {
            None
        });
    }
    if are_bare(lines) {
        return Ok(bare_reason(warnings, none, has_notes(warnings, o)));
    }
    if agree_on_notes(warnings, lines, o) {
        return Ok(bare_reason(warnings, none, true));
    }
    let texts = notes_in(alloc, warnings, o)?;
    if !are_met(texts.as_slice(), lines, searches)? {
        return Ok(Some(no_note(warnings)));
    }
    if !is_silent(texts.as_slice(), lines, none, searches)? {
        return Ok(Some(some_note(warnings)));
    }
    Ok(None)
}

// ---- results

fn is_scalar(instant: bool, answer: &Answer) -> bool
    ensures { result ≡ is_scalar instant answer.now }
{
    instant && answer.scalar
}

fn judge_answer(
    alloc: Global,
    instant: bool,
    ordered: bool,
    expected: &Expected,
    answer: &Answer,
) -> Result<Option<Reason>, AllocError>
    ensures { IfOk result (λ reason. reason ≡ answer_reason instant ordered expected.now answer.now) }
{
    match expected {
        Expected::Scalar(value) => {
            if is_scalar(instant, answer) {
                Ok(judge_scalar(*value, scalar_in(answer.series.as_slice())))
            } else {
                Ok(Some(Reason::NotScalar))
            }
        }
        Expected::Rows(rows) => {
            if is_scalar(instant, answer) {
                return Ok(Some(Reason::NotVector));
            }
            judge_series(alloc, ordered, rows.as_slice(), answer.series.as_slice())
        }
    }
}

fn judge_result(
    alloc: Global,
    e: &Expectations,
    instant: bool,
    o: &Outcome,
) -> Result<Option<Reason>, AllocError>
    ensures { IfOk result (λ reason. reason ≡ result_reason e.now instant o.now) }
{
    match o {
        Outcome::Answer(answer) => judge_answer(alloc, instant, e.ordered, &e.result, answer),
        _ => Ok(None),
    }
}

// ---- the verdict

/// The first reason why an outcome isn't what is expected, if there is one. The only error is want of memory.
fn first_reason(
    alloc: Global,
    e: &Expectations,
    instant: bool,
    o: &Outcome,
    searches: &mut Patterns,
) -> Result<Option<Reason>, AllocError>
    requires { HasPatterns searches.old e.now }
    ensures reason { IfOk result (λ reason. reason ≡ reason_of searches.old e.now instant o.now) }
    ensures same { searches.new ≡ searches.old }
{
    if let Some(reason) = judge_failure(e, o) {
        return Ok(Some(reason));
    }
    if !has_failure_text(alloc, e, o, searches)? {
        return Ok(Some(Reason::FailureText));
    }
    let warned = judge_notes(alloc, true, e.warn.as_slice(), e.no_warn, o, searches)?;
    if let Some(reason) = warned {
        return Ok(Some(reason));
    }
    let informed = judge_notes(alloc, false, e.info.as_slice(), e.no_info, o, searches)?;
    if let Some(reason) = informed {
        return Ok(Some(reason));
    }
    judge_result(alloc, e, instant, o)
}

/// Whether the outcome of an evaluation is what is expected of it, and else the first reason why it isn't. `instant` tells that
/// it was evaluated at one instant, and `searches` keeps the patterns that the expectations name. The only error is want of
/// memory, which lines that search a text take, and the finding of a reason. A pass without such lines takes none, where notes stand
/// in their order and no labels twice on a side, as in an answer and in a script.
pub fn judge(
    alloc: Global,
    e: &Expectations,
    instant: bool,
    o: &Outcome,
    searches: &mut Patterns,
) -> Result<Verdict, AllocError>
    requires { HasPatterns searches.old e.now }
    ensures verdict { IfOk result (λ v. v ≡ verdict_of searches.old e.now instant o.now) }
    ensures same { searches.new ≡ searches.old }
{
    match first_reason(alloc, e, instant, o, searches)? {
        Some(reason) => Ok(Verdict::Fail(reason)),
        None => Ok(Verdict::Pass),
    }
}
