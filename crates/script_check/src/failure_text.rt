//! The text of an outcome that is no answer, told without memory.
ghost use Rattle.script_check.specs.OutcomeTexts.{function_text, mark_text, outcome_text, refused_text};
ghost use Rattle.script_check.specs.Verdicts.{PatternList, meets};
ghost use Rattle.label_set.specs.LabelText.{labels_text};
ghost use Rattle.std.specs.List.{list_all};
ghost use Rattle.std.specs.Prelude.{◌≡◌, ◌++◌, codes, decimal, true, IfSome, IsTrue};

use crate::label_pieces::are_labels;
use crate::outcome_text::{
    DUPLICATE_ONE_SIDE, DUPLICATE_RESULT, IMPLICIT_MANY_TO_ONE, SAME_LABELSET,
};
use crate::pieces::{behind, is_same};
use itoa::Buffer;
use label_set::Labels;
use promql_ast::QueryRefusal;
use promql_meaning::Outcome;
use script_read::Wanted;
use step_table::Mark;

// ---- refusals

/// What stands behind a function's name with a blank before it.
fn behind_word<'a>(text: &'a [u8], word: &[u8]) -> Option<&'a [u8]>
    ensures { IfSome result (λ rest. text.now ≡ (codes " " ++ word.now) ++ rest.now) }
{
    match behind(text, b" ") {
        Some(rest) => behind(rest, word),
        None => None,
    }
}

/// What stands behind the function that a refusal names, if it names one.
fn behind_function<'a>(text: &'a [u8], refusal: &QueryRefusal) -> Option<&'a [u8]>
    ensures { IfSome result (λ rest. text.now ≡ function_text refusal.now ++ rest.now) }
{
    match refusal {
        QueryRefusal::UnknownFunction(_, function) => {
            behind_word(text, function.as_str().as_bytes())
        }
        QueryRefusal::RefusedFunction(_, function) => {
            behind_word(text, function.as_str().as_bytes())
        }
        _ => Some(text),
    }
}

/// Whether a text tells a place. The place is written on the stack.
fn is_place(text: &[u8], place: u32) -> bool
    ensures { IsTrue result → text.now ≡ codes " at " ++ decimal place }
{
    let mut buffer = Buffer::new();
    match behind(text, b" at ") {
        Some(rest) => is_same(rest, buffer.format(place).as_bytes()),
        None => false,
    }
}

/// Whether a text is that of a query's refusal.
fn is_refusal(text: &[u8], refusal: &QueryRefusal) -> bool
    ensures { IsTrue result → text.now ≡ refused_text refusal.now }
{
    let Some(function_on) = behind(text, refusal.name().as_bytes()) else {
        return false;
    };
    match behind_function(function_on, refusal) {
        Some(rest) => is_place(rest, refusal.place()),
        None => false,
    }
}

// ---- marks

/// Whether a text is another one, and labels behind it.
fn is_labelled(text: &[u8], front: &str, labels: &Labels) -> bool
    ensures { IsTrue result → text.now ≡ front.now ++ labels_text labels.now }
{
    match behind(text, front.as_bytes()) {
        Some(rest) => are_labels(rest, labels),
        None => false,
    }
}

/// Whether a text is that of a failed evaluation's mark.
fn is_mark(text: &[u8], mark: &Mark) -> bool
    ensures { IsTrue result → text.now ≡ mark_text mark.now }
{
    match mark {
        Mark::Overflow => is_same(text, b"overflow"),
        Mark::Irrational => is_same(text, b"irrational result"),
        Mark::SameLabelset(labels) => is_labelled(text, SAME_LABELSET, labels),
        Mark::DuplicateOneSide(labels) => is_labelled(text, DUPLICATE_ONE_SIDE, labels),
        Mark::ImplicitManyToOne(labels) => is_labelled(text, IMPLICIT_MANY_TO_ONE, labels),
        Mark::DuplicateResult(labels) => is_labelled(text, DUPLICATE_RESULT, labels),
        Mark::OutOfCalendar => is_same(text, b"time outside the calendar"),
    }
}

// ---- outcomes

/// Whether a text is that of an outcome; an answer has none.
fn is_outcome(text: &[u8], outcome: &Outcome) -> bool
    ensures { IsTrue result → text.now ≡ outcome_text outcome.now }
{
    match outcome {
        Outcome::Answer(_) => text.is_empty(),
        Outcome::Refused(refusal) => is_refusal(text, refusal),
        Outcome::Failed { mark, .. } => is_mark(text, mark),
        Outcome::TooManyRows { .. } => is_same(text, b"too many rows"),
    }
}

/// Whether the text of an outcome is what a line wants. It isn't told of a line that searches.
fn is_met(outcome: &Outcome, line: &Wanted) -> bool
    ensures { IsTrue result → (kept : PatternList) → meets kept (outcome_text outcome.now) line.now ≡ true }
{
    match line {
        Wanted::Any => true,
        Wanted::Msg(message) => is_outcome(message.as_str().as_bytes(), outcome),
        Wanted::Regex(_) => false,
    }
}

/// Whether the text of an outcome is what each of some lines wants, so far as that is told without memory: of lines that search it
/// isn't.
pub fn meets_lines(outcome: &Outcome, lines: &[Wanted]) -> bool
    ensures { IsTrue result → (kept : PatternList) → list_all (meets kept (outcome_text outcome.now)) lines.now ≡ true }
{
    for line in lines {
        if !is_met(outcome, line) {
            return false;
        }
    }
    true
}
