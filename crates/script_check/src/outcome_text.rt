//! The texts of outcomes that are no answers.
ghost use Rattle.script_check.specs.OutcomeTexts.{function_text, mark_text, outcome_text, refused_text};
ghost use Rattle.std.specs.Prelude.{◌≡◌, ◌++◌, codes, decimal, string_bytes, IfOk, OnErr, OnOk};

use crate::joined::append_labelled;
use label_set::Items;
use promql_ast::QueryRefusal;
use promql_meaning::Outcome;
use std::alloc::{AllocError, Global};
use step_table::Mark;

/// What stands before the labels that two rows have.
pub const SAME_LABELSET: &str = "vector cannot contain metrics with the same labelset: ";

/// What stands before the labels under which a side that must have one row has two.
pub const DUPLICATE_ONE_SIDE: &str = "found duplicate series for the match group ";

/// What stands before the labels under which several rows match one though no side was said to be the many.
pub const IMPLICIT_MANY_TO_ONE: &str = "many-to-one matching must be explicit for ";

/// What stands before the labels that two rows of a match would have.
pub const DUPLICATE_RESULT: &str = "multiple matches for labels ";

/// Appends the function that a refusal names, with a blank before it, if it names one.
fn append_function(refusal: &QueryRefusal, into: &mut Vec<u8>) -> Result<(), AllocError>
    ensures { OnOk result (into.new.items ≡ into.old.items ++ function_text refusal.now) }
{
    match refusal {
        QueryRefusal::UnknownFunction(_, function) => {
            into.extend_from_slice(b" ")?;
            into.extend_from_slice(function.as_str().as_bytes())
        }
        QueryRefusal::RefusedFunction(_, function) => {
            into.extend_from_slice(b" ")?;
            into.extend_from_slice(function.as_str().as_bytes())
        }
        _ => Ok(()),
    }
}

fn place_text(alloc: Global, place: u32) -> Result<String, AllocError>
    ensures { IfOk result (λ text. string_bytes text ≡ codes " at " ++ decimal place) }
{
    format!(in alloc; " at {place}")
}

/// Appends the text of a query's refusal.
fn append_refusal(
    alloc: Global,
    refusal: &QueryRefusal,
    into: &mut Vec<u8>,
) -> Result<(), AllocError>
    ensures { OnOk result (into.new.items ≡ into.old.items ++ refused_text refusal.now) }
{
    into.extend_from_slice(refusal.name().as_bytes())?;
    append_function(refusal, into)?;
    let place = place_text(alloc, refusal.place())?;
    into.extend_from_slice(place.as_bytes())
}

/// Appends the text of a failed evaluation's mark.
fn append_mark(mark: &Mark, into: &mut Vec<u8>) -> Result<(), AllocError>
    ensures { OnOk result (into.new.items ≡ into.old.items ++ mark_text mark.now) }
{
    match mark {
        Mark::Overflow => into.extend_from_slice(b"overflow"),
        Mark::Irrational => into.extend_from_slice(b"irrational result"),
        Mark::SameLabelset(labels) => append_labelled(SAME_LABELSET, labels, into),
        Mark::DuplicateOneSide(labels) => append_labelled(DUPLICATE_ONE_SIDE, labels, into),
        Mark::ImplicitManyToOne(labels) => append_labelled(IMPLICIT_MANY_TO_ONE, labels, into),
        Mark::DuplicateResult(labels) => append_labelled(DUPLICATE_RESULT, labels, into),
        Mark::OutOfCalendar => into.extend_from_slice(b"time outside the calendar"),
    }
}

fn append_told(alloc: Global, outcome: &Outcome, into: &mut Vec<u8>) -> Result<(), AllocError>
    ensures { OnOk result (into.new.items ≡ into.old.items ++ outcome_text outcome.now) }
{
    match outcome {
        Outcome::Answer(_) => Ok(()),
        Outcome::Refused(refusal) => append_refusal(alloc, refusal, into),
        Outcome::Failed { mark, .. } => append_mark(mark, into),
        Outcome::TooManyRows { .. } => into.extend_from_slice(b"too many rows"),
    }
}

/// The text of an outcome that is no answer; an answer has none. The only error is want of memory.
pub fn text_of(alloc: Global, outcome: &Outcome) -> Result<Items<u8>, AllocError>
    ensures { IfOk result (λ text. text ≡ outcome_text outcome.now) }
{
    let mut text = Vec::new(alloc);
    append_told(alloc, outcome, &mut text)?;
    Ok(Items::from_vec(text))
}

/// Appends the text of an outcome that is no answer; of an answer nothing. The only error is want of memory; then nothing is
/// appended.
pub fn append_outcome(
    alloc: Global,
    outcome: &Outcome,
    into: &mut Vec<u8>,
) -> Result<(), AllocError>
    ensures ok { OnOk result (into.new.items ≡ into.old.items ++ outcome_text outcome.now) }
    ensures err { OnErr result (into.new.items ≡ into.old.items) }
{
    let text = text_of(alloc, outcome)?;
    into.extend_from_slice(text.as_slice())
}
