//! Arguments taken one after another, by what they give.
ghost use Rattle.promql_meaning.specs.Givens.{step_of, words_of};
ghost use Rattle.promql_meaning.specs.Meaning.{argument, words_at};
ghost use Rattle.std.specs.Prelude.{◌≡◌, drop, IfOk};

use label_set::{Items, Text};
use promql_meaning::{Given, barren, no_marks};
use std::alloc::{AllocError, Global};
use step_table::Step;

/// The text of words. The only error is want of memory.
pub fn into_words(alloc: Global, given: Given) -> Result<Text, AllocError>
    ensures { IfOk result (λ text. text ≡ words_of given) }
{
    match given {
        Given::Words(text) => Ok(text),
        Given::Scalar(_) => Text::of(alloc, ""),
        Given::Vector(_) => Text::of(alloc, ""),
        Given::Selected(_) => Text::of(alloc, ""),
        Given::Windows(_) => Text::of(alloc, ""),
    }
}

/// The text of the argument of a number; a missing one has none.
pub fn words_at(arguments: &[Given], n: usize) -> &str
    ensures { result.now ≡ words_at arguments.now n }
{
    match arguments.get(n) {
        Some(Given::Words(text)) => text.as_str(),
        _ => "",
    }
}

/// Takes the first argument; a missing one is a vector without rows.
#[tactic(auto, using(crate::proofs::Taken::first_is))]
pub fn take_first(alloc: Global, arguments: &mut Items<Given>) -> Given
    ensures given { result ≡ argument arguments.old 0 }
    ensures rest { arguments.new ≡ drop 1 arguments.old }
{
    if arguments.as_slice().is_empty() {
        return Given::Vector(barren(alloc, no_marks(alloc)));
    }
    arguments.remove(0)
}

/// Takes the step of the first argument. The only error is want of memory.
pub fn take_step(alloc: Global, arguments: &mut Items<Given>) -> Result<Step, AllocError>
    ensures step { IfOk result (λ step. step ≡ step_of (argument arguments.old 0)) }
    ensures rest { arguments.new ≡ drop 1 arguments.old }
{
    let given = take_first(alloc, arguments);
    given.into_step(alloc)
}

/// Takes the text of the first argument. The only error is want of memory.
pub fn take_words(alloc: Global, arguments: &mut Items<Given>) -> Result<Text, AllocError>
    ensures text { IfOk result (λ text. text ≡ words_of (argument arguments.old 0)) }
    ensures rest { arguments.new ≡ drop 1 arguments.old }
{
    let given = take_first(alloc, arguments);
    into_words(alloc, given)
}
