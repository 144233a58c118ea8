//! What a call gives of its arguments.
ghost use Rattle.plain_eval.specs.Frames.{IsFramed};
ghost use Rattle.promql_meaning.specs.Buckets.{bucket_quantiles as quantiles_of_buckets};
ghost use Rattle.promql_meaning.specs.Givens.{step_of, with_scalar, words_of};
ghost use Rattle.promql_meaning.specs.Meaning.{called, completed, or_instant, step_at, words_at};
ghost use Rattle.promql_meaning.specs.Relabels.{label_joined as label_joined_of};
ghost use Rattle.std.specs.List.{AllByRecursion};
ghost use Rattle.std.specs.Prelude.{◌≡◌, drop, map, Some, true, slice_get, IfOk};

use crate::elements::{absent, applied, ranged, timestamps};
use crate::givens::{into_words, take_first, take_step, take_words};
use func_table::{Element, Func};
use label_set::{Items, PatternId, Text};
use match_rule::Patterns;
use promql_meaning::{Given, barren};
use std::alloc::{AllocError, Global};
use step_rules::{
    Replacing, as_scalar, bucket_quantiles, label_joined, label_replaced, marked, time_step,
    value_in,
};
use step_table::Step;
use ticks::Ms;

/// What a call gives at an instant, but for label_replace. The only error is want of memory.
pub fn called(alloc: Global, f: Func, arguments: Items<Given>, t: Ms) -> Result<Given, AllocError>
    requires framed { AllByRecursion (IsFramed t.0) arguments }
    requires other { f ≡ Func.LabelReplace → ⊥ }
    ensures { IfOk result (λ given. given ≡ called f arguments t.0) }
{
    let mut arguments = arguments;
    match f {
        Func::Element(f) => {
            let arguments = completed(alloc, f, arguments, t)?;
            Ok(Given::Vector(applied(alloc, f, arguments)?))
        }
        Func::Window(f) => Ok(Given::Vector(ranged(alloc, f, arguments, t)?)),
        Func::Absent | Func::AbsentOver => {
            let given = take_first(alloc, &mut arguments);
            Ok(Given::Vector(absent(alloc, given)?))
        }
        Func::HistogramQuantile => Ok(Given::Vector(quantiles(alloc, arguments)?)),
        Func::LabelJoin => Ok(Given::Vector(joined(alloc, arguments)?)),
        Func::Scalar => {
            let step = take_step(alloc, &mut arguments)?;
            Ok(Given::Scalar(as_scalar(alloc, step)?))
        }
        Func::Sort | Func::SortDesc | Func::Vector => {
            Ok(Given::Vector(take_step(alloc, &mut arguments)?))
        }
        Func::Time => Ok(Given::Scalar(time_step(alloc, t)?)),
        Func::Timestamp => {
            let given = take_first(alloc, &mut arguments);
            Ok(Given::Vector(timestamps(alloc, given, t)?))
        }
        Func::LabelReplace => Ok(Given::Vector(take_step(alloc, &mut arguments)?)),
    }
}

/// What an element function is called with: a calendar function that is given nothing takes the instant.
fn completed(
    alloc: Global,
    f: Element,
    arguments: Items<Given>,
    t: Ms,
) -> Result<Items<Given>, AllocError>
    ensures { IfOk result (λ all. all ≡ completed f arguments t.0) }
{
    match f {
        Element::Calendar(_) => or_instant(alloc, arguments, t),
        _ => Ok(arguments),
    }
}

#[tactic(auto, using(crate::proofs::Completed::none_is_instant, crate::proofs::Completed::some_are_kept))]
fn or_instant(alloc: Global, arguments: Items<Given>, t: Ms) -> Result<Items<Given>, AllocError>
    ensures { IfOk result (λ all. all ≡ or_instant arguments t.0) }
{
    let mut arguments = arguments;
    if arguments.as_slice().is_empty() {
        arguments.push(Given::Vector(time_step(alloc, t)?))?;
    }
    Ok(arguments)
}

#[tactic(auto, using(crate::proofs::Taken::second_is))]
fn quantiles(alloc: Global, arguments: Items<Given>) -> Result<Step, AllocError>
    ensures { IfOk result (λ step. step ≡ with_scalar quantiles_of_buckets (step_at arguments 0) (step_at arguments 1)) }
{
    let mut arguments = arguments;
    let quantile = take_step(alloc, &mut arguments)?;
    let step = take_step(alloc, &mut arguments)?;
    let step = marked(&quantile.marks, step)?;
    match value_in(&quantile) {
        Some(value) => bucket_quantiles(alloc, &value, &step),
        None => Ok(barren(alloc, step.marks)),
    }
}

/// label_join of its arguments.
#[tactic(auto, using(crate::proofs::Taken::second_is, crate::proofs::Taken::third_is, crate::proofs::Taken::behind_third))]
fn joined(alloc: Global, arguments: Items<Given>) -> Result<Step, AllocError>
    ensures { IfOk result (λ step. step ≡ label_joined_of (words_at arguments 1) (words_at arguments 2) (map words_of (drop 3 arguments)) (step_at arguments 0)) }
{
    let mut arguments = arguments;
    let step = take_step(alloc, &mut arguments)?;
    let target = take_words(alloc, &mut arguments)?;
    let separator = take_words(alloc, &mut arguments)?;
    let sources = all_words(alloc, arguments)?;
    label_joined(
        alloc,
        target.as_str(),
        separator.as_str(),
        sources.as_slice(),
        step,
    )
}

fn all_words(alloc: Global, arguments: Items<Given>) -> Result<Items<Text>, AllocError>
    ensures { IfOk result (λ texts. texts ≡ map words_of arguments) }
{
    let mut texts = Items::new(alloc);
    for given in arguments.into_vec() {
        texts.push(into_words(alloc, given)?)?;
    }
    Ok(texts)
}

/// What label_replace gives; the pattern is that of the fifth argument. The only error is want of memory.
#[tactic(auto, using(crate::proofs::Taken::second_is, crate::proofs::Taken::third_is, crate::proofs::Taken::fourth_is))]
pub fn replaced(
    alloc: Global,
    arguments: Items<Given>,
    pattern: PatternId,
    patterns: &mut Patterns,
    t: Ms,
) -> Result<Given, AllocError>
    requires { slice_get patterns.old pattern.0 ≡ Some (true, words_at arguments 4) }
    ensures given { IfOk result (λ given. given ≡ called Func.LabelReplace arguments t.0) }
    ensures same { patterns.new ≡ patterns.old }
{
    let mut arguments = arguments;
    let step = take_step(alloc, &mut arguments)?;
    let replacing = Replacing {
        target: take_words(alloc, &mut arguments)?,
        template: take_words(alloc, &mut arguments)?,
        source: take_words(alloc, &mut arguments)?,
        pattern,
    };
    Ok(Given::Vector(label_replaced(alloc, &replacing, step, patterns)?))
}
