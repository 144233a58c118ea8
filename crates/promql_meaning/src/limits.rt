//! Labels that are made anew, within the limits of labels.
ghost use Rattle.label_set.specs.Labels.{set_refusal, with_value, without};
ghost use Rattle.promql_meaning.specs.Countings.{with_label};
ghost use Rattle.std.specs.Prelude.{◌≡◌, ◌∷◌, [], false, true, is_some, IfOk, MatchBool};

use label_set::{Items, Labels, Text};
use std::alloc::{AllocError, Global};
use step_table::not_taken;

/// The labels with a value under a name, in place of the one that is there; an empty value takes it out. There are none
/// where the name is empty or they would pass the limits of labels. The only error is want of memory.
pub fn labels_with(
    alloc: Global,
    labels: Labels,
    name: &str,
    value: &str,
) -> Result<Option<Labels>, AllocError>
    ensures { IfOk result (λ all. all ≡ with_label labels name.now value.now) }
{
    if value.is_empty() {
        return Ok(Some(without_label(alloc, &labels, name)?));
    }
    let mut labels = labels;
    if set_one(&mut labels, name, value)? {
        Ok(Some(labels))
    } else {
        Ok(None)
    }
}

/// The labels but for one. The only error is want of memory.
pub fn without_label(alloc: Global, labels: &Labels, name: &str) -> Result<Labels, AllocError>
    ensures { IfOk result (λ l. l ≡ without (name.now ∷ []) labels.now) }
{
    let mut names = Items::new(alloc);
    names.push(Text::of(alloc, name)?)?;
    labels.without(&names)
}

/// Sets a value, and answers whether it was taken.
fn set_one(labels: &mut Labels, name: &str, value: &str) -> Result<bool, AllocError>
    ensures { IfOk result (λ taken. MatchBool taken
        ((is_some (set_refusal labels.old name.now value.now) ≡ false) × (labels.new ≡ with_value labels.old name.now value.now))
        (is_some (set_refusal labels.old name.now value.now) ≡ true)) }
{
    match labels.set(name, value) {
        Ok(()) => Ok(true),
        Err(refusal) => not_taken(refusal),
    }
}
