ghost use Rattle.std.specs.Prelude.{◌≡◌, Some, IfOk, if◌then◌else◌};
ghost use Rattle.step_table.specs.Operators.{all_put, grouped_labels, is_grouped as has_group_word, is_left_one as has_left_one, matched_labels, pair_labels};

use label_set::{Card, Labels, Pairing};
use std::alloc::{AllocError, Global};
use step_table::{drops_name, put_one, without_name};
use xfrac::PairOp;

/// Whether the operator has a group word.
pub(crate) fn is_grouped(card: Card) -> bool
    ensures { result ≡ has_group_word card }
{
    match card {
        Card::OneToOne => false,
        Card::GroupLeft => true,
        Card::GroupRight => true,
    }
}

/// Whether the left side is the one side.
pub(crate) fn is_left_one(card: Card) -> bool
    ensures { result ≡ has_left_one card }
{
    match card {
        Card::OneToOne => false,
        Card::GroupLeft => false,
        Card::GroupRight => true,
    }
}

/// The labels of a pair, or nothing where they would pass the limits. The only error is want of memory.
pub(crate) fn labels_of_pair(
    alloc: Global,
    op: PairOp,
    p: &Pairing,
    many: &Labels,
    one: &Labels,
) -> Result<Option<Labels>, AllocError>
    ensures { IfOk result (λ labels. labels ≡ pair_labels op p.now many.now one.now) }
{
    if drops_name(op) {
        placed(p, &without_name(alloc, many)?, one)
    } else {
        placed(p, many, one)
    }
}

/// The labels of a pair from the many side's that are left.
fn placed(p: &Pairing, many: &Labels, one: &Labels) -> Result<Option<Labels>, AllocError>
    ensures { IfOk result (λ labels. labels ≡ (if has_group_word p.now.card then grouped_labels p.now.extra many.now one.now else Some (matched_labels p.now many.now))) }
{
    if is_grouped(p.card) {
        put_all(many.without(&p.extra)?, &one.keep(&p.extra)?)
    } else {
        Ok(Some(only_matched(p, many)?))
    }
}

fn only_matched(p: &Pairing, labels: &Labels) -> Result<Labels, AllocError>
    ensures { IfOk result (λ l. l ≡ matched_labels p.now labels.now) }
{
    if p.on {
        labels.keep(&p.names)
    } else {
        labels.without(&p.names)
    }
}

/// Puts the pairs one after another; nothing where one is refused.
fn put_all(labels: Labels, pairs: &Labels) -> Result<Option<Labels>, AllocError>
    ensures { IfOk result (λ all. all ≡ all_put labels pairs.now) }
{
    let mut all = labels;
    for i in 0..pairs.len() {
        let (name, value) = pairs.pair(i);
        if !put_one(&mut all, name, value)? {
            return Ok(None);
        }
    }
    Ok(Some(all))
}
