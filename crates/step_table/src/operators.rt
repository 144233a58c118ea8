ghost use Rattle.label_set.specs.Labels.{metric_name, put_refusal, with_pair, without};
ghost use Rattle.std.specs.Prelude.{◌≡◌, ◌≢◌, [], ◌∷◌, true, false, is_some, IfErr, IfOk, MatchBool, OnErr, if◌then◌else◌};
ghost use Rattle.step_table.specs.Operators.{all_put, drops_name as drops_metric_name, grouped_labels, is_grouped as has_group_word, matched_labels, operated, pair_labels, some_value as value_or_fault};

use label_set::{Card, Items, LabelRefusal, Labels, Pairing};
use std::alloc::{AllocError, Global};
use xfrac::{NumFault, PairOp, XFrac, arith, compare, whole};

/// What an operator makes of two values: of arithmetic the value or its fault; of a filter the left value, or nothing
/// where it fails; of a comparison with `bool` 1 or 0.
pub fn operate(op: PairOp, left: &XFrac, right: &XFrac) -> Result<Option<XFrac>, NumFault>
    ensures { result ≡ operated op left.now right.now }
{
    match op {
        PairOp::Arith(f) => some_value(arith(f, left, right)),
        PairOp::Filter(c) => Ok(if compare(c, left, right) {
            Some(*left)
        } else {
            None
        }),
        PairOp::Flag(c) => Ok(Some(whole(if compare(c, left, right) { 1 } else { 0 }))),
    }
}

/// A value that isn't missing, or its fault.
pub fn some_value(answer: Result<XFrac, NumFault>) -> Result<Option<XFrac>, NumFault>
    ensures { result ≡ value_or_fault answer }
{
    match answer {
        Ok(value) => Ok(Some(value)),
        Err(fault) => Err(fault),
    }
}

/// Whether the operator drops the metric's name: arithmetic and `bool` do.
pub fn drops_name(op: PairOp) -> bool
    ensures { result ≡ drops_metric_name op }
{
    match op {
        PairOp::Arith(_) => true,
        PairOp::Filter(_) => false,
        PairOp::Flag(_) => true,
    }
}

/// Whether the operator has a group word.
pub(crate) fn is_grouped(card: Card) -> bool
    ensures { result ≡ has_group_word card }
{
    match card {
        Card::OneToOne => false,
        Card::GroupLeft => true,
        Card::GroupRight => true,
    }
}

/// The labels but for the metric's name. The only error is want of memory.
pub fn without_name(alloc: Global, labels: &Labels) -> Result<Labels, AllocError>
    ensures { IfOk result (λ l. l ≡ without (metric_name ∷ []) labels.now) }
{
    labels.signature(false, &Items::new(alloc))
}

/// The labels of a pair, or nothing where they would pass the limits.
pub(crate) fn labels_of_pair(
    alloc: Global,
    op: PairOp,
    p: &Pairing,
    many: &Labels,
    one: &Labels,
) -> Result<Option<Labels>, AllocError>
    ensures { IfOk result (λ labels. labels ≡ pair_labels op p.now many.now one.now) }
{
    if drops_name(op) {
        placed(p, &without_name(alloc, many)?, one)
    } else {
        placed(p, many, one)
    }
}

/// The labels of a pair from the many side's that are left.
fn placed(p: &Pairing, many: &Labels, one: &Labels) -> Result<Option<Labels>, AllocError>
    ensures { IfOk result (λ labels. labels ≡ (if has_group_word p.now.card then grouped_labels p.now.extra many.now one.now else Some (matched_labels p.now many.now))) }
{
    if is_grouped(p.card) {
        put_all(many.without(&p.extra)?, &one.keep(&p.extra)?)
    } else {
        Ok(Some(only_matched(p, many)?))
    }
}

fn only_matched(p: &Pairing, labels: &Labels) -> Result<Labels, AllocError>
    ensures { IfOk result (λ l. l ≡ matched_labels p.now labels.now) }
{
    if p.on {
        labels.keep(&p.names)
    } else {
        labels.without(&p.names)
    }
}

/// Puts the pairs one after another; nothing where one is refused.
fn put_all(labels: Labels, pairs: &Labels) -> Result<Option<Labels>, AllocError>
    ensures { IfOk result (λ all. all ≡ all_put labels pairs.now) }
{
    let mut all = labels;
    for i in 0..pairs.len() {
        let (name, value) = pairs.pair(i);
        if !put_one(&mut all, name, value)? {
            return Ok(None);
        }
    }
    Ok(Some(all))
}

/// Puts a value under a name that has none, and answers whether it was taken: not where the name is empty or there, or where
/// the labels would pass their limits. An empty value changes nothing. The only error is want of memory.
pub fn put_one(labels: &mut Labels, name: &str, value: &str) -> Result<bool, AllocError>
    ensures taken { IfOk result (λ taken. MatchBool taken
        ((is_some (put_refusal labels.old name.now value.now) ≡ false) × (labels.new ≡ with_pair labels.old name.now value.now))
        (is_some (put_refusal labels.old name.now value.now) ≡ true)) }
    ensures left { IfOk result (λ taken. taken ≡ false → labels.new ≡ labels.old) }
    ensures err { OnErr result (labels.new ≡ labels.old) }
{
    match labels.put(name, value) {
        Ok(()) => Ok(true),
        Err(refusal) => not_taken(refusal),
    }
}

/// What a refusal comes to: want of memory is an error; for other refusals nothing is taken.
pub fn not_taken(refusal: LabelRefusal) -> Result<bool, AllocError>
    ensures taken { IfOk result (λ taken. (taken ≡ false) × (refusal ≢ LabelRefusal.Memory)) }
    ensures memory { IfErr result (λ _. refusal ≡ LabelRefusal.Memory) }
{
    match refusal {
        LabelRefusal::Memory => Err(AllocError),
        _ => Ok(false),
    }
}
