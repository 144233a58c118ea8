//! The engines that a list declares.
ghost use Rattle.label_set.specs.LabelEquality.{labels_eq};
ghost use Rattle.label_set.specs.Labels.{put_refusal, with_pair};
ghost use Rattle.std.specs.List.{list_all, list_any};
ghost use Rattle.std.specs.Prelude.{◌≡◌, ◌≢◌, ◌≤◌, [], IfOk, IfSome, MatchBool, None, Some, false, is_some, length, map, true};
ghost use Rattle.tool_words.specs.Engines.{AreDeclarable, all_labels_in, are_distinct, engines_named, have_same_names, if_apart, is_declarable, labels_in, pairs_listed, sets_listed, tell_apart, with_pair_in, with_pairs_in};

use holders::Items;
use label_set::{LabelRefusal, Labels, METRIC_NAME};
use std::alloc::{AllocError, Global};

/// The pairs of a set, which commas part.
fn pairs_of(alloc: Global, set: &str) -> Result<Vec<&str>, AllocError>
    ensures { IfOk result (λ pairs. map (λ p. p.now) pairs.items ≡ pairs_listed set.now) }
{
    set.split(',').collect(alloc)
}

/// The sets of a list, which semicolons part.
fn sets_of(alloc: Global, list: &str) -> Result<Vec<&str>, AllocError>
    ensures { IfOk result (λ sets. map (λ s. s.now) sets.items ≡ sets_listed list.now) }
{
    list.split(';').collect(alloc)
}

/// Whether a pair may be declared: its value isn't empty, and it doesn't name the metric.
fn is_declarable(name: &str, value: &str) -> bool
    ensures { result ≡ is_declarable name.now value.now }
{
    !value.is_empty() && name != METRIC_NAME
}

/// Puts a pair into labels, and answers whether they took it; else they are as they were. The only error is want of memory.
fn puts(labels: &mut Labels, name: &str, value: &str) -> Result<bool, AllocError>
    ensures { IfOk result (λ taken. MatchBool taken
        ((is_some (put_refusal labels.old name.now value.now) ≡ false) × (labels.new ≡ with_pair labels.old name.now value.now))
        (is_some (put_refusal labels.old name.now value.now) ≡ true)) }
{
    match labels.put(name, value) {
        Ok(()) => Ok(true),
        Err(refusal) => not_taken(refusal),
    }
}

/// Want of memory is an error; for other refusals nothing is taken.
fn not_taken(refusal: LabelRefusal) -> Result<bool, AllocError>
    ensures { IfOk result (λ taken. (taken ≡ false) × (refusal ≢ LabelRefusal.Memory)) }
{
    match refusal {
        LabelRefusal::Memory => Err(AllocError),
        _ => Ok(false),
    }
}

/// Puts the pair `name=value` of a text into labels, and answers whether it may be declared and they took it. The only error is
/// want of memory.
fn puts_pair(labels: &mut Labels, text: &str) -> Result<bool, AllocError>
    ensures { IfOk result (λ taken. MatchBool taken (with_pair_in labels.old text.now ≡ Some labels.new) (with_pair_in labels.old text.now ≡ None)) }
{
    let Some((name, value)) = text.split_once('=') else {
        return Ok(false);
    };
    if !is_declarable(name, value) {
        return Ok(false);
    }
    puts(labels, name, value)
}

/// The labels of these pairs, where labels take each.
fn labels_of(alloc: Global, pairs: &[&str]) -> Result<Option<Labels>, AllocError>
    ensures { IfOk result (λ labels. labels ≡ with_pairs_in [] (map (λ p. p.now) pairs.now)) }
{
    let mut labels = Labels::empty(alloc);
    for pair in pairs {
        let taken = puts_pair(&mut labels, pair)?;
        if !taken {
            return Ok(None);
        }
    }
    Ok(Some(labels))
}

/// The labels that a set declares.
fn labels_in(alloc: Global, set: &str) -> Result<Option<Labels>, AllocError>
    ensures { IfOk result (λ labels. labels ≡ labels_in set.now) }
{
    let pairs = pairs_of(alloc, set)?;
    labels_of(alloc, pairs.as_slice())
}

/// The labels that each of these sets declares.
fn all_labels_in(alloc: Global, sets: &[&str]) -> Result<Option<Items<Labels>>, AllocError>
    ensures { IfOk result (λ all. all ≡ all_labels_in (map (λ s. s.now) sets.now)) }
{
    let mut all = Items::new(alloc);
    for set in sets {
        let Some(labels) = labels_in(alloc, set)? else {
            return Ok(None);
        };
        all.push(labels)?;
    }
    Ok(Some(all))
}

/// Whether two sets have the same names.
fn have_same_names(labels: &Labels, others: &Labels) -> bool
    ensures { result ≡ have_same_names labels.now others.now }
{
    if labels.len() != others.len() {
        return false;
    }
    for i in 0..labels.len() {
        let same = labels.pair(i).0 == others.pair(i).0;
        if !same {
            return false;
        }
    }
    true
}

/// Whether labels stand among others.
fn is_among(labels: &Labels, others: &[Labels]) -> bool
    ensures { result ≡ list_any (labels_eq labels.now) others.now }
{
    others.iter().any(|other| labels == other)
}

/// Whether no two sets are the same.
fn are_distinct(all: &[Labels]) -> bool
    ensures { result ≡ are_distinct all.now }
{
    for i in 0..all.len() {
        let stands_twice = is_among(&all[i], all.split_at(i + 1).1);
        if stands_twice {
            return false;
        }
    }
    true
}

/// Whether these sets all have the names of some labels.
fn have_names_of(labels: &Labels, others: &[Labels]) -> bool
    ensures { result ≡ list_all (have_same_names labels.now) others.now }
{
    others.iter().all(|other| have_same_names(labels, other))
}

/// Whether all sets have the names of the first, and no two the same values.
fn tell_apart(all: &[Labels]) -> bool
    ensures { result ≡ tell_apart all.now }
{
    match all {
        [] => true,
        [first, others @ ..] => have_names_of(first, others) && are_distinct(all),
    }
}

/// The sets, where they tell engines apart.
fn if_apart(all: Items<Labels>) -> Option<Items<Labels>>
    ensures { result ≡ if_apart all }
{
    if tell_apart(all.as_slice()) {
        Some(all)
    } else {
        None
    }
}

/// The engines that a list declares, where it declares any, and no more of them than there are boxes. Sets are read and compared
/// only where there are no more.
fn engines_named(alloc: Global, list: &str, boxes: u32) -> Result<Option<Items<Labels>>, AllocError>
    ensures { IfOk result (λ engines. engines ≡ engines_named boxes list.now) }
{
    let sets = sets_of(alloc, list)?;
    if sets.len() > boxes as usize {
        return Ok(None);
    }
    match all_labels_in(alloc, sets.as_slice())? {
        Some(all) => Ok(if_apart(all)),
        None => Ok(None),
    }
}

/// The engines that a value of `--engines` declares to so many boxes, in order: sets parted by `;`, each of pairs `name=value` parted
/// by `,`. There are no more sets than boxes. A name ends at the first `=`, no value is empty, and labels take each pair; all sets
/// have the same names, `__name__` not among them, and no two the same values. Else there are none. The only error is want of memory.
pub fn engines_by(
    alloc: Global,
    list: &str,
    boxes: u32,
) -> Result<Option<Items<Labels>>, AllocError>
    ensures engines { IfOk result (λ engines. engines ≡ engines_named boxes list.now) }
    ensures declarable { IfOk result (λ engines. IfSome engines AreDeclarable) }
    ensures few { IfOk result (λ engines. IfSome engines (λ all. length all ≤ boxes)) }
{
    engines_named(alloc, list, boxes)
}
