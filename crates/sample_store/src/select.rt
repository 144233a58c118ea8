ghost use Rattle.match_rule.specs.Patterns.{HaveTheirPatterns, labels_pass};
ghost use Rattle.sample_store.specs.Samples.{ArePostings, IsInOrder, IsListed, IsSelected, Names, PassRule, looked_at, passing, passing_at};
ghost use Rattle.label_set.specs.LabelEquality.{labels_eq};
ghost use Rattle.std.specs.List.{IsDistinct};
ghost use Rattle.std.specs.Map.{keys_of};
ghost use Rattle.std.specs.Prelude.{◌≡◌, ◌<◌, ◌≤◌, ◌+◌, ℕ, Some, length, map, slice_get, IfOk, IsOk};
ghost use Rattle.std.specs.Borrow.{Bor};

use crate::postings::Postings;
use crate::shortest::{PostingList, shortest};
use crate::store::key_at;
use crate::timeline::Timeline;
use holders::Items;
use indexmap::IndexMap;
use label_set::{Labels, Rule};
use match_rule::{Patterns, labels_pass};
use std::alloc::{AllocError, Global};
use std::sync::ledger::Ledger;
use ticks::Work;

/// The series that pass, by labels and number, in the order of their numbers.
#[tactic(auto, using(crate::proofs::Selects::missed, crate::proofs::Selects::passed, crate::proofs::Selects::passing_end))]
fn passing_of<'a, W: Ledger>(
    alloc: Global,
    series: &'a IndexMap<Labels, Timeline>,
    rules: &[Rule],
    patterns: &mut Patterns,
    work: &mut Work<W>,
) -> Result<Vec<(&'a Labels, u32)>, AllocError>
    requires rules { HaveTheirPatterns patterns.old rules.now }
    requires few { length series.now.entries ≤ 100000 }
    ensures found { IfOk result (λ v. map (λ (p : Bor Names × ℕ). (p.0.now, p.1)) v.items ≡ passing patterns.old rules.now 0 series.now.entries) }
    ensures tested { IfOk result (λ _. work.new.tested ≡ work.old.tested + length series.now.entries) }
    ensures tested_more { work.old.tested ≤ work.new.tested }
    ensures tested_most { work.new.tested ≤ work.old.tested + length series.now.entries }
    ensures fetched { work.new.fetched ≡ work.old.fetched }
    ensures probed { work.new.probed ≡ work.old.probed }
    ensures same { patterns.new ≡ patterns.old }
{
    let mut found = Vec::new(alloc);
    for place in 0..series.len() {
        work.test();
        let names = key_at(series, place);
        if !labels_pass(rules, patterns, names)? {
            continue;
        }
        found.push((names, place as u32))?;
    }
    Ok(found)
}

fn number_at(numbers: &[u32], i: usize) -> u32
    requires { i < length numbers.now }
    ensures { slice_get numbers.now i ≡ Some result }
{
    numbers[i]
}

/// Whether labels that pass the rule at a place pass each of the rules; that rule isn't asked.
fn pass_others(
    rules: &[Rule],
    place: usize,
    patterns: &mut Patterns,
    labels: &Labels,
) -> Result<bool, AllocError>
    requires rules { HaveTheirPatterns patterns.old rules.now }
    requires within { place < length rules.now }
    requires passed { PassRule patterns.old rules.now place labels.now }
    ensures answer { IfOk result (λ b. b ≡ labels_pass patterns.old rules.now labels.now) }
    ensures always { IsOk result }
    ensures same { patterns.new ≡ patterns.old }
{
    if !labels_pass(&rules[..place], patterns, labels)? {
        return Ok(false);
    }
    labels_pass(&rules[place + 1..], patterns, labels)
}

/// Of the series of a posting list those that pass, by labels and number, in the order of the numbers. All of them pass the
/// rule that asks for the list, so that it isn't asked again.
#[tactic(auto, using(crate::proofs::Listed::missed_at, crate::proofs::Listed::passed_at, crate::proofs::Stores::total_labels))]
fn passing_in<'a, W: Ledger>(
    alloc: Global,
    series: &'a IndexMap<Labels, Timeline>,
    list: PostingList<'_>,
    rules: &[Rule],
    patterns: &mut Patterns,
    work: &mut Work<W>,
) -> Result<Vec<(&'a Labels, u32)>, AllocError>
    requires rules { HaveTheirPatterns patterns.old rules.now }
    requires listed { IsListed rules.now series.now.entries list.rule list.numbers.now }
    ensures found { IfOk result (λ v. map (λ (p : Bor Names × ℕ). (p.0.now, p.1)) v.items ≡ passing_at patterns.old rules.now series.now.entries list.entry.numbers.now) }
    ensures tested { IfOk result (λ _. work.new.tested ≡ work.old.tested + length list.entry.numbers.now) }
    ensures tested_more { work.old.tested ≤ work.new.tested }
    ensures tested_most { work.new.tested ≤ work.old.tested + length list.entry.numbers.now }
    ensures fetched { work.new.fetched ≡ work.old.fetched }
    ensures probed { work.new.probed ≡ work.old.probed }
    ensures same { patterns.new ≡ patterns.old }
{
    let mut found = Vec::new(alloc);
    for i in 0..list.numbers.len() {
        work.test();
        let number = number_at(list.numbers, i);
        let names = key_at(series, number as usize);
        if !pass_others(rules, list.rule, patterns, names)? {
            continue;
        }
        found.push((names, number))?;
    }
    Ok(found)
}

/// The series that pass, looked for where the fewest may.
fn found_by<'a, W: Ledger>(
    alloc: Global,
    series: &'a IndexMap<Labels, Timeline>,
    lists: &Postings,
    rules: &[Rule],
    patterns: &mut Patterns,
    work: &mut Work<W>,
) -> Result<Vec<(&'a Labels, u32)>, AllocError>
    requires rules { HaveTheirPatterns patterns.old rules.now }
    requires few { length series.now.entries ≤ 100000 }
    requires listed { ArePostings series.now.entries lists.now.entries }
    ensures found { IfOk result (λ v. map (λ (p : Bor Names × ℕ). (p.0.now, p.1)) v.items ≡ passing patterns.old rules.now 0 series.now.entries) }
    ensures tested { IfOk result (λ _. work.new.tested ≡ work.old.tested + looked_at rules.now series.now.entries) }
    ensures tested_most { work.new.tested ≤ work.old.tested + looked_at rules.now series.now.entries }
    ensures fetched { work.new.fetched ≡ work.old.fetched }
    ensures probed { work.new.probed ≡ work.old.probed }
    ensures same { patterns.new ≡ patterns.old }
{
    match shortest(alloc, series, lists, rules)? {
        Some(list) => passing_in(alloc, series, list, rules, patterns, work),
        None => passing_of(alloc, series, rules, patterns, work),
    }
}

/// The numbers in the order of their labels.
#[tactic(auto, using(crate::proofs::Selects::ordered))]
fn in_order(alloc: Global, mut found: Vec<(&Labels, u32)>) -> Result<Items<u32>, AllocError>
    ensures { IfOk result (IsInOrder (map (λ (p : Bor Names × ℕ). (p.0.now, p.1)) found.entry.items)) }
{
    if found.len() < 2 {
        return numbers_of(alloc, found.as_slice());
    }
    found.sort_unstable();
    numbers_of(alloc, found.as_slice())
}

fn numbers_of(alloc: Global, found: &[(&Labels, u32)]) -> Result<Items<u32>, AllocError>
    ensures { IfOk result (λ places. places ≡ map (λ (p : Bor Names × ℕ). p.1) found.now) }
{
    let mut places = Items::new(alloc);
    for one in found {
        places.push(one.1)?;
    }
    Ok(places)
}

/// The numbers of the series that pass, in the order of their labels.
#[tactic(auto, using(crate::proofs::Selects::selected_by))]
pub fn places_of<W: Ledger>(
    alloc: Global,
    series: &IndexMap<Labels, Timeline>,
    lists: &Postings,
    rules: &[Rule],
    patterns: &mut Patterns,
    work: &mut Work<W>,
) -> Result<Items<u32>, AllocError>
    requires rules { HaveTheirPatterns patterns.old rules.now }
    requires few { length series.now.entries ≤ 100000 }
    requires listed { ArePostings series.now.entries lists.now.entries }
    requires distinct { IsDistinct labels_eq (keys_of series.now.entries) }
    ensures selected { IfOk result (IsSelected patterns.old rules.now series.now.entries) }
    ensures tested { IfOk result (λ _. work.new.tested ≡ work.old.tested + looked_at rules.now series.now.entries) }
    ensures tested_most { work.new.tested ≤ work.old.tested + looked_at rules.now series.now.entries }
    ensures fetched { work.new.fetched ≡ work.old.fetched }
    ensures probed { work.new.probed ≡ work.old.probed }
    ensures same { patterns.new ≡ patterns.old }
{
    let found = found_by(alloc, series, lists, rules, patterns, work)?;
    in_order(alloc, found)
}
