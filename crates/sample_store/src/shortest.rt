ghost use Rattle.sample_store.specs.Samples.{ArePostings, IsShortest, Pair, asked, looked_at, posted};
ghost use Rattle.std.specs.Prelude.{◌≡◌, None, Some, length, IfOk, MatchOption};

use crate::postings::{Postings, key_of};
use crate::timeline::Timeline;
use holders::Text;
use indexmap::IndexMap;
use label_set::{Labels, Rule, RuleKind};
use std::alloc::{AllocError, Global};

/// The series with a label's value, by their numbers, and the place of the rule that asks for this pair.
#[derive(Clone, Copy)]
pub struct PostingList<'a> {
    pub rule: usize,
    pub numbers: &'a [u32],
}

/// The pair that a rule asks for, if it asks for one.
fn asked_key(alloc: Global, rule: &Rule) -> Result<Option<(Text, Text)>, AllocError>
    ensures { IfOk result (λ key. key ≡ asked rule.now) }
{
    match &rule.kind {
        RuleKind::Eq(text) => {
            if text.as_str().is_empty() {
                return Ok(None);
            }
            let key = key_of(alloc, rule.label.as_str(), text.as_str())?;
            Ok(Some(key))
        }
        RuleKind::Ne(_) | RuleKind::Re(_) | RuleKind::Nre(_) => Ok(None),
    }
}

/// The numbers under a pair, none where there is no such list.
fn listed_under<'a>(lists: &'a Postings, key: &(Text, Text)) -> &'a [u32]
    ensures { result.now ≡ posted lists.now.entries key.now }
{
    match lists.get(key) {
        Some(list) => list.as_slice(),
        None => &[],
    }
}

/// The numbers of the pair that a rule asks for, if it asks for one.
fn list_for<'a>(
    alloc: Global,
    lists: &'a Postings,
    rule: &Rule,
) -> Result<Option<&'a [u32]>, AllocError>
    ensures { IfOk result (λ r. MatchOption r (asked rule.now ≡ None) (λ list. (pair : Pair) × (asked rule.now ≡ Some pair) × (list.now ≡ posted lists.now.entries pair))) }
{
    match asked_key(alloc, rule)? {
        Some(key) => Ok(Some(listed_under(lists, &key))),
        None => Ok(None),
    }
}

/// The shortest list among those of the pairs that the rules ask for, of several the last; none where they ask for no pair.
#[tactic(auto, using(crate::proofs::Rarest::turned, crate::proofs::Rarest::best_is, crate::proofs::Rarest::not_fewer, crate::proofs::Rarest::none_asked))]
pub fn shortest<'a>(
    alloc: Global,
    series: &IndexMap<Labels, Timeline>,
    lists: &'a Postings,
    rules: &[Rule],
) -> Result<Option<PostingList<'a>>, AllocError>
    requires { ArePostings series.now.entries lists.now.entries }
    ensures { IfOk result (λ r. MatchOption r (looked_at rules.now series.now.entries ≡ length series.now.entries) (λ list. IsShortest rules.now series.now.entries list.rule list.numbers.now)) }
{
    let mut most = series.len();
    let mut best = None;
    for (place, rule) in rules.iter().enumerate() {
        let Some(numbers) = list_for(alloc, lists, rule)? else {
            continue;
        };
        if numbers.len() > most {
            continue;
        }
        most = numbers.len();
        best = Some(PostingList {
            rule: place,
            numbers,
        });
    }
    Ok(best)
}
