ghost use Rattle.label_set.specs.LabelText.{labels_text};
ghost use Rattle.label_set.specs.Labels.{IsLabelSet, IsMarked, byte_cmp, is_chosen, is_named, keep, labels_cmp, metric_name, put_refusal, set_refusal, signature, value_at, value_of, with_metric, with_pair, with_value, without};
ghost use Rattle.label_set.specs.LabelLaws.{EqualityIsEquivalence, EqualityIsTie};
ghost use Rattle.std.specs.BTreeMap.{insert_entry};
ghost use Rattle.std.specs.Cmp.{IsTotalOrder};
ghost use Rattle.std.specs.Option.{option_map};
ghost use Rattle.std.specs.declared.cmp.Ordering.TheVariants.{Equal};
ghost use Rattle.std.specs.Prelude.{◌≡◌, ◌<◌, ◌≤◌, ℕ, List, [], Err, None, Some, ◌∷◌, ◌++◌, ◌↔◌, filter, length, insert, slice_get, IsTrue, IfOk, OnOk, OnErr, IsOkUnless, MatchOption, MatchResult};

use crate::label_text::{push_braced, push_named};
use crate::pairs::Pairs;
use holders::{Items, Text};
use std::alloc::{AllocError, AllocFailed, Global};
use std::cmp::Ordering;
use std::hash::{Hash, Hasher};
use std::marker::Model;
use thiserror::Error;

/// The label that names the metric.
pub const METRIC_NAME: &str = "__name__";

/// The most pairs of labels.
const MOST_PAIRS: usize = 64;

/// The most bytes of a name or a value.
const MOST_BYTES: usize = 4096;

/// Why a pair was not taken.
#[derive(Clone, Copy, Debug, PartialEq, Eq, Error)]
pub enum LabelRefusal {
    /// The name is empty.
    #[error("a label name is empty")]
    EmptyName = 1,
    /// The name is there already.
    #[error("a label name stands twice")]
    Duplicate = 2,
    /// There would be more than 64 pairs.
    #[error("more than 64 labels")]
    TooMany = 3,
    /// The name or the value has more than 4,096 bytes.
    #[error("a label name or value has more than 4096 bytes")]
    TooLong = 4,
    /// Memory ran out.
    #[error("out of memory")]
    Memory,
}

impl From<AllocError> for LabelRefusal {
    ghost use Rattle.label_set.specs.declared.labels.LabelRefusal.TheVariants.{Memory};
    ghost use Rattle.std.specs.Prelude.{◌≡◌};

    ghost from_gives = { λ _ e. e ≡ Memory };

    fn from(_: AllocError) -> LabelRefusal {
        LabelRefusal::Memory
    }
}

impl<T: Drop> From<AllocFailed<T>> for LabelRefusal {
    ghost use Rattle.label_set.specs.declared.labels.LabelRefusal.TheVariants.{Memory};
    ghost use Rattle.std.specs.Prelude.{◌≡◌};

    ghost from_gives = { λ _ e. e ≡ Memory };

    fn from(_: AllocFailed<T>) -> LabelRefusal {
        LabelRefusal::Memory
    }
}

/// Labels: distinct pairs of a name and a value, in byte order of the names, with no empty value. Contracts see the
/// list of the pairs. They keep the allocator that they were made with.
#[derive(Debug, Drop)]
pub struct Labels {
    pairs: Pairs,
}

impl Model for Labels {
    ghost use Rattle.label_set.specs.Labels.{IsLabelSet};
    ghost use Rattle.std.specs.Prelude.{ℕ, List};

    ghost Value = { List (List ℕ × List ℕ) };

    ghost view = { λ l. l.pairs };

    ghost invariant = { λ l. IsLabelSet l.pairs };
}

impl Labels {
    /// No labels. It takes no memory.
    pub fn empty(alloc: Global) -> Labels
        ensures { result ≡ [] }
    {
        Labels {
            pairs: Pairs::new(alloc),
        }
    }

    /// The number of pairs.
    pub fn len(&self) -> usize
        ensures len { result ≡ length self.now }
        ensures label_set { IsLabelSet self.now }
    {
        self.pairs.len()
    }

    /// The name and the value at place `i`, counted from 0 in byte order of the names.
    pub fn pair(&self, i: usize) -> (&str, &str)
        requires { i < length self.now }
        ensures { slice_get self.now i ≡ Some (result.0.now, result.1.now) }
    {
        self.pairs.pair(i)
    }

    /// The value under a name. One that is missing reads as the empty text.
    #[inline(always)]
    pub fn get(&self, name: &str) -> &str
        ensures { result.now ≡ value_of self.now name.now }
    {
        match find(&self.pairs, name) {
            Ok(place) => self.pairs.pair(place).1,
            Err(_) => "",
        }
    }

    /// Adds a pair; an empty value adds nothing. It refuses, in this order, with EmptyName an empty name, with TooLong
    /// a name or a value of more than 4,096 bytes, with Duplicate a name that is there, and with TooMany a 65th pair.
    /// After an error the labels are as they were.
    pub fn put(&mut self, name: &str, value: &str) -> Result<(), LabelRefusal>
        ensures refused { MatchOption (put_refusal self.old name.now value.now) (IsOkUnless result LabelRefusal.Memory) (λ e. result ≡ Err e) }
        ensures ok { OnOk result (self.new ≡ with_pair self.old name.now value.now) }
        ensures err { OnErr result (self.new ≡ self.old) }
    {
        if name.is_empty() {
            return Err(LabelRefusal::EmptyName);
        }
        if name.len() > MOST_BYTES || value.len() > MOST_BYTES {
            return Err(LabelRefusal::TooLong);
        }
        let place = match find(&self.pairs, name) {
            Ok(_) => return Err(LabelRefusal::Duplicate),
            Err(place) => place,
        };
        if value.is_empty() {
            return Ok(());
        }
        if self.pairs.len() >= MOST_PAIRS {
            return Err(LabelRefusal::TooMany);
        }
        self.pairs.insert(place, name, value)?;
        Ok(())
    }

    /// Puts a value under a name, in place of the one that is there; an empty value takes the pair out. It refuses, in
    /// this order, with EmptyName an empty name, with TooLong a name or a value of more than 4,096 bytes, and with
    /// TooMany a 65th pair. After an error the labels are as they were.
    pub fn set(&mut self, name: &str, value: &str) -> Result<(), LabelRefusal>
        ensures refused { MatchOption (set_refusal self.old name.now value.now) (IsOkUnless result LabelRefusal.Memory) (λ e. result ≡ Err e) }
        ensures ok { OnOk result (self.new ≡ with_value self.old name.now value.now) }
        ensures err { OnErr result (self.new ≡ self.old) }
    {
        if name.is_empty() {
            return Err(LabelRefusal::EmptyName);
        }
        if name.len() > MOST_BYTES || value.len() > MOST_BYTES {
            return Err(LabelRefusal::TooLong);
        }
        match find(&self.pairs, name) {
            Ok(place) => {
                self.replace(place, value)?;
                Ok(())
            }
            Err(_) => self.put(name, value),
        }
    }

    /// Puts the value into the pair at a place, or takes the pair out where the value is empty. The only error is want
    /// of memory; then the labels are as they were.
    fn replace(&mut self, place: usize, value: &str) -> Result<(), AllocError>
        requires { place < length self.old }
        ensures ok { OnOk result ((name : List ℕ) → option_map (λ p. p.0) (slice_get self.old place) ≡ Some name → self.new ≡ with_value self.old name value.now) }
        ensures err { OnErr result (self.new ≡ self.old) }
    {
        if value.is_empty() {
            let rest = self.pairs.without(place)?;
            self.pairs.give_way_to(rest);
        } else {
            let changed = self.pairs.with_value(place, value)?;
            self.pairs.give_way_to(changed);
        }
        Ok(())
    }

    /// The labels with the listed names, on the allocator of these. The only error is want of memory.
    pub fn keep(&self, names: &Items<Text>) -> Result<Labels, AllocError>
        ensures { IfOk result (λ l. l ≡ keep names.now self.now) }
    {
        self.chosen(true, false, names)
    }

    /// The labels whose names are not listed, on the allocator of these. The only error is want of memory.
    pub fn without(&self, names: &Items<Text>) -> Result<Labels, AllocError>
        ensures { IfOk result (λ l. l ≡ without names.now self.now) }
    {
        self.chosen(false, false, names)
    }

    /// The labels that series are matched or grouped by, on the allocator of these: `on` the listed names, or all but
    /// those and the metric's name. The only error is want of memory.
    pub fn signature(&self, on: bool, names: &Items<Text>) -> Result<Labels, AllocError>
        ensures { IfOk result (λ l. l ≡ signature on names.now self.now) }
    {
        if on {
            self.chosen(true, false, names)
        } else {
            self.chosen(false, true, names)
        }
    }

    /// The labels whose names are listed, or those whose names aren't. Where `metric` says so, the metric's name counts
    /// as listed.
    fn chosen(&self, listed: bool, metric: bool, names: &Items<Text>) -> Result<Labels, AllocError>
        ensures { IfOk result (λ l. l ≡ filter (λ p. is_chosen listed (with_metric metric names.now) p.0) self.now) }
    {
        let marks = marks_of(&self.pairs, metric, names);
        let mut pairs = self.pairs.blank()?;
        for place in 0..self.pairs.len() {
            let marked = marks[place];
            if marked != listed {
                continue;
            }
            let (name, value) = self.pairs.pair(place);
            pairs.push(name, value)?;
        }
        Ok(Labels { pairs })
    }

    /// Writes the labels as series are printed, after what is there: `name{label="value",..}`. The only error is want
    /// of memory; then nothing is written.
    pub fn write(&self, into: &mut Vec<u8>) -> Result<(), AllocError>
        ensures ok { OnOk result (into.new.items ≡ into.old.items ++ labels_text self.now) }
        ensures err { OnErr result (into.new.items ≡ into.old.items) }
    {
        let text = self.text()?;
        into.extend_from_slice(text.as_slice())
    }

    /// The text of the labels, as series are printed.
    fn text(&self) -> Result<Vec<u8>, AllocError>
        ensures { IfOk result (λ v. v.items ≡ labels_text self.now) }
    {
        let mut text = Vec::new(self.pairs.allocator());
        match find(&self.pairs, METRIC_NAME) {
            Ok(place) => push_named(&mut text, self.pairs.pair(place).1, &self.pairs)?,
            Err(_) => push_braced(&mut text, &self.pairs)?,
        }
        Ok(text)
    }

    /// Whether the labels are the same pairs.
    pub fn is_same(&self, other: &Labels) -> bool
        ensures { IsTrue result ↔ self.now ≡ other.now }
    {
        self == other
    }

    /// Equal labels, on the allocator of these. The only error is want of memory.
    pub fn copy(&self) -> Result<Labels, AllocError>
        ensures { IfOk result (λ l. l ≡ self.now) }
    {
        Ok(Labels {
            pairs: self.pairs.copy()?,
        })
    }
}

/// Marks the pairs whose names are listed, each by a search for a name. Where `metric` says so, the metric's name counts
/// as listed.
fn marks_of(pairs: &Pairs, metric: bool, names: &Items<Text>) -> [bool; MOST_PAIRS]
    requires { IsLabelSet pairs.now }
    ensures { IsMarked (with_metric metric names.now) pairs.now result }
{
    let mut marks = [false; MOST_PAIRS];
    if metric {
        mark(&mut marks, pairs, METRIC_NAME);
    }
    for name in names.as_slice() {
        mark(&mut marks, pairs, name.as_str());
    }
    marks
}

/// Marks the pair with one more name, if there is one.
fn mark(marks: &mut [bool; MOST_PAIRS], pairs: &Pairs, name: &str)
    requires { IsLabelSet pairs.now }
    ensures { (names : List (List ℕ)) → IsMarked names pairs.now marks.old → IsMarked (names ++ name.now ∷ []) pairs.now marks.new }
{
    if let Ok(place) = find(pairs, name) {
        marks[place] = true;
    }
}

/// Whether a name is the one that names the metric.
pub fn is_metric(name: &str) -> bool
    ensures { result ≡ is_named (metric_name ∷ []) name.now }
{
    METRIC_NAME == name
}

/// The place of a name among the pairs, or the place where it would stand.
#[inline(always)]
fn find(pairs: &Pairs, name: &str) -> Result<usize, usize>
    requires { IsLabelSet pairs.now }
    ensures { MatchResult result
        (λ i. (i < length pairs.now) × (value_at pairs.now name.now ≡ option_map (λ p. p.1) (slice_get pairs.now i))
        × (option_map (λ p. p.0) (slice_get pairs.now i) ≡ Some name.now))
        (λ i. (i ≤ length pairs.now) × (value_at pairs.now name.now ≡ None)
        × ((v : List ℕ) → insert_entry byte_cmp pairs.now name.now v ≡ insert pairs.now i (name.now, v))) }
{
    let mut low = 0;
    let mut high = pairs.len();
    while low < high {
        let middle = low + (high - low) / 2;
        match name.cmp(pairs.pair(middle).0) {
            Ordering::Less => high = middle,
            Ordering::Equal => return Ok(middle),
            Ordering::Greater => low = middle + 1,
        }
    }
    Err(low)
}

impl Clone for Labels {
    ghost is_clone = { λ s t. t ≡ s };

    fn clone(&self) -> Result<Labels, AllocError> {
        self.copy()
    }
}

impl PartialEq for Labels {
    ghost use Rattle.std.proofs.Common.{rules};
    ghost use Rattle.std.specs.Cmp.{partial_equiv_from_equiv};
    ghost use Rattle.std.specs.Cmp.Lexicographic.{pointwise};
    ghost use Rattle.std.specs.Cmp.Rules.{comparing};
    ghost use Rattle.std.specs.Prelude.{◌&&◌, bytes_eq};

    ghost eq = { pointwise (λ p q. bytes_eq p.0 q.0 && bytes_eq p.1 q.1) };

    ghost laws = { Prim.search (comparing, rules) };

    fn eq(&self, other: &Labels) -> bool {
        self.pairs.is_equal(&other.pairs)
    }
}

impl Eq for Labels {
    ghost use Rattle.std.proofs.Common.{rules};
    ghost use Rattle.std.specs.Cmp.Rules.{comparing};

    ghost laws = { Prim.search (comparing, rules) };
}

impl PartialOrd for Labels {
    ghost use Rattle.label_set.specs.Labels.{labels_cmp, labels_ties};
    ghost use Rattle.std.proofs.Common.{rules};
    ghost use Rattle.std.specs.Cmp.{partial_order_from_own_ties};
    ghost use Rattle.std.specs.Cmp.Rules.{comparing};
    ghost use Rattle.std.specs.Ordering.{as_partial_cmp};

    ghost partial_cmp = { as_partial_cmp labels_cmp };

    ghost laws = { partial_order_from_own_ties (Prim.search (comparing, rules)) (Prim.search (comparing, rules, labels_ties)) };

    fn partial_cmp(&self, other: &Labels) -> Option<Ordering> {
        Some(self.cmp(other))
    }
}

impl Ord for Labels {
    ghost use Rattle.label_set.specs.Labels.{labels_cmp, labels_ties};
    ghost use Rattle.std.proofs.Common.{rules};
    ghost use Rattle.std.specs.Cmp.Rules.{comparing};

    ghost cmp = { labels_cmp };

    ghost total = { Prim.search (comparing, rules) };

    ghost matches_partial_cmp = { Prim.search (comparing, rules) };

    ghost matches_eq = { labels_ties };

    fn cmp(&self, other: &Labels) -> Ordering {
        self.pairs.compare(&other.pairs)
    }
}

impl Hash for Labels {
    ghost use Rattle.label_set.specs.LabelEquality.{labels_hash, labels_hash_alike};

    ghost hash_input = { labels_hash };

    ghost respects_eq = { labels_hash_alike };

    fn hash<H: Hasher>(&self, state: &mut H) {
        self.pairs.feed(state);
    }
}

/// The law of the order of labels, on which sorts by labels rest: it is total, and ties only equal labels.
pub fn order_is_total()
    ensures total { IsTotalOrder labels_cmp }
    ensures ties { (ps qs : List (List ℕ × List ℕ)) → labels_cmp ps qs ≡ Equal → ps ≡ qs }
{}

/// The law of `==` of labels, on which maps keyed by them rest: it is an equivalence, and tells what their order tells.
#[tactic(auto, using(crate::specs::LabelOrder::labels_eq_equivalence, crate::specs::LabelOrder::labels_eq_at))]
pub fn equality_is_tie()
    ensures equivalence { EqualityIsEquivalence }
    ensures tie { EqualityIsTie }
{}
