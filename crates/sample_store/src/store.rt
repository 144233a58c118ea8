ghost use Rattle.match_rule.specs.Patterns.{HaveTheirPatterns};
ghost use Rattle.sample_store.specs.Samples.{Appends, IsFoundAt, IsNumberOf, IsRising, IsSelected, Names, PutsAt, Samples, chosen, held_in, labels_at, later_than, looked_at, samples_at, refusal_of, sample_count, samples_of, with_sample};
ghost use Rattle.label_set.specs.LabelEquality.{labels_eq};
ghost use Rattle.label_set.specs.Labels.{IsLabelSet};
ghost use Rattle.std.specs.Map.{keys_of, lookup};
ghost use Rattle.std.specs.List.{AllByRecursion, IsDistinct, filter_map};
ghost use Rattle.std.specs.Option.{option_map};
ghost use Rattle.std.specs.Prelude.{◌≡◌, ◌<◌, ◌≤◌, ◌+◌, ◌++◌, ℕ, Some, None, [], ◌∷◌, length, slice_get, IfOk, IsOk, IsOkUnless, MatchOption, OnErr, OnOk};

use crate::postings::{Postings, put_series};
use crate::select::places_of;
use crate::shortest::shortest;
use crate::timeline::Timeline;
use crate::{Cursor, StoreRefusal};
use holders::Items;
use indexmap::IndexMap;
use label_set::{Labels, Rule};
use match_rule::Patterns;
use std::alloc::{AllocError, Global};
use std::marker::Model;
use std::sync::ledger::Ledger;
use ticks::{Ms, Work};
use xfrac::Held;

/// The most samples.
const MOST_SAMPLES: u32 = 2_000_000;

/// The most series.
const MOST_SERIES: usize = 100_000;

/// Samples by series. Contracts see the list of the series in the order of their first samples, each with its labels and
/// its samples in rising time, held markers of staleness among them. Series are numbered from 0 in that order.
#[derive(Drop)]
pub struct Store {
    series: IndexMap<Labels, Timeline>,
    alloc: Global,
    samples: u32,
    /// The place of the series that took the last sample.
    latest: usize,
    /// The numbers of the series of each pair of a label and its value.
    postings: Postings,
}

impl Model for Store {
    ghost use Rattle.sample_store.specs.Samples.{AllSeries, IsStore};

    ghost Value = { AllSeries };

    ghost view = { λ s. s.series.entries };

    ghost invariant = { λ s. IsStore s.series.entries s.samples s.postings.entries };
}

impl Store {
    /// An empty store. It takes no memory.
    #[tactic(auto, using(crate::proofs::Stores::store_empty))]
    pub fn new(alloc: Global) -> Store
        ensures { result ≡ [] }
    {
        Store {
            series: IndexMap::new(alloc),
            alloc,
            samples: 0,
            latest: 0,
            postings: IndexMap::new(alloc),
        }
    }

    /// Takes all samples and series out.
    #[tactic(auto, using(crate::proofs::Stores::store_empty))]
    pub fn clear(&mut self)
        ensures { self.new ≡ [] }
    {
        self.series.clear();
        self.samples = 0;
        self.latest = 0;
        self.postings.clear();
    }

    /// How many series there are. It takes no memory.
    pub fn series(&self) -> u32
        ensures count { result ≡ length self.now }
        ensures few { result ≤ 100000 }
        ensures labelled { AllByRecursion (λ (s : Names × Samples). IsLabelSet s.0) self.now }
        ensures distinct { IsDistinct labels_eq (keys_of self.now) }
        ensures rising { AllByRecursion (λ (s : Names × Samples). IsRising s.1) self.now }
    {
        self.series.len() as u32
    }

    /// How many samples there are in all series. It takes no memory.
    pub fn samples(&self) -> u32
        ensures count { result ≡ sample_count self.now }
        ensures few { result ≤ 2000000 }
    {
        self.samples
    }

    /// The labels of a series. It takes no memory.
    #[tactic(auto, using(crate::proofs::Stores::total_labels))]
    pub fn labels(&self, s: u32) -> &Labels
        requires { s < length self.now }
        ensures there { option_map (λ one. one.0) (slice_get self.now s) ≡ Some result.now }
        ensures named { result.now ≡ labels_at self.now s }
    {
        key_at(&self.series, s as usize)
    }

    /// The number of the series with these labels, if there is one. It takes no memory.
    #[tactic(auto, using(crate::proofs::Stores::number_found))]
    pub fn find(&self, labels: &Labels) -> Option<u32>
        ensures { MatchOption result (lookup (labels_eq labels.now) self.now ≡ None) (IsNumberOf self.now labels.now) }
    {
        match place_of(&self.series, self.latest, labels) {
            Some(i) => Some(i as u32),
            None => None,
        }
    }

    /// The numbers of the series whose labels pass each rule, in the order of labels. It looks at the series of the rarest
    /// pair that an `=` rule with a text asks for, or at all where no rule asks for one, and counts each of them as tested.
    /// The patterns of the rules must be of `Patterns::whole`, from these patterns. The only error is want of memory; then
    /// no series was counted twice.
    #[tactic(auto, using(crate::proofs::Chosen::chosen_by))]
    pub fn select<W: Ledger>(
        &self,
        rules: &Items<Rule>,
        patterns: &mut Patterns,
        work: &mut Work<W>,
    ) -> Result<Items<u32>, AllocError>
        requires { HaveTheirPatterns patterns.old rules.now }
        ensures selected { IfOk result (IsSelected patterns.old rules.now self.now) }
        // So these are the series, one by one.
        ensures chosen { IfOk result (λ places. filter_map (slice_get self.now) places ≡ chosen patterns.old rules.now self.now) }
        ensures tested { IfOk result (λ _. work.new.tested ≡ work.old.tested + looked_at rules.now self.now) }
        ensures tested_most { work.new.tested ≤ work.old.tested + looked_at rules.now self.now }
        ensures fetched { work.new.fetched ≡ work.old.fetched }
        ensures probed { work.new.probed ≡ work.old.probed }
        ensures same { patterns.new ≡ patterns.old }
    {
        places_of(
            self.alloc,
            &self.series,
            &self.postings,
            rules.as_slice(),
            patterns,
            work,
        )
    }

    /// How many series a selection by these rules looks at. The only error is want of memory.
    pub fn looks(&self, rules: &[Rule]) -> Result<usize, AllocError>
        ensures { IfOk result (λ n. n ≡ looked_at rules.now self.now) }
    {
        match shortest(self.alloc, &self.series, &self.postings, rules)? {
            Some(list) => Ok(list.numbers.len()),
            None => Ok(self.series.len()),
        }
    }

    /// A cursor before the samples of a series that are later than a time. It takes no memory, and looks at no more than
    /// 42 times.
    #[tactic(auto, using(crate::proofs::Stores::few_there, crate::proofs::Stores::rising_there, crate::proofs::Stores::rising_later, crate::proofs::Stores::total_later, crate::proofs::Stores::total_rising, crate::proofs::Stores::total_whole))]
    pub fn seek<W: Ledger>(&self, s: u32, after: Ms, work: &mut Work<W>) -> Cursor<'_>
        requires { s < length self.now }
        ensures whole { (one : Names × Samples) → slice_get self.now s ≡ Some one → result.before ++ result.rest ≡ one.1 }
        ensures later { (one : Names × Samples) → slice_get self.now s ≡ Some one → result.rest ≡ later_than after one.1 }
        ensures stands { result.before ++ result.rest ≡ samples_at self.now s }
        ensures ahead { result.rest ≡ later_than after (samples_at self.now s) }
        ensures rising { IsRising result.rest }
        ensures sorted { IsRising (samples_at self.now s) }
        ensures probed { work.new.probed ≤ work.old.probed + 42 }
        ensures fetched { work.new.fetched ≡ work.old.fetched }
        ensures tested { work.new.tested ≡ work.old.tested }
    {
        samples_at(&self.series, s as usize).seek(after, work)
    }

    /// The cursor of a series before which so many samples lie. It takes no memory, shows no sample and counts nothing.
    #[tactic(auto, using(crate::proofs::Stores::few_there, crate::proofs::Stores::total_whole))]
    pub fn resume(&self, s: u32, place: u32) -> Cursor<'_>
        requires there { s < length self.now }
        requires within { (one : Names × Samples) → slice_get self.now s ≡ Some one → place ≤ length one.1 }
        ensures whole { (one : Names × Samples) → slice_get self.now s ≡ Some one → result.before ++ result.rest ≡ one.1 }
        ensures stands { result.before ++ result.rest ≡ samples_at self.now s }
        ensures place { length result.before ≡ place }
    {
        samples_at(&self.series, s as usize).resume(place)
    }

    /// Puts a sample into the series with these labels, in its place by time; where an equal one is there, nothing
    /// changes and no memory is taken. It refuses, in this order, with Conflict another value at that time, with
    /// TooManySeries a series beyond 100,000 and with TooManySamples a sample beyond 2,000,000; only where none of these
    /// stands against it can memory run out. After an error the store is as it was.
    #[tactic(auto, using(crate::proofs::Stores::told_refused, crate::proofs::Stores::told_there, crate::proofs::Stores::told_done, crate::proofs::Stores::told_left, crate::proofs::Stores::told_same))]
    pub fn append(&mut self, labels: &Labels, at: Ms, held: &Held) -> Result<(), StoreRefusal>
        ensures refused { MatchOption (refusal_of self.old labels.now at held.now) (IsOkUnless result StoreRefusal.Memory) (λ e. result ≡ Err e) }
        ensures taken { held_in (samples_of self.old labels.now) at ≡ Some held.now → IsOk result }
        ensures same { held_in (samples_of self.old labels.now) at ≡ Some held.now → self.new ≡ self.old }
        ensures ok { OnOk result (self.new ≡ with_sample self.old labels.now at held.now) }
        ensures err { OnErr result (self.new ≡ self.old) }
    {
        self.append_one(labels, at, held, 0)
    }

    /// The same where so many more samples are about to follow: a new series takes room for them at once.
    #[tactic(auto, using(crate::proofs::Stores::told_refused, crate::proofs::Stores::told_there, crate::proofs::Stores::told_done, crate::proofs::Stores::told_left, crate::proofs::Stores::told_same))]
    pub fn append_before(
        &mut self,
        labels: &Labels,
        at: Ms,
        held: &Held,
        more: u32,
    ) -> Result<(), StoreRefusal>
        ensures refused { MatchOption (refusal_of self.old labels.now at held.now) (IsOkUnless result StoreRefusal.Memory) (λ e. result ≡ Err e) }
        ensures taken { held_in (samples_of self.old labels.now) at ≡ Some held.now → IsOk result }
        ensures same { held_in (samples_of self.old labels.now) at ≡ Some held.now → self.new ≡ self.old }
        ensures ok { OnOk result (self.new ≡ with_sample self.old labels.now at held.now) }
        ensures err { OnErr result (self.new ≡ self.old) }
    {
        self.append_one(labels, at, held, more)
    }

    /// The same for the series with a number, whose labels aren't looked up. No series changes its number.
    #[tactic(auto, using(crate::proofs::Stores::told_refused, crate::proofs::Stores::told_there, crate::proofs::Stores::told_done, crate::proofs::Stores::told_left, crate::proofs::Stores::told_same))]
    pub fn append_to(&mut self, s: u32, at: Ms, held: &Held) -> Result<(), StoreRefusal>
        requires { s < length self.old }
        ensures refused { MatchOption (refusal_of self.old (labels_at self.old s) at held.now) (IsOkUnless result StoreRefusal.Memory) (λ e. result ≡ Err e) }
        ensures taken { held_in (samples_of self.old (labels_at self.old s)) at ≡ Some held.now → IsOk result }
        ensures same { held_in (samples_of self.old (labels_at self.old s)) at ≡ Some held.now → self.new ≡ self.old }
        ensures ok { OnOk result (self.new ≡ with_sample self.old (labels_at self.old s) at held.now) }
        ensures err { OnErr result (self.new ≡ self.old) }
        ensures many { length self.new ≡ length self.old }
        ensures named { (k : ℕ) → labels_at self.new k ≡ labels_at self.old k }
    {
        self.add_sample(s as usize, at, held)
    }

    #[tactic(auto, using(crate::proofs::Stores::number_found))]
    fn append_one(
        &mut self,
        labels: &Labels,
        at: Ms,
        held: &Held,
        more: u32,
    ) -> Result<(), StoreRefusal>
        ensures appends { Appends self.old self.new labels.now at held.now result }
        ensures rising { AllByRecursion (λ (s : Names × Samples). IsRising s.1) self.old }
    {
        match place_of(&self.series, self.latest, labels) {
            Some(place) => self.add_sample(place, at, held),
            None => self.add_series(labels, at, held, more),
        }
    }

    /// Puts a sample into a series that is there.
    fn add_sample(&mut self, place: usize, at: Ms, held: &Held) -> Result<(), StoreRefusal>
        requires { place < length self.old }
        ensures appends { Appends self.old self.new (labels_at self.old place) at held.now result }
        ensures rising { AllByRecursion (λ (s : Names × Samples). IsRising s.1) self.old }
        ensures many { length self.new ≡ length self.old }
        ensures named { (k : ℕ) → labels_at self.new k ≡ labels_at self.old k }
    {
        match put_at(&mut self.series, place, at, held, self.samples) {
            Ok(total) => {
                self.samples = total;
                self.latest = place;
                Ok(())
            }
            Err(e) => Err(e),
        }
    }

    /// Puts in a series of one sample, with room for so many more.
    #[tactic(auto, using(crate::proofs::Stores::store_relisted))]
    fn add_series(
        &mut self,
        labels: &Labels,
        at: Ms,
        held: &Held,
        more: u32,
    ) -> Result<(), StoreRefusal>
        requires absent { lookup (labels_eq labels.now) self.old ≡ None }
        ensures { Appends self.old self.new labels.now at held.now result }
    {
        let place = self.series.len();
        if place >= MOST_SERIES {
            return Err(StoreRefusal::TooManySeries);
        }
        if self.samples >= MOST_SAMPLES {
            return Err(StoreRefusal::TooManySamples);
        }
        match one_sample(self.alloc, labels, at, held, more) {
            Err(_) => Err(StoreRefusal::Memory),
            Ok((names, samples)) => {
                match put_series(
                    self.alloc,
                    &mut self.series,
                    &mut self.postings,
                    names,
                    samples,
                ) {
                    Err(_) => Err(StoreRefusal::Memory),
                    Ok(()) => {
                        self.samples += 1;
                        self.latest = place;
                        Ok(())
                    }
                }
            }
        }
    }
}

/// The labels of the series at a place, counted from 0.
pub fn key_at(series: &IndexMap<Labels, Timeline>, i: usize) -> &Labels
    requires { i < length series.now.entries }
    ensures { option_map (λ (one : Names × Samples). one.0) (slice_get series.now.entries i) ≡ Some result.now }
{
    series.get_index(i).unwrap().0
}

fn samples_at(series: &IndexMap<Labels, Timeline>, i: usize) -> &Timeline
    requires { i < length series.now.entries }
    ensures { option_map (λ (one : Names × Samples). one.1) (slice_get series.now.entries i) ≡ Some result.now }
{
    series.get_index(i).unwrap().1
}

/// Puts a sample into the series at a place.
fn put_at(
    series: &mut IndexMap<Labels, Timeline>,
    place: usize,
    at: Ms,
    held: &Held,
    count: u32,
) -> Result<u32, StoreRefusal>
    requires within { place < length series.old.entries }
    requires rising { AllByRecursion (λ (s : Names × Samples). IsRising s.1) series.old.entries }
    requires counted { count ≡ sample_count series.old.entries }
    requires few { count ≤ 2000000 }
    ensures { PutsAt series.old.entries series.new.entries place at held.now count result }
{
    let (_, samples) = series.pair_mut(place);
    samples.put(at, held, count)
}

/// The place of the series with these labels; that of the last sample is tried before any search.
fn place_of(series: &IndexMap<Labels, Timeline>, latest: usize, labels: &Labels) -> Option<usize>
    ensures { MatchOption result (lookup (labels_eq labels.now) series.now.entries ≡ None) (IsFoundAt series.now.entries labels.now) }
{
    if latest < series.len() && key_at(series, latest).is_same(labels) {
        return Some(latest);
    }
    match series.get_full(labels) {
        Some((i, _, _)) => Some(i),
        None => None,
    }
}

/// A new series of one sample, with room for so many more.
#[tactic(auto, using(crate::proofs::Chunks::rising_none))]
fn one_sample(
    alloc: Global,
    labels: &Labels,
    at: Ms,
    held: &Held,
    more: u32,
) -> Result<(Labels, Timeline), AllocError>
    ensures one { IfOk result (λ one. one ≡ (labels.now, (at, held.now) ∷ [])) }
    ensures labelled { IsLabelSet labels.now }
{
    // Where their number is told, it is told too what labels are.
    let _ = labels.len();
    let mut samples = Timeline::new(alloc);
    match samples.put(at, held, 0) {
        Err(_) => Err(AllocError),
        Ok(_) => {
            samples.make_room(more)?;
            Ok((labels.copy()?, samples))
        }
    }
}
