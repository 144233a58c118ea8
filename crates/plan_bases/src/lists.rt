//! The series of lists of rules, put together leaf by leaf.
ghost use Rattle.match_rule.specs.Patterns.{HaveTheirPatterns};
ghost use Rattle.plan_bases.specs.Bases.{AreRight, AreSeries, Holds, HoldsEach, HoldsLeaf, HoldsLeaves, Stays, is_under, series_under};
ghost use Rattle.plan_bases.specs.Looks.{LooksAt, filter_tests, filters_test, leaf_tests, leaves_look_behind};
ghost use Rattle.plan_bases.specs.RuleEquality.{rules_eq};
ghost use Rattle.sample_store.specs.Samples.{looked_at};
ghost use Rattle.std.specs.Prelude.{◌≡◌, ◌<◌, ◌+◌, ◌*◌, ◌++◌, ◌↔◌, List, [], Some, false, true, option_map, IfOk, IfSome, IsSome, IsTrue, OnOk, if◌then◌else◌};

use crate::kept::are_rules_kept;
use crate::leaves::Leaf;
use crate::rule_list::RuleList;
use crate::testing::passing;
use holders::Items;
use indexmap::IndexMap;
use label_set::Rule;
use match_rule::Patterns;
use sample_store::Store;
use std::alloc::{AllocError, Global};
use std::marker::Model;
use std::sync::ledger::Ledger;
use ticks::Work;

/// Lists of rules with the numbers of the series that pass them, each list once. Contracts see the lists, each beside its numbers.
#[derive(Drop)]
pub(crate) struct SeriesLists {
    alloc: Global,
    lists: IndexMap<RuleList, Items<u32>>,
}

impl Model for SeriesLists {
    ghost use Rattle.plan_bases.specs.Bases.{Lists};

    ghost Value = { Lists };

    ghost view = { λ l. l.lists.entries };
}

impl SeriesLists {
    /// No lists. It takes no memory.
    pub fn new(alloc: Global) -> SeriesLists
        ensures { result ≡ [] }
    {
        SeriesLists {
            alloc,
            lists: IndexMap::new(alloc),
        }
    }

    /// The series that pass rules, if these are there. The only error is want of memory.
    pub fn series(&self, rules: &Items<Rule>) -> Result<Option<&Items<u32>>, AllocError>
        ensures { IfOk result (λ o. option_map (λ s. s.now) o ≡ series_under self.now rules.now) }
    {
        let key = RuleList::of(rules)?;
        Ok(self.lists.get(&key))
    }

    /// Whether rules are there. The only error is want of memory.
    fn has(&self, rules: &Items<Rule>) -> Result<bool, AllocError>
        ensures { IfOk result (λ b. b ≡ is_under self.now rules.now) }
    {
        let key = RuleList::of(rules)?;
        Ok(self.lists.contains_key(&key))
    }

    /// Puts the series of rules there. The only error is want of memory.
    fn put(&mut self, rules: Items<Rule>, series: Items<u32>) -> Result<(), AllocError>
        ensures { OnOk result ((others : List Rule) → series_under self.new others ≡ (if rules_eq rules others then Some series else series_under self.old others)) }
    {
        match self.lists.insert(RuleList::new(rules), series) {
            Ok(_) => Ok(()),
            Err(_) => Err(AllocError),
        }
    }

    /// Selects the series of rules, where these aren't there yet and their patterns are kept. Then exactly the series that the rules look
    /// at are counted as tested, and else none.
    fn select<W: Ledger>(
        &mut self,
        rules: &Items<Rule>,
        store: &Store,
        patterns: &mut Patterns<'_>,
        work: &mut Work<W>,
    ) -> Result<(), AllocError>
        requires { AreRight patterns.old store.now self.old }
        ensures right { OnOk result (AreRight patterns.old store.now self.new) }
        ensures stays { OnOk result (Stays self.old self.new) }
        ensures holds { OnOk result (Holds patterns.old self.new rules.now) }
        ensures known { Holds patterns.old self.old rules.now → LooksAt work.old work.new 0 }
        ensures tested { LooksAt work.old work.new (looked_at rules.now store.now) }
        ensures counted { HaveTheirPatterns patterns.old rules.now → is_under self.old rules.now ≡ false → IfOk result (λ _. work.new.tested ≡ work.old.tested + looked_at rules.now store.now) }
        ensures uncounted { Holds patterns.old self.old rules.now → work.new.tested ≡ work.old.tested }
        ensures same { patterns.new ≡ patterns.old }
    {
        if !are_rules_kept(patterns, rules.as_slice()) {
            return Ok(());
        }
        if self.has(rules)? {
            return Ok(());
        }
        self.select_new(rules, store, patterns, work)
    }

    /// Selects the series of rules, whose patterns are kept. Exactly the series that the rules look at are counted as tested.
    fn select_new<W: Ledger>(
        &mut self,
        rules: &Items<Rule>,
        store: &Store,
        patterns: &mut Patterns<'_>,
        work: &mut Work<W>,
    ) -> Result<(), AllocError>
        requires right { AreRight patterns.old store.now self.old }
        requires patterns { HaveTheirPatterns patterns.old rules.now }
        ensures right { OnOk result (AreRight patterns.old store.now self.new) }
        ensures stays { OnOk result (Stays self.old self.new) }
        ensures there { OnOk result (is_under self.new rules.now ≡ true) }
        ensures tested { LooksAt work.old work.new (looked_at rules.now store.now) }
        ensures counted { IfOk result (λ _. work.new.tested ≡ work.old.tested + looked_at rules.now store.now) }
        ensures same { patterns.new ≡ patterns.old }
    {
        let series = store.select(rules, patterns, work)?;
        self.put(rules.copy()?, series)
    }

    /// Of the series of rules, if these are there, those that pass the rules of a filter too. They are looked for where the fewest are: they
    /// are selected by the joined rules where that looks at fewer series than there are tests of each series by each rule of the filter, and
    /// exactly these series or these tests are counted.
    fn narrowed<W: Ledger>(
        &self,
        under: &Items<Rule>,
        more: &Items<Rule>,
        joined: &Items<Rule>,
        store: &Store,
        patterns: &mut Patterns<'_>,
        work: &mut Work<W>,
    ) -> Result<Option<Items<u32>>, AllocError>
        requires right { AreRight patterns.old store.now self.now }
        requires joined { joined.now ≡ under.now ++ more.now }
        requires patterns { HaveTheirPatterns patterns.old joined.now }
        ensures series { IfOk result (λ o. IfSome o (AreSeries patterns.old store.now joined.now)) }
        ensures there { is_under self.now under.now ≡ true → IfOk result IsSome }
        ensures tested { LooksAt work.old work.new (filter_tests patterns.old store.now under.now more.now) }
        ensures counted { IfOk result (λ o. IfSome o (λ _. work.new.tested ≡ work.old.tested + filter_tests patterns.old store.now under.now more.now)) }
        ensures same { patterns.new ≡ patterns.old }
    {
        let Some(series) = self.series(under)? else {
            return Ok(None);
        };
        let numbers = series.as_slice();
        let rules = more.as_slice();
        if is_less(store.looks(joined.as_slice())?, numbers.len(), rules.len()) {
            return Ok(Some(store.select(joined, patterns, work)?));
        }
        let found = passing(self.alloc, numbers, rules, store, patterns, work)?;
        Ok(Some(found))
    }

    /// The series that rules and those of a filter behind them choose, of those that the rules choose, where the two together aren't there
    /// yet and their patterns are kept. Then exactly what the filter tests is counted, and else nothing.
    fn filter<W: Ledger>(
        &mut self,
        under: &Items<Rule>,
        more: &Items<Rule>,
        store: &Store,
        patterns: &mut Patterns<'_>,
        work: &mut Work<W>,
    ) -> Result<Items<Rule>, AllocError>
        requires right { AreRight patterns.old store.now self.old }
        requires under { Holds patterns.old self.old under.now }
        ensures rules { IfOk result (λ rules. rules ≡ under.now ++ more.now) }
        ensures right { OnOk result (AreRight patterns.old store.now self.new) }
        ensures stays { OnOk result (Stays self.old self.new) }
        ensures holds { OnOk result (Holds patterns.old self.new (under.now ++ more.now)) }
        ensures tested { LooksAt work.old work.new (filter_tests patterns.old store.now under.now more.now) }
        ensures counted { HaveTheirPatterns patterns.old (under.now ++ more.now) → is_under self.old (under.now ++ more.now) ≡ false → IfOk result (λ _. work.new.tested ≡ work.old.tested + filter_tests patterns.old store.now under.now more.now) }
        ensures uncounted { Holds patterns.old self.old (under.now ++ more.now) → work.new.tested ≡ work.old.tested }
        ensures same { patterns.new ≡ patterns.old }
    {
        let mut rules = under.copy()?;
        rules.extend_from_slice(more.as_slice())?;
        if !are_rules_kept(patterns, rules.as_slice()) {
            return Ok(rules);
        }
        if self.has(&rules)? {
            return Ok(rules);
        }
        match self.narrowed(under, more, &rules, store, patterns, work)? {
            None => Ok(rules),
            Some(series) => {
                self.put(rules.copy()?, series)?;
                Ok(rules)
            }
        }
    }

    /// The same of each of some filters, one behind another.
    fn filter_each<W: Ledger>(
        &mut self,
        under: &Items<Rule>,
        filters: &[Items<Rule>],
        store: &Store,
        patterns: &mut Patterns<'_>,
        work: &mut Work<W>,
    ) -> Result<(), AllocError>
        requires right { AreRight patterns.old store.now self.old }
        requires under { Holds patterns.old self.old under.now }
        ensures right { OnOk result (AreRight patterns.old store.now self.new) }
        ensures stays { OnOk result (Stays self.old self.new) }
        ensures holds { OnOk result (HoldsEach patterns.old self.new under.now filters.now) }
        ensures tested { LooksAt work.old work.new (filters_test patterns.old store.now under.now filters.now) }
        ensures same { patterns.new ≡ patterns.old }
    {
        match filters {
            [] => Ok(()),
            [more, rest @ ..] => {
                let rules = self.filter(under, more, store, patterns, work)?;
                self.filter_each(&rules, rest, store, patterns, work)
            }
        }
    }

    /// The series of a leaf's selector and of its filters.
    fn add<W: Ledger>(
        &mut self,
        leaf: &Leaf,
        store: &Store,
        patterns: &mut Patterns<'_>,
        work: &mut Work<W>,
    ) -> Result<(), AllocError>
        requires { AreRight patterns.old store.now self.old }
        ensures right { OnOk result (AreRight patterns.old store.now self.new) }
        ensures stays { OnOk result (Stays self.old self.new) }
        ensures holds { OnOk result (HoldsLeaf patterns.old self.new leaf.now) }
        // a selector that is there already is looked for no more
        ensures known { Holds patterns.old self.old leaf.now.base → LooksAt work.old work.new (leaf_tests patterns.old store.now leaf.now) }
        ensures tested { LooksAt work.old work.new (looked_at leaf.now.base store.now + leaf_tests patterns.old store.now leaf.now) }
        ensures same { patterns.new ≡ patterns.old }
    {
        self.select(&leaf.base, store, patterns, work)?;
        self.filter_each(&leaf.base, leaf.filters.as_slice(), store, patterns, work)
    }

    /// The series of all of some leaves.
    pub fn add_all<W: Ledger>(
        &mut self,
        leaves: &[Leaf],
        store: &Store,
        patterns: &mut Patterns<'_>,
        work: &mut Work<W>,
    ) -> Result<(), AllocError>
        requires { self.old ≡ [] }
        ensures right { OnOk result (AreRight patterns.old store.now self.new) }
        ensures holds { OnOk result (HoldsLeaves patterns.old self.new leaves.now) }
        ensures tested { LooksAt work.old work.new (leaves_look_behind patterns.old store.now [] leaves.now) }
        ensures same { patterns.new ≡ patterns.old }
    {
        for leaf in leaves {
            self.add(leaf, store, patterns, work)?;
        }
        Ok(())
    }
}

/// Whether so many series are fewer than the tests of some series by some rules.
fn is_less(looks: usize, series: usize, rules: usize) -> bool
    ensures { IsTrue result ↔ looks < series * rules }
{
    match series.checked_mul(rules) {
        Some(tests) => looks < tests,
        None => true,
    }
}
