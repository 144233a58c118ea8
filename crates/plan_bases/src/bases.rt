//! The series of a plan's selectors and of the filters over them.
ghost use Rattle.plan_bases.specs.Bases.{AreRight, HoldsPlan, series_under};
ghost use Rattle.plan_bases.specs.Looks.{LooksAt, plan_looks};
ghost use Rattle.std.specs.Prelude.{◌≡◌, IfOk, option_map};

use crate::leaves::find;
use crate::lists::SeriesLists;
use holders::Items;
use label_set::Rule;
use logical_plan::Plan;
use match_rule::Patterns;
use sample_store::Store;
use std::alloc::{AllocError, Global};
use std::marker::Model;
use std::sync::ledger::Ledger;
use ticks::Work;

/// Lists of rules with the series of a store that pass them. Contracts see the store's series, and the lists, each beside the numbers of
/// its series.
#[derive(Drop)]
pub struct Bases<'s> {
    store: &'s Store,
    lists: SeriesLists,
}

impl<'s> Model for Bases<'s> {
    ghost use Rattle.plan_bases.specs.Bases.{Selections};

    ghost Value = { Selections };

    ghost view = { λ b. record { samples = b.store.now; lists = b.lists } };
}

impl<'s> Bases<'s> {
    /// The series of the selectors of a plan and of the filters over them. Each distinct selector is selected once, and each filter looks
    /// where the fewest are: it tests each series that it stands over with each of its rules, or selects by the rules of both. On every
    /// answer at most these series and tests were counted as tested, and no sample was read. Rules whose patterns aren't kept are left out.
    /// The only error is want of memory. (Filters over selectors are those of thanos-io/promql-engine; that a selector is selected once, and
    /// where a filter looks, is this project's own.)
    pub fn of<W: Ledger>(
        alloc: Global,
        p: &Plan,
        store: &'s Store,
        patterns: &mut Patterns<'_>,
        work: &mut Work<W>,
    ) -> Result<Bases<'s>, AllocError>
        ensures store { IfOk result (λ bases. bases.samples ≡ store.now) }
        ensures right { IfOk result (λ bases. AreRight patterns.old bases.samples bases.lists) }
        ensures holds { IfOk result (λ bases. HoldsPlan patterns.old bases.lists p.now) }
        ensures tested { LooksAt work.old work.new (plan_looks patterns.old store.now p.now) }
        ensures same { patterns.new ≡ patterns.old }
    {
        let mut found = Vec::new(alloc);
        find(alloc, &mut found, p)?;
        let mut lists = SeriesLists::new(alloc);
        lists.add_all(found.as_slice(), store, patterns, work)?;
        Ok(Bases { store, lists })
    }

    /// The numbers of the series that pass rules, if these are there. The only error is want of memory.
    pub fn series(&self, rules: &Items<Rule>) -> Result<Option<&Items<u32>>, AllocError>
        ensures { IfOk result (λ o. option_map (λ s. s.now) o ≡ series_under self.now.lists rules.now) }
    {
        self.lists.series(rules)
    }
}
