//! A tree that goes a walk.
ghost use Rattle.plan_tree.specs.Chains.{Chain, HasBegun, IsComing, IsReady, IsSame, IsTurn};
ghost use Rattle.plan_tree.specs.Counting.{fetched_by};
ghost use Rattle.plan_tree.specs.Feeding.{HasGone};
ghost use Rattle.plan_tree.specs.Nodes.{IsThere, lent_by, shape_of};
ghost use Rattle.plan_tree.specs.Shapes.{is_single, rule};
ghost use Rattle.plan_tree.specs.Spending.{HasSpent, IsWithinBound};
ghost use Rattle.plan_tree.specs.Worlds.{Gathers, world};
ghost use Rattle.sample_store.specs.Samples.{AllSeries};
ghost use Rattle.std.specs.Prelude.{◌≡◌, ◌+◌, ◌<◌, ◌≤◌, List, [], None, Option, Some, length, map, true, if◌then◌else◌, IfNone, IfOk, IfSome, OnOk};
ghost use Rattle.step_batch.specs.Lent.{stages};
ghost use Rattle.step_table.specs.Timed.{steps_over};
ghost use Rattle.ticks.specs.Works.{Counts};
ghost use Rattle.ticks.specs.declared.moment.Ms.{Ms};

use crate::laws::spending_is_bounded;
use crate::node::Node;
use crate::outside::feed_over;
use crate::turns::{Fed, fed_with, next_instants};
use exchange::{Exchange, RunFault};
use match_rule::Patterns;
use remote_api::{Courier, Engine};
use sample_store::Store;
use std::alloc::Global;
use std::sync::ledger::Ledger;
use step_batch::Batch;
use step_table::laws::{steps_are_well_formed, unions_are_sets};
use ticks::{Grid, Ms, Walk, Work, walks_are_listed};

/// A tree of kernels and the walk that it goes, with what it was fed so far, and how many instants it is fed at once at most; the
/// exchange that its gathers stand in, and, until the asks of these are made, the grid of the query, over which they are made.
#[derive(Drop)]
pub struct Tree {
    alloc: Global,
    node: Node,
    walk: Walk,
    fed: Option<Fed>,
    batch: usize,
    exchange: Exchange,
    asking: Option<Grid>,
}

impl Tree {
    /// A tree without gathers before its walk's first instant, which is fed at most so many instants at once; one where there is a
    /// subquery. It takes no memory.
    pub fn new(alloc: Global, node: Node, walk: Walk, batch: usize) -> Tree
        ensures node { result.node ≡ node }
        ensures walk { result.walk ≡ walk }
        ensures fed { result.fed ≡ None }
        ensures batch { result.batch ≡ (if is_single (shape_of node) then 1 else batch) }
        ensures asking { result.asking ≡ None }
        ensures exchange { result.exchange ≡ record { most = 1; requests = []; places = [] } }
    {
        let exchange = Exchange::new(alloc, 1);
        Tree::made(alloc, node, walk, batch, exchange, None)
    }

    /// A tree before its walk's first instant, whose gathers stand in an exchange that has made no asks yet; it is fed at most so
    /// many instants at once, and one where there is a subquery or a gather. At its first turn the asks are made, for a query over
    /// this grid. It takes no memory.
    pub fn over(
        alloc: Global,
        node: Node,
        walk: Walk,
        batch: usize,
        exchange: Exchange,
        span: Grid,
    ) -> Tree
        ensures node { result.node ≡ node }
        ensures walk { result.walk ≡ walk }
        ensures fed { result.fed ≡ None }
        ensures batch { result.batch ≡ (if is_single (shape_of node) then 1 else batch) }
        ensures exchange { result.exchange ≡ exchange }
        ensures asking { result.asking ≡ Some span }
    {
        Tree::made(alloc, node, walk, batch, exchange, Some(span))
    }

    fn made(
        alloc: Global,
        node: Node,
        walk: Walk,
        batch: usize,
        exchange: Exchange,
        asking: Option<Grid>,
    ) -> Tree
        ensures node { result.node ≡ node }
        ensures walk { result.walk ≡ walk }
        ensures fed { result.fed ≡ None }
        ensures batch { result.batch ≡ (if is_single (shape_of node) then 1 else batch) }
        ensures exchange { result.exchange ≡ exchange }
        ensures asking { result.asking ≡ asking }
    {
        let batch = if node.is_single() { 1 } else { batch };
        Tree {
            alloc,
            node,
            walk,
            fed: None,
            batch,
            exchange,
            asking,
        }
    }

    /// Makes the asks of the gathers, all at once and in their order, if they weren't made. An engine that fails is told, and want of
    /// memory; then the tree may only be dropped.
    fn begin(
        &mut self,
        engines: &mut [Box<dyn Engine>],
        patterns: &mut Patterns<'_>,
    ) -> Result<(), RunFault>
        requires { (store : AllSeries) × (known : Option Gathers) × IsReady store patterns.old known (map (λ b. seen b) engines.old) self.old }
        ensures begun { OnOk result ((store : AllSeries) (known : Option Gathers) → IsReady store patterns.old known (map (λ b. seen b) engines.old) self.old
            → HasBegun store patterns.old known (map (λ b. seen b) engines.new) self.new) }
        ensures node { self.new.node ≡ self.old.node }
        ensures walk { self.new.walk ≡ self.old.walk }
        ensures fed { self.new.fed ≡ self.old.fed }
        ensures batch { self.new.batch ≡ self.old.batch }
        ensures asking { OnOk result (self.new.asking ≡ None) }
        ensures run { HasGone result (map (λ b. seen b) engines.old) (map (λ b. seen b) engines.new) }
        ensures patterns { patterns.new ≡ patterns.old }
    {
        unions_are_sets();
        steps_are_well_formed();
        walks_are_listed();
        match self.asking {
            None => Ok(()),
            Some(span) => {
                self.exchange.open(&span, engines, patterns)?;
                self.asking = None;
                Ok(())
            }
        }
    }

    /// Goes on by one to `batch` instants of the walk; there is none left where it answers false. The first call makes all asks of its
    /// gathers, and then each of them pulls for its own next step. An engine that fails or strays is told, and want of memory; after
    /// either the tree may only be dropped. On any answer the counters rose since the tree's start by at most the bound over its whole
    /// walk; where a turn is made, that of the samples rises by exactly what the leaves were given in it.
    pub fn step<C: Courier, W: Ledger>(
        &mut self,
        store: &Store,
        engines: &mut [Box<dyn Engine>],
        patterns: &mut Patterns<'_>,
        courier: &mut C,
        work: &mut Work<W>,
    ) -> Result<bool, RunFault>
        requires { (known : Option Gathers) × IsReady store.now patterns.old known (map (λ b. seen b) engines.old) self.old }
        ensures ready { OnOk result ((known : Option Gathers) → IsReady store.now patterns.old known (map (λ b. seen b) engines.old) self.old → IsReady store.now patterns.old known (map (λ b. seen b) engines.new) self.new) }
        ensures same { OnOk result (IsSame self.old self.new) }
        ensures patterns { patterns.new ≡ patterns.old }
        ensures turn { IfOk result (λ more. (known : Option Gathers) → IsReady store.now patterns.old known (map (λ b. seen b) engines.old) self.old → (at : List Ms) × IsTurn store.now patterns.old known self.old self.new more at) }
        ensures there { IfOk result (λ more. more ≡ true → IsThere self.new.exchange.places self.new.node) }
        ensures run { HasGone result (map (λ b. seen b) engines.old) (map (λ b. seen b) engines.new) }
        ensures bounded { (start : Counts) → HasSpent store.now self.old start work.old → IsWithinBound store.now self.old.walk (shape_of self.old.node) start work.new }
        ensures spent { OnOk result ((start : Counts) → HasSpent store.now self.old start work.old → HasSpent store.now self.new start work.new) }
        ensures counted { OnOk result (work.new.fetched + fetched_by store.now self.old.fed self.old.node ≡ work.old.fetched + fetched_by store.now self.new.fed self.new.node) }
    {
        spending_is_bounded();
        walks_are_listed();
        let _ = store.series();
        self.begin(engines, patterns)?;
        let at = next_instants(self.alloc, &self.walk, self.fed, self.batch)?;
        let at = at.as_slice();
        if at.is_empty() {
            return Ok(false);
        }
        feed_over(
            &mut self.node,
            store,
            self.fed,
            at,
            &mut self.exchange,
            engines,
            patterns,
            courier,
            work,
        )?;
        self.fed = fed_with(self.fed, at);
        Ok(true)
    }

    /// Lends the steps of the last turn. It takes no memory.
    pub fn lend(&self) -> Batch<'_>
        requires { IsThere self.now.exchange.places self.now.node }
        ensures { result ≡ lent_by self.now.exchange.places self.now.node }
    {
        self.node.lend(&self.exchange)
    }

    /// The steps of the next one to `batch` instants of the walk; there is none exactly behind its last one. Errors, and the counters,
    /// are those of `step`.
    pub fn next<C: Courier, W: Ledger>(
        &mut self,
        store: &Store,
        engines: &mut [Box<dyn Engine>],
        patterns: &mut Patterns<'_>,
        courier: &mut C,
        work: &mut Work<W>,
    ) -> Result<Option<Batch<'_>>, RunFault>
        requires { (known : Option Gathers) × IsReady store.now patterns.old known (map (λ b. seen b) engines.old) self.old }
        ensures lent { IfOk result (λ given. IfSome given (λ batch. (known : Option Gathers) → IsReady store.now patterns.old known (map (λ b. seen b) engines.old) self.old
            → (at : List Ms) × Chain self.old.walk self.old.fed at × (0 < length at) × (length at ≤ self.old.batch)
            × IfSome known (λ gathers. stages batch ≡ steps_over (rule (world store.now gathers) patterns.old (shape_of self.old.node)) at))) }
        ensures over { IfOk result (λ given. IfNone given (IsComing self.old.walk self.old.fed None)) }
        ensures run { HasGone result (map (λ b. seen b) engines.old) (map (λ b. seen b) engines.new) }
        ensures bounded { (start : Counts) → HasSpent store.now self.old start work.old → IsWithinBound store.now self.old.walk (shape_of self.old.node) start work.new }
    {
        if self.step(store, engines, patterns, courier, work)? {
            Ok(Some(self.lend()))
        } else {
            Ok(None)
        }
    }
}
