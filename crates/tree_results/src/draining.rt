//! A tree goes its walk, and its steps are collected.
ghost use Rattle.exchange.specs.declared.fault.RunFault.TheVariants as run;
ghost use Rattle.plan_tree.specs.Chains.{IsReady};
ghost use Rattle.plan_tree.specs.Feeding.{HasGone};
ghost use Rattle.plan_tree.specs.Nodes.{shape_of};
ghost use Rattle.plan_tree.specs.Shapes.{rule};
ghost use Rattle.plan_tree.specs.Spending.{HasSpent, IsWithinBound};
ghost use Rattle.plan_tree.specs.Worlds.{Gathers, world};
ghost use Rattle.promql_meaning.specs.Results.{first_stop, grid_times};
ghost use Rattle.result_rows.specs.Taken.{HasTaken};
ghost use Rattle.std.specs.Prelude.{◌≡◌, ◌++◌, List, None, Option, Some, map, IfErr, IfOk};
ghost use Rattle.step_batch.specs.Lent.{stages};
ghost use Rattle.step_table.specs.Timed.{StepAt, steps_over};
ghost use Rattle.ticks.specs.Works.{Counts};
ghost use Rattle.ticks.specs.declared.walk.Walk.{Grid as GridWalk};
ghost use Rattle.tree_results.specs.Drained.{IsDrained};

use exchange::RunFault;
use match_rule::Patterns;
use plan_tree::Tree;
use plan_tree::laws::{turns_are_the_walk, turns_follow};
use promql_meaning::Outcome;
use remote_api::{Courier, Engine};
use result_rows::Collected;
use result_rows::laws::stopped_is_judged;
use sample_store::Store;
use std::alloc::{AllocError, Global};
use std::sync::ledger::Ledger;
use step_batch::Batch;
use ticks::{Grid, Work, instants_are_numbered};

/// What the steps of a tree come to.
#[derive(Drop)]
pub enum Drained {
    /// An instant at which the evaluation ends early; of those behind its batch nothing was computed.
    Stopped(Outcome),
    /// All instants.
    Done(Collected),
}

/// Takes the steps of a turn, as `Collected::take` does. The only error is want of memory; then what was collected may only be dropped.
fn taken(collected: &mut Collected, batch: &Batch<'_>) -> Result<Option<Outcome>, RunFault>
    ensures stop { IfOk result (λ stop. (steps : List StepAt) → HasTaken collected.old steps → first_stop 0 (steps ++ stages batch.now) ≡ stop) }
    ensures memory { IfErr result (λ fault. fault ≡ run.Memory) }
    ensures taken { IfOk result (λ stop. stop ≡ None → (steps : List StepAt) → HasTaken collected.old steps → HasTaken collected.new (steps ++ stages batch.now)) }
{
    match collected.take(batch) {
        Ok(stop) => Ok(stop),
        Err(AllocError) => Err(RunFault::Memory),
    }
}

/// What the steps of a tree at the instants of a grid, which is its walk, come to: the outcome of the first instant that has a fatal
/// mark, or with which there are more than 4,000,000 rows, counted over all instants so far; or else what is collected of all
/// of them. The tree goes on batch by batch, over these engines. The patterns stay as they are. An engine that fails or strays is told,
/// and want of memory; an engine that is told has failed or strayed in this call, and none has where no fault is told. On any answer the
/// counters rose since the tree's start by at most the bound over its whole walk.
pub fn drain<C: Courier, W: Ledger>(
    alloc: Global,
    tree: &mut Tree,
    grid: &Grid,
    store: &Store,
    engines: &mut [Box<dyn Engine>],
    patterns: &mut Patterns<'_>,
    courier: &mut C,
    work: &mut Work<W>,
) -> Result<Drained, RunFault>
    requires ready { (known : Option Gathers) × IsReady store.now patterns.old known (map (λ b. seen b) engines.old) tree.old }
    requires fresh { tree.old.fed ≡ None }
    requires walk { tree.old.walk ≡ GridWalk grid.now }
    ensures drained { IfOk result (λ drained. (gathers : Gathers) → IsReady store.now patterns.old (Some gathers) (map (λ b. seen b) engines.old) tree.old
        → IsDrained (steps_over (rule (world store.now gathers) patterns.old (shape_of tree.old.node)) (grid_times grid.now)) drained) }
    ensures run { HasGone result (map (λ b. seen b) engines.old) (map (λ b. seen b) engines.new) }
    ensures same { patterns.new ≡ patterns.old }
    ensures bounded { (start : Counts) → HasSpent store.now tree.old start work.old → IsWithinBound store.now tree.old.walk (shape_of tree.old.node) start work.new }
{
    instants_are_numbered();
    turns_are_the_walk();
    turns_follow();
    stopped_is_judged();
    let mut collected = Collected::new(alloc);
    while tree.step(store, engines, patterns, courier, work)? {
        if let Some(outcome) = taken(&mut collected, &tree.lend())? {
            return Ok(Drained::Stopped(outcome));
        }
    }
    Ok(Drained::Done(collected))
}
