//! A typed query by the tree of kernels of its plan.
ghost use Rattle.exchange.specs.declared.fault.RunFault.TheVariants as run;
ghost use Rattle.frac_text.specs.Times.{time_limit};
ghost use Rattle.logical_plan.specs.Placements.{TellApart};
ghost use Rattle.logical_plan.specs.Validity.{IsWithinLimits};
ghost use Rattle.match_rule.specs.Patterns.{HaveTheirPatterns};
ghost use Rattle.phys_plan.specs.Asks.{AreBegun};
ghost use Rattle.plan_tree.specs.Chains.{IsReady};
ghost use Rattle.plan_tree.specs.Feeding.{HasGone};
ghost use Rattle.plan_tree.specs.Nodes.{shape_of};
ghost use Rattle.plan_tree.specs.Shapes.{rule};
ghost use Rattle.plan_tree.specs.Spending.{HasSpent, IsWithinBound};
ghost use Rattle.plan_tree.specs.Worlds.{Gathers, no_gathers, over, world};
ghost use Rattle.promql_ast.specs.Parts.{AreWithin, parts_of};
ghost use Rattle.promql_meaning.specs.Meaning.{meaning_step};
ghost use Rattle.promql_meaning.specs.Results.{grid_times, judged as outcome_of, result_of};
ghost use Rattle.promql_meaning.specs.Selecting.{AllSeries, Asked, asked_over};
ghost use Rattle.promql_type.specs.Judging.{judged};
ghost use Rattle.promql_type.specs.Replacements.{AreKept};
ghost use Rattle.promql_type.specs.TypedTrees.{placed_of, tree_of};
ghost use Rattle.query_engine.specs.Bounds.{SpendsAtMost, evaluated_plan};
ghost use Rattle.query_engine.specs.Engines.{DoNotRise, StandAt};
ghost use Rattle.query_engine.specs.Planning.{choices_of};
ghost use Rattle.remote_api.specs.Seen.{EngineSeen};
ghost use Rattle.result_rows.specs.Taken.{HasTaken};
ghost use Rattle.std.specs.Prelude.{◌≡◌, ◌<◌, ◌^◌, List, None, Ok, Option, Some, length, map, IfErr, IfOk};
ghost use Rattle.step_table.specs.Groups.{Names};
ghost use Rattle.step_table.specs.Timed.{StepAt, steps_over};
ghost use Rattle.ticks.specs.Durations.{hundred_years};
ghost use Rattle.ticks.specs.Works.{Counts};
ghost use Rattle.ticks.specs.declared.walk.Walk.{Grid as GridWalk};

use crate::options::Options;
use crate::planning::{evaluated, gathered};
use exchange::RunFault;
use logical_plan::kept_patterns_are_placed;
use match_rule::Patterns;
use opt_remote::laws::stores_are_not_read;
use phys_plan::laws::steady_onces_stay;
use phys_plan::{Unbuilt, build};
use plain_eval::{is_scalar, order_asked};
use plan_parts::laws::gathers_are_meant;
use plan_serving::laws::served_plans_are_served_over;
use plan_tree::Tree;
use plan_tree::laws::{fresh_trees_begin, turns_follow};
use plan_work::laws::spending_stays_within;
use promql_meaning::Outcome;
use promql_type::Typed;
use remote_api::{Courier, Engine, InOrder};
use result_rows::Collected;
use result_rows::laws::collected_is_judged;
use sample_store::Store;
use std::alloc::{AllocError, Global};
use std::sync::ledger::Ledger;
use ticks::{Grid, Walk, Work};
use tree_results::laws::grids_are_listed;
use tree_results::{Drained, drain};

/// The result of a typed query of which all steps are collected. The only error is want of memory. (Prometheus querying.)
fn finished(
    alloc: Global,
    typed: &Typed,
    collected: Collected,
    instant: bool,
) -> Result<Outcome, AllocError>
    ensures { IfOk result (λ outcome. (steps : List StepAt) → HasTaken collected steps → outcome ≡ outcome_of instant (tree_of typed.now) steps) }
{
    collected_is_judged();
    let order = order_asked(alloc, typed, instant)?;
    let answer = collected.answer(is_scalar(typed), order)?;
    Ok(Outcome::Answer(answer))
}

/// The same outcome, with want of memory as the fault of a run.
pub(crate) fn or_memory(made: Result<Outcome, AllocError>) -> Result<Outcome, RunFault>
    ensures same { IfOk result (λ outcome. made ≡ Ok outcome) }
    ensures memory { IfErr result (λ fault. fault ≡ run.Memory) }
{
    match made {
        Ok(outcome) => Ok(outcome),
        Err(AllocError) => Err(RunFault::Memory),
    }
}

/// The result of a typed query over a grid, the steps of which a tree gives that goes there, over engines and a courier where it has
/// gathers. The patterns stay as they are. An engine that fails or strays is told, and want of memory. On any answer the counters rose
/// since the tree's start by at most the bound over its whole walk. (Prometheus querying.)
fn collected<C: Courier, W: Ledger>(
    alloc: Global,
    typed: &Typed,
    tree: &mut Tree,
    store: &Store,
    engines: &mut [Box<dyn Engine>],
    patterns: &mut Patterns<'_>,
    courier: &mut C,
    grid: &Grid,
    instant: bool,
    work: &mut Work<W>,
) -> Result<Outcome, RunFault>
    requires ready { (known : Option Gathers) × IsReady store.now patterns.old known (map (λ b. seen b) engines.old) tree.old }
    requires fresh { tree.old.fed ≡ None }
    requires walk { tree.old.walk ≡ GridWalk grid.now }
    // where it is known what the gathers give, and the tree then gives what the query means
    ensures result { IfOk result (λ outcome. (gathers : Gathers) (asked : Asked) → IsReady store.now patterns.old (Some gathers) (map (λ b. seen b) engines.old) tree.old
        → steps_over (rule (world store.now gathers) patterns.old (shape_of tree.old.node)) (grid_times grid.now) ≡ steps_over (meaning_step asked (tree_of typed.now)) (grid_times grid.now)
        → outcome ≡ result_of asked (tree_of typed.now) grid.now instant) }
    ensures run { HasGone result (map (λ b. seen b) engines.old) (map (λ b. seen b) engines.new) }
    ensures same { patterns.new ≡ patterns.old }
    ensures bounded { (start : Counts) → HasSpent store.now tree.old start work.old → IsWithinBound store.now tree.old.walk (shape_of tree.old.node) start work.new }
{
    let drained = drain(alloc, tree, grid, store, engines, patterns, courier, work)?;
    match drained {
        Drained::Stopped(outcome) => Ok(outcome),
        Drained::Done(collected) => or_memory(finished(alloc, typed, collected, instant)),
    }
}

/// The same by a tree that asks no engine. The only error is want of memory.
fn alone<W: Ledger>(
    alloc: Global,
    typed: &Typed,
    tree: &mut Tree,
    store: &Store,
    patterns: &mut Patterns<'_>,
    grid: &Grid,
    instant: bool,
    work: &mut Work<W>,
) -> Result<Outcome, AllocError>
    requires ready { (es : List EngineSeen) → IsReady store.now patterns.old (Some no_gathers) es tree.old }
    requires fresh { tree.old.fed ≡ None }
    requires walk { tree.old.walk ≡ GridWalk grid.now }
    requires gives { steps_over (rule (over store.now) patterns.old (shape_of tree.old.node)) (grid_times grid.now) ≡ steps_over (meaning_step (asked_over store.now patterns.old grid.now) (tree_of typed.now)) (grid_times grid.now) }
    ensures result { IfOk result (λ outcome. outcome ≡ result_of (asked_over store.now patterns.old grid.now) (tree_of typed.now) grid.now instant) }
    ensures same { patterns.new ≡ patterns.old }
    ensures bounded { (start : Counts) → HasSpent store.now tree.old start work.old → IsWithinBound store.now tree.old.walk (shape_of tree.old.node) start work.new }
{
    let mut engines: Vec<Box<dyn Engine>> = Vec::new(alloc);
    let mut courier = InOrder::new();
    let engines = engines.as_mut_slice();
    match collected(
        alloc,
        typed,
        tree,
        store,
        engines,
        patterns,
        &mut courier,
        grid,
        instant,
        work,
    ) {
        Ok(outcome) => Ok(outcome),
        // there is no engine that fails or strays
        Err(_) => Err(AllocError),
    }
}

/// The result of a typed query over a grid by the tree of kernels of its plan, rewritten as is chosen, which goes on by at most a
/// batch of instants at once. The tree is within the limits of the language, its patterns are kept, and no two of its label_replace
/// calls stand at one place. On any answer the counters rise by at most what that plan costs. The only error is want of memory.
/// (Prometheus querying.)
pub(crate) fn answered<W: Ledger>(
    alloc: Global,
    typed: &Typed,
    store: &Store,
    patterns: &mut Patterns<'_>,
    grid: &Grid,
    instant: bool,
    options: &Options,
    work: &mut Work<W>,
) -> Result<Outcome, AllocError>
    requires batch { 0 < options.now.batch }
    requires within { AreWithin (HaveTheirPatterns patterns.old) hundred_years time_limit (parts_of (tree_of typed.now)) }
    requires limits { IsWithinLimits hundred_years time_limit (tree_of typed.now) }
    requires kept { AreKept patterns.old (judged (tree_of typed.now)).replacements (placed_of typed.now) }
    requires apart { TellApart (judged (tree_of typed.now)).replacements }
    ensures result { IfOk result (λ outcome. outcome ≡ result_of (asked_over store.now patterns.old grid.now) (tree_of typed.now) grid.now instant) }
    ensures bounded { SpendsAtMost (asked_over store.now patterns.old grid.now) grid.now (evaluated_plan (choices_of options.now) patterns.old (placed_of typed.now) (tree_of typed.now)) work.old work.new }
{
    kept_patterns_are_placed();
    steady_onces_stay();
    grids_are_listed();
    fresh_trees_begin();
    spending_stays_within();
    served_plans_are_served_over();
    let _ = typed.expr();
    let _ = store.series();
    let plan = evaluated(alloc, typed, options, patterns)?;
    match build(
        alloc,
        &plan,
        store,
        &Walk::Grid(*grid),
        grid,
        options.batch,
        patterns,
        work,
    ) {
        Ok(mut tree) => alone(
            alloc, typed, &mut tree, store, patterns, grid, instant, work,
        ),
        Err(Unbuilt::Memory) => Err(AllocError),
        Err(Unbuilt::Invalid) => unreachable!(),
    }
}

/// The result of a typed query over a grid, of which these engines hold the samples, by the tree of kernels of its plan, rewritten as is
/// chosen, whose selectors all engines are asked for. They were begun, and were asked nothing since. The tree is within the limits of
/// the language, its patterns are kept, and no two of its label_replace calls stand at one place. The patterns stay as they are. An engine
/// that fails or strays is told, and want of memory. On any answer no counter rises. (Prometheus querying; the engines are those of
/// thanos-io/promql-engine's distributed queries.)
pub(crate) fn answered_over<C: Courier, W: Ledger>(
    alloc: Global,
    typed: &Typed,
    engines: &mut [Box<dyn Engine>],
    patterns: &mut Patterns<'_>,
    courier: &mut C,
    grid: &Grid,
    instant: bool,
    options: &Options,
    work: &mut Work<W>,
) -> Result<Outcome, RunFault>
    requires batch { 0 < options.now.batch }
    requires within { AreWithin (HaveTheirPatterns patterns.old) hundred_years time_limit (parts_of (tree_of typed.now)) }
    requires limits { IsWithinLimits hundred_years time_limit (tree_of typed.now) }
    requires kept { AreKept patterns.old (judged (tree_of typed.now)).replacements (placed_of typed.now) }
    requires apart { TellApart (judged (tree_of typed.now)).replacements }
    requires begun { AreBegun (map (λ b. seen b) engines.old) }
    requires few { length engines.old < 2 ^ 32 }
    // where these are the engines at which samples stand
    ensures result { IfOk result (λ outcome. (declared : List Names) (samples : AllSeries) → length declared ≡ length engines.old → StandAt declared (map (λ b. seen b) engines.old) samples
        → outcome ≡ result_of (asked_over samples patterns.old grid.now) (tree_of typed.now) grid.now instant) }
    ensures run { HasGone result (map (λ b. seen b) engines.old) (map (λ b. seen b) engines.new) }
    ensures unmoved { DoNotRise work.old work.new }
{
    kept_patterns_are_placed();
    steady_onces_stay();
    grids_are_listed();
    fresh_trees_begin();
    spending_stays_within();
    gathers_are_meant();
    stores_are_not_read();
    turns_follow();
    let _ = typed.expr();
    let Ok(plan) = gathered(alloc, typed, options, patterns, count_of(engines)) else {
        return Err(RunFault::Memory);
    };
    // no selector is left that would read it
    let store = Store::new(alloc);
    match build(
        alloc,
        &plan,
        &store,
        &Walk::Grid(*grid),
        grid,
        options.batch,
        patterns,
        work,
    ) {
        Ok(mut tree) => collected(
            alloc, typed, &mut tree, &store, engines, patterns, courier, grid, instant, work,
        ),
        Err(Unbuilt::Memory) => Err(RunFault::Memory),
        Err(Unbuilt::Invalid) => unreachable!(),
    }
}

/// How many engines there are.
fn count_of(engines: &[Box<dyn Engine>]) -> u32
    requires { length engines.now < 2 ^ 32 }
    ensures { result ≡ length engines.now }
{
    engines.len() as u32
}
