//! The outcome of a query's text.
ghost use Rattle.exchange.specs.Calls.{Each};
ghost use Rattle.exchange.specs.declared.fault.RunFault.TheVariants as run;
ghost use Rattle.plan_tree.specs.Feeding.{HasGone};
ghost use Rattle.promql_meaning.specs.Selecting.{AllSeries};
ghost use Rattle.query_engine.specs.Batches.{IsBatch};
ghost use Rattle.query_engine.specs.Bounds.{Spends};
ghost use Rattle.query_engine.specs.Engines.{AreSoundAndTell, DoNotRise, FaultedLast, IsNoFault, Leaves, StandAt};
ghost use Rattle.query_engine.specs.Evaluating.{ComesTo, IsRefused};
ghost use Rattle.query_engine.specs.Planning.{choices_of};
ghost use Rattle.remote_api.specs.Seen.{KeepsStrays};
ghost use Rattle.std.specs.Prelude.{◌≡◌, ◌<◌, ◌≤◌, ◌^◌, List, [], IfErr, IfOk, OnOk, drop, length, map, take};
ghost use Rattle.step_table.specs.Groups.{Names};

use crate::engines::{begin, lose};
use crate::options::Options;
use crate::reading::typed_tree;
use crate::streaming::{answered, answered_over, or_memory};
use exchange::RunFault;
use holders::Items;
use label_set::Labels;
use match_rule::{PatternRoom, Patterns};
use plan_tree::laws::turns_follow;
use promql_meaning::Outcome;
use promql_type::TypeFault;
use query_places::laws::calls_stand_apart;
use remote_api::{Courier, Engine};
use sample_store::Store;
use std::alloc::{AllocError, Global};
use std::sync::ledger::Ledger;
use ticks::{Grid, Work};

/// What the text of a query comes to over the samples of a store. Samples are read by counted calls alone, and of a refused text none; on
/// any answer the counters rise by at most what the plan costs that the text is evaluated by. The only error is want of memory.
#[tactic(auto, using(crate::proofs::Spent::text_spends_nothing))]
fn over_store<W: Ledger>(
    alloc: Global,
    text: &str,
    grid: &Grid,
    instant: bool,
    options: &Options,
    store: &Store,
    work: &mut Work<W>,
) -> Result<Outcome, AllocError>
    requires batch { IsBatch options.now.batch }
    ensures outcome { IfOk result (ComesTo text.now store.now grid.now instant options.now.closed) }
    ensures bounded { Spends text.now store.now grid.now (choices_of options.now) options.now.closed work.old work.new }
    ensures idle { IfOk result (λ outcome. IsRefused outcome → work.new ≡ work.old) }
{
    calls_stand_apart();
    let mut room = PatternRoom::new(alloc)?;
    let mut patterns = Patterns::new(alloc, &mut room);
    match typed_tree(alloc, text, options.closed, &mut patterns) {
        Ok(typed) => answered(
            alloc,
            &typed,
            store,
            &mut patterns,
            grid,
            instant,
            options,
            work,
        ),
        Err(TypeFault::Refused(refusal)) => Ok(Outcome::Refused(refusal)),
        Err(TypeFault::Memory) => Err(AllocError),
    }
}

/// What the text of a query comes to over the samples that these engines hold. They are begun first, also where the text is refused.
/// An engine that fails or strays is told, and want of memory. On any answer no counter rises.
fn over_boxes<C: Courier, W: Ledger>(
    alloc: Global,
    text: &str,
    grid: &Grid,
    instant: bool,
    options: &Options,
    engines: &mut [Box<dyn Engine>],
    courier: &mut C,
    work: &mut Work<W>,
) -> Result<Outcome, RunFault>
    requires batch { IsBatch options.now.batch }
    requires few { length engines.old < 2 ^ 32 }
    // where these are the engines at which samples stand
    ensures outcome { IfOk result (λ outcome. (declared : List Names) (samples : AllSeries) → length declared ≡ length engines.old → StandAt declared (map (λ b. seen b) engines.old) samples
        → ComesTo text.now samples grid.now instant options.now.closed outcome) }
    ensures run { HasGone result (map (λ b. seen b) engines.old) (map (λ b. seen b) engines.new) }
    ensures unmoved { DoNotRise work.old work.new }
{
    calls_stand_apart();
    turns_follow();
    begin(engines);
    let Ok(mut room) = PatternRoom::new(alloc) else {
        return Err(RunFault::Memory);
    };
    let mut patterns = Patterns::new(alloc, &mut room);
    match typed_tree(alloc, text, options.closed, &mut patterns) {
        Ok(typed) => answered_over(
            alloc,
            &typed,
            engines,
            &mut patterns,
            courier,
            grid,
            instant,
            options,
            work,
        ),
        Err(TypeFault::Refused(refusal)) => Ok(Outcome::Refused(refusal)),
        Err(TypeFault::Memory) => Err(RunFault::Memory),
    }
}

/// The same over the first so many engines of a list; the others stay as they are.
fn over_first<C: Courier, W: Ledger>(
    alloc: Global,
    text: &str,
    grid: &Grid,
    instant: bool,
    options: &Options,
    engines: &mut [Box<dyn Engine>],
    count: usize,
    courier: &mut C,
    work: &mut Work<W>,
) -> Result<Outcome, RunFault>
    requires batch { IsBatch options.now.batch }
    requires few { length engines.old < 2 ^ 32 }
    requires inside { count ≤ length engines.old }
    ensures outcome { IfOk result (λ outcome. (declared : List Names) (samples : AllSeries) → length declared ≡ count → StandAt declared (map (λ b. seen b) engines.old) samples
        → ComesTo text.now samples grid.now instant options.now.closed outcome) }
    ensures run { HasGone result (map (λ b. seen b) (take count engines.old)) (map (λ b. seen b) (take count engines.new)) }
    ensures rest { drop count engines.new ≡ drop count engines.old }
    ensures many { length engines.new ≡ length engines.old }
    ensures unmoved { DoNotRise work.old work.new }
{
    over_boxes(
        alloc,
        text,
        grid,
        instant,
        options,
        &mut engines[..count],
        courier,
        work,
    )
}

/// The same over the first boxes of a list, as many as are declared. The engine that is told to have failed or strayed is lost; where
/// each declared box is sound and tells what it holds there is none. Where there is no error none has strayed.
fn over_declared<C: Courier, W: Ledger>(
    alloc: Global,
    text: &str,
    grid: &Grid,
    instant: bool,
    options: &Options,
    engines: &mut [Box<dyn Engine>],
    declared: &mut Items<Labels>,
    courier: &mut C,
    work: &mut Work<W>,
) -> Result<Outcome, RunFault>
    requires batch { IsBatch options.now.batch }
    requires few { length engines.old < 2 ^ 32 }
    requires boxes { length declared.old ≤ length engines.old }
    ensures outcome { IfOk result (λ outcome. (samples : AllSeries) → StandAt declared.old (map (λ b. seen b) engines.old) samples → ComesTo text.now samples grid.now instant options.now.closed outcome) }
    ensures unmoved { DoNotRise work.old work.new }
    ensures kept { Leaves result declared.old declared.new (map (λ b. seen b) engines.old) (map (λ b. seen b) engines.new) }
    ensures faulted { FaultedLast result (map (λ b. seen b) engines.old) (map (λ b. seen b) engines.new) }
    ensures calm { OnOk result (Each KeepsStrays (map (λ b. seen b) engines.old) (map (λ b. seen b) engines.new)) }
    ensures never { AreSoundAndTell (take (length declared.old) (map (λ b. seen b) engines.old)) → IsNoFault result }
{
    let count = declared.as_slice().len();
    match over_first(
        alloc, text, grid, instant, options, engines, count, courier, work,
    ) {
        Ok(outcome) => Ok(outcome),
        Err(fault) => {
            lose(engines, declared, &fault);
            Err(fault)
        }
    }
}

/// What the text of a query comes to: its one refusal, with its place in the text, or its result at the instants of a grid, with the
/// windows that are chosen; nothing else that is chosen changes it. `instant` tells that it is an instant query, whose root may ask for an
/// order by value.
///
/// With no engine declared it is that over the samples of a store. They are read by counted calls alone, and of a refused text none; on
/// any answer the counters rise by at most what the plan costs that the text is evaluated by. The only error is want of memory.
///
/// Else the store isn't read, and it is that over the samples that stand at the declared engines, which are the first boxes; these
/// are begun first, also where the text is refused. Whichever the courier picks doesn't change it. No counter rises. An engine that fails
/// or strays is told, counted from 0; then its declared labels went and its box stands behind all others, which stay in their order.
/// After every other answer boxes and declared labels stand as they stood. Each box holds what it held, and where there is no error none
/// has strayed. Where each declared box is sound and tells what it holds the only error is want of memory. (Prometheus querying; the
/// engines are those of thanos-io/promql-engine's distributed queries.)
pub fn evaluate<C: Courier, W: Ledger>(
    alloc: Global,
    text: &str,
    grid: &Grid,
    instant: bool,
    options: &Options,
    store: &Store,
    engines: &mut Vec<Box<dyn Engine>>,
    declared: &mut Items<Labels>,
    courier: &mut C,
    work: &mut Work<W>,
) -> Result<Outcome, RunFault>
    requires batch { IsBatch options.now.batch }
    requires few { length engines.old.items < 2 ^ 32 }
    requires boxes { length declared.old ≤ length engines.old.items }
    // where no engine is declared
    ensures outcome_alone { declared.old ≡ [] → IfOk result (ComesTo text.now store.now grid.now instant options.now.closed) }
    ensures fault_alone { declared.old ≡ [] → IfErr result (λ fault. fault ≡ run.Memory) }
    ensures untouched { declared.old ≡ [] → engines.new.items ≡ engines.old.items }
    ensures bounded { declared.old ≡ [] → Spends text.now store.now grid.now (choices_of options.now) options.now.closed work.old work.new }
    ensures idle { declared.old ≡ [] → IfOk result (λ outcome. IsRefused outcome → work.new ≡ work.old) }
    // where engines are declared at which samples stand, whatever courier picks, and however they give what they owe
    ensures outcome { 0 < length declared.old → IfOk result (λ outcome. (samples : AllSeries) → StandAt declared.old (map (λ b. seen b) engines.old.items) samples → ComesTo text.now samples grid.now instant options.now.closed outcome) }
    ensures unmoved { 0 < length declared.old → DoNotRise work.old work.new }
    // what becomes of labels and boxes
    ensures kept { Leaves result declared.old declared.new (map (λ b. seen b) engines.old.items) (map (λ b. seen b) engines.new.items) }
    ensures faulted { FaultedLast result (map (λ b. seen b) engines.old.items) (map (λ b. seen b) engines.new.items) }
    ensures calm { OnOk result (Each KeepsStrays (map (λ b. seen b) engines.old.items) (map (λ b. seen b) engines.new.items)) }
    ensures never { AreSoundAndTell (take (length declared.old) (map (λ b. seen b) engines.old.items)) → IsNoFault result }
{
    if declared.as_slice().is_empty() {
        return or_memory(over_store(alloc, text, grid, instant, options, store, work));
    }
    over_declared(
        alloc,
        text,
        grid,
        instant,
        options,
        engines.as_mut_slice(),
        declared,
        courier,
        work,
    )
}
