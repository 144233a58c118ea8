//! Evaluations over one store, where no engine is declared.
ghost use Rattle.query_engine.specs.Batches.{IsBatch};
ghost use Rattle.query_engine.specs.Bounds.{Spends};
ghost use Rattle.query_engine.specs.Evaluating.{ComesTo};
ghost use Rattle.query_engine.specs.Planning.{choices_of};
ghost use Rattle.std.specs.Prelude.{IfOk};

use holders::Items;
use promql_meaning::Outcome;
use query_engine::{Options, evaluate};
use remote_api::{Engine, InOrder};
use sample_store::Store;
use std::alloc::{AllocError, Global};
use std::sync::ledger::Ledger;
use ticks::{Grid, Work};

/// What the text of a query comes to over the samples of a store. On any answer the counters rise by at most what its plan costs. The
/// only error is want of memory.
pub(crate) fn evaluate_alone<W: Ledger>(
    alloc: Global,
    text: &str,
    grid: &Grid,
    instant: bool,
    options: &Options,
    store: &Store,
    work: &mut Work<W>,
) -> Result<Outcome, AllocError>
    requires { IsBatch options.now.batch }
    ensures outcome { IfOk result (ComesTo text.now store.now grid.now instant options.now.closed) }
    ensures bounded { Spends text.now store.now grid.now (choices_of options.now) options.now.closed work.old work.new }
{
    let mut engines: Vec<Box<dyn Engine>> = Vec::new(alloc);
    let mut declared = Items::new(alloc);
    let mut courier = InOrder::new();
    match evaluate(
        alloc,
        text,
        grid,
        instant,
        options,
        store,
        &mut engines,
        &mut declared,
        &mut courier,
        work,
    ) {
        Ok(outcome) => Ok(outcome),
        // there is no engine that fails or strays
        Err(_) => Err(AllocError),
    }
}
