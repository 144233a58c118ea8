//! Random queries: the tree of kernels of a query's plan gives, in batches of any size, what the query means at each instant, which
//! `plain_eval` computes of its typed tree. The values of queries of these kinds stand in `tests/scripts`.
ghost use Rattle.query_engine.specs.Batches.{IsBatch};
ghost use Rattle.std.specs.Prelude.{◌≡◌};

mod queries;

use crate::results::{grid, load, outcome_of};
use label_set::Text;
use match_rule::{PatternRoom, Patterns};
use plain_eval::{checked_patterns_are_kept, range};
use promql_meaning::Outcome;
use promql_meaning::laws::needs_are_met;
use promql_type::TypeFault;
use query_engine::typed_tree;
use sample_store::Store;
use std::alloc::{AllocError, Global};
use std::marker::Brand;
use std::sync::ledger::{Blank, Ledger};
use std::test::Fail;
use ticks::{Grid, Work};

/// The samples of the table's series.
fn stored(alloc: Global) -> Result<Store, Fail> {
    let mut store = Store::new(alloc);
    for line in queries::SERIES.lines() {
        load(alloc, &mut store, line)?;
    }
    Ok(store)
}

/// What a text means at the instants of a grid, computed of its typed tree at each of them. The only error is want of memory.
fn meant<W: Ledger>(
    alloc: Global,
    store: &Store,
    grid: &Grid,
    instant: bool,
    query: &Text,
    blank: Blank,
) -> Result<Outcome, AllocError>
    requires name { blank.name ≡ W.name }
    requires parts { blank.parts ≡ W.parts }
    requires three { blank.parts ≡ 3 }
{
    checked_patterns_are_kept();
    needs_are_met();
    let mut room = PatternRoom::new(alloc)?;
    let mut patterns = Patterns::new(alloc, &mut room);
    let mut work = Work::<W>::new(blank);
    match typed_tree(alloc, query.as_str(), false, &mut patterns) {
        Ok(typed) => range(
            alloc,
            &typed,
            store,
            &mut patterns,
            grid,
            instant,
            &mut work,
        ),
        Err(TypeFault::Refused(refusal)) => Ok(Outcome::Refused(refusal)),
        Err(TypeFault::Memory) => Err(AllocError),
    }
}

/// The same, with counters that nobody reads.
fn meaning_of(
    alloc: Global,
    store: &Store,
    when: &(Grid, bool),
    query: &str,
) -> Result<Outcome, AllocError> {
    let query = Text::of(alloc, query)?;
    meant::<Brand>(alloc, store, &when.0, when.1, &query, Blank::new(3))
}

/// Whether the plan of a text gives, in batches of so many instants, what the text means.
fn same_both_ways(
    alloc: Global,
    store: &Store,
    when: &(Grid, bool),
    query: &str,
    batch: u32,
) -> Result<bool, AllocError>
    requires { IsBatch batch }
{
    let means = meaning_of(alloc, store, when, query)?;
    let comes = outcome_of(alloc, store, when, query, batch)?;
    Ok(comes == means)
}

/// Whether it does so instant by instant, by threes, and at once.
fn agrees(
    alloc: Global,
    store: &Store,
    when: &(Grid, bool),
    query: &str,
) -> Result<bool, AllocError> {
    Ok(
        same_both_ways(alloc, store, when, query, 1)?
            && same_both_ways(alloc, store, when, query, 3)?
            && same_both_ways(alloc, store, when, query, 64)?,
    )
}

#[test]
fn plans_give_what_queries_mean(rt: HostRuntime) -> Result<(), Fail> {
    assert_eq!(rt; queries::QUERIES.lines().count(), 60);
    let store = stored(rt.alloc())?;
    let walk = grid("60..240/60")?;
    let instant = grid("180")?;
    for query in queries::QUERIES.lines() {
        if !agrees(rt.alloc(), &store, &walk, query)? {
            return Err(Fail::new(query));
        }
        if !agrees(rt.alloc(), &store, &instant, query)? {
            return Err(Fail::new(query));
        }
    }
    Ok(())
}
