//! Engines with written samples. A series is its labels and its samples, as `a,x=1 0=1 10=stale`. All times are milliseconds.
ghost use Rattle.written_engines.specs.Loading.{IsLoading};
ghost use Rattle.sample_store.specs.Samples.{refusal_of, with_sample};
ghost use Rattle.std.specs.Prelude.{◌≡◌, None, OnOk};

use engine_local::LocalEngine;
use label_set::Labels;
use remote_api::Engine;
use sample_store::Store;
use std::alloc::Global;
use std::test::Fail;
use ticks::Ms;
use written_steps::{labels, value};
use xfrac::Held;

/// A sample: its time, and a number or `stale`.
pub fn sample(text: &str) -> Result<(Ms, Held), Fail> {
    let (at, number) = text.split_once('=').ok_or("no value")?;
    let at: i64 = at.parse()?;
    if number == "stale" {
        return Ok((Ms(at), Held::Stale));
    }
    Ok((Ms(at), Held::Value(value(number)?)))
}

/// Appends a sample that the store takes.
fn put(store: &mut Store, labels: &Labels, at: Ms, held: &Held) -> Result<(), Fail>
    ensures taken { OnOk result (refusal_of store.old labels.now at held.now ≡ None) }
    ensures put { OnOk result (store.new ≡ with_sample store.old labels.now at held.now) }
{
    match store.append(labels, at, held) {
        Ok(()) => Ok(()),
        Err(_) => Err("the store refuses a sample")?,
    }
}

/// Loads a sample that a store of the same samples takes.
fn load(
    engine: &mut LocalEngine,
    store: &mut Store,
    labels: &Labels,
    at: Ms,
    held: Held,
) -> Result<(), Fail>
    requires { IsLoading store.old engine.old }
    ensures { OnOk result (IsLoading store.new engine.new) }
{
    put(store, labels, at, &held)?;
    engine.load(labels, at, &held)?;
    Ok(())
}

// At `?` the checker can't follow a sample.
fn load_sample(
    engine: &mut LocalEngine,
    store: &mut Store,
    labels: &Labels,
    text: &str,
) -> Result<(), Fail>
    requires { IsLoading store.old engine.old }
    ensures { OnOk result (IsLoading store.new engine.new) }
{
    match sample(text) {
        Ok((at, held)) => load(engine, store, labels, at, held),
        Err(fail) => Err(fail),
    }
}

fn load_series(
    alloc: Global,
    engine: &mut LocalEngine,
    store: &mut Store,
    text: &str,
) -> Result<(), Fail>
    requires { IsLoading store.old engine.old }
    ensures { OnOk result (IsLoading store.new engine.new) }
{
    let (names, samples) = text.split_once(' ').ok_or("no samples")?;
    let labels = labels(alloc, names)?;
    for text in samples.split(' ') {
        load_sample(engine, store, &labels, text)?;
    }
    Ok(())
}

/// An engine that holds the series of a text, with a sign between one and the next, or `-` for none, and to which the labels are declared
/// that all of them have.
pub fn engine_of(
    alloc: Global,
    declared: &str,
    text: &str,
    between: char,
) -> Result<LocalEngine, Fail> {
    let declared = labels(alloc, declared)?;
    let mut engine = LocalEngine::new(alloc);
    let mut store = Store::new(alloc);
    for line in text.split(between) {
        if line != "-" {
            load_series(alloc, &mut engine, &mut store, line)?;
        }
    }
    engine.declare(&declared)?;
    Ok(engine)
}
