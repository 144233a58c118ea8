//! A store that the samples of loads are put into, each judged as it comes.
ghost use Rattle.sample_store.specs.Samples.{AllSeries, IsNumberOf, refusal_of, with_sample};
ghost use Rattle.std.specs.Prelude.{◌≡◌, [], Err, Ok, IfErr, IfOk, IfSome, IsOkUnless, MatchOption, length, OnErr, OnOk, true};
ghost use Rattle.test_runner.specs.Boxes.{IsNoRun};
ghost use Rattle.test_runner.specs.Loading.{HasPut, Leaves, fault_for};
ghost use Rattle.test_runner.specs.Loads.{left_by, left_by_all, sample_put, samples_left};
ghost use Rattle.test_runner.specs.Parts.{HasGone};
ghost use Rattle.test_runner.specs.Running.{AnswersLoads, IfOfLoads};
ghost use Rattle.test_runner.specs.declared.fault.RunnerFault.TheVariants.{Write};

use crate::fault::{LoadRefusal, RunnerFault};
use crate::into::{Loaded, Target};
use crate::load::{change, change_all};
use label_set::Labels;
use sample_store::{Store, StoreRefusal};
use script_read::{Command, Script, What};
use std::alloc::Global;
use ticks::Ms;
use xfrac::Held;

impl Loaded for Store {
    ghost use Rattle.sample_store.specs.Samples.{IsNumberOf};
    ghost use Rattle.std.specs.Prelude.{◌≡◌, [], true};

    ghost holds = { λ store declared series. series ≡ store };

    ghost judges = { true };

    ghost knows = { λ store declared labels s. IsNumberOf store labels s };

    ghost engines = { λ _. [] };

    ghost names = { λ _. [] };

    fn put(
        &mut self,
        target: Target<'_>,
        number: &mut Option<u32>,
        at: Ms,
        held: &Held,
    ) -> Result<(), RunnerFault> {
        append(self, target, number, at, held)
    }

    fn clear(&mut self, _: &[Labels]) {
        empty(self)
    }
}

/// What comes of a line's sample that the store refuses.
fn fault_for(line: u32, refusal: StoreRefusal) -> RunnerFault
    ensures { result ≡ fault_for line refusal }
{
    match refusal {
        StoreRefusal::Conflict { kept, given } => {
            RunnerFault::Refused(LoadRefusal::Conflict { line, kept, given })
        },
        StoreRefusal::TooManySeries => RunnerFault::Refused(LoadRefusal::TooManySeries { line }),
        StoreRefusal::TooManySamples => RunnerFault::Refused(LoadRefusal::TooManySamples { line }),
        StoreRefusal::Memory => RunnerFault::Memory,
    }
}

/// Puts a sample into the series with these labels, whose number is told from then on.
fn append_first(
    store: &mut Store,
    labels: &Labels,
    room: u32,
    series: &mut Option<u32>,
    at: Ms,
    held: &Held,
) -> Result<(), StoreRefusal>
    ensures refused { MatchOption (refusal_of store.old labels.now at held.now) (IsOkUnless result StoreRefusal.Memory) (λ e. result ≡ Err e) }
    ensures ok { OnOk result (store.new ≡ with_sample store.old labels.now at held.now) }
    ensures err { OnErr result (store.new ≡ store.old) }
    ensures known { IfSome series.new (IsNumberOf store.new labels.now) }
{
    let answer = store.append_before(labels, at, held, room);
    *series = store.find(labels);
    answer
}

/// The same where the number may be known; then the labels aren't looked up.
fn append_next(
    store: &mut Store,
    labels: &Labels,
    room: u32,
    series: &mut Option<u32>,
    at: Ms,
    held: &Held,
) -> Result<(), StoreRefusal>
    requires { IfSome series.old (IsNumberOf store.old labels.now) }
    ensures refused { MatchOption (refusal_of store.old labels.now at held.now) (IsOkUnless result StoreRefusal.Memory) (λ e. result ≡ Err e) }
    ensures ok { OnOk result (store.new ≡ with_sample store.old labels.now at held.now) }
    ensures err { OnErr result (store.new ≡ store.old) }
    ensures known { IfSome series.new (IsNumberOf store.new labels.now) }
{
    match *series {
        Some(s) => store.append_to(s, at, held),
        None => append_first(store, labels, room, series, at, held),
    }
}

fn append(
    store: &mut Store,
    target: Target<'_>,
    series: &mut Option<u32>,
    at: Ms,
    held: &Held,
) -> Result<(), RunnerFault>
    requires { IfSome series.old (IsNumberOf store.old target.labels.now) }
    ensures put { HasPut true (λ (series : AllSeries). series ≡ store.old) (λ (series : AllSeries). series ≡ store.new) (sample_put target.entry.line target.entry.labels.now at held.now) result }
    ensures known { IfSome series.new (IsNumberOf store.new target.entry.labels.now) }
    ensures gone { HasGone (length target.entry.declared.now) result [] [] }
{
    append_judged(store, target, series, at, held)
}

fn append_judged(
    store: &mut Store,
    target: Target<'_>,
    series: &mut Option<u32>,
    at: Ms,
    held: &Held,
) -> Result<(), RunnerFault>
    requires { IfSome series.old (IsNumberOf store.old target.labels.now) }
    ensures put { Leaves result store.new (sample_put target.entry.line target.entry.labels.now at held.now store.old) }
    ensures known { IfSome series.new (IsNumberOf store.new target.entry.labels.now) }
{
    match append_next(store, target.labels, target.room, series, at, held) {
        Ok(()) => Ok(()),
        Err(refusal) => Err(fault_for(target.line, refusal)),
    }
}

fn empty(store: &mut Store)
    ensures { store.new ≡ [] }
{
    store.clear();
}

/// Clears or loads the store where a command says so.
pub(crate) fn change_store(store: &mut Store, what: &What) -> Result<(), RunnerFault>
    ensures left { Leaves result store.new (left_by [] what.now store.old) }
    ensures sure { IsNoRun result }
{
    change(store, &[], what)
}

/// Clears and loads the store as commands say.
pub(crate) fn change_store_by_all(
    store: &mut Store,
    declared: &[Labels],
    commands: &[Command],
) -> Result<(), RunnerFault>
    ensures left { Leaves result store.new (left_by_all declared.now commands.now store.old) }
    ensures sure { IsNoRun result }
{
    change_all(store, declared, commands)
}

/// The store that the loads of a script leave, where engines have declared these labels. `Refused` and `Range` come exactly where
/// a load is refused, with the first refusal; the only other error is want of memory.
pub fn load_all(alloc: Global, declared: &[Labels], script: &Script) -> Result<Store, RunnerFault>
    ensures left { IfOk result (λ store. samples_left declared.now script.now ≡ Ok store) }
    ensures refused { AnswersLoads (samples_left declared.now script.now) result }
    ensures explained { IfErr result (IfOfLoads (samples_left declared.now script.now)) }
    ensures unwritten { IfErr result (λ fault. fault ≡ Write → ⊥) }
    ensures sure { IsNoRun result }
{
    let mut store = Store::new(alloc);
    match change_store_by_all(&mut store, declared, script.commands.as_slice()) {
        Ok(()) => Ok(store),
        Err(fault) => Err(fault),
    }
}
