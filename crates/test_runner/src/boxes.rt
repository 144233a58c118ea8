//! Engines that the samples of loads are put into, once all loads of the script were judged.
ghost use Rattle.exchange.specs.Calls.{IsCalled};
ghost use Rattle.parting_laws.specs.Parted.{MayBeDeclared};
ghost use Rattle.label_set.specs.Labels.{IsLabelSet};
ghost use Rattle.remote_api.specs.Seen.{EngineSeen, HasLoaded, IsBegun, IsCleared, MayLoad};
ghost use Rattle.sample_store.specs.Samples.{AllSeries};
ghost use Rattle.std.specs.Prelude.{◌≡◌, ◌<◌, ◌≤◌, ◌^◌, ℕ, [], Some, IfSome, false, length, map, slice_get, true};
ghost use Rattle.test_runner.specs.Loading.{HasPut, MayPut};
ghost use Rattle.test_runner.specs.Loads.{engine_of, is_placed, left_by, left_by_all, sample_put};
ghost use Rattle.test_runner.specs.Parts.{AreCalled, AreDeclaredTo, AreServed, HasGone, HaveBoxes, HoldParts, MayBeLoaded};

use crate::fault::RunnerFault;
use crate::into::{Loaded, Target};
use crate::load::{change, change_all};
use crate::placing::engine_of;
use exchange::RunFault;
use label_set::Labels;
use parting_laws::laws::puts_stay_parted;
use remote_api::{Engine, EngineFail};
use script_read::{Command, What};
use ticks::Ms;
use xfrac::Held;

/// Engines, each of which holds the samples whose labels have what is declared to it.
#[derive(Drop)]
struct Boxes<'a> {
    engines: &'a mut [Box<dyn Engine>],
}

impl<'a> Loaded for Boxes<'a> {
    ghost use Rattle.std.specs.Prelude.{◌≡◌, [], ◌∷◌, Some, false, map};
    ghost use Rattle.test_runner.specs.Loads.{engine_of};
    ghost use Rattle.test_runner.specs.Parts.{MayBeLoaded};

    ghost holds = { λ b declared series. MayBeLoaded declared (map (λ e. (Engine-box e).seen e.value) b.engines.now) series };

    ghost judges = { false };

    ghost knows = { λ b declared labels i. engine_of declared labels ≡ Some i };

    ghost engines = { λ b. map (λ e. (Engine-box e).seen e.value) b.engines.now };

    ghost names = { λ b. b.engines.ghost_name ∷ [] };

    fn put(
        &mut self,
        target: Target<'_>,
        number: &mut Option<u32>,
        at: Ms,
        held: &Held,
    ) -> Result<(), RunnerFault> {
        load_into(self.engines, target, number, at, held)
    }

    fn clear(&mut self, declared: &[Labels]) {
        clear_loaded(self.engines, declared)
    }
}

fn load_box(
    engine: &mut Box<dyn Engine>,
    labels: &Labels,
    at: Ms,
    held: &Held,
) -> Result<(), EngineFail>
    requires { MayLoad labels.now at held.now (seen engine.old) }
    ensures { HasLoaded labels.now at held.now result (seen engine.old) (seen engine.new) }
{
    engine.load(labels, at, held)
}

/// Loads a sample into one engine out of the list.
fn load_at(
    engines: &mut [Box<dyn Engine>],
    i: usize,
    labels: &Labels,
    at: Ms,
    held: &Held,
) -> Result<(), EngineFail>
    requires inside { i < length engines.old }
    requires may { (e : EngineSeen) → slice_get (map (λ b. seen b) engines.old) i ≡ Some e → MayLoad labels.now at held.now e }
    ensures loaded { IsCalled i (HasLoaded labels.now at held.now result) (map (λ b. seen b) engines.old) (map (λ b. seen b) engines.new) }
    ensures len { length engines.new ≡ length engines.old }
{
    load_box(&mut engines[i], labels, at, held)
}

/// The engine that a series with a place goes to, whose number may be known.
#[tactic(auto, using(crate::proofs::Places::engine_within, crate::proofs::Places::placed_some))]
fn place_of(declared: &[Labels], labels: &Labels, number: Option<u32>) -> usize
    requires some { 0 < length declared.now }
    requires place { is_placed declared.now labels.now ≡ true }
    requires known { IfSome number (λ i. engine_of declared.now labels.now ≡ Some i) }
    ensures place { engine_of declared.now labels.now ≡ Some result }
    ensures within { result < length declared.now }
{
    if let Some(i) = number {
        return i as usize;
    }
    match engine_of(declared, labels) {
        Some(i) => i,
        None => unreachable!(),
    }
}

/// The labels at a place, which are a label set.
fn names_at(declared: &[Labels], i: usize) -> &Labels
    requires { i < length declared.now }
    ensures there { slice_get declared.now i ≡ Some result.now }
    ensures set { IsLabelSet result.now }
{
    let names = &declared[i];
    names.len();
    names
}

/// Loads a sample into the engine that its series goes to.
fn load_into(
    engines: &mut [Box<dyn Engine>],
    target: Target<'_>,
    number: &mut Option<u32>,
    at: Ms,
    held: &Held,
) -> Result<(), RunnerFault>
    requires may { MayPut false (MayBeLoaded target.declared.now (map (λ b. seen b) engines.old)) (sample_put target.line target.labels.now at held.now) }
    requires place { is_placed target.declared.now target.labels.now ≡ true }
    requires known { IfSome number.old (λ i. engine_of target.declared.now target.labels.now ≡ Some i) }
    ensures put { HasPut false (MayBeLoaded target.entry.declared.now (map (λ b. seen b) engines.old)) (MayBeLoaded target.entry.declared.now (map (λ b. seen b) engines.new)) (sample_put target.entry.line target.entry.labels.now at held.now) result }
    ensures known { IfSome number.new (λ i. engine_of target.entry.declared.now target.entry.labels.now ≡ Some i) }
    ensures gone { HasGone (length target.entry.declared.now) result (map (λ b. seen b) engines.old) (map (λ b. seen b) engines.new) }
{
    puts_stay_parted();
    target.labels.len();
    let i = place_of(target.declared, target.labels, *number);
    names_at(target.declared, i);
    *number = Some(i as u32);
    match load_at(engines, i, target.labels, at, held) {
        Ok(()) => Ok(()),
        Err(EngineFail::Failed) => Err(RunnerFault::Run(RunFault::EngineFault {
            engine: i as u32,
        })),
        Err(EngineFail::Memory) => Err(RunnerFault::Memory),
    }
}

fn clear_box(engine: &mut Box<dyn Engine>)
    requires { (seen engine.old).asks ≡ [] }
    ensures { IsCleared (seen engine.old) (seen engine.new) }
{
    engine.clear();
}

fn clear_at(engines: &mut [Box<dyn Engine>], i: usize)
    requires inside { i < length engines.old }
    requires unasked { (e : EngineSeen) → slice_get (map (λ b. seen b) engines.old) i ≡ Some e → e.asks ≡ [] }
    ensures cleared { IsCalled i IsCleared (map (λ b. seen b) engines.old) (map (λ b. seen b) engines.new) }
    ensures len { length engines.new ≡ length engines.old }
{
    clear_box(&mut engines[i]);
}

/// Clears the first engines.
fn clear_each(engines: &mut [Box<dyn Engine>], count: usize)
    requires inside { count ≤ length engines.old }
    requires unasked { (k : ℕ) (e : EngineSeen) → k < count → slice_get (map (λ b. seen b) engines.old) k ≡ Some e → e.asks ≡ [] }
    ensures { AreCalled count IsCleared (map (λ b. seen b) engines.old) (map (λ b. seen b) engines.new) }
{
    for i in 0..count {
        clear_at(engines, i);
    }
}

fn clear_loaded(engines: &mut [Box<dyn Engine>], declared: &[Labels])
    requires { (series : AllSeries) × MayBeLoaded declared.now (map (λ b. seen b) engines.old) series }
    ensures empty { MayBeLoaded declared.now (map (λ b. seen b) engines.new) [] }
    ensures gone { AreServed (length declared.now) (map (λ b. seen b) engines.old) (map (λ b. seen b) engines.new) }
{
    puts_stay_parted();
    clear_each(engines, declared.len());
}

fn begin_box(engine: &mut Box<dyn Engine>)
    ensures { IsBegun (seen engine.old) (seen engine.new) }
{
    engine.begin();
}

fn begin_at(engines: &mut [Box<dyn Engine>], i: usize)
    requires { i < length engines.old }
    ensures begun { IsCalled i IsBegun (map (λ b. seen b) engines.old) (map (λ b. seen b) engines.new) }
    ensures len { length engines.new ≡ length engines.old }
{
    begin_box(&mut engines[i]);
}

/// Lets the first engines forget their asks.
fn begin_each(engines: &mut [Box<dyn Engine>], count: usize)
    requires { count ≤ length engines.old }
    ensures { AreCalled count IsBegun (map (λ b. seen b) engines.old) (map (λ b. seen b) engines.new) }
{
    for i in 0..count {
        begin_at(engines, i);
    }
}

/// Lets engines forget their asks and drop their samples.
pub(crate) fn drop_all(engines: &mut [Box<dyn Engine>], declared: &[Labels])
    requires boxes { HaveBoxes declared.now (map (λ b. seen b) engines.old) }
    requires declared { MayBeDeclared declared.now }
    requires told { AreDeclaredTo declared.now (map (λ b. seen b) engines.old) }
    ensures empty { MayBeLoaded declared.now (map (λ b. seen b) engines.new) [] }
    ensures gone { AreServed (length declared.now) (map (λ b. seen b) engines.old) (map (λ b. seen b) engines.new) }
{
    puts_stay_parted();
    begin_each(engines, declared.len());
    clear_each(engines, declared.len());
}

/// Carries out the loads and clears among commands that aren't refused: asks are forgotten, then each sample is put into the engine that
/// its series goes to. The errors are those of an engine that failed, and want of memory.
pub(crate) fn carry_out(
    engines: &mut [Box<dyn Engine>],
    declared: &[Labels],
    commands: &[Command],
) -> Result<(), RunnerFault>
    requires { MayPut false (HoldParts declared.now (map (λ b. seen b) engines.old)) (left_by_all declared.now commands.now) }
    ensures put { HasPut false (HoldParts declared.now (map (λ b. seen b) engines.old)) (MayBeLoaded declared.now (map (λ b. seen b) engines.new)) (left_by_all declared.now commands.now) result }
    ensures gone { HasGone (length declared.now) result (map (λ b. seen b) engines.old) (map (λ b. seen b) engines.new) }
{
    begin_each(engines, declared.len());
    load_all_of(engines, declared, commands)
}

fn load_all_of(
    engines: &mut [Box<dyn Engine>],
    declared: &[Labels],
    commands: &[Command],
) -> Result<(), RunnerFault>
    requires { MayPut false (MayBeLoaded declared.now (map (λ b. seen b) engines.old)) (left_by_all declared.now commands.now) }
    ensures put { HasPut false (MayBeLoaded declared.now (map (λ b. seen b) engines.old)) (MayBeLoaded declared.now (map (λ b. seen b) engines.new)) (left_by_all declared.now commands.now) result }
    ensures gone { HasGone (length declared.now) result (map (λ b. seen b) engines.old) (map (λ b. seen b) engines.new) }
{
    let mut boxes = Boxes { engines };
    change_all(&mut boxes, declared, commands)
}

/// The same of one command.
pub(crate) fn carry_out_one(
    engines: &mut [Box<dyn Engine>],
    declared: &[Labels],
    what: &What,
) -> Result<(), RunnerFault>
    requires { MayPut false (HoldParts declared.now (map (λ b. seen b) engines.old)) (left_by declared.now what.now) }
    ensures put { HasPut false (HoldParts declared.now (map (λ b. seen b) engines.old)) (MayBeLoaded declared.now (map (λ b. seen b) engines.new)) (left_by declared.now what.now) result }
    ensures gone { HasGone (length declared.now) result (map (λ b. seen b) engines.old) (map (λ b. seen b) engines.new) }
{
    begin_each(engines, declared.len());
    load_one_of(engines, declared, what)
}

fn load_one_of(
    engines: &mut [Box<dyn Engine>],
    declared: &[Labels],
    what: &What,
) -> Result<(), RunnerFault>
    requires { MayPut false (MayBeLoaded declared.now (map (λ b. seen b) engines.old)) (left_by declared.now what.now) }
    ensures put { HasPut false (MayBeLoaded declared.now (map (λ b. seen b) engines.old)) (MayBeLoaded declared.now (map (λ b. seen b) engines.new)) (left_by declared.now what.now) result }
    ensures gone { HasGone (length declared.now) result (map (λ b. seen b) engines.old) (map (λ b. seen b) engines.new) }
{
    let mut boxes = Boxes { engines };
    change(&mut boxes, declared, what)
}
