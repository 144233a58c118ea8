//! What a script begins with: all its loads are judged, and where they stand in front of its evaluations, their store is kept.
ghost use Rattle.script_read.specs.declared.script.Command.{Command};
ghost use Rattle.std.specs.List.{AllByRecursion, list_all};
ghost use Rattle.std.specs.Prelude.{◌≡◌, ◌≤◌, [], length, take, IfErr, IfOk, IfSome, IsOk};
ghost use Rattle.test_runner.specs.Begun.{ChangesStandInFront, HasBegun};
ghost use Rattle.test_runner.specs.Boxes.{IsNoRun};
ghost use Rattle.test_runner.specs.Loads.{samples_left};
ghost use Rattle.test_runner.specs.Running.{AnswersLoads, IfOfLoads};
ghost use Rattle.test_runner.specs.Verdicts.{IsNoEvaluation, is_evaluation};
ghost use Rattle.test_runner.specs.declared.fault.RunnerFault.TheVariants.{Write};

use crate::fault::RunnerFault;
use crate::storing::load_all;
use sample_store::Store;
use script_read::{Command, Script, What};
use std::alloc::Global;

/// What the commands in front of a script left, and how many they are. They evaluate nothing.
#[derive(Drop)]
pub(crate) struct Begun {
    pub store: Store,
    pub done: usize,
}

pub(crate) fn is_evaluation(what: &What) -> bool
    ensures { result ≡ is_evaluation what.now }
{
    matches!(what, What::Eval { .. })
}

/// How many commands stand in front of the first evaluation.
#[tactic(auto, using(crate::proofs::Beginning::quiet_all))]
fn count_in_front(commands: &[Command]) -> usize
    ensures within { result ≤ length commands.now }
    ensures front { AllByRecursion (λ (one : Command). IsNoEvaluation one.what) (take result commands.now) }
{
    for (i, command) in commands.iter().enumerate() {
        if is_evaluation(&command.what) {
            return i;
        }
    }
    commands.len()
}

/// Whether each command is an evaluation.
fn are_evaluations(commands: &[Command]) -> bool
    ensures { result ≡ list_all (λ one. is_evaluation one.what) commands.now }
{
    commands.iter().all(|one| is_evaluation(&one.what))
}

/// How many commands stand in front of the first evaluation, where no load and no clear stands behind it.
fn changes_in_front(commands: &[Command]) -> Option<usize>
    ensures { IfSome result (ChangesStandInFront commands.now) }
{
    let front = count_in_front(commands);
    if are_evaluations(commands.split_at(front).1) {
        Some(front)
    } else {
        None
    }
}

/// Judges all loads of a script. Where they stand in front of its evaluations their store is kept; else nothing is carried out yet.
/// `Refused` and `Range` come exactly where a load is refused, with the first refusal; the only other error is want of memory.
#[tactic(auto, using(crate::proofs::Beginning::front_begun, crate::proofs::Beginning::none_begun))]
pub(crate) fn begin(alloc: Global, script: &Script) -> Result<Begun, RunnerFault>
    ensures begun { IfOk result (λ begun. HasBegun script.now.commands begun.store begun.done) }
    ensures judged { IfOk result (λ _. IsOk (samples_left [] script.now)) }
    ensures refused { AnswersLoads (samples_left [] script.now) result }
    ensures explained { IfErr result (IfOfLoads (samples_left [] script.now)) }
    ensures unwritten { IfErr result (λ fault. fault ≡ Write → ⊥) }
    ensures sure { IsNoRun result }
{
    let store = load_all(alloc, &[], script)?;
    match changes_in_front(script.commands.as_slice()) {
        Some(done) => Ok(Begun { store, done }),
        None => Ok(Begun {
            store: Store::new(alloc),
            done: 0,
        }),
    }
}
