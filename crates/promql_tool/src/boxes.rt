//! Boxes of engines: labels are declared to them, one by one.
ghost use Rattle.exchange.specs.Calls.{IsCalled};
ghost use Rattle.promql_tool.specs.Boxes.{AreFresh, LeavesBoxes, LosesNone};
ghost use Rattle.promql_tool.specs.Declaring.{AreUndeclaredFrom, HoldDeclared, IsDeclared};
ghost use Rattle.remote_api.specs.Seen.{HasDeclared, MayDeclare};
ghost use Rattle.std.specs.Prelude.{◌≡◌, ◌+◌, ◌<◌, ◌≤◌, ◌^◌, length, map, take, IsErrOf, OnOk};
ghost use Rattle.test_runner.specs.Boxes.{AreReady, AreSound};
ghost use Rattle.tool_words.specs.Engines.{AreDeclaredTo};

use crate::fault::Cut;
use label_set::Labels;
use query_engine::move_last;
use remote_api::{Engine, EngineFail};

fn declare_box(engine: &mut Box<dyn Engine>, labels: &Labels) -> Result<(), EngineFail>
    requires { MayDeclare (seen engine.old) }
    ensures { HasDeclared labels.now result (seen engine.old) (seen engine.new) }
{
    engine.declare(labels)
}

/// Declares labels to one box out of the list.
fn declare_at(engines: &mut [Box<dyn Engine>], i: usize, labels: &Labels) -> Result<(), EngineFail>
    requires inside { i < length engines.old }
    requires may { AreUndeclaredFrom i (map (λ b. seen b) engines.old) }
    ensures declared { IsCalled i (HasDeclared labels.now result) (map (λ b. seen b) engines.old) (map (λ b. seen b) engines.new) }
    ensures len { length engines.new ≡ length engines.old }
{
    declare_box(&mut engines[i], labels)
}

/// Declares labels to one box out of the list, which moves behind all others where it fails. The other error is want of memory.
fn declare_next(engines: &mut [Box<dyn Engine>], i: usize, labels: &Labels) -> Result<(), Cut>
    requires inside { i < length engines.old }
    requires few { length engines.old < 2 ^ 32 }
    requires may { AreUndeclaredFrom i (map (λ b. seen b) engines.old) }
    ensures one { OnOk result (IsCalled i (IsDeclared labels.now) (map (λ b. seen b) engines.old) (map (λ b. seen b) engines.new)) }
    ensures boxes { LeavesBoxes result (map (λ b. seen b) engines.old) (map (λ b. seen b) engines.new) }
    ensures unwritten { IsErrOf result Cut.Write → ⊥ }
    ensures sure { AreSound (take (i + 1) (map (λ b. seen b) engines.old)) → LosesNone result }
{
    match declare_at(engines, i, labels) {
        Ok(()) => Ok(()),
        Err(EngineFail::Failed) => {
            move_last(engines, i);
            Err(Cut::losing(i as u32, None))
        }
        Err(EngineFail::Memory) => Err(Cut::Memory),
    }
}

/// Declares to each of the first boxes its labels.
fn declare_each(engines: &mut [Box<dyn Engine>], declared: &[Labels]) -> Result<(), Cut>
    requires boxes { length declared.now ≤ length engines.old }
    requires few { length engines.old < 2 ^ 32 }
    requires fresh { AreFresh (map (λ b. seen b) engines.old) }
    ensures declared { OnOk result (HoldDeclared declared.now (map (λ b. seen b) engines.new)) }
    ensures boxes { LeavesBoxes result (map (λ b. seen b) engines.old) (map (λ b. seen b) engines.new) }
    ensures unwritten { IsErrOf result Cut.Write → ⊥ }
    ensures sure { AreSound (take (length declared.now) (map (λ b. seen b) engines.old)) → LosesNone result }
{
    for i in 0..declared.len() {
        declare_next(engines, i, &declared[i])?;
    }
    Ok(())
}

/// Declares to each of the first boxes its labels. The first that fails moves behind all others, and no later one is called; the other
/// error is want of memory.
pub fn declare(engines: &mut Vec<Box<dyn Engine>>, declared: &[Labels]) -> Result<(), Cut>
    requires sets { AreDeclaredTo (length engines.old.items) declared.now }
    requires few { length engines.old.items < 2 ^ 32 }
    requires fresh { AreFresh (map (λ b. seen b) engines.old.items) }
    ensures ready { OnOk result (AreReady declared.now (map (λ b. seen b) engines.new.items)) }
    ensures boxes { LeavesBoxes result (map (λ b. seen b) engines.old.items) (map (λ b. seen b) engines.new.items) }
    ensures unwritten { IsErrOf result Cut.Write → ⊥ }
    ensures sure { AreSound (take (length declared.now) (map (λ b. seen b) engines.old.items)) → LosesNone result }
{
    declare_each(engines.as_mut_slice(), declared)
}
