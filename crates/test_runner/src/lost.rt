//! An engine that is lost: its labels go, and its box stands behind all others.
ghost use Rattle.query_engine.specs.Engines.{moved_last};
ghost use Rattle.std.specs.Prelude.{◌≡◌, ◌<◌, IfSome, MatchOption, length, remove};
ghost use Rattle.test_runner.specs.Boxes.{lost_by};

use crate::fault::RunnerFault;
use holders::Items;
use label_set::Labels;
use remote_api::Engine;

/// Takes the engine that a fault names out of those that are declared: its labels go, and its box moves behind all others. Where the
/// fault names none nothing changes. It takes no memory.
pub(crate) fn lose(
    engines: &mut [Box<dyn Engine>],
    declared: &mut Items<Labels>,
    fault: &RunnerFault,
)
    requires named { IfSome (lost_by fault.now) (λ i. i < length declared.old) }
    requires boxes { IfSome (lost_by fault.now) (λ i. i < length engines.old) }
    ensures labels { MatchOption (lost_by fault.now) (declared.new ≡ declared.old) (λ i. declared.new ≡ remove declared.old i) }
    ensures boxes { MatchOption (lost_by fault.now) (engines.new ≡ engines.old) (λ i. engines.new ≡ moved_last i engines.old) }
{
    match fault {
        RunnerFault::Run(fault) => query_engine::lose(engines, declared, fault),
        RunnerFault::Refused(_)
        | RunnerFault::Range(_)
        | RunnerFault::Write
        | RunnerFault::Memory => {}
    }
}
