//! The gathers at the leaves of a tree.
ghost use Rattle.exchange.specs.Faults.{Blames, IsAskedAt};
ghost use Rattle.exchange.specs.declared.place.Place.{Place};
ghost use Rattle.plan_tree.specs.Feeding.{HasRun};
ghost use Rattle.plan_tree.specs.Gathering.{CanTake, HasTaken};
ghost use Rattle.plan_tree.specs.Runs.{as_run};
ghost use Rattle.std.specs.Prelude.{◌≡◌, ℕ, Some, OnOk, map, slice_get};
ghost use Rattle.ticks.specs.declared.moment.Ms.{Ms};

use exchange::{Exchange, RunFault};
use match_rule::Patterns;
use remote_api::{Courier, Engine};
use std::alloc::AllocError;
use step_table::laws::{steps_are_well_formed, unions_are_sets};

/// Takes what the gather at a place gives at its next instant, which the exchange lends then. A fault is that of `Exchange::advance`;
/// after one the exchange may only be dropped.
pub(crate) fn take_next<C: Courier>(
    exchange: &mut Exchange,
    place: usize,
    engines: &mut [Box<dyn Engine>],
    patterns: &mut Patterns<'_>,
    courier: &mut C,
) -> Result<(), RunFault>
    requires { (t : Ms) × CanTake patterns.old (map (λ b. seen b) engines.old) exchange.old.places place t }
    ensures taken { OnOk result ((t : Ms) (c : CanTake patterns.old (map (λ b. seen b) engines.old) exchange.old.places place t)
        → HasTaken c.place c.taken c.all c.known patterns.old (map (λ b. seen b) engines.new) exchange.new.places place t) }
    ensures others { (k : ℕ) → (k ≡ place → ⊥) → slice_get exchange.new.places k ≡ slice_get exchange.old.places k }
    ensures run { HasRun result (map (λ b. seen b) engines.old) (map (λ b. seen b) engines.new) }
    ensures blame { (one : Place) → slice_get exchange.old.places place ≡ Some one → Blames (IsAskedAt one.asks) result }
    ensures same { patterns.new ≡ patterns.old }
{
    unions_are_sets();
    steps_are_well_formed();
    exchange.advance(place, engines, patterns, courier)
}

/// What a call of a kernel has answered, whose only error is want of memory.
pub(crate) fn or_memory(made: Result<(), AllocError>) -> Result<(), RunFault>
    ensures { result ≡ as_run made }
{
    match made {
        Ok(()) => Ok(()),
        Err(AllocError) => Err(RunFault::Memory),
    }
}
