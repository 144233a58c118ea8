ghost use Rattle.op_set.specs.Rising.{AreApart, AreWithin, DoRise};
ghost use Rattle.std.specs.Prelude.{◌≡◌, ◌++◌, ◌∷◌, [], length, IsTrue, OnOk};
ghost use Rattle.step_batch.specs.Lent.{IsFreeFrom, IsLater, SlotsRise, entries_of, stages, step_of};
ghost use Rattle.step_table.specs.Shuffles.{Shuffled};

use std::alloc::AllocError;
use step_batch::laws::free_places_are_free;
use step_batch::{Slot, StepBuffer};

/// Whether the places of rows rise.
fn do_rise(slots: &[Slot]) -> bool
    ensures { IsTrue result → DoRise slots.now }
{
    for i in 1..slots.len() {
        if slots[i - 1].place >= slots[i].place {
            return false;
        }
    }
    true
}

/// Brings rows into the order of their places. It takes no memory.
pub(crate) fn rise(slots: &mut Vec<Slot>)
    ensures shuffled { Shuffled slots.old.items slots.new.items }
    ensures rising { (high : _) → AreWithin high slots.old.items → AreApart slots.old.items → SlotsRise 0 high slots.new.items }
{
    if do_rise(slots.as_slice()) {
        return;
    }
    slots.sort_unstable_by_key(|slot| slot.place);
}

/// Puts rows into the last step, whose places rise.
pub(crate) fn put_rows(made: &mut StepBuffer, slots: &[Slot]) -> Result<(), AllocError>
    requires begun { IsFreeFrom 0 made.old }
    requires rising { SlotsRise 0 (length made.old.labels) slots.now }
    ensures labels { made.new.labels ≡ made.old.labels }
    ensures later { OnOk result ((u : _) → IsLater made.old u → IsLater made.new u) }
    ensures lent { OnOk result ((front at marks : _) → stages made.old ≡ front ++ record { at = at; step = step_of [] marks } ∷ []
        → stages made.new ≡ front ++ record { at = at; step = step_of (entries_of made.old.labels slots.now) marks } ∷ []) }
{
    free_places_are_free();
    for slot in slots {
        made.put(slot.place, slot.value)?;
    }
    Ok(())
}
