//! One step at many instants.
ghost use Rattle.label_set.specs.LabelEquality.{labels_eq};
ghost use Rattle.std.specs.List.{IsDistinct};
ghost use Rattle.std.specs.Prelude.{◌≡◌, ◌++◌, ◌<◌, ◌<ℤ◌, ◌∷◌, [], List, length, OnOk};
ghost use Rattle.step_batch.specs.Lent.{IsFreeFrom, IsLater, SlotsRise, blank, no_marks, stages};
ghost use Rattle.step_batch.specs.LentWindows.{TimesRise};
ghost use Rattle.step_batch.specs.declared.steps.PlacedStep.{PlacedStep};
ghost use Rattle.step_table.specs.Timed.{StepAt, steps_over};
ghost use Rattle.ticks.specs.declared.moment.Ms.{Ms};

use label_set::Labels;
use std::alloc::AllocError;
use step_batch::laws::free_places_are_free;
use step_batch::{Batch, Slot, StepBuffer};
use ticks::Ms;

/// Gives labels their places, in the place of all that was there.
pub(crate) fn name_all(out: &mut StepBuffer, labels: &[Labels]) -> Result<(), AllocError>
    requires { IsDistinct labels_eq labels.now }
    ensures { OnOk result (out.new.labels ≡ labels.now) }
{
    out.clear();
    for names in labels {
        out.place(names)?;
    }
    Ok(())
}

/// Puts the one step that is lent at each of some instants, in the place of the steps that were there; its labels have their
/// places already.
pub(crate) fn repeat_all(
    out: &mut StepBuffer,
    batch: &Batch<'_>,
    at: &[Ms],
) -> Result<(), AllocError>
    requires named { out.old.labels ≡ batch.now.labels }
    requires one { (one : StepAt) × (stages batch.now ≡ one ∷ []) }
    requires rising { TimesRise at.now }
    ensures named { OnOk result (out.new.labels ≡ batch.now.labels) }
    ensures lent { OnOk result ((one : StepAt) → stages batch.now ≡ one ∷ [] → stages out.new ≡ steps_over (λ t. one.step) at.now) }
{
    out.renew();
    for t in at {
        repeat_one(out, batch, *t)?;
    }
    Ok(())
}

/// Puts the first step that is lent, at one instant more.
fn repeat_one(out: &mut StepBuffer, batch: &Batch<'_>, t: Ms) -> Result<(), AllocError>
    requires named { out.old.labels ≡ batch.now.labels }
    requires some { 0 < length batch.now.steps }
    requires later { IsLater out.old t }
    ensures named { OnOk result (out.new.labels ≡ out.old.labels) }
    ensures later { OnOk result ((u : _) → t.0 <ℤ u.0 → IsLater out.new u) }
    ensures steps { OnOk result ((s : PlacedStep) (rest : _) → batch.now.steps ≡ s ∷ rest
        → out.new.steps ≡ out.old.steps ++ record { at = t; slots = s.slots; marks = s.marks } ∷ []) }
{
    out.begin(t)?;
    put_all(out, batch.slots(0))?;
    out.unite(batch.marks(0))?;
    Ok(())
}

/// Puts slots into the last step, which has none.
fn put_all(out: &mut StepBuffer, slots: &[Slot]) -> Result<(), AllocError>
    requires rise { SlotsRise 0 (length out.old.labels) slots.now }
    requires free { IsFreeFrom 0 out.old }
    ensures named { OnOk result (out.new.labels ≡ out.old.labels) }
    ensures begun { OnOk result (0 < length out.new.steps) }
    ensures later { OnOk result ((u : _) → IsLater out.old u → IsLater out.new u) }
    ensures steps { OnOk result ((front : List PlacedStep) (at : Ms) → out.old.steps ≡ front ++ blank at ∷ []
        → out.new.steps ≡ front ++ record { at = at; slots = slots.now; marks = no_marks } ∷ []) }
{
    free_places_are_free();
    for slot in slots {
        out.put(slot.place, slot.value)?;
    }
    Ok(())
}
