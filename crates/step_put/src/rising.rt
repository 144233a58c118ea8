ghost use Rattle.std.specs.List.{cons_option};
ghost use Rattle.std.specs.List.Sorted.{IsStrictlyIncreasing};
ghost use Rattle.std.specs.Option.{option_to_list};
ghost use Rattle.std.specs.Prelude.{◌≡◌, ◌<◌, ◌<ℤ◌, ◌+◌, ◌++◌, ◌∷◌, [], ℕ, None, length, slice_index_or, IfOk, IsTrue, OnOk};
ghost use Rattle.step_batch.specs.Lent.{IsFreeFrom, IsLater, SlotsRise, entries_of, stages, step_of};
ghost use Rattle.step_put.specs.Placed.{IsPlaced, PlacesRise, do_rise as slots_do_rise, has_value as is_value, is_behind as place_is_behind, made_step, marks_made, marks_of_faults, noted, slot_at, slots_made};
ghost use Rattle.step_table.specs.Orders.{mark_cmp};
ghost use Rattle.step_table.specs.Unions.{set_of};

use crate::faults::Faults;
use crate::own_places::Placing;
use crate::placed::PlacedOutcome;
use std::alloc::{AllocError, Global};
use step_batch::StepBuffer;
use step_batch::laws::{free_places_are_free, lent_steps_are_tables};
use step_table::Marks;
use step_table::order_laws::rows_ignore_order;
use ticks::Ms;
use xfrac::{NumFault, XFrac};

fn is_behind(last: Option<usize>, place: usize) -> bool
    ensures { result ≡ place_is_behind last place }
{
    match last {
        None => true,
        Some(last) => last < place,
    }
}

pub(crate) fn place_at(places: &[usize], place: usize) -> usize
    requires { place < length places.now }
    ensures { result ≡ slice_index_or places.now place 0 }
{
    places[place]
}

fn has_value(value: &Result<Option<XFrac>, NumFault>) -> bool
    ensures { result ≡ is_value value.now }
{
    match value {
        Ok(Some(_)) => true,
        _ => false,
    }
}

/// Whether the values go to rising places.
fn do_rise(places: &[usize], placed: &[PlacedOutcome]) -> bool
    requires { PlacesRise 0 (length places.now) placed.now }
    ensures { result ≡ slots_do_rise None (slots_made places.now placed.now) }
{
    let mut last = None;
    for row in placed {
        if !has_value(&row.value) {
            continue;
        }
        let place = place_at(places, row.place);
        if !is_behind(last, place) {
            return false;
        }
        last = Some(place);
    }
    true
}

/// Whether the values go to rising places, of what is fed at places that rise all if `rises` is true.
pub(crate) fn is_apart(rises: bool, places: &[usize], placed: &[PlacedOutcome]) -> bool
    requires increasing { IsTrue rises → IsStrictlyIncreasing places.now }
    requires within { PlacesRise 0 (length places.now) placed.now }
    ensures { IsTrue result → IsTrue (slots_do_rise None (slots_made places.now placed.now)) }
{
    if rises {
        return true;
    }
    do_rise(places, placed)
}

/// Puts the step of what is made, whose values go to rising places.
pub(crate) fn put_rising(
    alloc: Global,
    buffer: &mut StepBuffer,
    placing: &Placing,
    at: Ms,
    marks: &Marks,
    placed: &[PlacedOutcome],
) -> Result<(), AllocError>
    requires named { IsPlaced buffer.old placing.now }
    requires later { IsLater buffer.old at }
    requires within { PlacesRise 0 (length placing.now.fed) placed.now }
    requires rising { IsTrue (slots_do_rise None (slots_made placing.now.places placed.now)) }
    ensures labels { buffer.new.labels ≡ buffer.old.labels }
    ensures later { OnOk result ((u : _) → at.0 <ℤ u.0 → IsLater buffer.new u) }
    ensures lent { OnOk result (stages buffer.new ≡ stages buffer.old ++ record { at = at; step = made_step placing.now.left placing.now.fed marks.now placed.now } ∷ []) }
{
    lent_steps_are_tables();
    rows_ignore_order();
    let _ = buffer.lend().labels();
    buffer.begin(at)?;
    buffer.unite(marks)?;
    let faults = put_values(buffer, placing.places(), placed)?;
    let more = faults.marks(alloc)?;
    buffer.unite(&more)?;
    Ok(())
}

/// Puts the values that were made into the last step, and answers the faults.
fn put_values(
    buffer: &mut StepBuffer,
    places: &[usize],
    placed: &[PlacedOutcome],
) -> Result<Faults, AllocError>
    requires begun { IsFreeFrom 0 buffer.old }
    requires within { PlacesRise 0 (length places.now) placed.now }
    requires rising { SlotsRise 0 (length buffer.old.labels) (slots_made places.now placed.now) }
    ensures labels { buffer.new.labels ≡ buffer.old.labels }
    ensures begun { OnOk result (0 < length buffer.new.steps) }
    ensures later { OnOk result ((u : _) → IsLater buffer.old u → IsLater buffer.new u) }
    ensures faults { IfOk result (λ f. marks_of_faults f ≡ set_of mark_cmp (marks_made placed.now)) }
    ensures lent { OnOk result ((front at marks : _) → stages buffer.old ≡ front ++ record { at = at; step = step_of [] marks } ∷ []
        → stages buffer.new ≡ front ++ record { at = at; step = step_of (entries_of buffer.old.labels (slots_made places.now placed.now)) marks } ∷ []) }
{
    let mut faults = Faults::none();
    for row in placed {
        let place = place_at(places, row.place);
        faults = put_value(buffer, faults, place, row.value)?;
    }
    Ok(faults)
}

/// Puts a value that was made into the last step, or notes its fault.
fn put_value(
    buffer: &mut StepBuffer,
    faults: Faults,
    place: usize,
    value: Result<Option<XFrac>, NumFault>,
) -> Result<Faults, AllocError>
    requires room { (low : ℕ) × IsFreeFrom low buffer.old × SlotsRise low (length buffer.old.labels) (option_to_list (slot_at place value)) }
    ensures labels { buffer.new.labels ≡ buffer.old.labels }
    ensures begun { OnOk result (0 < length buffer.new.steps) }
    ensures room { OnOk result ((low : _) (slots : _) → IsFreeFrom low buffer.old → SlotsRise low (length buffer.old.labels) (cons_option (slot_at place value) slots)
        → (next : ℕ) × IsFreeFrom next buffer.new × SlotsRise next (length buffer.old.labels) slots) }
    ensures later { OnOk result ((u : _) → IsLater buffer.old u → IsLater buffer.new u) }
    ensures faults { IfOk result (λ f. f ≡ noted faults value) }
    ensures stages { OnOk result ((front at es marks : _) → stages buffer.old ≡ front ++ record { at = at; step = step_of es marks } ∷ []
        → stages buffer.new ≡ front ++ record { at = at; step = step_of (es ++ entries_of buffer.old.labels (option_to_list (slot_at place value))) marks } ∷ []) }
{
    match value {
        Ok(Some(value)) => {
            free_places_are_free();
            buffer.put(place, value)?;
            Ok(faults)
        }
        Ok(None) => Ok(faults),
        Err(fault) => Ok(faults.with(fault)),
    }
}
