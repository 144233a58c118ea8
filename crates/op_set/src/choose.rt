ghost use Rattle.op_set.specs.Sides.{AreBelow, AreMarked, is_chosen as is_row_chosen, kept_rows, moved, number_of as number_at, rows_kept};
ghost use Rattle.std.specs.Prelude.{◌≡◌, ◌<◌, ◌≤◌, ◌++◌, length, OnOk};
ghost use Rattle.func_table.specs.declared.table.SetOp.TheVariants.{Or};
ghost use Rattle.step_batch.specs.Lent.{SlotsRise};

use crate::sides::{Naming, Side};
use func_table::SetOp;
use std::alloc::AllocError;
use step_batch::Slot;

/// Which rows of a side an operator keeps.
#[derive(Clone, Copy, Debug)]
pub(crate) enum Chosen {
    All,
    /// Those whose signature is marked.
    Marked,
    /// Those whose signature isn't marked.
    Unmarked,
}

fn is_chosen(chosen: Chosen, marked: bool) -> bool
    ensures { result ≡ is_row_chosen chosen marked }
{
    match chosen {
        Chosen::All => true,
        Chosen::Marked => marked,
        Chosen::Unmarked => !marked,
    }
}

/// The number of a row's signature.
fn number_of(numbers: &[usize], slot: Slot) -> usize
    requires { slot.place < length numbers.now }
    ensures { result ≡ number_at numbers.now slot }
{
    numbers[slot.place]
}

/// Marks the signatures of rows, and no others.
fn mark(marked: &mut [bool], numbers: &[usize], slots: &[Slot])
    requires within { SlotsRise 0 (length numbers.now) slots.now }
    requires numbered { AreBelow (length marked.old) numbers.now }
    ensures marked { AreMarked marked.new numbers.now slots.now }
    ensures count { length marked.new ≡ length marked.old }
{
    marked.fill(false);
    for slot in slots {
        let number = number_of(numbers, *slot);
        marked[number] = true;
    }
}

/// A row at its own place.
fn at_own_place(places: &[usize], slot: Slot) -> Slot
    requires { slot.place < length places.now }
    ensures { result ≡ moved places.now slot }
{
    Slot {
        place: places[slot.place],
        value: slot.value,
    }
}

/// Adds the rows of a side that are chosen, at their own places.
fn choose(
    kept: &mut Vec<Slot>,
    chosen: Chosen,
    marked: &[bool],
    side: &Side,
    slots: &[Slot],
) -> Result<(), AllocError>
    requires within { SlotsRise 0 (length side.now.signed.places) slots.now }
    requires placed { length side.now.signed.places ≤ length side.now.own.places }
    requires numbered { AreBelow (length marked.now) side.now.signed.places }
    ensures { OnOk result (kept.new.items ≡ kept.old.items ++ kept_rows chosen marked.now side.now slots.now) }
{
    let numbers = side.signed.places();
    let places = side.own.places();
    for slot in slots {
        let number = number_of(numbers, *slot);
        if !is_chosen(chosen, marked[number]) {
            continue;
        }
        kept.push(at_own_place(places, *slot))?;
    }
    Ok(())
}

/// Takes the rows that the operator gives, at their own places, in the place of those that were there.
pub(crate) fn keep(
    names: &Naming,
    marked: &mut [bool],
    kept: &mut Vec<Slot>,
    left: &[Slot],
    right: &[Slot],
) -> Result<(), AllocError>
    requires left { SlotsRise 0 (length names.now.left.signed.places) left.now }
    requires right { SlotsRise 0 (length names.now.right.signed.places) right.now }
    requires left_numbers { AreBelow (length marked.old) names.now.left.signed.places }
    requires right_numbers { AreBelow (length marked.old) names.now.right.signed.places }
    requires left_places { length names.now.left.signed.places ≤ length names.now.left.own.places }
    requires right_places { names.now.op ≡ Or → length names.now.right.signed.places ≤ length names.now.right.own.places }
    ensures count { length marked.new ≡ length marked.old }
    ensures kept { OnOk result (kept.new.items ≡ rows_kept names.now.op names.now.left names.now.right left.now right.now) }
{
    let ones = &names.left;
    let others = &names.right;
    kept.clear();
    match names.op {
        SetOp::And => {
            mark(marked, others.signed.places(), right);
            choose(kept, Chosen::Marked, marked, ones, left)?;
            Ok(())
        }
        SetOp::Unless => {
            mark(marked, others.signed.places(), right);
            choose(kept, Chosen::Unmarked, marked, ones, left)?;
            Ok(())
        }
        SetOp::Or => {
            mark(marked, ones.signed.places(), left);
            choose(kept, Chosen::All, marked, ones, left)?;
            choose(kept, Chosen::Unmarked, marked, others, right)?;
            Ok(())
        }
    }
}
