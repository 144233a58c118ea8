ghost use Rattle.logical_plan.specs.PlanRules.{divided_by};
ghost use Rattle.op_ratio.specs.Counts.{AreBelow, AreNoted, AreQuotients, IsCount, number_of as number_at};
ghost use Rattle.std.specs.Prelude.{◌≡◌, ◌<◌, length, OnOk};
ghost use Rattle.step_batch.specs.Lent.{SlotsRise};

use std::alloc::AllocError;
use step_batch::Slot;
use step_put::PlacedOutcome;
use step_table::some_value;
use xfrac::{ArithOp, NumFault, XFrac, arith};

/// The number of a row's labels.
fn number_of(numbers: &[usize], slot: Slot) -> usize
    requires { slot.place < length numbers.now }
    ensures { result ≡ number_at numbers.now slot }
{
    numbers[slot.place]
}

/// Notes under the number of each row's labels where the row stands. Under other numbers stays what was noted before, which
/// `count_under` sees through; so nothing is ever cleared.
pub(crate) fn note(at: &mut [usize], numbers: &[usize], slots: &[Slot])
    requires within { SlotsRise 0 (length numbers.now) slots.now }
    requires numbered { AreBelow (length at.old) numbers.now }
    ensures noted { AreNoted (length slots.now) at.new numbers.now slots.now }
    ensures count { length at.new ≡ length at.old }
{
    for i in 0..slots.len() {
        let number = number_of(numbers, slots[i]);
        at[number] = i;
    }
}

/// The count under a number, if there is one.
fn count_under(at: &[usize], numbers: &[usize], counts: &[Slot], number: usize) -> Option<XFrac>
    requires room { number < length at.now }
    requires within { SlotsRise 0 (length numbers.now) counts.now }
    requires noted { AreNoted (length counts.now) at.now numbers.now counts.now }
    ensures { IsCount numbers.now counts.now number result }
{
    let i = at[number];
    if i >= counts.len() {
        return None;
    }
    let slot = &counts[i];
    if number_of(numbers, *slot) != number {
        return None;
    }
    Some(slot.value)
}

/// A sum divided by a count; without a count there is nothing.
fn quotient(count: Option<XFrac>, sum: &XFrac) -> Result<Option<XFrac>, NumFault>
    ensures { result ≡ divided_by count sum.now }
{
    match count {
        None => Ok(None),
        Some(count) => some_value(arith(ArithOp::Div, sum, &count)),
    }
}

/// Takes the quotients of sums in the place of what was there. The only error is want of memory.
pub(crate) fn divide(
    placed: &mut Vec<PlacedOutcome>,
    at: &[usize],
    sum_numbers: &[usize],
    sums: &[Slot],
    count_numbers: &[usize],
    counts: &[Slot],
) -> Result<(), AllocError>
    requires sums { SlotsRise 0 (length sum_numbers.now) sums.now }
    requires numbered { AreBelow (length at.now) sum_numbers.now }
    requires counts { SlotsRise 0 (length count_numbers.now) counts.now }
    requires noted { AreNoted (length counts.now) at.now count_numbers.now counts.now }
    ensures { OnOk result (AreQuotients sum_numbers.now count_numbers.now counts.now sums.now placed.new.items) }
{
    placed.clear();
    for slot in sums {
        let count = count_under(at, count_numbers, counts, number_of(sum_numbers, *slot));
        placed.push(PlacedOutcome {
            place: slot.place,
            value: quotient(count, &slot.value),
        })?;
    }
    Ok(())
}
