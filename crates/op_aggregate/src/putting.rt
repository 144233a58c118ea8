//! What is made of the groups of a step, put into the buffer that lends it.
ghost use Rattle.op_aggregate.specs.Places.{AreApart, AreReady, IsReady, groups_made, overflow_if};
ghost use Rattle.op_aggregate.specs.Tallies.{group_value, or_overflow};
ghost use Rattle.std.specs.List.{filter_map};
ghost use Rattle.std.specs.Option.{option_map, option_to_list};
ghost use Rattle.std.specs.Prelude.{◌≡◌, ◌<◌, ◌<ℤ◌, ◌||◌, ◌++◌, ◌∷◌, [], Some, false, is_none, length, map, slice_get, slice_index_or, IfOk, OnOk};
ghost use Rattle.step_batch.specs.Lent.{IsLater, entry_in, has_slot, last_slots, stages, step_of};
ghost use Rattle.step_table.specs.Orders.{mark_cmp};
ghost use Rattle.step_table.specs.Outcomes.{mark_of, row_of};
ghost use Rattle.step_table.specs.Unions.{set_of, with_fatal};

use crate::groups::Groups;
use label_set::Items;
use std::alloc::{AllocError, Global};
use step_batch::StepBuffer;
use step_table::{Mark, Marks};
use ticks::Ms;
use xfrac::XFrac;

/// Puts what is made of groups as a step at an instant, with marks and notes. The only error is want of memory.
pub(crate) fn put_groups(
    alloc: Global,
    buffer: &mut StepBuffer,
    at: Ms,
    marks: &Marks,
    groups: &Groups,
) -> Result<(), AllocError>
    requires later { IsLater buffer.old at }
    requires many { length groups.now.all.items ≡ length buffer.old.labels }
    requires ready { AreReady groups.now.all.items groups.now.filled.items }
    requires apart { AreApart groups.now.filled.items }
    ensures labels { buffer.new.labels ≡ buffer.old.labels }
    ensures later { OnOk result ((u : _) → at.0 <ℤ u.0 → IsLater buffer.new u) }
    ensures lent { OnOk result (let made = groups_made groups.now.f buffer.old.labels groups.now.all.items groups.now.filled.items in
        stages buffer.new ≡ stages buffer.old ++ record { at = at; step = step_of (map entry_in (filter_map row_of made)) (with_fatal marks.now (filter_map mark_of made)) } ∷ []) }
{
    buffer.begin(at)?;
    buffer.unite(marks)?;
    let overflows = put_values(buffer, groups)?;
    let more = overflow_marks(alloc, overflows)?;
    buffer.unite(&more)?;
    Ok(())
}

/// Puts what is made of each group into the last step, and answers whether one overflows.
fn put_values(buffer: &mut StepBuffer, groups: &Groups) -> Result<bool, AllocError>
    requires begun { 0 < length buffer.old.steps }
    requires none { (q : _) → has_slot q (last_slots buffer.old.steps) ≡ false }
    requires many { length groups.now.all.items ≡ length buffer.old.labels }
    requires ready { AreReady groups.now.all.items groups.now.filled.items }
    requires apart { AreApart groups.now.filled.items }
    ensures labels { buffer.new.labels ≡ buffer.old.labels }
    ensures begun { OnOk result (0 < length buffer.new.steps) }
    ensures later { OnOk result ((u : _) → IsLater buffer.old u → IsLater buffer.new u) }
    ensures overflows { IfOk result (λ b. overflow_if b ≡ set_of mark_cmp (filter_map mark_of (groups_made groups.now.f buffer.old.labels groups.now.all.items groups.now.filled.items))) }
    ensures lent { OnOk result ((front at marks : _) → stages buffer.old ≡ front ++ record { at = at; step = step_of [] marks } ∷ []
        → stages buffer.new ≡ front ++ record { at = at; step = step_of (map entry_in (filter_map row_of (groups_made groups.now.f buffer.old.labels groups.now.all.items groups.now.filled.items))) marks } ∷ []) }
{
    let mut overflows = false;
    for place in groups.filled.as_slice() {
        let value = value_at(groups, *place);
        let overflowed = put_value(buffer, *place, value)?;
        overflows = either(overflows, overflowed);
    }
    Ok(overflows)
}

/// Puts a value at a place into the last step, and answers whether there is none.
fn put_value(
    buffer: &mut StepBuffer,
    place: usize,
    value: Option<XFrac>,
) -> Result<bool, AllocError>
    requires begun { 0 < length buffer.old.steps }
    requires there { place < length buffer.old.labels }
    requires free { has_slot place (last_slots buffer.old.steps) ≡ false }
    ensures labels { buffer.new.labels ≡ buffer.old.labels }
    ensures begun { OnOk result (0 < length buffer.new.steps) }
    ensures others { OnOk result ((q : _) → (q ≡ place → ⊥) → has_slot q (last_slots buffer.old.steps) ≡ false → has_slot q (last_slots buffer.new.steps) ≡ false) }
    ensures later { OnOk result ((u : _) → IsLater buffer.old u → IsLater buffer.new u) }
    ensures overflows { IfOk result (λ b. b ≡ is_none value) }
    ensures lent { OnOk result ((front at es marks : _) → stages buffer.old ≡ front ++ record { at = at; step = step_of es marks } ∷ []
        → stages buffer.new ≡ front ++ record { at = at; step = step_of (es ++ map entry_in (option_to_list (row_of (record { labels = slice_index_or buffer.old.labels place []; value = or_overflow value })))) marks } ∷ []) }
{
    match value {
        Some(value) => {
            buffer.put(place, value)?;
            Ok(false)
        }
        None => Ok(true),
    }
}

fn either(a: bool, b: bool) -> bool
    ensures { result ≡ (a || b) }
{
    a || b
}

/// What is made of the group at a place.
fn value_at(groups: &Groups, place: usize) -> Option<XFrac>
    requires { IsReady (slice_get groups.now.all.items place) }
    ensures { option_map (group_value groups.now.f) (slice_get groups.now.all.items place) ≡ Some result }
{
    groups.all[place].value(groups.f)
}

/// The mark of an overflow, if there was one; none takes no memory.
pub(crate) fn overflow_marks(alloc: Global, overflows: bool) -> Result<Marks, AllocError>
    ensures { IfOk result (λ marks. marks ≡ record { fatal = overflow_if overflows; notes = [] }) }
{
    let mut fatal = Items::new(alloc);
    if overflows {
        fatal.push(Mark::Overflow)?;
    }
    Ok(Marks {
        fatal,
        notes: Items::new(alloc),
    })
}
