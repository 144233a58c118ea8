//! Values beside the places of their groups.
ghost use Rattle.op_rank.specs.Entries.{AreNumberEntries, entry_of};
ghost use Rattle.std.specs.Prelude.{◌≡◌, length, map, OnOk};
ghost use Rattle.step_batch.specs.Lent.{SlotsRise};

use crate::contenders::number_at;
use std::alloc::AllocError;
use step_batch::Slot;
use xfrac::XFrac;
use xfrac::laws::is_number;

/// A value beside the place of its group.
#[derive(Clone, Copy, Debug)]
pub(crate) struct Entry {
    pub group: usize,
    pub value: XFrac,
}

/// Lists the values beside the places of their groups, in the place of what was listed.
pub(crate) fn list(
    entries: &mut Vec<Entry>,
    groups: &[usize],
    slots: &[Slot],
) -> Result<(), AllocError>
    requires { SlotsRise 0 (length groups.now) slots.now }
    ensures list { OnOk result (entries.new.items ≡ map (entry_of groups.now) slots.now) }
    ensures numbers { OnOk result (AreNumberEntries entries.new.items) }
{
    entries.clear();
    for i in 0..slots.len() {
        let slot = &slots[i];
        is_number(&slot.value);
        let group = number_at(groups, slot);
        entries.push(Entry {
            group,
            value: slot.value,
        })?;
    }
    Ok(())
}
