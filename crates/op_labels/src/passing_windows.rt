//! Windows whose labels pass a filter.
ghost use Rattle.label_set.specs.LabelEquality.{labels_eq};
ghost use Rattle.op_labels.specs.Rules.{staying, windows_staying};
ghost use Rattle.std.specs.List.{list_any};
ghost use Rattle.std.specs.Prelude.{◌≡◌, ◌<◌, ◌++◌, Some, false, length, slice_get, OnOk};
ghost use Rattle.step_batch.specs.LentWindows.{names_of};

use crate::change::{Fate, fate_at};
use std::alloc::AllocError;
use step_batch::{WindowBuffer, Windows};

/// Puts the windows whose labels stay, with the instant and the marks, in the place of what was there. The only error is want of
/// memory.
pub(crate) fn pass_all(
    passed: &mut WindowBuffer,
    fates: &[Fate],
    windows: &Windows<'_>,
) -> Result<(), AllocError>
    requires { length fates.now ≡ length windows.now.rows }
    ensures { OnOk result (passed.new ≡ record { at = windows.now.at; rows = windows_staying fates.now windows.now.rows; marks = windows.now.marks }) }
{
    passed.begin(windows.at());
    passed.unite(windows.marks())?;
    for i in 0..windows.len() {
        let fate = fate_at(fates, i);
        pass(passed, fate, windows, i)?;
    }
    Ok(())
}

/// Puts the window at a place behind the others, if its labels stay.
fn pass(
    passed: &mut WindowBuffer,
    fate: Fate,
    windows: &Windows<'_>,
    i: usize,
) -> Result<(), AllocError>
    requires here { i < length windows.now.rows }
    requires fresh { (w : _) → slice_get windows.now.rows i ≡ Some w → list_any (labels_eq w.labels) (names_of passed.old.rows) ≡ false }
    ensures { OnOk result ((w : _) → slice_get windows.now.rows i ≡ Some w → passed.new ≡ record { at = passed.old.at; rows = passed.old.rows ++ staying fate w; marks = passed.old.marks }) }
{
    let _ = windows.len();
    match fate {
        Fate::Stays => passed.put(windows.labels(i), windows.times(i), windows.values(i)),
        Fate::Beyond | Fate::Out => Ok(()),
    }
}
