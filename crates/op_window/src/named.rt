//! The labels that are fed: of series of the store, and of windows.
ghost use Rattle.op_window.specs.Rules.{names_in, names_of};
ghost use Rattle.series_marks.specs.Reaches.{AreThere};
ghost use Rattle.std.specs.Prelude.{◌≡◌, IfOk};

use holders::Items;
use label_set::Labels;
use sample_store::Store;
use std::alloc::{AllocError, Global};
use step_batch::Windows;

/// The labels of series. The only error is want of memory.
pub(crate) fn labels_of(
    alloc: Global,
    store: &Store,
    series: &[u32],
) -> Result<Items<Labels>, AllocError>
    requires { AreThere store.now series.now }
    ensures { IfOk result (λ labels. labels ≡ names_of store.now series.now) }
{
    let mut labels = Items::with_capacity(alloc, series.len())?;
    for i in 0..series.len() {
        labels.push(store.labels(series[i]).copy()?)?;
    }
    Ok(labels)
}

/// The labels of windows. The only error is want of memory.
pub(crate) fn labels_in(alloc: Global, windows: &Windows<'_>) -> Result<Items<Labels>, AllocError>
    ensures { IfOk result (λ labels. labels ≡ names_in windows.now.rows) }
{
    let mut labels = Items::with_capacity(alloc, windows.len())?;
    for i in 0..windows.len() {
        labels.push(windows.labels(i).copy()?)?;
    }
    Ok(labels)
}
