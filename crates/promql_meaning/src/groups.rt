ghost use Rattle.promql_meaning.specs.Ranks.{kept_labels};
ghost use Rattle.std.specs.Prelude.{◌≡◌, IfOk};

use label_set::{Grouping, Labels};
use std::alloc::AllocError;

/// The labels of a row's group: the listed ones, or all but the listed and the metric's name. The only error is want of
/// memory.
pub(crate) fn group_labels(by: &Grouping, labels: &Labels) -> Result<Labels, AllocError>
    ensures { IfOk result (λ l. l ≡ kept_labels by.now labels.now) }
{
    labels.signature(!by.without, &by.names)
}
