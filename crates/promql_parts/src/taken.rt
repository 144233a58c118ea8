//! The labels that a list of labels may not name again.
ghost use Rattle.promql_parts.specs.Labels.{is_among};
ghost use Rattle.std.specs.BTreeSet.{BTreeSet, contains};
ghost use Rattle.std.specs.Cmp.Lexicographic.{slice_cmp};
ghost use Rattle.std.specs.Ordering.{nat_cmp};
ghost use Rattle.std.specs.Prelude.{◌≡◌, ℕ, List, [], IfOk};

use holders::Text;
use std::alloc::{AllocError, Global};
use std::collections::BTreeSet;
use std::marker::Model;

/// Labels that are taken, which contracts see in their order. A label is looked up among `n` of them in the time of `log n`
/// comparisons.
#[derive(Drop)]
pub struct Taken<'a> {
    labels: &'a [Text],
    sorted: BTreeSet<Text>,
}

impl<'a> Model for Taken<'a> {
    ghost use Rattle.promql_parts.specs.Labels.{is_among};
    ghost use Rattle.std.specs.BTreeSet.{contains};
    ghost use Rattle.std.specs.Cmp.Lexicographic.{slice_cmp};
    ghost use Rattle.std.specs.Ordering.{nat_cmp};
    ghost use Rattle.std.specs.Prelude.{◌≡◌, ℕ, List};

    ghost Value = { List (List ℕ) };

    ghost view = { λ t. t.labels.now };

    ghost invariant = { λ t. (q : List ℕ) → contains (slice_cmp nat_cmp) t.sorted q ≡ is_among t.labels.now q };
}

fn sorted(alloc: Global, labels: &[Text]) -> Result<BTreeSet<Text>, AllocError>
    ensures { IfOk result (λ s. (q : List ℕ) → contains (slice_cmp nat_cmp) s q ≡ is_among labels.now q) }
{
    let mut sorted = BTreeSet::new(alloc);
    for label in labels {
        sorted.insert(label.copy()?)?;
    }
    Ok(sorted)
}

impl<'a> Taken<'a> {
    /// No labels.
    pub fn none(alloc: Global) -> Taken<'a>
        ensures { result ≡ [] }
    {
        Taken {
            labels: &[],
            sorted: BTreeSet::new(alloc),
        }
    }

    /// These labels. The only error is want of memory.
    pub fn of(alloc: Global, labels: &'a [Text]) -> Result<Taken<'a>, AllocError>
        ensures { IfOk result (λ t. t ≡ labels.now) }
    {
        let sorted = sorted(alloc, labels)?;
        Ok(Taken { labels, sorted })
    }

    /// Whether the label is among them.
    pub fn has(&self, label: &Text) -> bool
        ensures { result ≡ is_among self.now label.now }
    {
        self.sorted.contains(label)
    }
}
