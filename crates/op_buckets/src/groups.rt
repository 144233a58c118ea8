//! The histograms of labels that are fed.
ghost use Rattle.label_set.specs.LabelEquality.{labels_eq};
ghost use Rattle.std.specs.List.{IsDistinct};
ghost use Rattle.std.specs.Prelude.{◌≡◌, [], OnOk};
ghost use Rattle.step_put.specs.Puts.{AreAt};

use label_set::Labels;
use std::alloc::{AllocError, Global};
use std::marker::Model;
use step_batch::{Batch, StepBuffer};
use step_put::{Left, Placing};

/// The labels of histograms, each once, and where those of each bucket stand. `kept` is a set, in which steps are never begun.
#[derive(Drop)]
pub(crate) struct Groups {
    placing: Placing,
    kept: StepBuffer,
}

impl Model for Groups {
    ghost use Rattle.op_buckets.specs.Groups.{Grouped};
    ghost use Rattle.std.specs.Prelude.{◌≡◌};
    ghost use Rattle.step_put.specs.Placed.{IsPlaced};
    ghost use Rattle.step_put.specs.declared.labels_left.Left.TheVariants as kind;

    ghost Value = { Grouped };

    ghost view = { λ g. record { groups = g.kept.labels; fed = g.placing.fed; places = g.placing.places } };

    ghost invariant = { λ g. IsPlaced g.kept g.placing × (g.placing.left ≡ kind.All) };
}

impl Groups {
    pub(crate) fn new(alloc: Global) -> Groups
        ensures { result ≡ record { groups = []; fed = []; places = [] } }
    {
        Groups {
            placing: Placing::new(alloc, Left::All),
            kept: StepBuffer::new(alloc),
        }
    }

    /// Takes the labels of histograms, one for each bucket. The only error is want of memory; then the next ones may be taken
    /// all the same.
    pub(crate) fn renew(&mut self, labels: &[Labels]) -> Result<(), AllocError>
        ensures fed { OnOk result (self.new.fed ≡ labels.now) }
    {
        self.placing.renew(&mut self.kept, labels)?;
        Ok(())
    }

    /// Beside each of the labels that were taken its place among those of histograms. It takes no memory.
    pub(crate) fn places(&self) -> &[usize]
        ensures places { result.now ≡ self.now.places }
        ensures distinct { IsDistinct labels_eq self.now.groups }
        ensures there { AreAt self.now.groups self.now.fed result.now }
    {
        let _ = self.kept.lend().labels();
        self.placing.places()
    }

    /// Lends the labels of histograms. It takes no memory.
    pub(crate) fn lend(&self) -> Batch<'_>
        ensures { result.labels ≡ self.now.groups }
    {
        self.kept.lend()
    }
}
