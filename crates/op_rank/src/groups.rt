//! The groups of labels that are fed.
ghost use Rattle.label_set.specs.LabelEquality.{labels_eq};
ghost use Rattle.op_rank.specs.Groups.{IsGrouped, left_by};
ghost use Rattle.promql_meaning.specs.Ranks.{kept_labels};
ghost use Rattle.std.specs.List.{All, IsDistinct};
ghost use Rattle.std.specs.Prelude.{◌≡◌, ◌<◌, [], length, map, IfOk, OnOk};
ghost use Rattle.step_put.specs.Puts.{AreAt};

use label_set::{Grouping, Labels};
use std::alloc::{AllocError, Global};
use std::marker::Model;
use step_batch::{Batch, StepBuffer};
use step_put::{Left, Placing};

/// What a grouping keeps of labels that are fed, made once for each labels and kept over feeds. `kept` is a set, in which
/// steps are never begun.
#[derive(Drop)]
pub(crate) struct Groups {
    placing: Placing,
    kept: StepBuffer,
}

impl Model for Groups {
    ghost use Rattle.op_rank.specs.Groups.{Grouped};
    ghost use Rattle.step_put.specs.Placed.{IsPlaced};

    ghost Value = { Grouped };

    ghost view = { λ g. record { left = g.placing.left; groups = g.kept.labels; fed = g.placing.fed; places = g.placing.places } };

    ghost invariant = { λ g. IsPlaced g.kept g.placing };
}

impl Groups {
    pub(crate) fn new(alloc: Global, by: &Grouping) -> Result<Groups, AllocError>
        ensures { IfOk result (λ g. g ≡ record { left = left_by by.now; groups = []; fed = []; places = [] }) }
    {
        let left = Left::Signature {
            on: !by.without,
            names: by.names.copy()?,
        };
        Ok(Groups {
            placing: Placing::new(alloc, left),
            kept: StepBuffer::new(alloc),
        })
    }

    /// Takes the labels that are fed. The only error is want of memory; then the next ones may be taken all the same.
    pub(crate) fn renew(&mut self, labels: &[Labels]) -> Result<(), AllocError>
        ensures left { self.new.left ≡ self.old.left }
        ensures fed { OnOk result (self.new.fed ≡ labels.now) }
    {
        self.placing.renew(&mut self.kept, labels)?;
        Ok(())
    }

    /// Beside each of the labels that are fed the place of its group. It takes no memory.
    pub(crate) fn places(&self) -> &[usize]
        ensures places { result.now ≡ self.now.places }
        ensures count { length result.now ≡ length self.now.fed }
        ensures within { All (λ place. place < length self.now.groups) result.now }
        ensures distinct { IsDistinct labels_eq self.now.groups }
        ensures there { (by : _) → self.now.left ≡ left_by by → AreAt self.now.groups (map (kept_labels by) self.now.fed) result.now }
        ensures grouped { (by : _) → self.now.left ≡ left_by by → IsGrouped by self.now.fed result.now }
    {
        let _ = self.kept.lend().labels();
        self.placing.places()
    }

    /// How many groups there are. It takes no memory.
    pub(crate) fn count(&self) -> usize
        ensures { result ≡ length self.now.groups }
    {
        self.kept.lend().labels().len()
    }

    /// Lends the labels of groups. It takes no memory.
    pub(crate) fn lend(&self) -> Batch<'_>
        ensures { result.labels ≡ self.now.groups }
    {
        self.kept.lend()
    }
}
