ghost use Rattle.label_set.specs.LabelEquality.{labels_eq};
ghost use Rattle.std.specs.List.{IsDistinct};
ghost use Rattle.std.specs.Option.{option_map};
ghost use Rattle.std.specs.Prelude.{◌≡◌, ◌<◌, Some, length, slice_get};
ghost use Rattle.step_batch.specs.Lent.{IsLent, SlotsRise};

use crate::steps::{PlacedStep, Slot};
use label_set::Labels;
use std::marker::Model;
use step_table::Marks;
use ticks::Ms;

/// Steps that are lent, and the labels that their slots name by places.
#[derive(Drop)]
pub struct Batch<'a> {
    steps: &'a [PlacedStep],
    labels: &'a [Labels],
}

impl<'a> Model for Batch<'a> {
    ghost use Rattle.step_batch.specs.Lent.{IsLent, Lent};

    ghost Value = { Lent };

    ghost view = { λ b. record { labels = b.labels.now; steps = b.steps.now } };

    ghost invariant = { λ b. IsLent (record { labels = b.labels.now; steps = b.steps.now }) };
}

impl<'a> Batch<'a> {
    pub(crate) fn of(steps: &'a [PlacedStep], labels: &'a [Labels]) -> Batch<'a>
        requires { IsLent (record { labels = labels.now; steps = steps.now }) }
        ensures { result ≡ record { labels = labels.now; steps = steps.now } }
    {
        Batch { steps, labels }
    }

    /// How many steps there are. It takes no memory.
    pub fn len(&self) -> usize
        ensures len { result ≡ length self.now.steps }
        ensures lent { IsLent self.now }
    {
        self.steps.len()
    }

    /// The instant of a step. It takes no memory.
    pub fn at(&self, i: usize) -> Ms
        requires { i < length self.now.steps }
        ensures { option_map (λ step. step.at) (slice_get self.now.steps i) ≡ Some result }
    {
        let steps = self.steps;
        steps[i].at
    }

    /// The slots of a step, in rising place. It takes no memory.
    pub fn slots(&self, i: usize) -> &[Slot]
        requires { i < length self.now.steps }
        ensures slots { option_map (λ step. step.slots) (slice_get self.now.steps i) ≡ Some result.now }
        ensures rising { SlotsRise 0 (length self.now.labels) result.now }
    {
        slots_at(self.steps, i)
    }

    /// The marks and notes of a step. It takes no memory.
    pub fn marks(&self, i: usize) -> &Marks
        requires { i < length self.now.steps }
        ensures { option_map (λ step. step.marks) (slice_get self.now.steps i) ≡ Some result.now }
    {
        marks_at(self.steps, i)
    }

    /// The labels by their places, no two equal. It takes no memory.
    pub fn labels(&self) -> &[Labels]
        ensures labels { result.now ≡ self.now.labels }
        ensures distinct { IsDistinct labels_eq result.now }
    {
        self.labels
    }
}

fn slots_at(steps: &[PlacedStep], i: usize) -> &[Slot]
    requires { i < length steps.now }
    ensures { option_map (λ step. step.slots) (slice_get steps.now i) ≡ Some result.now }
{
    steps[i].slots.as_slice()
}

fn marks_at(steps: &[PlacedStep], i: usize) -> &Marks
    requires { i < length steps.now }
    ensures { option_map (λ step. step.marks) (slice_get steps.now i) ≡ Some result.now }
{
    &steps[i].marks
}
