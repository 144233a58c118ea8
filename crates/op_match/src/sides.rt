ghost use Rattle.label_set.specs.Labels.{signature as signature_of};
ghost use Rattle.op_match.specs.Places.{IsNumbered, Stays, names_fed};
ghost use Rattle.std.specs.Option.{option_map};
ghost use Rattle.std.specs.Prelude.{◌≡◌, ◌≤◌, ◌<◌, ◌+◌, ◌++◌, ◌∷◌, [], Some, length, slice_get, take, IfOk, IsTrue, OnOk};

use label_set::{Items, Labels, Pairing};
use std::alloc::AllocError;
use step_batch::StepBuffer;

/// Labels that were fed, and the number of their signature, which is its place in the set of signatures.
#[derive(Drop)]
pub(crate) struct Fed {
    pub labels: Labels,
    pub number: usize,
}

/// Takes the labels that are fed at the places of a side, and answers whether those that were there stayed. What was fed at
/// places behind them is remembered. The only error is want of memory.
pub(crate) fn take_labels(
    signatures: &mut StepBuffer,
    p: &Pairing,
    side: &mut Items<Fed>,
    labels: &[Labels],
) -> Result<bool, AllocError>
    requires numbered { IsNumbered signatures.old.labels p.now side.old }
    ensures numbered { IsNumbered signatures.new.labels p.now side.new }
    ensures kept { Stays signatures.old.labels signatures.new.labels }
    ensures fed { OnOk result (Stays labels.now (names_fed side.new)) }
    ensures stayed { IfOk result (λ stayed. IsTrue stayed → Stays (names_fed side.old) (names_fed side.new)) }
{
    let mut stayed = true;
    for i in 0..labels.len() {
        stayed &= take_at(signatures, p, side, i, &labels[i])?;
    }
    Ok(stayed)
}

/// Takes the labels that are fed at a place.
fn take_at(
    signatures: &mut StepBuffer,
    p: &Pairing,
    side: &mut Items<Fed>,
    i: usize,
    labels: &Labels,
) -> Result<bool, AllocError>
    requires within { i ≤ length side.old }
    requires numbered { IsNumbered signatures.old.labels p.now side.old }
    ensures numbered { IsNumbered signatures.new.labels p.now side.new }
    ensures kept { Stays signatures.old.labels signatures.new.labels }
    ensures fed { OnOk result (take (i + 1) (names_fed side.new) ≡ take i (names_fed side.old) ++ labels.now ∷ []) }
    ensures within { OnOk result (i < length side.new) }
    ensures stayed { IfOk result (λ stayed. IsTrue stayed → Stays (names_fed side.old) (names_fed side.new)) }
{
    if i == side.as_slice().len() {
        side.push(signed(signatures, p, labels)?)?;
        return Ok(true);
    }
    if has_labels(side.as_slice(), i, labels) {
        return Ok(true);
    }
    let fed = signed(signatures, p, labels)?;
    side.replace(i, fed);
    Ok(false)
}

fn has_labels(side: &[Fed], i: usize, labels: &Labels) -> bool
    requires { i < length side.now }
    ensures { IsTrue result → option_map (λ f. f.labels) (slice_get side.now i) ≡ Some labels.now }
{
    side[i].labels.is_same(labels)
}

/// Labels with the number of their signature.
fn signed(signatures: &mut StepBuffer, p: &Pairing, labels: &Labels) -> Result<Fed, AllocError>
    ensures labels { IfOk result (λ f. f.labels ≡ labels.now) }
    ensures number { IfOk result (λ f. slice_get signatures.new.labels f.number ≡ Some (signature_of p.now.on p.now.names labels.now)) }
    ensures kept { Stays signatures.old.labels signatures.new.labels }
{
    let signature = labels.signature(p.on, &p.names)?;
    let number = signatures.place_own(signature)?;
    Ok(Fed {
        labels: labels.copy()?,
        number,
    })
}
