ghost use Rattle.op_match.specs.Places.{AreKept, IsAt, Stays, names_fed};
ghost use Rattle.std.specs.Option.{option_to_list};
ghost use Rattle.std.specs.Prelude.{◌≡◌, ◌<◌, ◌≤◌, None, Some, length, slice_get, IfOk, IfSome, OnOk};
ghost use Rattle.step_batch.specs.Lent.{stages};
ghost use Rattle.step_table.specs.Operators.{pair_labels};

use crate::labels::labels_of_pair;
use crate::sides::Fed;
use label_set::{Items, Labels, Pairing};
use std::alloc::{AllocError, Global};
use step_batch::StepBuffer;
use xfrac::PairOp;

/// The labels that a place of the many side has with a place of the one side: where they stand among those that are lent,
/// unless they would pass the limits.
#[derive(Clone, Copy, Debug)]
pub(crate) struct Kept {
    pub one: usize,
    pub own: Option<usize>,
}

/// Makes room for what places keep.
pub(crate) fn make_room(kept: &mut Items<Option<Kept>>, count: usize) -> Result<(), AllocError>
    ensures room { OnOk result (count ≤ length kept.new) }
    ensures more { (m : _) (k : _) → slice_get kept.new m ≡ Some (Some k) → slice_get kept.old m ≡ Some (Some k) }
{
    for _ in kept.as_slice().len()..count {
        kept.push(None)?;
    }
    Ok(())
}

/// Where the labels of a pair stand, if they were made.
fn kept_at(kept: &[Option<Kept>], many: usize, one: usize) -> Option<Kept>
    requires { many < length kept.now }
    ensures there { IfSome result (λ k. slice_get kept.now many ≡ Some (Some k)) }
    ensures one { IfSome result (λ k. k.one ≡ one) }
{
    match kept[many] {
        Some(pair) => { if pair.one == one { Some(pair) } else { None } }
        None => None,
    }
}

/// Where the labels of a pair stand among those that are lent, unless they would pass the limits. They are made where they
/// aren't those that were made last for the row of the many side.
pub(crate) fn place_of_pair(
    alloc: Global,
    op: PairOp,
    p: &Pairing,
    kept: &mut Items<Option<Kept>>,
    rows: &mut StepBuffer,
    many: &[Fed],
    ones: &[Fed],
    m: usize,
    o: usize,
) -> Result<Option<usize>, AllocError>
    requires many_there { m < length many.now }
    requires one_there { o < length ones.now }
    requires room { m < length kept.old }
    ensures place { IfOk result (λ own. AreKept op p.now rows.old.labels (names_fed many.now) (names_fed ones.now) kept.old
        → (n q : _) → slice_get (names_fed many.now) m ≡ Some n → slice_get (names_fed ones.now) o ≡ Some q → IsAt rows.new.labels (pair_labels op p.now n q) own) }
    ensures kept { AreKept op p.now rows.old.labels (names_fed many.now) (names_fed ones.now) kept.old → AreKept op p.now rows.new.labels (names_fed many.now) (names_fed ones.now) kept.new }
    ensures room { length kept.new ≡ length kept.old }
    ensures stays { Stays rows.old.labels rows.new.labels }
    ensures steps { rows.new.steps ≡ rows.old.steps }
    ensures stages { stages rows.new ≡ stages rows.old }
{
    if let Some(pair) = kept_at(kept.as_slice(), m, o) {
        return Ok(pair.own);
    }
    let labels = labels_of_pair(alloc, op, p, &many[m].labels, &ones[o].labels)?;
    let own = place_of(rows, &labels)?;
    kept.replace(m, Some(Kept { one: o, own }));
    Ok(own)
}

fn place_of(rows: &mut StepBuffer, labels: &Option<Labels>) -> Result<Option<usize>, AllocError>
    ensures place { IfOk result (λ own. IsAt rows.new.labels labels.now own) }
    ensures stays { Stays rows.old.labels rows.new.labels }
    ensures steps { rows.new.steps ≡ rows.old.steps }
    ensures stages { stages rows.new ≡ stages rows.old }
{
    match labels {
        Some(labels) => Ok(Some(rows.place(labels)?)),
        None => Ok(None),
    }
}
