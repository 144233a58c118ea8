ghost use Rattle.op_match.specs.Places.{IsMatching, IsReady, Stays, many_of, names_fed, one_of};
ghost use Rattle.std.specs.Prelude.{◌≡◌, [], if◌then◌else◌, IfOk, IsTrue, OnOk};

use crate::kept::{Kept, make_room};
use crate::labels::is_left_one;
use crate::sides::{Fed, take_labels};
use label_set::{Items, Labels, Pairing};
use std::alloc::{AllocError, Global};
use std::mem;
use step_batch::StepBuffer;
use xfrac::PairOp;

/// An operator, the labels that were fed at the places of both sides, and where the labels of their pairs stand. The buffer
/// is the set of signatures: it has no steps.
#[derive(Drop)]
pub(crate) struct Matching {
    pub op: PairOp,
    pub pairing: Pairing,
    pub signatures: StepBuffer,
    pub many: Items<Fed>,
    pub ones: Items<Fed>,
    pub kept: Items<Option<Kept>>,
}

/// Takes all steps out of the lent buffer and takes the labels that are fed. The labels of pairs are forgotten where others
/// are fed in their places, or the buffer has let go of its labels. The only error is want of memory.
pub(crate) fn renew(
    alloc: Global,
    matching: &mut Matching,
    rows: &mut StepBuffer,
    left: &[Labels],
    right: &[Labels],
) -> Result<(), AllocError>
    requires { IsMatching matching.old rows.old.labels }
    ensures op { matching.new.op ≡ matching.old.op }
    ensures pairing { matching.new.pairing ≡ matching.old.pairing }
    ensures matching { IsMatching matching.new rows.new.labels }
    ensures ready { OnOk result (IsReady matching.new (many_of matching.old.pairing.card left.now right.now) (one_of matching.old.pairing.card left.now right.now)) }
    ensures steps { rows.new.steps ≡ [] }
{
    if is_left_one(matching.pairing.card) {
        renew_sides(alloc, matching, rows, right, left)
    } else {
        renew_sides(alloc, matching, rows, left, right)
    }
}

fn renew_sides(
    alloc: Global,
    matching: &mut Matching,
    rows: &mut StepBuffer,
    many: &[Labels],
    ones: &[Labels],
) -> Result<(), AllocError>
    requires { IsMatching matching.old rows.old.labels }
    ensures op { matching.new.op ≡ matching.old.op }
    ensures pairing { matching.new.pairing ≡ matching.old.pairing }
    ensures matching { IsMatching matching.new rows.new.labels }
    ensures ready { OnOk result (IsReady matching.new many.now ones.now) }
    ensures steps { rows.new.steps ≡ [] }
{
    let kept = mem::replace(&mut matching.kept, Items::new(alloc));
    rows.begin_feed();
    let stayed = take_sides(alloc, matching, many, ones)?;
    let mut kept = kept_if(alloc, stayed & has_labels(rows), kept);
    make_room(&mut kept, many.len())?;
    matching.kept = kept;
    Ok(())
}

fn has_labels(rows: &StepBuffer) -> bool
    ensures { IsTrue result → (rows.now.labels ≡ [] → ⊥) }
{
    !rows.lend().labels().is_empty()
}

fn kept_if(alloc: Global, wanted: bool, kept: Items<Option<Kept>>) -> Items<Option<Kept>>
    ensures { result ≡ (if wanted then kept else []) }
{
    if wanted { kept } else { Items::new(alloc) }
}

/// Takes the labels that are fed, and answers whether those that were there stayed.
fn take_sides(
    alloc: Global,
    matching: &mut Matching,
    many: &[Labels],
    ones: &[Labels],
) -> Result<bool, AllocError>
    requires none { matching.old.kept ≡ [] }
    requires matching { IsMatching matching.old [] }
    ensures op { matching.new.op ≡ matching.old.op }
    ensures pairing { matching.new.pairing ≡ matching.old.pairing }
    ensures none { matching.new.kept ≡ [] }
    ensures matching { IsMatching matching.new [] }
    ensures many { OnOk result (Stays many.now (names_fed matching.new.many)) }
    ensures ones { OnOk result (Stays ones.now (names_fed matching.new.ones)) }
    ensures many_stay { IfOk result (λ stayed. IsTrue stayed → Stays (names_fed matching.old.many) (names_fed matching.new.many)) }
    ensures ones_stay { IfOk result (λ stayed. IsTrue stayed → Stays (names_fed matching.old.ones) (names_fed matching.new.ones)) }
{
    let most = many.len().saturating_add(ones.len());
    if matching.signatures.lend().labels().len() / 2 > most {
        forget(alloc, matching);
        let _ = take_both(matching, many, ones)?;
        return Ok(false);
    }
    take_both(matching, many, ones)
}

/// Begins all signatures anew, as most are of labels that aren't fed any more.
fn forget(alloc: Global, matching: &mut Matching)
    ensures op { matching.new.op ≡ matching.old.op }
    ensures pairing { matching.new.pairing ≡ matching.old.pairing }
    ensures kept { matching.new.kept ≡ matching.old.kept }
    ensures many { matching.new.many ≡ [] }
    ensures ones { matching.new.ones ≡ [] }
{
    matching.signatures.clear();
    matching.many = Items::new(alloc);
    matching.ones = Items::new(alloc);
}

fn take_both(matching: &mut Matching, many: &[Labels], ones: &[Labels]) -> Result<bool, AllocError>
    requires none { matching.old.kept ≡ [] }
    requires matching { IsMatching matching.old [] }
    ensures op { matching.new.op ≡ matching.old.op }
    ensures pairing { matching.new.pairing ≡ matching.old.pairing }
    ensures none { matching.new.kept ≡ [] }
    ensures matching { IsMatching matching.new [] }
    ensures many { OnOk result (Stays many.now (names_fed matching.new.many)) }
    ensures ones { OnOk result (Stays ones.now (names_fed matching.new.ones)) }
    ensures many_stay { IfOk result (λ stayed. IsTrue stayed → Stays (names_fed matching.old.many) (names_fed matching.new.many)) }
    ensures ones_stay { IfOk result (λ stayed. IsTrue stayed → Stays (names_fed matching.old.ones) (names_fed matching.new.ones)) }
{
    let p = &matching.pairing;
    let many_stay = take_labels(&mut matching.signatures, p, &mut matching.many, many)?;
    let ones_stay = take_labels(&mut matching.signatures, p, &mut matching.ones, ones)?;
    Ok(many_stay & ones_stay)
}
