ghost use Rattle.label_set.specs.LabelEquality.{labels_eq};
ghost use Rattle.op_match.specs.Noted.{AreBelow, IsNoted};
ghost use Rattle.op_match.specs.Places.{ArePairs, IsAdded, IsAfter, IsAt, IsMade, IsMatching, IsNumbered, IsOneSide, IsPaired, has_no_slots, many_of, names_fed, one_of, rows_in};
ghost use Rattle.std.specs.List.{IsDistinct};
ghost use Rattle.std.specs.List.Sorted.{IsPermutation};
ghost use Rattle.std.specs.Map.{keys_of};
ghost use Rattle.std.specs.Prelude.{◌≡◌, ◌<◌, ◌≤◌, ◌++◌, ◌∷◌, [], None, Some, false, length, slice_get, IfOk, IsTrue, OnOk};
ghost use Rattle.std.specs.Option.{option_map};
ghost use Rattle.step_batch.specs.Lent.{SlotsRise, row_of};
ghost use Rattle.step_put.specs.Placed.{do_rise as slots_do_rise};
ghost use Rattle.step_put.specs.Puts.{AreAt};
ghost use Rattle.step_table.specs.Matching.{by_signature, labelled, pair_outcome, pair_value as value_of_pair};
ghost use Rattle.step_table.specs.Operators.{is_grouped as has_group_word, pair_labels};
ghost use Rattle.step_table.specs.Outcomes.{fault_mark as mark_of_fault};

use crate::index::{find, grow, note_all};
use crate::kept::place_of_pair;
use crate::labels::{is_grouped, is_left_one};
use crate::laws::pairs_are_taken;
use crate::order::make_rise;
use crate::renewal::Matching;
use crate::sides::Fed;
use label_set::{Card, Items};
use std::alloc::{AllocError, Global};
use step_batch::{Slot, StepBuffer};
use step_table::{Mark, operate};
use xfrac::{NumFault, PairOp, XFrac};

/// The numbers of the rows of the one side at a step, and where each stands among them.
#[derive(Drop)]
pub(crate) struct OneSide {
    pub numbers: Vec<usize>,
    pub at: Vec<usize>,
}

/// The pairs of a step: their values at the places of their labels, the numbers of their signatures, and the marks of
/// faults.
#[derive(Drop)]
pub(crate) struct Found {
    pub slots: Vec<Slot>,
    pub numbers: Vec<usize>,
    pub fatal: Items<Mark>,
}

/// Finds what the operator makes of the rows of both sides. Answers false where rows of the one side share a signature,
/// several pairs do without a group word, or pairs come to share labels; then what was found counts for nothing.
pub(crate) fn meet(
    alloc: Global,
    matching: &mut Matching,
    one_side: &mut OneSide,
    found: &mut Found,
    rows: &mut StepBuffer,
    left: &[Slot],
    right: &[Slot],
) -> Result<bool, AllocError>
    requires matching { IsMatching matching.old rows.old.labels }
    requires many { SlotsRise 0 (length matching.old.many) (many_of matching.old.pairing.card left.now right.now) }
    requires ones { SlotsRise 0 (length matching.old.ones) (one_of matching.old.pairing.card left.now right.now) }
    requires room { SlotsRise 0 (length matching.old.kept) (many_of matching.old.pairing.card left.now right.now) }
    ensures after { IsAfter matching.old rows.old matching.new rows.new }
    ensures made { IfOk result (λ clear. IsTrue clear → IsMade matching.old.op matching.old.pairing rows.new.labels
        (rows_in (one_of matching.old.pairing.card (names_fed matching.old.ones) (names_fed matching.old.many)) left.now)
        (rows_in (one_of matching.old.pairing.card (names_fed matching.old.many) (names_fed matching.old.ones)) right.now) found.new.slots.items found.new.fatal) }
{
    found.slots.clear();
    found.numbers.clear();
    found.fatal = Items::new(alloc);
    if is_bare(left) | is_bare(right) {
        return Ok(true);
    }
    if is_left_one(matching.pairing.card) {
        meet_sides(alloc, matching, one_side, found, rows, right, left)
    } else {
        meet_sides(alloc, matching, one_side, found, rows, left, right)
    }
}

fn is_bare(slots: &[Slot]) -> bool
    ensures { result ≡ has_no_slots slots.now }
{
    match slots {
        [] => true,
        [_, ..] => false,
    }
}

/// Finds the pairs of a many and a one side, and whether they are clear.
fn meet_sides(
    alloc: Global,
    matching: &mut Matching,
    one_side: &mut OneSide,
    found: &mut Found,
    rows: &mut StepBuffer,
    many: &[Slot],
    ones: &[Slot],
) -> Result<bool, AllocError>
    requires matching { IsMatching matching.old rows.old.labels }
    requires many { SlotsRise 0 (length matching.old.many) many.now }
    requires ones { SlotsRise 0 (length matching.old.ones) ones.now }
    requires room { SlotsRise 0 (length matching.old.kept) many.now }
    requires slots { found.old.slots.items ≡ [] }
    requires numbers { found.old.numbers.items ≡ [] }
    requires fatal { found.old.fatal ≡ [] }
    ensures after { IsAfter matching.old rows.old matching.new rows.new }
    ensures paired { IfOk result (λ clear. IsTrue clear → IsPaired matching.old.op matching.old.pairing rows.new.labels (rows_in (names_fed matching.old.many) many.now) (rows_in (names_fed matching.old.ones) ones.now) found.new.slots.items found.new.fatal) }
{
    pairs_are_taken();
    open_numbers(&mut one_side.at, &matching.signatures)?;
    take_numbers(&mut one_side.numbers, matching.ones.as_slice(), ones)?;
    if !note_all(&mut one_side.at, one_side.numbers.as_slice()) {
        return Ok(false);
    }
    join_slots(alloc, matching, one_side, found, rows, many, ones)?;
    let _ = rows.lend().labels();
    Ok(is_clear(
        matching.pairing.card,
        &mut one_side.at,
        found.numbers.as_slice(),
        &mut found.slots,
    ))
}

/// Makes room for the numbers of all signatures.
fn open_numbers(at: &mut Vec<usize>, signatures: &StepBuffer) -> Result<(), AllocError>
    ensures room { OnOk result (length signatures.now.labels ≤ length at.new.items) }
    ensures distinct { IsDistinct labels_eq signatures.now.labels }
{
    grow(at, signatures.lend().labels().len())
}

/// The numbers of the signatures of rows, in place of what was there.
fn take_numbers(numbers: &mut Vec<usize>, side: &[Fed], slots: &[Slot]) -> Result<(), AllocError>
    requires { SlotsRise 0 (length side.now) slots.now }
    ensures { OnOk result ((set : _) (p : _) → IsNumbered set p side.now → AreAt set (keys_of (by_signature p (rows_in (names_fed side.now) slots.now))) numbers.new.items) }
{
    numbers.clear();
    for slot in slots {
        let number = number_at(side, slot.place);
        numbers.push(number)?;
    }
    Ok(())
}

fn number_at(side: &[Fed], place: usize) -> usize
    requires { place < length side.now }
    ensures { option_map (λ f. f.number) (slice_get side.now place) ≡ Some result }
{
    side[place].number
}

/// Adds what comes of the rows of the many side.
fn join_slots(
    alloc: Global,
    matching: &mut Matching,
    one_side: &OneSide,
    found: &mut Found,
    rows: &mut StepBuffer,
    many: &[Slot],
    ones: &[Slot],
) -> Result<(), AllocError>
    requires matching { IsMatching matching.old rows.old.labels }
    requires many { SlotsRise 0 (length matching.old.many) many.now }
    requires ones { SlotsRise 0 (length matching.old.ones) ones.now }
    requires room { SlotsRise 0 (length matching.old.kept) many.now }
    requires one_side { IsOneSide matching.old.signatures.labels matching.old.pairing (rows_in (names_fed matching.old.ones) ones.now) one_side.now }
    requires slots { found.old.slots.items ≡ [] }
    requires numbers { found.old.numbers.items ≡ [] }
    requires fatal { found.old.fatal ≡ [] }
    ensures after { IsAfter matching.old rows.old matching.new rows.new }
    ensures pairs { OnOk result (ArePairs matching.old.op matching.old.pairing matching.old.signatures.labels rows.new.labels
        (rows_in (names_fed matching.old.many) many.now) (rows_in (names_fed matching.old.ones) ones.now) found.new) }
{
    for slot in many {
        join_slot(alloc, matching, one_side, found, rows, ones, slot)?;
    }
    Ok(())
}

/// Adds what comes of a row of the many side, if its signature has a row of the one side.
fn join_slot(
    alloc: Global,
    matching: &mut Matching,
    one_side: &OneSide,
    found: &mut Found,
    rows: &mut StepBuffer,
    ones: &[Slot],
    slot: &Slot,
) -> Result<(), AllocError>
    requires matching { IsMatching matching.old rows.old.labels }
    requires there { slot.now.place < length matching.old.many }
    requires room { slot.now.place < length matching.old.kept }
    requires ones { SlotsRise 0 (length matching.old.ones) ones.now }
    requires one_side { IsOneSide matching.old.signatures.labels matching.old.pairing (rows_in (names_fed matching.old.ones) ones.now) one_side.now }
    ensures after { IsAfter matching.old rows.old matching.new rows.new }
    ensures pairs { OnOk result ((done : _)
        → ArePairs matching.old.op matching.old.pairing matching.old.signatures.labels rows.old.labels done (rows_in (names_fed matching.old.ones) ones.now) found.old
        → ArePairs matching.old.op matching.old.pairing matching.old.signatures.labels rows.new.labels (done ++ rows_in (names_fed matching.old.many) (slot.now ∷ [])) (rows_in (names_fed matching.old.ones) ones.now) found.new) }
{
    let number = number_at(matching.many.as_slice(), slot.place);
    match find(one_side.at.as_slice(), one_side.numbers.as_slice(), number) {
        Some(i) => {
            let one = slot_at(ones, i);
            join_pair(alloc, matching, found, rows, number, slot, &one)
        }
        None => Ok(()),
    }
}

fn slot_at(slots: &[Slot], i: usize) -> Slot
    requires { i < length slots.now }
    ensures { slice_get slots.now i ≡ Some result }
{
    slots[i]
}

/// Adds what comes of a pair of rows, whose signature has this number.
fn join_pair(
    alloc: Global,
    matching: &mut Matching,
    found: &mut Found,
    rows: &mut StepBuffer,
    number: usize,
    many: &Slot,
    one: &Slot,
) -> Result<(), AllocError>
    requires many { many.now.place < length matching.old.many }
    requires one { one.now.place < length matching.old.ones }
    requires room { many.now.place < length matching.old.kept }
    requires matching { IsMatching matching.old rows.old.labels }
    ensures after { IsAfter matching.old rows.old matching.new rows.new }
    ensures added { OnOk result ((set : _) (names : _) (m o : _) → slice_get set number ≡ Some names
        → slice_get (names_fed matching.old.many) many.now.place ≡ Some m → slice_get (names_fed matching.old.ones) one.now.place ≡ Some o
        → IsAdded set rows.old.labels found.old rows.new.labels found.new (names, pair_outcome matching.old.op matching.old.pairing (row_of (m, many.now.value)) (row_of (o, one.now.value)))) }
{
    match pair_value(matching.op, matching.pairing.card, &many.value, &one.value) {
        Ok(Some(value)) => join_value(
            alloc, matching, found, rows, number, many.place, one.place, value,
        ),
        Ok(None) => Ok(()),
        Err(fault) => {
            found.fatal.push(fault_mark(fault))?;
            Ok(())
        }
    }
}

/// Adds the value of a pair under its labels, or the mark of labels that would pass the limits.
fn join_value(
    alloc: Global,
    matching: &mut Matching,
    found: &mut Found,
    rows: &mut StepBuffer,
    number: usize,
    many: usize,
    one: usize,
    value: XFrac,
) -> Result<(), AllocError>
    requires many { many < length matching.old.many }
    requires one { one < length matching.old.ones }
    requires room { many < length matching.old.kept }
    requires matching { IsMatching matching.old rows.old.labels }
    ensures after { IsAfter matching.old rows.old matching.new rows.new }
    ensures added { OnOk result ((set : _) (names : _) (m o : _) → slice_get set number ≡ Some names
        → slice_get (names_fed matching.old.many) many ≡ Some m → slice_get (names_fed matching.old.ones) one ≡ Some o
        → IsAdded set rows.old.labels found.old rows.new.labels found.new (names, labelled (pair_labels matching.old.op matching.old.pairing m o) value)) }
{
    let own = own_place(alloc, matching, rows, many, one)?;
    match own {
        Some(place) => {
            found.slots.push(Slot { place, value })?;
            found.numbers.push(number)?;
            Ok(())
        }
        None => {
            found.fatal.push(Mark::Overflow)?;
            Ok(())
        }
    }
}

/// Where the labels of a pair stand, unless they would pass the limits.
fn own_place(
    alloc: Global,
    matching: &mut Matching,
    rows: &mut StepBuffer,
    many: usize,
    one: usize,
) -> Result<Option<usize>, AllocError>
    requires many { many < length matching.old.many }
    requires one { one < length matching.old.ones }
    requires room { many < length matching.old.kept }
    requires matching { IsMatching matching.old rows.old.labels }
    ensures after { IsAfter matching.old rows.old matching.new rows.new }
    ensures own { IfOk result (λ own. (m o : _) → slice_get (names_fed matching.old.many) many ≡ Some m → slice_get (names_fed matching.old.ones) one ≡ Some o
        → IsAt rows.new.labels (pair_labels matching.old.op matching.old.pairing m o) own) }
{
    place_of_pair(
        alloc,
        matching.op,
        &matching.pairing,
        &mut matching.kept,
        rows,
        matching.many.as_slice(),
        matching.ones.as_slice(),
        many,
        one,
    )
}

/// The value of a pair: the operator's, left operand first.
fn pair_value(op: PairOp, card: Card, many: &XFrac, one: &XFrac) -> Result<Option<XFrac>, NumFault>
    ensures { result ≡ value_of_pair op card many.now one.now }
{
    if is_left_one(card) {
        operate(op, one, many)
    } else {
        operate(op, many, one)
    }
}

fn fault_mark(fault: NumFault) -> Mark
    ensures { result ≡ mark_of_fault fault }
{
    match fault {
        NumFault::Overflow => Mark::Overflow,
        NumFault::Irrational => Mark::Irrational,
        NumFault::OutOfCalendar => Mark::OutOfCalendar,
    }
}

/// Whether no two pairs share labels, and without a group word none a signature. Their values are put in rising place.
fn is_clear(card: Card, at: &mut Vec<usize>, numbers: &[usize], slots: &mut Vec<Slot>) -> bool
    requires { AreBelow (length at.old.items) numbers.now }
    ensures order { IsPermutation slots.old.items slots.new.items }
    ensures rise { IsTrue result → IsTrue (slots_do_rise None slots.new.items) }
    ensures noted { IsTrue result → has_group_word card ≡ false → IsNoted at.new.items numbers.now }
{
    if !is_grouped(card) && !note_all(at, numbers) {
        return false;
    }
    make_rise(slots)
}
