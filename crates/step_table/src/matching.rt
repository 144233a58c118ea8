ghost use Rattle.std.specs.List.{filter_map};
ghost use Rattle.std.specs.Map.{values_of};
ghost use Rattle.std.specs.Option.{option_copied};
ghost use Rattle.std.specs.Prelude.{◌≡◌, ◌++◌, IfOk, OnOk, map};
ghost use Rattle.step_table.specs.Groups.{alone, gathered, shared_of};
ghost use Rattle.step_table.specs.Matching.{by_signature as keyed_by_signature, clash_mark as mark_of_clash, crowded, faults_of, labelled as with_labels, left_rows as rows_left, pair_marks, pair_outcome as outcome_of_pair, pair_rows, pair_value as value_of_pair, paired, uncrowded};
ghost use Rattle.step_table.specs.OneSides.{match_in, partner_in, read};
ghost use Rattle.step_table.specs.Operators.{is_left_one as has_left_one};
ghost use Rattle.step_table.specs.Unions.{with_fatal};

use crate::groups::{gather, part, part_groups};
use crate::marks::{Mark, Marks};
use crate::operators::{is_grouped, labels_of_pair, operate};
use crate::outcomes::{Outcome, by_labels, fault_mark};
use crate::step::{Row, Step, Table};
use label_set::{Card, Items, Labels, Pairing};
use std::alloc::{AllocError, Global};
use std::collections::BTreeMap;
use xfrac::{NumFault, PairOp, XFrac};

/// The rows of the one side by their signatures.
type OneSide<'a> = BTreeMap<Labels, Items<&'a Row>>;

/// An operator between two vectors, by their signatures: the rows of the many side are paired with the row of the one
/// side that alone has their signature. The notes and marks of both sides are united with the operator's own. Where a
/// side has no rows there are no rows and no marks of the operator. The only error is want of memory.
pub fn pair(alloc: Global, l: &Step, r: &Step, op: PairOp, p: &Pairing) -> Result<Step, AllocError>
    ensures { IfOk result (λ step. step ≡ paired l.now r.now op p.now) }
{
    let mut marks = l.marks.copy()?;
    marks.unite(&r.marks)?;
    let left = l.table.rows.as_slice();
    let right = r.table.rows.as_slice();
    if left.is_empty() || right.is_empty() {
        let rows = Items::new(alloc);
        return Ok(Step {
            table: Table { rows },
            marks,
        });
    }
    if is_left_one(p.card) {
        match_sides(alloc, marks, op, p, right, left)
    } else {
        match_sides(alloc, marks, op, p, left, right)
    }
}

/// The step of an operator between a many and a one side, with these marks and its own.
fn match_sides(
    alloc: Global,
    marks: Marks,
    op: PairOp,
    p: &Pairing,
    many: &[Row],
    ones: &[Row],
) -> Result<Step, AllocError>
    ensures rows { IfOk result (λ step. step.table.rows ≡ pair_rows op p.now many.now ones.now) }
    ensures marks { IfOk result (λ step. step.marks ≡ with_fatal marks (pair_marks op p.now many.now ones.now)) }
{
    let one_side = by_signature(alloc, p, ones)?;
    let pairs = matches(alloc, op, p, many, &one_side)?;
    let mut fatal = duplicate_marks(alloc, shared_signatures(alloc, one_side)?)?;
    let left = left_rows(alloc, &mut fatal, pairs)?;
    let rows = uncrowded_rows(alloc, &mut fatal, p.card, left)?;
    let parted = part(alloc, by_labels(alloc, rows)?)?;
    push_clashes(&mut fatal, p.card, parted.shared)?;
    let mut marks = marks;
    marks.add_fatal(alloc, fatal)?;
    Ok(Step {
        table: Table { rows: parted.lone },
        marks,
    })
}

/// Whether the left side is the one side.
fn is_left_one(card: Card) -> bool
    ensures { result ≡ has_left_one card }
{
    match card {
        Card::OneToOne => false,
        Card::GroupLeft => false,
        Card::GroupRight => true,
    }
}

/// The rows of the one side by their signatures.
fn by_signature<'a>(alloc: Global, p: &Pairing, rows: &'a [Row]) -> Result<OneSide<'a>, AllocError>
    ensures { IfOk result (λ groups. read groups.entries ≡ gathered (keyed_by_signature p.now rows.now)) }
{
    gather(alloc, with_signatures(alloc, p, rows)?)
}

/// The rows, each beside its signature.
fn with_signatures<'a>(
    alloc: Global,
    p: &Pairing,
    rows: &'a [Row],
) -> Result<Items<(Labels, &'a Row)>, AllocError>
    ensures { IfOk result (λ pairs. map (λ pair. (pair.0, pair.1.now)) pairs ≡ keyed_by_signature p.now rows.now) }
{
    let mut pairs = Items::new(alloc);
    for row in rows {
        pairs.push((row.labels.signature(p.on, &p.names)?, row))?;
    }
    Ok(pairs)
}

/// The signatures that rows of the one side share.
fn shared_signatures(alloc: Global, one_side: OneSide<'_>) -> Result<Items<Labels>, AllocError>
    ensures { IfOk result (λ shared. shared ≡ filter_map shared_of (read one_side.entry.entries)) }
{
    let parted = part_groups(alloc, one_side)?;
    Ok(parted.shared)
}

/// A mark for each signature that rows of the one side share.
fn duplicate_marks(alloc: Global, shared: Items<Labels>) -> Result<Items<Mark>, AllocError>
    ensures { IfOk result (λ marks. marks ≡ map Mark.DuplicateOneSide shared) }
{
    let mut marks = Items::new(alloc);
    for signature in shared.into_vec() {
        marks.push(Mark::DuplicateOneSide(signature))?;
    }
    Ok(marks)
}

/// The row of the one side that alone has a signature.
fn partner<'a>(one_side: &OneSide<'a>, signature: &Labels) -> Option<&'a Row>
    ensures { option_copied result ≡ partner_in (read one_side.now.entries) signature.now }
{
    match one_side.get(signature) {
        Some(rows) => only(rows.as_slice()),
        None => None,
    }
}

/// The row that is alone in a list.
fn only<'a>(rows: &[&'a Row]) -> Option<&'a Row>
    ensures { option_copied result ≡ alone (map (λ row. row.now) rows.now) }
{
    match rows {
        [row] => Some(*row),
        _ => None,
    }
}

/// The pairs, each under its signature.
fn matches(
    alloc: Global,
    op: PairOp,
    p: &Pairing,
    many: &[Row],
    one_side: &OneSide<'_>,
) -> Result<Items<(Labels, Outcome)>, AllocError>
    ensures { IfOk result (λ pairs. pairs ≡ filter_map (match_in op p.now (read one_side.now.entries)) many.now) }
{
    let mut pairs = Items::new(alloc);
    for row in many {
        let Some(pair) = match_row(alloc, op, p, row, one_side)? else {
            continue;
        };
        pairs.push(pair)?;
    }
    Ok(pairs)
}

/// A row of the many side, by its signature, beside what comes of it and its partner, if there is one.
fn match_row(
    alloc: Global,
    op: PairOp,
    p: &Pairing,
    row: &Row,
    one_side: &OneSide<'_>,
) -> Result<Option<(Labels, Outcome)>, AllocError>
    ensures { IfOk result (λ pair. pair ≡ match_in op p.now (read one_side.now.entries) row.now) }
{
    let signature = row.labels.signature(p.on, &p.names)?;
    match partner(one_side, &signature) {
        Some(one) => Ok(Some((signature, pair_outcome(alloc, op, p, row, one)?))),
        None => Ok(None),
    }
}

/// What comes of a pair.
fn pair_outcome(
    alloc: Global,
    op: PairOp,
    p: &Pairing,
    many: &Row,
    one: &Row,
) -> Result<Outcome, AllocError>
    ensures { IfOk result (λ outcome. outcome ≡ outcome_of_pair op p.now many.now one.now) }
{
    match pair_value(op, p.card, &many.value, &one.value) {
        Ok(Some(value)) => {
            let labels = labels_of_pair(alloc, op, p, &many.labels, &one.labels)?;
            Ok(labelled(alloc, labels, value))
        }
        Ok(None) => Ok(Outcome {
            labels: Labels::empty(alloc),
            value: Ok(None),
        }),
        Err(fault) => Ok(Outcome {
            labels: Labels::empty(alloc),
            value: Err(fault),
        }),
    }
}

/// The value of a pair: the operator's, left operand first.
fn pair_value(op: PairOp, card: Card, many: &XFrac, one: &XFrac) -> Result<Option<XFrac>, NumFault>
    ensures { result ≡ value_of_pair op card many.now one.now }
{
    if is_left_one(card) {
        operate(op, one, many)
    } else {
        operate(op, many, one)
    }
}

/// A value under its labels; labels that would pass the limits are the fault Overflow, under no labels.
pub fn labelled(alloc: Global, labels: Option<Labels>, value: XFrac) -> Outcome
    ensures { result ≡ with_labels labels value }
{
    match labels {
        Some(labels) => Outcome {
            labels,
            value: Ok(Some(value)),
        },
        None => Outcome {
            labels: Labels::empty(alloc),
            value: Err(NumFault::Overflow),
        },
    }
}

/// The pairs that are left with a value, each under its signature. The marks of pairs with a fault are added.
fn left_rows(
    alloc: Global,
    fatal: &mut Items<Mark>,
    pairs: Items<(Labels, Outcome)>,
) -> Result<Items<(Labels, Row)>, AllocError>
    ensures rows { IfOk result (λ rows. rows ≡ rows_left pairs) }
    ensures marks { OnOk result (fatal.new ≡ fatal.old ++ faults_of pairs) }
{
    let mut rows = Items::new(alloc);
    for (signature, outcome) in pairs.into_vec() {
        let Outcome { labels, value } = outcome;
        match value {
            Ok(Some(value)) => rows.push((signature, Row { labels, value }))?,
            Ok(None) => {}
            Err(fault) => fatal.push(fault_mark(fault))?,
        }
    }
    Ok(rows)
}

/// The rows of the pairs that are left. Without a group word the pairs whose signature several have are left out, and
/// their marks added.
fn uncrowded_rows(
    alloc: Global,
    fatal: &mut Items<Mark>,
    card: Card,
    left: Items<(Labels, Row)>,
) -> Result<Items<Row>, AllocError>
    ensures rows { IfOk result (λ rows. rows ≡ uncrowded card left) }
    ensures marks { OnOk result (fatal.new ≡ fatal.old ++ map Mark.ImplicitManyToOne (crowded card left)) }
{
    if is_grouped(card) {
        return without_signatures(alloc, left);
    }
    let parted = part(alloc, left)?;
    push_crowded(fatal, parted.shared)?;
    Ok(parted.lone)
}

fn without_signatures(alloc: Global, left: Items<(Labels, Row)>) -> Result<Items<Row>, AllocError>
    ensures { IfOk result (λ rows. rows ≡ values_of left) }
{
    let mut rows = Items::new(alloc);
    for (_, row) in left.into_vec() {
        rows.push(row)?;
    }
    Ok(rows)
}

fn push_crowded(fatal: &mut Items<Mark>, shared: Items<Labels>) -> Result<(), AllocError>
    ensures { OnOk result (fatal.new ≡ fatal.old ++ map Mark.ImplicitManyToOne shared) }
{
    for signature in shared.into_vec() {
        fatal.push(Mark::ImplicitManyToOne(signature))?;
    }
    Ok(())
}

/// Adds a mark for each labels that pairs share.
fn push_clashes(
    fatal: &mut Items<Mark>,
    card: Card,
    shared: Items<Labels>,
) -> Result<(), AllocError>
    ensures { OnOk result (fatal.new ≡ fatal.old ++ map (mark_of_clash card) shared) }
{
    for labels in shared.into_vec() {
        fatal.push(clash_mark(card, labels))?;
    }
    Ok(())
}

fn clash_mark(card: Card, labels: Labels) -> Mark
    ensures { result ≡ mark_of_clash card labels }
{
    if is_grouped(card) {
        Mark::DuplicateResult(labels)
    } else {
        Mark::SameLabelset(labels)
    }
}
