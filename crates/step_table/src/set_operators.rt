ghost use Rattle.std.specs.Prelude.{◌≡◌, ◌++◌, IfOk, OnOk, filter, map, if◌then◌else◌};
ghost use Rattle.label_set.specs.Labels.{labels_cmp};
ghost use Rattle.step_table.specs.Matching.{signature_of};
ghost use Rattle.step_table.specs.Sets.{combined, is_among, is_wanted as is_wanted_row, rows_off, rows_on};
ghost use Rattle.step_table.specs.Unions.{set_of};

use crate::outcomes::settled;
use crate::step::{Row, Step, step_of_rows};
use func_table::SetOp;
use label_set::{Items, Labels, Pairing};
use std::alloc::{AllocError, Global};
use std::collections::BTreeSet;

/// A set operator between two vectors: `and` gives the left rows whose signature is on the right, `unless` those whose
/// signature isn't, and `or` all left rows and the right rows whose signature isn't on the left. Rows keep all labels.
/// The notes and marks of both sides are united with the operator's own. The only error is want of memory.
pub fn combine(
    alloc: Global,
    l: &Step,
    r: &Step,
    op: SetOp,
    p: &Pairing,
) -> Result<Step, AllocError>
    ensures { IfOk result (λ step. step ≡ combined l.now r.now op p.now) }
{
    let mut marks = l.marks.copy()?;
    marks.unite(&r.marks)?;
    let left = l.table.rows.as_slice();
    let right = r.table.rows.as_slice();
    match op {
        SetOp::And => Ok(step_of_rows(rows_where(alloc, p, right, left, true)?, marks)),
        SetOp::Unless => Ok(step_of_rows(rows_where(alloc, p, right, left, false)?, marks)),
        SetOp::Or => {
            let rows = either(alloc, p, &l.table.rows, right)?;
            settled(alloc, step_of_rows(rows, marks))
        }
    }
}

/// All left rows, and then the right rows whose signature isn't on the left.
fn either(
    alloc: Global,
    p: &Pairing,
    left: &Items<Row>,
    right: &[Row],
) -> Result<Items<Row>, AllocError>
    ensures { IfOk result (λ rows. rows ≡ left.now ++ rows_off p.now left.now right.now) }
{
    let more = rows_where(alloc, p, left.as_slice(), right, false)?;
    let mut rows = left.copy()?;
    append(&mut rows, more)?;
    Ok(rows)
}

fn append(rows: &mut Items<Row>, more: Items<Row>) -> Result<(), AllocError>
    ensures { OnOk result (rows.new ≡ rows.old ++ more) }
{
    for row in more.into_vec() {
        rows.push(row)?;
    }
    Ok(())
}

/// The rows whose signature is on a side, or those whose signature isn't.
fn rows_where(
    alloc: Global,
    p: &Pairing,
    side: &[Row],
    rows: &[Row],
    on: bool,
) -> Result<Items<Row>, AllocError>
    ensures { IfOk result (λ out. out ≡ (if on then rows_on p.now side.now rows.now else rows_off p.now side.now rows.now)) }
{
    let signatures = signatures(alloc, p, side)?;
    wanted_rows(alloc, p, &signatures, rows, on)
}

/// The signatures of rows, each once.
fn signatures(alloc: Global, p: &Pairing, rows: &[Row]) -> Result<BTreeSet<Labels>, AllocError>
    ensures { IfOk result (λ set. set.keys ≡ set_of labels_cmp (map (signature_of p.now) rows.now)) }
{
    let mut set = BTreeSet::new(alloc);
    for row in rows {
        set.insert(row.labels.signature(p.on, &p.names)?)?;
    }
    Ok(set)
}

fn wanted_rows(
    alloc: Global,
    p: &Pairing,
    signatures: &BTreeSet<Labels>,
    rows: &[Row],
    on: bool,
) -> Result<Items<Row>, AllocError>
    ensures { IfOk result (λ out. out ≡ filter (is_wanted_row p.now signatures.now.keys on) rows.now) }
{
    let mut out = Items::new(alloc);
    for row in rows {
        if !is_wanted(p, signatures, row, on)? {
            continue;
        }
        out.push(row.copy()?)?;
    }
    Ok(out)
}

/// Whether a row's signature is among those, or, where `on` is false, whether it isn't.
fn is_wanted(
    p: &Pairing,
    signatures: &BTreeSet<Labels>,
    row: &Row,
    on: bool,
) -> Result<bool, AllocError>
    ensures { IfOk result (λ wanted. wanted ≡ is_wanted_row p.now signatures.now.keys on row.now) }
{
    let found = has(signatures, &row.labels.signature(p.on, &p.names)?);
    Ok(if on { found } else { !found })
}

fn has(signatures: &BTreeSet<Labels>, signature: &Labels) -> bool
    ensures { result ≡ is_among signatures.now.keys signature.now }
{
    signatures.contains(signature)
}
