ghost use Rattle.promql_meaning.specs.RankedGroups.{AreRanked, IsByValue, group_in, grouped_refs, is_among, seen};
ghost use Rattle.promql_meaning.specs.Ranks.{first_rows, if_within, kept_labels, rank_count, ranked, row_order, value_order};
ghost use Rattle.std.specs.List.{All};
ghost use Rattle.std.specs.Prelude.{◌≡◌, [], ◌∷◌, true, false, Err, IfOk};
ghost use Rattle.xfrac.specs.Laws.{IsNumber};
ghost use Rattle.step_table.specs.Outcomes.{taken as taken_step};

use crate::groups::group_labels;
use label_set::{Grouping, Items, Labels};
use std::alloc::{AllocError, Global};
use std::cmp::Ordering;
use std::collections::BTreeMap;
use step_table::{Marks, Outcome, Row, Step, Table, gather, taken};
use xfrac::laws::{is_number, order_is_total};
use xfrac::{NumFault, XFrac, cmp_total, is_nan, parts};

/// The most rows that may be asked for: 2^63 - 1.
const MOST_ROWS: u128 = 9_223_372_036_854_775_807;

/// The rows of each group, by value, under the labels of the group.
type RankedGroups<'a> = BTreeMap<Labels, Items<&'a Row>>;

/// The first rows of each group by value, as many as the parameter asks for: from the greatest value down, or up. The only
/// error is want of memory.
pub(crate) fn ranked(
    alloc: Global,
    t: &Step,
    by: &Grouping,
    down: bool,
    arg: &XFrac,
) -> Result<Step, AllocError>
    ensures { IfOk result (λ step. step ≡ ranked down by.now arg.now t.now) }
{
    match rank_count(arg) {
        None => overflowed(alloc, t.marks.copy()?),
        Some(count) => {
            let rows = first_rows(alloc, t.table.rows.as_slice(), by, down, count)?;
            Ok(Step {
                table: Table { rows },
                marks: t.marks.copy()?,
            })
        }
    }
}

/// No rows, and the mark Overflow.
fn overflowed(alloc: Global, marks: Marks) -> Result<Step, AllocError>
    ensures { IfOk result (λ step. step ≡ taken_step marks (record { labels = []; value = Err NumFault.Overflow } ∷ [])) }
{
    let mut outcomes = Items::new(alloc);
    outcomes.push(Outcome {
        labels: Labels::empty(alloc),
        value: Err(NumFault::Overflow),
    })?;
    taken(alloc, marks, outcomes)
}

/// How many rows a parameter asks for; nothing for NaN and for what is above 2^63 - 1 when it is cut to a whole number.
fn rank_count(arg: &XFrac) -> Option<u64>
    ensures { result ≡ rank_count arg.now }
{
    match arg {
        XFrac::Fin(fraction) => {
            let (n, d) = parts(fraction);
            if n < 0 {
                Some(0)
            } else {
                if_within(n.unsigned_abs() / d.unsigned_abs())
            }
        }
        XFrac::NegInf => Some(0),
        XFrac::PosInf | XFrac::NaN => None,
    }
}

fn if_within(n: u128) -> Option<u64>
    ensures { result ≡ if_within n }
{
    if n <= MOST_ROWS { Some(n as u64) } else { None }
}

/// Up or down; NaN comes last in both.
pub fn value_order(down: bool, a: &XFrac, b: &XFrac) -> Ordering
    ensures { result ≡ value_order down a.now b.now }
{
    if down && !(is_nan(a) || is_nan(b)) {
        cmp_total(b, a)
    } else {
        cmp_total(a, b)
    }
}

/// Rows by their values, those of equal values by their labels.
fn row_order(down: bool, a: &Row, b: &Row) -> Ordering
    ensures { result ≡ row_order down a.now b.now }
{
    value_order(down, &a.value, &b.value).then(a.labels.cmp(&b.labels))
}

/// The rows that are among the first `count` of their group.
fn first_rows(
    alloc: Global,
    rows: &[Row],
    by: &Grouping,
    down: bool,
    count: u64,
) -> Result<Items<Row>, AllocError>
    ensures { IfOk result (λ out. out ≡ first_rows down by.now count rows.now) }
{
    let groups = ranked_groups(alloc, rows, by, down)?;
    let mut out = Items::new(alloc);
    for row in rows {
        is_number(&row.value);
        let taken = is_in_group(&groups, by, down, count, row)?;
        if !taken {
            continue;
        }
        out.push(row.copy()?)?;
    }
    Ok(out)
}

/// The rows by value, in their groups.
fn ranked_groups<'a>(
    alloc: Global,
    rows: &'a [Row],
    by: &Grouping,
    down: bool,
) -> Result<RankedGroups<'a>, AllocError>
    ensures { IfOk result (λ groups. AreRanked down by.now rows.now groups.entries) }
{
    let refs = references(alloc, rows)?;
    let sorted = by_value(refs, down);
    let groups = gather(alloc, with_groups(alloc, sorted, by)?)?;
    order_is_total();
    Ok(groups)
}

/// The rows sorted by value. Each direction has a comparison of its own, since a sort is known to be by one order alone where
/// that takes nothing from outside.
#[tactic(auto, using(crate::proofs::Ranked::same_direction))]
fn by_value(rows: Vec<&Row>, down: bool) -> Vec<&Row>
    requires { All (λ row. IsNumber row.now.value) rows.items }
    ensures { IsByValue down (seen rows.entry.items) result.items }
{
    if down {
        from_greatest(rows)
    } else {
        from_least(rows)
    }
}

fn from_greatest(rows: Vec<&Row>) -> Vec<&Row>
    requires { All (λ row. IsNumber row.now.value) rows.items }
    ensures { IsByValue true (seen rows.entry.items) result.items }
{
    let mut sorted = rows;
    order_is_total();
    sorted.sort_unstable_by(|a, b| {
        is_number(&a.value);
        is_number(&b.value);
        row_order(true, a, b)
    });
    sorted
}

fn from_least(rows: Vec<&Row>) -> Vec<&Row>
    requires { All (λ row. IsNumber row.now.value) rows.items }
    ensures { IsByValue false (seen rows.entry.items) result.items }
{
    let mut sorted = rows;
    order_is_total();
    sorted.sort_unstable_by(|a, b| {
        is_number(&a.value);
        is_number(&b.value);
        row_order(false, a, b)
    });
    sorted
}

fn references<'a>(alloc: Global, rows: &'a [Row]) -> Result<Vec<&'a Row>, AllocError>
    ensures rows { IfOk result (λ refs. seen refs.items ≡ rows.now) }
    ensures numbers { IfOk result (λ refs. All (λ row. IsNumber row.now.value) refs.items) }
{
    let mut refs = Vec::with_capacity(alloc, rows.len())?;
    for row in rows {
        is_number(&row.value);
        refs.push(row)?;
    }
    Ok(refs)
}

/// Rows, each beside the labels of its group.
fn with_groups<'a>(
    alloc: Global,
    rows: Vec<&'a Row>,
    by: &Grouping,
) -> Result<Items<(Labels, &'a Row)>, AllocError>
    ensures { IfOk result (λ pairs. pairs ≡ grouped_refs by.now rows.entry.items) }
{
    let mut pairs = Items::new(alloc);
    for row in rows {
        pairs.push((group_labels(by, &row.labels)?, row))?;
    }
    Ok(pairs)
}

/// Whether a row is among the first `count` of its group.
fn is_in_group(
    groups: &RankedGroups<'_>,
    by: &Grouping,
    down: bool,
    count: u64,
    row: &Row,
) -> Result<bool, AllocError>
    ensures { IfOk result (λ taken. taken ≡ is_among down count (group_in groups.now.entries (kept_labels by.now row.now.labels)) row.now) }
{
    let labels = group_labels(by, &row.labels)?;
    match groups.get(&labels) {
        Some(group) => Ok(is_among(group.as_slice(), down, count, row)),
        None => Ok(count > 0),
    }
}

/// Whether a row is no later than the one at a place of its group, or there are fewer rows.
#[tactic(auto, using(crate::proofs::Ranked::among_none, crate::proofs::Ranked::among_beyond, crate::proofs::Ranked::among_at))]
fn is_among(group: &[&Row], down: bool, count: u64, row: &Row) -> bool
    ensures { result ≡ is_among down count (seen group.now) row.now }
{
    if count == 0 {
        return false;
    }
    if count > group.len() as u64 {
        return true;
    }
    let bound = group[(count - 1) as usize];
    !row_order(down, bound, row).is_lt()
}
