//! histogram_quantile.
ghost use Rattle.frac_text.specs.Readings.{turned};
ghost use Rattle.step_rules.specs.Counts.{AreCounts, bound_order, count_above, point_along};
ghost use Rattle.promql_meaning.specs.Buckets.{are_finite, at_rank, bound_note, bound_or, bucket_of, bucket_quantiles, falls, fixed_note, histogram_outcome, histogram_quantile, histograms, interpolated, is_fixed, is_whole, last_count, merged, quantile_of_merged, quantile_of_rising, raised, signed_number, within_bucket};
ghost use Rattle.window_fn.specs.Slopes.{is_finite};
ghost use Rattle.promql_meaning.specs.Outcomes.{is_outside as is_outside_unit};
ghost use Rattle.std.specs.List.{All, filter_map, prefix_len};
ghost use Rattle.std.specs.BTreeMap.{is_at};
ghost use Rattle.std.specs.Option.{option_to_list};
ghost use Rattle.std.specs.Prelude.{◌≡◌, ◌≤◌, ◌<◌, ◌++◌, ◌∷◌, ◌&&◌, [], true, length, map, IfOk, OnOk, Ok, None, Some, false, if◌then◌else◌};
ghost use Rattle.std.specs.Result.{result_ok};
ghost use Rattle.step_table.specs.declared.marks.Note.{Note};
ghost use Rattle.window_fn.specs.Aggregates.{total};
ghost use Rattle.xfrac.specs.Arithmetic.{whole_number};
ghost use Rattle.xfrac.specs.Kinds.{is_not_a_number, is_zero};
ghost use Rattle.xfrac.specs.Laws.{IsNumber};
ghost use Rattle.xfrac.specs.Order.{compares, total_order};

use frac_text::{NumberRefusal, read_number};
use label_set::{Items, Labels, Text};
use promql_meaning::{Bucket, is_outside, range_notes, with_notes, without_label};
use std::alloc::{AllocError, Global};
use std::cmp::Ordering;
use std::collections::BTreeMap;
use step_table::{Note, Outcome, Row, Step, gather, settled, some_value, taken, without_name};
use window_fn::aggregates::total;
use window_fn::is_finite;
use xfrac::laws::{is_number, order_is_total};
use xfrac::{
    ArithOp, CompareOp, NumFault, XFrac, arith, cmp_total, compare, is_nan, neg, parts, whole,
};

/// The label that has a bucket's upper bound.
const BUCKET_LABEL: &str = "le";

/// The quantile of each histogram. The only error is want of memory.
pub fn bucket_quantiles(alloc: Global, q: &XFrac, step: &Step) -> Result<Step, AllocError>
    ensures { IfOk result (λ s. s ≡ bucket_quantiles q.now step.now) }
{
    let rows = step.table.rows.as_slice();
    let found = quantiles_of(alloc, q, histograms(alloc, rows)?)?;
    let marks = with_notes(alloc, step.marks.copy()?, range_notes(alloc, q)?)?;
    let marks = with_notes(alloc, marks, bound_notes(alloc, rows)?)?;
    let marks = with_notes(alloc, marks, found.notes)?;
    settled(alloc, taken(alloc, marks, found.outcomes)?)
}

// ---- the rows as buckets

/// The rows of a vector as buckets, by the labels that the buckets of a histogram share.
fn histograms(alloc: Global, rows: &[Row]) -> Result<BTreeMap<Labels, Items<Bucket>>, AllocError>
    ensures { IfOk result (λ groups. groups.entries ≡ histograms rows.now) }
{
    let mut buckets = Items::new(alloc);
    for row in rows {
        add_bucket(alloc, &mut buckets, row)?;
    }
    gather(alloc, buckets)
}

/// Adds a row as a bucket, where its bound is a number.
fn add_bucket(
    alloc: Global,
    buckets: &mut Items<(Labels, Bucket)>,
    row: &Row,
) -> Result<(), AllocError>
    ensures { OnOk result (buckets.new ≡ buckets.old ++ option_to_list (bucket_of row.now)) }
{
    match bound_of(row.labels.get(BUCKET_LABEL)) {
        Some(bound) => {
            let labels = without_label(alloc, &row.labels, BUCKET_LABEL)?;
            let bucket = Bucket {
                bound,
                count: row.value,
            };
            buckets.push((labels, bucket))
        }
        None => Ok(()),
    }
}

/// The notes of rows whose bound is no number.
fn bound_notes(alloc: Global, rows: &[Row]) -> Result<Items<Note>, AllocError>
    ensures { IfOk result (λ notes. notes ≡ filter_map bound_note rows.now) }
{
    let mut notes = Items::new(alloc);
    for row in rows {
        add_bound_note(alloc, &mut notes, row)?;
    }
    Ok(notes)
}

#[tactic(auto, using(crate::proofs::Bounds::noted, crate::proofs::Bounds::not_noted))]
fn add_bound_note(alloc: Global, notes: &mut Items<Note>, row: &Row) -> Result<(), AllocError>
    ensures { OnOk result (notes.new ≡ notes.old ++ option_to_list (bound_note row.now)) }
{
    let text = row.labels.get(BUCKET_LABEL);
    match bound_of(text) {
        Some(_) => Ok(()),
        None => notes.push(Note::BadBucket(Text::of(alloc, text)?)),
    }
}

/// The bound that a label's text has: the number of a literal with an optional sign.
pub fn bound_of(text: &str) -> Option<XFrac>
    ensures { result ≡ result_ok (signed_number text.now) }
{
    match text.strip_prefix('-') {
        Some(rest) => turned(read_number(rest)).ok(),
        None => match text.strip_prefix('+') {
            Some(rest) => read_number(rest).ok(),
            None => read_number(text).ok(),
        },
    }
}

fn turned(answer: Result<XFrac, NumberRefusal>) -> Result<XFrac, NumberRefusal>
    ensures { result ≡ turned answer }
{
    match answer {
        Ok(value) => Ok(neg(&value)),
        Err(refusal) => Err(refusal),
    }
}

// ---- each histogram

/// What comes of histograms, and the notes of those whose counts were raised.
#[derive(Drop)]
struct Found {
    outcomes: Items<Outcome>,
    notes: Items<Note>,
}

fn quantiles_of(
    alloc: Global,
    q: &XFrac,
    groups: BTreeMap<Labels, Items<Bucket>>,
) -> Result<Found, AllocError>
    ensures outcomes { IfOk result (λ found. found.outcomes ≡ map (histogram_outcome q.now) groups.entries) }
    ensures notes { IfOk result (λ found. found.notes ≡ filter_map (fixed_note q.now) groups.entries) }
{
    let mut found = Found {
        outcomes: Items::new(alloc),
        notes: Items::new(alloc),
    };
    for (labels, buckets) in groups {
        let quantile = histogram_quantile(alloc, q, buckets)?;
        add_fixed_note(&mut found.notes, quantile.fixed)?;
        found.outcomes.push(Outcome {
            labels: without_name(alloc, &labels)?,
            value: some_value(quantile.value),
        })?;
    }
    Ok(found)
}

fn add_fixed_note(notes: &mut Items<Note>, fixed: bool) -> Result<(), AllocError>
    ensures { OnOk result (notes.new ≡ notes.old ++ option_to_list (if fixed then Some Note.FixedBuckets else None)) }
{
    if fixed {
        notes.push(Note::FixedBuckets)
    } else {
        Ok(())
    }
}

/// The quantile of a histogram, and whether its counts were raised on the way.
#[derive(Drop)]
pub struct Quantile {
    pub value: Result<XFrac, NumFault>,
    pub fixed: bool,
}

/// The quantile of the buckets of one histogram, in any order. The only error is want of memory. (Prometheus querying,
/// `histogram_quantile()`.)
#[tactic(auto, using(crate::proofs::Bounds::outside_value, crate::proofs::Bounds::outside_fixed, crate::proofs::Bounds::inside_value, crate::proofs::Bounds::inside_fixed))]
pub fn histogram_quantile(
    alloc: Global,
    q: &XFrac,
    buckets: Items<Bucket>,
) -> Result<Quantile, AllocError>
    ensures value { IfOk result (λ found. found.value ≡ histogram_quantile q.now buckets) }
    ensures fixed { IfOk result (λ found. found.fixed ≡ is_fixed q.now buckets) }
{
    if is_outside(q) {
        return Ok(plain(Ok(outside(q))));
    }
    if !are_finite(buckets.as_slice()) {
        return Ok(plain(Ok(XFrac::NaN)));
    }
    match merged(alloc, buckets)? {
        Err(fault) => Ok(plain(Err(fault))),
        Ok(all) => quantile_of_merged(alloc, q, all),
    }
}

/// A value of counts that were not raised.
fn plain(value: Result<XFrac, NumFault>) -> Quantile
    ensures value { result.value ≡ value }
    ensures fixed { result.fixed ≡ false }
{
    Quantile {
        value,
        fixed: false,
    }
}

/// What a quantile outside 0 to 1 is.
fn outside(q: &XFrac) -> XFrac
    ensures { result ≡ (if is_not_a_number q.now then XFrac.NaN else if compares CompareOp.Lt q.now (whole_number 0) then XFrac.NegInf else XFrac.PosInf) }
{
    if is_nan(q) {
        XFrac::NaN
    } else if compare(CompareOp::Lt, q, &whole(0)) {
        XFrac::NegInf
    } else {
        XFrac::PosInf
    }
}

fn are_finite(buckets: &[Bucket]) -> bool
    ensures finite { result ≡ are_finite buckets.now }
    ensures bounds { result ≡ true → All (λ b. IsNumber b.bound) buckets.now }
{
    for bucket in buckets {
        is_number(&bucket.bound);
        if !is_finite(&bucket.count) {
            return false;
        }
    }
    true
}

// ---- the buckets of each bound

/// The bucket of each bound, by rising bounds, with the counts of its buckets added up.
fn merged(
    alloc: Global,
    buckets: Items<Bucket>,
) -> Result<Result<Items<Bucket>, NumFault>, AllocError>
    requires bounds { All (λ b. IsNumber b.bound) buckets }
    requires finite { are_finite buckets ≡ true }
    ensures merged { IfOk result (λ all. all ≡ merged buckets) }
    ensures counts { IfOk result (λ all. IfOk all AreCounts) }
{
    let mut sorted = buckets.into_vec();
    order_is_total();
    sorted.sort_by(|a, b| bound_order(a, b))?;
    let mut all = Items::new(alloc);
    let mut rest = sorted.as_slice();
    while let [first, ..] = rest {
        let (same, behind) = rest.split_at(same_bound(rest, &first.bound));
        match count_of(alloc, same)? {
            Err(fault) => return Ok(Err(fault)),
            Ok(count) => {
                is_number(&count);
                all.push(Bucket {
                    bound: first.bound,
                    count,
                })?;
            }
        }
        rest = behind;
    }
    Ok(Ok(all))
}

fn bound_order(a: &Bucket, b: &Bucket) -> Ordering
    ensures { result ≡ bound_order a.now b.now }
{
    is_number(&a.bound);
    is_number(&b.bound);
    order_is_total();
    cmp_total(&a.bound, &b.bound)
}

/// How many buckets at the front have a bound.
fn same_bound(buckets: &[Bucket], bound: &XFrac) -> usize
    ensures size { result ≡ prefix_len (λ b. is_at (total_order bound.now) b.bound) buckets.now }
    ensures within { result ≤ length buckets.now }
{
    for (i, bucket) in buckets.iter().enumerate() {
        if cmp_total(bound, &bucket.bound).is_ne() {
            return i;
        }
    }
    buckets.len()
}

/// The counts of some buckets, added up.
fn count_of(alloc: Global, buckets: &[Bucket]) -> Result<Result<XFrac, NumFault>, AllocError>
    ensures { IfOk result (λ count. count ≡ total (map (λ b. b.count) buckets.now)) }
{
    let mut counts = Items::new(alloc);
    for bucket in buckets {
        counts.push(bucket.count)?;
    }
    Ok(total(counts.as_slice()))
}

// ---- counts that rise

/// The quantile of buckets by rising bounds, one for each bound, for a quantile of 0 to 1. The only error is want of memory.
pub fn quantile_of_merged(
    alloc: Global,
    q: &XFrac,
    buckets: Items<Bucket>,
) -> Result<Quantile, AllocError>
    requires { AreCounts buckets }
    ensures value { IfOk result (λ found. found.value ≡ quantile_of_merged q.now buckets) }
    ensures fixed { IfOk result (λ found. found.fixed ≡ (is_whole buckets && falls buckets)) }
{
    if !is_whole(buckets.as_slice()) {
        return Ok(plain(Ok(XFrac::NaN)));
    }
    let raised = raised(alloc, buckets)?;
    Ok(Quantile {
        value: quantile_of_rising(q, raised.buckets.as_slice()),
        fixed: raised.fixed,
    })
}

/// Whether there are two buckets at least, of which the last has the bound +Inf.
#[tactic(auto, using(crate::proofs::Bounds::whole_at, crate::proofs::Bounds::not_whole))]
fn is_whole(buckets: &[Bucket]) -> bool
    ensures { result ≡ is_whole buckets.now }
{
    match buckets {
        [_, .., last] => matches!(last.bound, XFrac::PosInf),
        _ => false,
    }
}

/// Buckets whose counts rise, and whether a count was raised.
#[derive(Drop)]
struct Risen {
    buckets: Items<Bucket>,
    fixed: bool,
}

/// Each count that is below an earlier one is raised to it.
fn raised(alloc: Global, buckets: Items<Bucket>) -> Result<Risen, AllocError>
    requires { AreCounts buckets }
    ensures buckets { IfOk result (λ r. r.buckets ≡ raised buckets) }
    ensures fixed { IfOk result (λ r. r.fixed ≡ falls buckets) }
{
    order_is_total();
    let mut raised = Items::new(alloc);
    let mut most = XFrac::NegInf;
    let mut fixed = false;
    for bucket in buckets.into_vec() {
        fixed = fixed || compare(CompareOp::Lt, &bucket.count, &most);
        most = greater_count(&bucket.count, most);
        raised.push(Bucket {
            bound: bucket.bound,
            count: most,
        })?;
    }
    Ok(Risen {
        buckets: raised,
        fixed,
    })
}

fn greater_count(count: &XFrac, most: XFrac) -> XFrac
    ensures { result ≡ count_above most count.now }
{
    if compare(CompareOp::Lt, count, &most) {
        most
    } else {
        *count
    }
}

/// The quantile of buckets whose bounds and counts rise, for a quantile of 0 to 1.
pub fn quantile_of_rising(q: &XFrac, buckets: &[Bucket]) -> Result<XFrac, NumFault>
    ensures { result ≡ quantile_of_rising q.now buckets.now }
{
    let last = last_count(buckets);
    if is_zero(&last) {
        return Ok(XFrac::NaN);
    }
    let rank = arith(ArithOp::Mul, q, &last)?;
    at_rank(&rank, buckets)
}

#[tactic(auto, using(crate::proofs::Bounds::count_of_last, crate::proofs::Bounds::count_of_none))]
fn last_count(buckets: &[Bucket]) -> XFrac
    ensures { result ≡ last_count buckets.now }
{
    match buckets {
        [.., last] => last.count,
        [] => whole(0),
    }
}

fn is_zero(v: &XFrac) -> bool
    ensures { result ≡ is_zero v.now }
{
    match v {
        XFrac::Fin(f) => parts(f).0 == 0,
        _ => false,
    }
}

/// In the first bucket whose count is at least a rank, the last one aside; where there is none, the bound before the last.
fn at_rank(rank: &XFrac, buckets: &[Bucket]) -> Result<XFrac, NumFault>
    ensures { result ≡ at_rank rank.now None buckets.now }
{
    let mut earlier = None;
    let mut rest = buckets;
    while let [bucket, _, ..] = rest {
        if compare(CompareOp::Ge, &bucket.count, rank) {
            return within_bucket(earlier, bucket, rank);
        }
        earlier = Some(*bucket);
        rest = rest.split_at(1).1;
    }
    Ok(bound_or_nan(earlier))
}

fn bound_or_nan(bucket: Option<Bucket>) -> XFrac
    ensures { result ≡ bound_or XFrac.NaN bucket }
{
    match bucket {
        Some(bucket) => bucket.bound,
        None => XFrac::NaN,
    }
}

/// Within a bucket that a rank falls into, behind an earlier one or as the first.
fn within_bucket(earlier: Option<Bucket>, bucket: &Bucket, rank: &XFrac) -> Result<XFrac, NumFault>
    ensures { result ≡ within_bucket earlier bucket.now rank.now }
{
    match earlier {
        None => {
            if compare(CompareOp::Le, &bucket.bound, &whole(0)) {
                return Ok(bucket.bound);
            }
            interpolated(&whole(0), &bucket.bound, rank, &bucket.count)
        }
        Some(earlier) => {
            let rest = arith(ArithOp::Sub, rank, &earlier.count)?;
            let count = arith(ArithOp::Sub, &bucket.count, &earlier.count)?;
            interpolated(&earlier.bound, &bucket.bound, &rest, &count)
        }
    }
}

/// start + (end - start) * (rank / count)
fn interpolated(start: &XFrac, end: &XFrac, rank: &XFrac, count: &XFrac) -> Result<XFrac, NumFault>
    ensures { result ≡ interpolated start.now end.now rank.now count.now }
{
    let share = arith(ArithOp::Div, rank, count)?;
    along(start, end, &share)
}

/// start + (end - start) * share
fn along(start: &XFrac, end: &XFrac, share: &XFrac) -> Result<XFrac, NumFault>
    ensures { result ≡ point_along start.now end.now share.now }
{
    let width = arith(ArithOp::Sub, end, start)?;
    let way = arith(ArithOp::Mul, &width, share)?;
    arith(ArithOp::Add, start, &way)
}
