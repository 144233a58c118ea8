//! Selectors that may be bases, in rows by the numbers of their rules.
ghost use Rattle.opt_selects.specs.Bases.{base_among, is_base};
ghost use Rattle.opt_selects.specs.Candidates.{AreUnder, is_under, least_of, least_under, passes_at, put_under, row_of};
ghost use Rattle.opt_selects.specs.RuleKeys.{rule_keys};
ghost use Rattle.std.specs.Prelude.{◌≡◌, ◌≢◌, ◌<◌, ◌%◌, ℕ, List, [], true, length, option_map, IfOk, OnOk};

use crate::bases::{Sought, is_base};
use crate::keyed::{Keyed, keys_of};
use holders::Items;
use label_set::Rule;
use promql_ast::Moment;
use std::alloc::{AllocError, Global};
use std::marker::Model;
use ticks::Ms;

/// A selector's place, and the number under which it stands.
#[derive(Clone, Copy)]
struct Placed {
    key: u64,
    place: usize,
}

/// Selectors in order, and where they stand in as many rows: each under the number of one of its rules, the one with the fewest
/// places when it came, so that few are asked whether they are a base. Contracts see the selectors.
#[derive(Drop)]
pub(crate) struct Candidates {
    found: Vec<Keyed>,
    rows: Vec<Items<Placed>>,
}

impl Model for Candidates {
    ghost use Rattle.opt_selects.specs.Candidates.{AreUnder};
    ghost use Rattle.opt_selects.specs.declared.found.Found.{Found};
    ghost use Rattle.std.specs.Prelude.{List, length};

    ghost Value = { List Found };

    ghost view = { λ c. c.found.items };

    ghost invariant = { λ c. AreUnder c.found.items c.rows.items (length c.found.items) };
}

impl Candidates {
    /// The only error is want of memory.
    pub fn of(alloc: Global, found: Vec<Keyed>) -> Result<Candidates, AllocError>
        ensures { IfOk result (λ c. c ≡ found.items) }
    {
        let rows = rows_for(alloc, found.as_slice())?;
        Ok(Candidates { found, rows })
    }

    /// The rules of the first selector that is a base for rules at a moment and over a range. The only error is want of memory.
    pub fn base_for(
        &self,
        alloc: Global,
        rules: &[Rule],
        moment: &Moment,
        range: Option<Ms>,
    ) -> Result<Option<&Items<Rule>>, AllocError>
        ensures { IfOk result (λ base. option_map (λ b. b.now) base ≡ base_among self.now rules.now moment.now range) }
    {
        let keys = keys_of(alloc, moment, range, rules)?;
        let sought = Sought {
            keys: keys.as_slice(),
            rules,
            moment,
            range,
        };
        Ok(first_base(self.found.as_slice(), self.rows.as_slice(), &sought))
    }
}

/// The place of the row that a number falls into.
fn place_of_row(key: u64, rows: usize) -> usize
    requires { 0 < rows }
    ensures row { result ≡ key % rows }
    ensures within { result < rows }
{
    (key % rows as u64) as usize
}

/// The row that a number falls into.
fn row_of(rows: &[Items<Placed>], key: u64) -> &[Placed]
    ensures { result.now ≡ row_of rows.now key }
{
    if rows.is_empty() {
        return &[];
    }
    rows[place_of_row(key, rows.len())].as_slice()
}

/// Puts one more place under a number. The only error is want of memory.
fn put(rows: &mut Vec<Items<Placed>>, key: u64, place: usize) -> Result<(), AllocError>
    requires { 0 < length rows.old.items }
    ensures { OnOk result (rows.new.items ≡ put_under rows.old.items key place) }
{
    let row = place_of_row(key, rows.len());
    rows[row].push(Placed { key, place })
}

/// How many places stand under a number in a row.
fn used(row: &[Placed], key: u64) -> usize {
    let mut used = 0;
    for one in row {
        if one.key == key {
            used += 1;
        }
    }
    used
}

/// Which of some numbers has the fewest places under it.
fn least_used(rows: &[Items<Placed>], keys: &[u64]) -> usize
    requires { 0 < length keys.now }
    ensures { result < length keys.now }
{
    let mut best = 0;
    let mut fewest = used(row_of(rows, keys[0]), keys[0]);
    for i in 1..keys.len() {
        let many = used(row_of(rows, keys[i]), keys[i]);
        if many < fewest {
            best = i;
            fewest = many;
        }
    }
    best
}

/// Puts a place under one of some numbers, if there are any. The only error is want of memory.
fn stand(rows: &mut Vec<Items<Placed>>, keys: &[u64], place: usize) -> Result<(), AllocError>
    requires { 0 < length rows.old.items }
    ensures many { OnOk result (length rows.new.items ≡ length rows.old.items) }
    ensures stays { OnOk result ((others : List ℕ) (n : ℕ) → is_under rows.old.items others n ≡ true → is_under rows.new.items others n ≡ true) }
    ensures stands { OnOk result (keys.now ≢ [] → is_under rows.new.items keys.now place ≡ true) }
{
    if keys.is_empty() {
        return Ok(());
    }
    let i = least_used(rows.as_slice(), keys);
    put(rows, keys[i], place)
}

fn empty_rows(alloc: Global, many: usize) -> Result<Vec<Items<Placed>>, AllocError>
    ensures { IfOk result (λ rows. length rows.items ≡ many) }
{
    let mut rows = Vec::with_capacity(alloc, many)?;
    for _ in 0..many {
        rows.push(Items::new(alloc))?;
    }
    Ok(rows)
}

/// Rows in which each selector stands. The only error is want of memory.
fn rows_for(alloc: Global, found: &[Keyed]) -> Result<Vec<Items<Placed>>, AllocError>
    ensures { IfOk result (λ rows. AreUnder found.now rows.items (length found.now)) }
{
    let mut rows = empty_rows(alloc, found.len())?;
    for place in 0..found.len() {
        stand(&mut rows, found[place].keys(), place)?;
    }
    Ok(rows)
}

/// Whether the selector at a place is a base for what is sought.
fn is_base_at(found: &[Keyed], place: usize, sought: &Sought) -> bool
    requires { sought.now.keys.now ≡ rule_keys sought.now.moment.now sought.now.range sought.now.rules.now }
    ensures { result ≡ passes_at (is_base sought.now.rules.now sought.now.moment.now sought.now.range) found.now place }
{
    match found.get(place) {
        None => false,
        Some(a) => is_base(a, sought),
    }
}

/// The least of a bound and of those places under a number in a row at which a base stands.
fn least_of(found: &[Keyed], key: u64, row: &[Placed], sought: &Sought, bound: usize) -> usize
    requires { sought.now.keys.now ≡ rule_keys sought.now.moment.now sought.now.range sought.now.rules.now }
    ensures { result ≡ least_of (passes_at (is_base sought.now.rules.now sought.now.moment.now sought.now.range) found.now) key row.now bound }
{
    let mut least = bound;
    for one in row {
        if one.key == key && one.place < least && is_base_at(found, one.place, sought) {
            least = one.place;
        }
    }
    least
}

/// The first place at which a base stands, the number of all where there is none.
fn least_under(found: &[Keyed], rows: &[Items<Placed>], sought: &Sought) -> usize
    requires { sought.now.keys.now ≡ rule_keys sought.now.moment.now sought.now.range sought.now.rules.now }
    ensures { result ≡ least_under (passes_at (is_base sought.now.rules.now sought.now.moment.now sought.now.range) found.now) rows.now sought.now.keys.now (length found.now) }
{
    let mut least = found.len();
    for key in sought.keys {
        least = least_of(found, *key, row_of(rows, *key), sought, least);
    }
    least
}

fn first_base<'f>(
    found: &'f [Keyed],
    rows: &[Items<Placed>],
    sought: &Sought,
) -> Option<&'f Items<Rule>>
    requires keys { sought.now.keys.now ≡ rule_keys sought.now.moment.now sought.now.range sought.now.rules.now }
    requires rows { AreUnder found.now rows.now (length found.now) }
    ensures { option_map (λ base. base.now) result ≡ base_among found.now sought.now.rules.now sought.now.moment.now sought.now.range }
{
    match found.get(least_under(found, rows, sought)) {
        None => None,
        Some(a) => Some(a.rules()),
    }
}
