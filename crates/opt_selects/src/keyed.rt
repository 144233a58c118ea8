//! Selectors beside numbers of their rules, which tell moments and ranges apart too.
ghost use Rattle.opt_selects.specs.RuleKeys.{fixed_number, has_key, has_keys, kind_number, own_keys, range_digit, rule_key, rule_keys, start_number, text_number, time_digit, with_digit};
ghost use Rattle.std.specs.Prelude.{◌≡◌, ◌<◌, map, IfOk};

use crate::found::Found;
use holders::Items;
use label_set::{Rule, RuleKind};
use promql_ast::{Fixed, Moment};
use std::alloc::{AllocError, Global};
use std::marker::Model;
use ticks::Ms;

/// A selector, and a number for each of its rules, which equal rules share at the same moment and over the same range. Contracts see
/// the selector.
#[derive(Drop)]
pub(crate) struct Keyed {
    found: Found,
    keys: Vec<u64>,
}

impl Model for Keyed {
    ghost use Rattle.opt_selects.specs.RuleKeys.{own_keys};
    ghost use Rattle.opt_selects.specs.declared.found.Found.{Found};
    ghost use Rattle.std.specs.Prelude.{◌≡◌};

    ghost Value = { Found };

    ghost view = { λ k. k.found };

    ghost invariant = { λ k. k.keys.items ≡ own_keys k.found };
}

impl Keyed {
    fn new(alloc: Global, found: Found) -> Result<Keyed, AllocError>
        ensures { IfOk result (λ k. k ≡ found) }
    {
        let keys = keys_of(alloc, &found.moment, found.range, found.rules.as_slice())?;
        Ok(Keyed { found, keys })
    }

    /// The selector.
    pub fn found(&self) -> &Found
        ensures { result.now ≡ self.now }
    {
        &self.found
    }

    /// Its rules.
    pub fn rules(&self) -> &Items<Rule>
        ensures { result.now ≡ self.now.rules }
    {
        &self.found.rules
    }

    /// The numbers of its rules.
    pub fn keys(&self) -> &[u64]
        ensures { result.now ≡ own_keys self.now }
    {
        self.keys.as_slice()
    }

    /// Whether the number of each of its rules is among numbers.
    pub fn has_keys_in(&self, keys: &[u64]) -> bool
        ensures { result ≡ has_keys keys.now (own_keys self.now) }
    {
        are_among(keys, self.keys.as_slice())
    }

    /// A number that selectors share which have the same moment, range and rules, whatever the order of rules and however often each
    /// stands. It only says which selectors may be alike.
    pub fn number(&self) -> u64 {
        sum_of_squares(self.keys.as_slice())
    }
}

fn has_key(keys: &[u64], key: u64) -> bool
    ensures { result ≡ has_key keys.now key }
{
    for one in keys {
        if *one == key {
            return true;
        }
    }
    false
}

fn are_among(keys: &[u64], some: &[u64]) -> bool
    ensures { result ≡ has_keys keys.now some.now }
{
    for key in some {
        if !has_key(keys, *key) {
            return false;
        }
    }
    true
}

/// A number behind one more digit.
fn with_digit(number: u64, digit: u64) -> u64
    requires number { number < 36028797018963968 }
    requires digit { digit < 36028797018963968 }
    ensures number { result ≡ with_digit number digit }
    ensures small { result < 36028797018963968 }
{
    (number * 509 + digit) % 36028797018963968
}

/// How long a time is, in milliseconds, as a digit.
fn time_digit(t: Ms) -> u64
    ensures number { result ≡ time_digit t }
    ensures small { result < 36028797018963968 }
{
    t.0.unsigned_abs() % 36028797018963968
}

fn range_digit(range: Option<Ms>) -> u64
    ensures number { result ≡ range_digit range }
    ensures small { result < 36028797018963968 }
{
    match range {
        None => 0,
        Some(range) => time_digit(range),
    }
}

fn fixed_number(fixed: Option<Fixed>) -> u64
    ensures number { result ≡ fixed_number fixed }
    ensures small { result < 36028797018963968 }
{
    match fixed {
        None => 0,
        Some(Fixed::Start) => 1,
        Some(Fixed::End) => 2,
        Some(Fixed::At(t)) => with_digit(3, time_digit(t)),
    }
}

/// The number of a moment and a range.
fn start_number(moment: &Moment, range: Option<Ms>) -> u64
    ensures number { result ≡ start_number moment.now range }
    ensures small { result < 36028797018963968 }
{
    let moment = with_digit(fixed_number(moment.fixed), time_digit(moment.offset));
    with_digit(moment, range_digit(range))
}

/// A text's bytes as digits behind a number.
fn text_number(start: u64, text: &str) -> u64
    requires { start < 36028797018963968 }
    ensures number { result ≡ text_number start text.now }
    ensures small { result < 36028797018963968 }
{
    let mut number = start;
    for byte in text.as_bytes() {
        number = with_digit(number, *byte as u64);
    }
    number
}

fn kind_number(start: u64, kind: &RuleKind) -> u64
    requires { start < 36028797018963968 }
    ensures { result ≡ kind_number start kind.now }
{
    match kind {
        RuleKind::Eq(text) => text_number(with_digit(start, 256), text.as_str()),
        RuleKind::Ne(text) => text_number(with_digit(start, 257), text.as_str()),
        RuleKind::Re(id) => with_digit(with_digit(start, 258), id.0 as u64),
        RuleKind::Nre(id) => with_digit(with_digit(start, 259), id.0 as u64),
    }
}

fn rule_key(start: u64, rule: &Rule) -> u64
    requires { start < 36028797018963968 }
    ensures { result ≡ rule_key start rule.now }
{
    kind_number(text_number(start, rule.label.as_str()), &rule.kind)
}

/// A sum and the square of 31 bits of a number, of which 55 bits are kept.
fn with_square(sum: u64, key: u64) -> u64
    requires { sum < 36028797018963968 }
    ensures { result < 36028797018963968 }
{
    let small = key % 2147483648;
    (sum + small * small) % 36028797018963968
}

/// A sum of squares of numbers, without those that stand among the first ones before: as many as rules have that are written by
/// hand, so that long lists cost no more than their length.
fn sum_of_squares(keys: &[u64]) -> u64 {
    let mut sum = 0;
    for i in 0..keys.len() {
        if !has_key(keys.split_at(i.min(64)).0, keys[i]) {
            sum = with_square(sum, keys[i]);
        }
    }
    sum
}

/// The numbers of rules at a moment and over a range. The only error is want of memory.
pub(crate) fn keys_of(
    alloc: Global,
    moment: &Moment,
    range: Option<Ms>,
    rules: &[Rule],
) -> Result<Vec<u64>, AllocError>
    ensures { IfOk result (λ keys. keys.items ≡ rule_keys moment.now range rules.now) }
{
    let start = start_number(moment, range);
    let mut keys = Vec::with_capacity(alloc, rules.len())?;
    for rule in rules {
        keys.push(rule_key(start, rule))?;
    }
    Ok(keys)
}

/// Selectors beside the numbers of their rules.
pub(crate) fn with_keys(alloc: Global, found: Vec<Found>) -> Result<Vec<Keyed>, AllocError>
    ensures { IfOk result (λ all. all.items ≡ found.items) }
{
    let mut all = Vec::with_capacity(alloc, found.len())?;
    for one in found {
        all.push(Keyed::new(alloc, one)?)?;
    }
    Ok(all)
}
