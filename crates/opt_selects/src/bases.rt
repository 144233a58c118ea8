//! The base of a selector.
ghost use Rattle.opt_selects.specs.Bases.{is_base, is_equality, names_metric, same_fixed, same_flag, same_moment, same_range, share_metric};
ghost use Rattle.opt_selects.specs.RuleKeys.{rule_keys};
ghost use Rattle.plan_rewrite.specs.RuleLists.{lacking as lacking_of};
ghost use Rattle.std.specs.Prelude.{◌≡◌, IfOk};

use crate::found::Found;
use crate::keyed::Keyed;
use holders::Items;
use label_set::{METRIC_NAME, Rule, RuleKind};
use plan_rewrite::{has_rule, is_part};
use promql_ast::{Fixed, Moment};
use std::alloc::{AllocError, Global};
use ticks::Ms;

/// The rules for which a base is sought, their numbers, and their moment and range.
#[derive(Clone, Copy)]
pub(crate) struct Sought<'s> {
    pub keys: &'s [u64],
    pub rules: &'s [Rule],
    pub moment: &'s Moment,
    pub range: Option<Ms>,
}

fn same_fixed(a: Option<Fixed>, b: Option<Fixed>) -> bool
    ensures { result ≡ same_fixed a b }
{
    match (a, b) {
        (None, None) => true,
        (Some(Fixed::At(a)), Some(Fixed::At(b))) => a.0 == b.0,
        (Some(Fixed::Start), Some(Fixed::Start)) => true,
        (Some(Fixed::End), Some(Fixed::End)) => true,
        _ => false,
    }
}

fn same_flag(a: bool, b: bool) -> bool
    ensures { result ≡ same_flag a b }
{
    a == b
}

pub(crate) fn same_moment(a: &Moment, b: &Moment) -> bool
    ensures { result ≡ same_moment a.now b.now }
{
    same_fixed(a.fixed, b.fixed) && a.offset.0 == b.offset.0 && same_flag(a.closed, b.closed)
}

pub(crate) fn same_range(a: Option<Ms>, b: Option<Ms>) -> bool
    ensures { result ≡ same_range a b }
{
    match (a, b) {
        (None, None) => true,
        (Some(a), Some(b)) => a.0 == b.0,
        _ => false,
    }
}

fn is_equality(kind: &RuleKind) -> bool
    ensures { result ≡ is_equality kind.now }
{
    match kind {
        RuleKind::Eq(_) => true,
        _ => false,
    }
}

fn names_metric(rule: &Rule) -> bool
    ensures { result ≡ names_metric rule.now }
{
    rule.label.as_str() == METRIC_NAME && is_equality(&rule.kind)
}

fn share_metric(a: &[Rule], b: &[Rule]) -> bool
    ensures { result ≡ share_metric a.now b.now }
{
    for rule in a {
        if names_metric(rule) && has_rule(b, rule) {
            return true;
        }
    }
    false
}

fn is_base_of(a: &Found, rules: &[Rule], moment: &Moment, range: Option<Ms>) -> bool
    ensures { result ≡ is_base rules.now moment.now range a.now }
{
    same_moment(&a.moment, moment)
        && same_range(a.range, range)
        && share_metric(a.rules.as_slice(), rules)
        && is_part(a.rules.as_slice(), rules)
        && !is_part(rules, a.rules.as_slice())
}

/// Whether a selector is a base for what is sought. Moments are asked first, then numbers, since they tell most rules apart.
pub(crate) fn is_base(a: &Keyed, sought: &Sought) -> bool
    requires { sought.now.keys.now ≡ rule_keys sought.now.moment.now sought.now.range sought.now.rules.now }
    ensures { result ≡ is_base sought.now.rules.now sought.now.moment.now sought.now.range a.now }
{
    if !same_moment(&a.found().moment, sought.moment) {
        return false;
    }
    if !a.has_keys_in(sought.keys) {
        return false;
    }
    is_base_of(a.found(), sought.rules, sought.moment, sought.range)
}

/// The rules of the second list that the first one lacks.
pub(crate) fn lacking(
    alloc: Global,
    base: &[Rule],
    rules: Items<Rule>,
) -> Result<Items<Rule>, AllocError>
    ensures { IfOk result (λ more. more ≡ lacking_of base.now rules) }
{
    let mut more = Items::new(alloc);
    for rule in rules.into_vec() {
        if !has_rule(base, &rule) {
            more.push(rule)?;
        }
    }
    Ok(more)
}
