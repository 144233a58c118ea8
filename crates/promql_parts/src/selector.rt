//! The rules of a selector.
ghost use Rattle.promql_parts.specs.Reads.{Gives, all_turns};
ghost use Rattle.promql_parts.specs.Selectors.{alone_at, braces_at, closed_at, compared_at, is_empty_text, is_on_name, match_op, match_op_at, matcher_at, matcher_kind, matchers_turn, metric_label, matcher_of, name_matcher, named_rules, names_twice, refuses_nothing, rule_behind, rules_of, value_at};
ghost use Rattle.std.specs.List.{list_all, list_any};
ghost use Rattle.std.specs.Option.{option_map};
ghost use Rattle.std.specs.Prelude.{◌≡◌, ◌<◌, ◌≤◌, ◌++◌, [], ℕ, List, false, filter, length, map, IfOk, IsTrue, OnOk, OnSome};

use crate::labels::label_of;
use crate::lexeme::{Lexeme, LexemeKind, Sign};
use crate::reads::{Read, begins, item_behind, refused, refused_at};
use holders::{Items, Text};
use label_set::{METRIC_NAME, Rule, RuleKind};
use promql_ast::QueryRefusal;
use promql_lex::LexFault;
use std::alloc::{AllocError, Global};

/// How a rule compares: `=`, `!=`, `=~`, `!~`.
#[derive(Clone, Copy, Debug, PartialEq, Eq)]
pub enum MatchOp {
    Equals,
    Differs,
    Passes,
    Fails,
}

/// A rule, whether it passes the empty text, and whether it is a metric's name in quotes.
#[derive(Debug, Drop, PartialEq, Eq)]
pub struct Matcher {
    pub rule: Rule,
    pub passes_empty: bool,
    pub quoted: bool,
}

/// The rule on a metric's name.
fn name_matcher(alloc: Global, name: &Text, quoted: bool) -> Result<Matcher, AllocError>
    ensures { IfOk result (λ m. m ≡ name_matcher name.now quoted) }
{
    Ok(Matcher {
        rule: Rule {
            label: Text::of(alloc, METRIC_NAME)?,
            kind: RuleKind::Eq(name.copy()?),
        },
        passes_empty: name.as_str().is_empty(),
        quoted,
    })
}

fn match_op(kind: &LexemeKind) -> Option<MatchOp>
    ensures { result ≡ match_op kind.now }
{
    match kind {
        LexemeKind::Sign(Sign::Equal) => Some(MatchOp::Equals),
        LexemeKind::Sign(Sign::Unequal) => Some(MatchOp::Differs),
        LexemeKind::Sign(Sign::Matches) => Some(MatchOp::Passes),
        LexemeKind::Sign(Sign::Unmatched) => Some(MatchOp::Fails),
        _ => None,
    }
}

fn match_op_at(lexemes: &[Lexeme]) -> Option<MatchOp>
    ensures is { result ≡ match_op_at lexemes.now }
    ensures some { OnSome result (0 < length lexemes.now) }
{
    match lexemes {
        [] => None,
        [lexeme, ..] => match_op(&lexeme.kind),
    }
}

/// The kind of a rule, and whether it passes the empty text.
fn rule_kind(op: MatchOp, kind: &LexemeKind) -> Result<Option<(RuleKind, bool)>, AllocError>
    ensures { IfOk result (λ found. (label : List ℕ) → option_map (λ f. matcher_of label f.0 f.1 false) found ≡ matcher_kind label op kind.now) }
{
    Ok(match (op, kind) {
        (MatchOp::Equals, LexemeKind::Quoted(text)) => {
            Some((RuleKind::Eq(text.copy()?), text.as_str().is_empty()))
        }
        (MatchOp::Differs, LexemeKind::Quoted(text)) => {
            Some((RuleKind::Ne(text.copy()?), !text.as_str().is_empty()))
        }
        (MatchOp::Passes, LexemeKind::Pattern(id, passes_empty)) => {
            Some((RuleKind::Re(*id), *passes_empty))
        }
        (MatchOp::Fails, LexemeKind::Pattern(id, passes_empty)) => {
            Some((RuleKind::Nre(*id), !*passes_empty))
        }
        _ => None,
    })
}

/// The rule of a label, a comparison and the string at the front.
fn value_at<'a>(end: u32, label: &Text, op: MatchOp, lexemes: &'a [Lexeme]) -> Read<'a, Matcher>
    ensures is { Gives (λ read. (read.0, read.1.now)) result (value_at end label.now op lexemes.now) }
    ensures shorter { IfOk result (λ read. length read.1.now < length lexemes.now) }
{
    match lexemes {
        [] => Err(refused_at(end, lexemes)),
        [lexeme, ..] => match rule_kind(op, &lexeme.kind)? {
            None => Err(refused(lexeme)),
            Some((kind, passes_empty)) => {
                let label = label.copy()?;
                let rule = Rule { label, kind };
                let quoted = false;
                Ok((
                    Matcher {
                        rule,
                        passes_empty,
                        quoted,
                    },
                    lexemes.split_at(1).1,
                ))
            }
        },
    }
}

fn compared_at<'a>(
    end: u32,
    at: u32,
    label: &Text,
    op: MatchOp,
    lexemes: &'a [Lexeme],
) -> Read<'a, Matcher>
    ensures is { Gives (λ read. (read.0, read.1.now)) result (compared_at end at label.now op lexemes.now) }
    ensures shorter { IfOk result (λ read. length read.1.now < length lexemes.now) }
{
    if label.as_str().is_empty() {
        return Err(LexFault::Refused(QueryRefusal::BadLabelName(at)));
    }
    value_at(end, label, op, lexemes)
}

/// A string that stands alone is the metric's name.
fn alone_at<'a>(
    alloc: Global,
    end: u32,
    kind: &LexemeKind,
    lexemes: &'a [Lexeme],
) -> Read<'a, Matcher>
    ensures is { Gives (λ read. (read.0, read.1.now)) result (alone_at end kind.now lexemes.now) }
    ensures shorter { IfOk result (λ read. length read.1.now ≤ length lexemes.now) }
{
    match kind {
        LexemeKind::Quoted(text) => Ok((name_matcher(alloc, text, true)?, lexemes)),
        _ => Err(refused_at(end, lexemes)),
    }
}

fn rule_behind<'a>(
    alloc: Global,
    end: u32,
    lexeme: &Lexeme,
    label: &Text,
    lexemes: &'a [Lexeme],
) -> Read<'a, Matcher>
    ensures is { Gives (λ read. (read.0, read.1.now)) result (rule_behind end lexeme.now label.now (match_op_at lexemes.now) lexemes.now) }
    ensures shorter { IfOk result (λ read. length read.1.now ≤ length lexemes.now) }
{
    match match_op_at(lexemes) {
        None => alone_at(alloc, end, &lexeme.kind, lexemes),
        Some(op) => compared_at(end, lexeme.at, label, op, lexemes.split_at(1).1),
    }
}

fn matcher_at<'a>(alloc: Global, end: u32, lexemes: &'a [Lexeme]) -> Read<'a, Matcher>
    ensures is { Gives (λ read. (read.0, read.1.now)) result (matcher_at end lexemes.now) }
    ensures shorter { IfOk result (λ read. length read.1.now < length lexemes.now) }
{
    match lexemes {
        [] => Err(refused_at(end, lexemes)),
        [lexeme, ..] => match label_of(&lexeme.kind) {
            None => Err(refused(lexeme)),
            Some(label) => rule_behind(alloc, end, lexeme, label, lexemes.split_at(1).1),
        },
    }
}

#[tactic(auto, unfolding(crate::specs::Selectors::matchers_turn))]
fn matchers_turn<'a>(
    alloc: Global,
    end: u32,
    sofar: Items<Matcher>,
    lexemes: &'a [Lexeme],
) -> Result<(bool, Items<Matcher>, &'a [Lexeme]), LexFault>
    ensures is { Gives (λ next. (next.0, next.1, next.2.now)) result (matchers_turn end sofar lexemes.now) }
    ensures shorter { IfOk result (λ next. (length next.2.now ≤ length lexemes.now) × (IsTrue next.0 → length next.2.now < length lexemes.now)) }
{
    if begins(Sign::RightBrace, lexemes) {
        return Ok((false, sofar, lexemes));
    }
    let (matcher, behind) = matcher_at(alloc, end, lexemes)?;
    let (more, rest) = item_behind(end, Sign::RightBrace, behind)?;
    let mut matchers = sofar;
    matchers.push(matcher)?;
    Ok((more, matchers, rest))
}

/// The rules up to the closing brace.
fn listed_matchers<'a>(alloc: Global, end: u32, lexemes: &'a [Lexeme]) -> Read<'a, Items<Matcher>>
    ensures is { Gives (λ read. (read.0, read.1.now)) result (all_turns (matchers_turn end) [] lexemes.now) }
    ensures shorter { IfOk result (λ read. length read.1.now ≤ length lexemes.now) }
{
    let mut matchers = Items::new(alloc);
    let mut rest = lexemes;
    loop {
        let (more, next, behind) = matchers_turn(alloc, end, matchers, rest)?;
        if !more {
            return Ok((next, behind));
        }
        matchers = next;
        rest = behind;
    }
}

fn is_on_name(matcher: &Matcher) -> bool
    ensures { result ≡ is_on_name matcher.now }
{
    matcher.rule.label.as_str() == METRIC_NAME
}

/// Whether each rule passes the empty text.
fn all_pass_empty(matchers: &[Matcher]) -> bool
    ensures { result ≡ list_all (λ m. m.passes_empty) matchers.now }
{
    matchers.iter().all(|matcher| matcher.passes_empty)
}

fn has_name_rule(matchers: &[Matcher]) -> bool
    ensures { result ≡ list_any is_on_name matchers.now }
{
    matchers.iter().any(|matcher| is_on_name(matcher))
}

fn quoted_names(matchers: &[Matcher]) -> usize
    ensures { result ≡ length (filter (λ m. m.quoted) matchers.now) }
{
    matchers.iter().filter(|matcher| matcher.quoted).count()
}

/// Whether two names stand in quotes, or one stands before the braces and a rule on the name in them.
fn names_twice(named: bool, inside: &[Matcher]) -> bool
    ensures { result ≡ names_twice named inside.now }
{
    (named && has_name_rule(inside)) || quoted_names(inside) > 1
}

fn push_rules(rules: &mut Items<Rule>, matchers: Items<Matcher>) -> Result<(), AllocError>
    ensures { OnOk result (rules.new ≡ rules.old ++ map (λ m. m.rule) matchers) }
{
    for matcher in matchers.into_vec() {
        let Matcher { rule, .. } = matcher;
        rules.push(rule)?;
    }
    Ok(())
}

/// The rule on the name before the braces alone.
pub fn named_rules(alloc: Global, name: Option<&Text>) -> Result<Items<Rule>, AllocError>
    ensures { IfOk result (λ rules. rules ≡ named_rules (option_map (λ t. t.now) name.entry)) }
{
    let mut rules = Items::new(alloc);
    if let Some(name) = name {
        let Matcher { rule, .. } = name_matcher(alloc, name, false)?;
        rules.push(rule)?;
    }
    Ok(rules)
}

/// The rules of a selector, whose closing brace stands at this place.
fn rules_of(
    alloc: Global,
    at: u32,
    name: Option<&Text>,
    inside: Items<Matcher>,
) -> Result<Items<Rule>, LexFault>
    ensures { Gives (λ rules. rules) result (rules_of at (option_map (λ t. t.now) name.entry) inside) }
{
    if refuses_nothing(name) && all_pass_empty(inside.as_slice()) {
        return Err(LexFault::Refused(QueryRefusal::EmptySelector(at)));
    }
    if names_twice(name.is_some(), inside.as_slice()) {
        return Err(LexFault::Refused(QueryRefusal::NameTwice(at)));
    }
    let mut rules = named_rules(alloc, name)?;
    push_rules(&mut rules, inside)?;
    Ok(rules)
}

/// Whether the rule of a name passes the empty text, or there is none.
fn refuses_nothing(name: Option<&Text>) -> bool
    ensures { result ≡ refuses_nothing (option_map (λ t. t.now) name.entry) }
{
    match name {
        None => true,
        Some(name) => name.as_str().is_empty(),
    }
}

fn closed_at<'a>(
    alloc: Global,
    end: u32,
    name: Option<&Text>,
    inside: Items<Matcher>,
    lexemes: &'a [Lexeme],
) -> Read<'a, Items<Rule>>
    ensures is { Gives (λ read. (read.0, read.1.now)) result (closed_at end (option_map (λ t. t.now) name.entry) inside lexemes.now) }
    ensures shorter { IfOk result (λ read. length read.1.now < length lexemes.now) }
{
    match lexemes {
        [] => Err(refused_at(end, lexemes)),
        [lexeme, ..] => Ok((
            rules_of(alloc, lexeme.at, name, inside)?,
            lexemes.split_at(1).1,
        )),
    }
}

/// The rules of a selector from behind its opening brace, behind that on the name before it.
#[tactic(auto, unfolding(crate::specs::Selectors::braces_at))]
pub fn braces_at<'a>(
    alloc: Global,
    end: u32,
    name: Option<&Text>,
    lexemes: &'a [Lexeme],
) -> Read<'a, Items<Rule>>
    ensures is { Gives (λ read. (read.0, read.1.now)) result (braces_at end (option_map (λ t. t.now) name.entry) lexemes.now) }
    ensures shorter { IfOk result (λ read. length read.1.now < length lexemes.now) }
{
    let (inside, behind) = listed_matchers(alloc, end, lexemes)?;
    closed_at(alloc, end, name, inside, behind)
}
