//! The words of a plan's nodes.
ghost use Rattle.label_set.specs.LabelText.{quoted};
ghost use Rattle.plan_text.specs.PlanLines.{aggregate_words, call_words, engine_text, engines_text, filter_words, gather_words, more_engines, part_words, relabel_words, selector_word, sort_function, strings_text, takes_scalar_first, told};
ghost use Rattle.promql_print.specs.Labels.{parted};
ghost use Rattle.promql_print.specs.Operators.{pair_words, pairing_words, set_word};
ghost use Rattle.std.specs.Prelude.{◌≡◌, ◌++◌, ◌∷◌, [], true, codes, map, OnOk};

use func_table::{Aggregate, Func, SetOp, Window, aggregate_name, name};
use holders::{Items, Text};
use itoa::Buffer;
use label_set::{Grouping, Pairing, Relabel, Rule, append_quoted};
use logical_plan::PlanNode;
use match_rule::Patterns;
use promql_ast::Expr;
use promql_print::{
    append_grouping, append_number, append_pair_operator, append_range, append_rules_in_braces,
    append_select, append_set_operator, append_steps, pattern_text, print,
};
use std::alloc::AllocError;
use step_table::PartKind;
use xfrac::PairOp;

fn append_call(f: Func, into: &mut Vec<u8>) -> Result<(), AllocError>
    ensures { OnOk result (into.new.items ≡ into.old.items ++ call_words f) }
{
    into.extend_from_slice(b"call ")?;
    into.extend_from_slice(name(&f).as_bytes())
}

fn append_selector_word(stamped: bool, into: &mut Vec<u8>) -> Result<(), AllocError>
    ensures { OnOk result (into.new.items ≡ into.old.items ++ selector_word stamped) }
{
    if stamped {
        into.extend_from_slice(b"stamped ")
    } else {
        into.extend_from_slice(b"select ")
    }
}

const fn sort_function(down: bool) -> Func
    ensures { result ≡ sort_function down }
{
    if down { Func::SortDesc } else { Func::Sort }
}

/// Whether a scalar stands before the windows in a call.
pub(crate) fn takes_scalar_first(f: Window) -> bool
    ensures { result ≡ takes_scalar_first f }
{
    match f {
        Window::QuantileOver => true,
        _ => false,
    }
}

fn append_filter(
    rules: &[Rule],
    patterns: &Patterns<'_>,
    into: &mut Vec<u8>,
) -> Result<(), AllocError>
    ensures { OnOk result (into.new.items ≡ into.old.items ++ filter_words patterns.now rules.now) }
{
    into.extend_from_slice(b"filter ")?;
    append_rules_in_braces(rules, patterns, into)
}

/// Appends a string behind a comma and a blank.
fn append_next(string: &str, into: &mut Vec<u8>) -> Result<(), AllocError>
    ensures { OnOk result (into.new.items ≡ into.old.items ++ (codes ", " ++ quoted string.now)) }
{
    into.extend_from_slice(b", ")?;
    append_quoted(string, into)
}

/// Appends strings, each behind a comma and a blank.
fn append_others(strings: &Items<Text>, into: &mut Vec<u8>) -> Result<(), AllocError>
    ensures { OnOk result (into.new.items ≡ into.old.items ++ parted true (map quoted strings.now)) }
{
    for string in strings.as_slice() {
        append_next(string.as_str(), into)?;
    }
    Ok(())
}

/// Appends the string arguments of `label_replace`.
fn append_replacement(
    target: &str,
    template: &str,
    source: &str,
    pattern: &str,
    into: &mut Vec<u8>,
) -> Result<(), AllocError>
    ensures { OnOk result (into.new.items ≡ into.old.items ++ strings_text (target.now ∷ template.now ∷ source.now ∷ pattern.now ∷ [])) }
{
    into.extend_from_slice(b"(")?;
    append_quoted(target, into)?;
    append_next(template, into)?;
    append_next(source, into)?;
    append_next(pattern, into)?;
    into.extend_from_slice(b")")
}

/// Appends the string arguments of `label_join`.
fn append_join(
    target: &str,
    separator: &str,
    sources: &Items<Text>,
    into: &mut Vec<u8>,
) -> Result<(), AllocError>
    ensures { OnOk result (into.new.items ≡ into.old.items ++ strings_text (target.now ∷ separator.now ∷ sources.now)) }
{
    into.extend_from_slice(b"(")?;
    append_quoted(target, into)?;
    append_next(separator, into)?;
    append_others(sources, into)?;
    into.extend_from_slice(b")")
}

fn append_relabel(
    rule: &Relabel,
    patterns: &Patterns<'_>,
    into: &mut Vec<u8>,
) -> Result<(), AllocError>
    ensures { OnOk result (into.new.items ≡ into.old.items ++ relabel_words patterns.now rule.now) }
{
    match rule {
        Relabel::Replace {
            target,
            template,
            source,
            pattern,
        } => {
            append_call(Func::LabelReplace, into)?;
            append_replacement(
                target.as_str(),
                template.as_str(),
                source.as_str(),
                pattern_text(patterns, *pattern),
                into,
            )
        }
        Relabel::Join {
            target,
            separator,
            sources,
        } => {
            append_call(Func::LabelJoin, into)?;
            append_join(target.as_str(), separator.as_str(), sources, into)
        }
        Relabel::Filter(rules) => append_filter(rules.as_slice(), patterns, into),
    }
}

fn append_aggregate(f: Aggregate, grouping: &Grouping, into: &mut Vec<u8>) -> Result<(), AllocError>
    ensures { OnOk result (into.new.items ≡ into.old.items ++ aggregate_words f grouping.now) }
{
    into.extend_from_slice(b"aggregate ")?;
    into.extend_from_slice(aggregate_name(&f).as_bytes())?;
    append_grouping(grouping, into)
}

fn append_pair(op: PairOp, pairing: &Pairing, into: &mut Vec<u8>) -> Result<(), AllocError>
    ensures { OnOk result (into.new.items ≡ into.old.items ++ (codes "binary " ++ (pair_words op ++ pairing_words pairing.now))) }
{
    into.extend_from_slice(b"binary ")?;
    append_pair_operator(op, pairing, into)
}

fn append_set(op: SetOp, pairing: &Pairing, into: &mut Vec<u8>) -> Result<(), AllocError>
    ensures { OnOk result (into.new.items ≡ into.old.items ++ (codes "binary " ++ (set_word op ++ pairing_words pairing.now))) }
{
    into.extend_from_slice(b"binary ")?;
    append_set_operator(op, pairing, into)
}

fn append_part(kind: &PartKind, into: &mut Vec<u8>) -> Result<(), AllocError>
    ensures { OnOk result (into.new.items ≡ into.old.items ++ part_words kind.now) }
{
    match kind {
        PartKind::Rows => into.extend_from_slice(b"rows"),
        PartKind::Windows => into.extend_from_slice(b"windows"),
        PartKind::Partial(f, grouping) => {
            into.extend_from_slice(aggregate_name(f).as_bytes())?;
            append_grouping(grouping, into)
        }
    }
}

/// Appends the number of an engine, counted from 1.
fn append_engine(engine: u32, into: &mut Vec<u8>) -> Result<(), AllocError>
    ensures { OnOk result (into.new.items ≡ into.old.items ++ engine_text engine) }
{
    let mut buffer = Buffer::new();
    into.extend_from_slice(buffer.format(u64::from(engine) + 1).as_bytes())
}

/// Appends the numbers of engines, each behind a comma.
fn append_more_engines(engines: &[u32], into: &mut Vec<u8>) -> Result<(), AllocError>
    ensures { OnOk result (into.new.items ≡ into.old.items ++ more_engines engines.now) }
{
    for engine in engines {
        into.extend_from_slice(b",")?;
        append_engine(*engine, into)?;
    }
    Ok(())
}

fn append_engines(engines: &[u32], into: &mut Vec<u8>) -> Result<(), AllocError>
    ensures { OnOk result (into.new.items ≡ into.old.items ++ engines_text engines.now) }
{
    match engines {
        [] => into.extend_from_slice(b"none"),
        [engine, more @ ..] => {
            append_engine(*engine, into)?;
            append_more_engines(more, into)
        }
    }
}

/// Appends what engines are asked for.
fn append_gather(
    expr: &Expr,
    kind: &PartKind,
    engines: &[u32],
    patterns: &Patterns<'_>,
    into: &mut Vec<u8>,
) -> Result<(), AllocError>
    ensures { OnOk result (into.new.items ≡ into.old.items ++ gather_words patterns.now expr.now kind.now engines.now) }
{
    into.extend_from_slice(b"gather ")?;
    append_part(kind, into)?;
    into.extend_from_slice(b" from ")?;
    append_engines(engines, into)?;
    into.extend_from_slice(b": ")?;
    print(expr, patterns, into)
}

/// Appends the words of a node. The only error is want of memory; then a part may be appended.
pub fn append_words(
    node: &PlanNode,
    patterns: &Patterns<'_>,
    into: &mut Vec<u8>,
) -> Result<(), AllocError>
    ensures { OnOk result (into.new.items ≡ into.old.items ++ (told patterns.now node.now).words) }
{
    match node {
        PlanNode::Number(value) => {
            into.extend_from_slice(b"number ")?;
            append_number(value, into)
        }
        PlanNode::Time => into.extend_from_slice(b"time"),
        PlanNode::Select {
            rules,
            moment,
            stamped,
        } => {
            append_selector_word(*stamped, into)?;
            append_select(rules.as_slice(), moment, patterns, into)
        }
        PlanNode::Range {
            rules,
            moment,
            range,
        } => {
            into.extend_from_slice(b"range ")?;
            append_range(rules.as_slice(), *range, moment, patterns, into)
        }
        PlanNode::Subquery {
            range,
            step,
            moment,
            ..
        } => {
            into.extend_from_slice(b"subquery ")?;
            append_steps(*range, *step, moment, into)
        }
        PlanNode::Element(f, _, _) => append_call(Func::Element(*f), into),
        PlanNode::Stamp(_) => append_call(Func::Timestamp, into),
        PlanNode::Window(f, _, _) => append_call(Func::Window(*f), into),
        PlanNode::Absent { .. } => append_call(Func::Absent, into),
        PlanNode::Buckets(_, _) => append_call(Func::HistogramQuantile, into),
        PlanNode::Relabel(rule, _) => append_relabel(rule, patterns, into),
        PlanNode::Sort { down, .. } => append_call(sort_function(*down), into),
        PlanNode::ScalarOf(_) => append_call(Func::Scalar, into),
        PlanNode::VectorOf(_) => append_call(Func::Vector, into),
        PlanNode::Group(f, grouping, _, _) => append_aggregate(*f, grouping, into),
        PlanNode::Pair(op, _, _, pairing) => append_pair(*op, pairing, into),
        PlanNode::Set(op, _, _, pairing) => append_set(*op, pairing, into),
        PlanNode::Filter { rules, .. } => append_filter(rules.as_slice(), patterns, into),
        PlanNode::Ratio { .. } => into.extend_from_slice(b"ratio"),
        PlanNode::Once(_) => into.extend_from_slice(b"once"),
        PlanNode::Gather { expr, kind, asked } => {
            append_gather(expr, kind, asked.as_slice(), patterns, into)
        }
    }
}
