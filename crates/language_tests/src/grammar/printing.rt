//! Trees as texts, as the rows have them.
use frac_text::write_number;
use holders::Text;
use label_set::{Card, Grouping, METRIC_NAME, Pairing, PatternId, Rule, RuleKind};
use promql_ast::{Expr, Fixed, Moment, Node, Selector};
use std::alloc::{AllocError, Global};
use std::str;
use std::test::Fail;
use ticks::Ms;
use xfrac::XFrac;

/// A tree: what its node has before its parts, the parts, and what the node has behind them.
#[cycle(printing)]
pub fn push_tree(out: &mut String, alloc: Global, e: &Expr) -> Result<(), Fail> {
    push_head(out, alloc, e)?;
    match &e.node {
        Node::Number(_) | Node::Words(_) | Node::Select(_) | Node::Range(_, _) => {}
        Node::Paren(inner) => push_tree(out, alloc, inner.get())?,
        Node::Negate(inner) => push_tree(out, alloc, inner.get())?,
        Node::Subquery { inner, .. } => push_tree(out, alloc, inner.get())?,
        Node::Call(_, arguments) => push_trees(out, alloc, arguments.as_slice())?,
        Node::Aggregate(_, _, arguments) => push_trees(out, alloc, arguments.as_slice())?,
        Node::Pair(_, left, right, _) => {
            push_tree(out, alloc, left.get())?;
            out.push(',')?;
            push_tree(out, alloc, right.get())?;
        }
        Node::Set(_, left, right, _) => {
            push_tree(out, alloc, left.get())?;
            out.push(',')?;
            push_tree(out, alloc, right.get())?;
        }
    }
    push_tail(out, alloc, e)
}

#[cycle(printing)]
fn push_trees(out: &mut String, alloc: Global, trees: &[Expr]) -> Result<(), Fail> {
    let mut behind = false;
    for e in trees {
        if behind {
            out.push(',')?;
        }
        push_tree(out, alloc, e)?;
        behind = true;
    }
    Ok(())
}

/// The place of an expression, and what its node has before its parts.
fn push_head(out: &mut String, alloc: Global, e: &Expr) -> Result<(), Fail> {
    let at = e.at;
    push_text(out, format!(in alloc; "{at}"))?;
    match &e.node {
        Node::Number(value) => push_number(out, alloc, value)?,
        Node::Words(words) => push_quoted(out, words.as_str())?,
        Node::Paren(_) => out.push('(')?,
        Node::Negate(_) => out.push('-')?,
        Node::Select(selector) => push_selector(out, alloc, selector)?,
        Node::Range(selector, range) => push_range(out, alloc, selector, *range)?,
        Node::Subquery { .. } => out.push('<')?,
        _ => push_operation(out, alloc, &e.node)?,
    }
    Ok(())
}

/// A call, an aggregation or an operator, as far as its parts.
fn push_operation(out: &mut String, alloc: Global, node: &Node) -> Result<(), Fail> {
    match node {
        Node::Call(function, _) => push_text(out, format!(in alloc; "{function:?}("))?,
        Node::Aggregate(function, grouping, _) => {
            push_text(out, format!(in alloc; "{function:?}"))?;
            push_grouping(out, grouping)?;
            out.push('(')?;
        }
        Node::Pair(op, _, _, pairing) => {
            push_text(out, format!(in alloc; "{op:?}"))?;
            push_pairing(out, pairing)?;
        }
        Node::Set(op, _, _, pairing) => {
            push_text(out, format!(in alloc; "{op:?}"))?;
            push_pairing(out, pairing)?;
        }
        _ => {}
    }
    Ok(())
}

/// What an expression's node has behind its parts.
fn push_tail(out: &mut String, alloc: Global, e: &Expr) -> Result<(), Fail> {
    match &e.node {
        Node::Paren(_) | Node::Call(_, _) | Node::Aggregate(_, _, _) => out.push(')')?,
        Node::Pair(_, _, _, _) | Node::Set(_, _, _, _) => out.push(']')?,
        Node::Subquery {
            range,
            step,
            moment,
            ..
        } => {
            let (range, step) = (range.0, step.0);
            push_text(out, format!(in alloc; ">[{range}:{step}]"))?;
            push_moment(out, alloc, moment)?;
        }
        _ => {}
    }
    Ok(())
}

/// Adds a text that was made, or says that memory was short as it was made or added.
pub fn push_text(out: &mut String, text: Result<String, AllocError>) -> Result<(), AllocError> {
    let text = text?;
    out.push_str(text.as_str())
}

fn push_number(out: &mut String, alloc: Global, value: &XFrac) -> Result<(), Fail> {
    let mut number = Vec::new(alloc);
    number.push(b'#')?;
    write_number(value, &mut number)?;
    out.push_str(str::from_utf8(number.as_slice())?)?;
    Ok(())
}

fn push_quoted(out: &mut String, words: &str) -> Result<(), AllocError> {
    out.push('\'')?;
    out.push_str(words)?;
    out.push('\'')
}

fn push_selector(out: &mut String, alloc: Global, s: &Selector) -> Result<(), AllocError> {
    push_rules(out, alloc, s.rules.as_slice())?;
    push_moment(out, alloc, &s.moment)
}

fn push_range(out: &mut String, alloc: Global, s: &Selector, range: Ms) -> Result<(), AllocError> {
    push_rules(out, alloc, s.rules.as_slice())?;
    let range = range.0;
    push_text(out, format!(in alloc; "[{range}]"))?;
    push_moment(out, alloc, &s.moment)
}

fn push_rules(out: &mut String, alloc: Global, rules: &[Rule]) -> Result<(), AllocError> {
    out.push('{')?;
    let mut behind = false;
    for rule in rules {
        if behind {
            out.push(',')?;
        }
        push_rule(out, alloc, rule)?;
        behind = true;
    }
    out.push('}')
}

fn push_rule(out: &mut String, alloc: Global, rule: &Rule) -> Result<(), AllocError> {
    let label = rule.label.as_str();
    out.push_str(if label == METRIC_NAME { "_" } else { label })?;
    match &rule.kind {
        RuleKind::Eq(text) => push_pair(out, "=", text),
        RuleKind::Ne(text) => push_pair(out, "!=", text),
        RuleKind::Re(PatternId(id)) => push_text(out, format!(in alloc; "=~{id}")),
        RuleKind::Nre(PatternId(id)) => push_text(out, format!(in alloc; "!~{id}")),
    }
}

fn push_pair(out: &mut String, sign: &str, text: &Text) -> Result<(), AllocError> {
    out.push_str(sign)?;
    out.push_str(text.as_str())
}

fn push_moment(out: &mut String, alloc: Global, moment: &Moment) -> Result<(), AllocError> {
    match moment.fixed {
        None => {}
        Some(Fixed::Start) => out.push_str("@start")?,
        Some(Fixed::End) => out.push_str("@end")?,
        Some(Fixed::At(Ms(time))) => push_text(out, format!(in alloc; "@{time}"))?,
    }
    let offset = moment.offset.0;
    if offset == 0 {
        return Ok(());
    }
    push_text(out, format!(in alloc; "o{offset}"))
}

fn push_grouping(out: &mut String, grouping: &Grouping) -> Result<(), AllocError> {
    let names = grouping.names.as_slice();
    if grouping.without {
        return push_names(out, " without", names);
    }
    if names.is_empty() {
        return Ok(());
    }
    push_names(out, " by", names)
}

/// How the sides of an operator are matched, and the bracket before them.
fn push_pairing(out: &mut String, pairing: &Pairing) -> Result<(), AllocError> {
    let names = pairing.names.as_slice();
    if pairing.on {
        push_names(out, " on", names)?;
    } else if !names.is_empty() {
        push_names(out, " ignoring", names)?;
    }
    let extra = pairing.extra.as_slice();
    match pairing.card {
        Card::OneToOne => {}
        Card::GroupLeft => push_names(out, " GroupLeft", extra)?,
        Card::GroupRight => push_names(out, " GroupRight", extra)?,
    }
    out.push('[')
}

/// A word and the names behind it.
fn push_names(out: &mut String, word: &str, names: &[Text]) -> Result<(), AllocError> {
    out.push_str(word)?;
    out.push('[')?;
    push_joined(out, names)?;
    out.push(']')
}

fn push_joined(out: &mut String, names: &[Text]) -> Result<(), AllocError> {
    let mut behind = false;
    for name in names {
        if behind {
            out.push(',')?;
        }
        out.push_str(name.as_str())?;
        behind = true;
    }
    Ok(())
}
