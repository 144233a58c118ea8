//! Whether two values are the same. A derived `==` of a type that reaches itself tells a caller less.
ghost use Rattle.std.specs.Prelude.{◌≡◌, ◌↔◌, IsTrue};

use crate::tree::{Expr, Moment, Node, Selector};
use holders::{Items, Text};
use label_set::{Grouping, Pairing, Rule, RuleKind};
use ticks::Ms;

fn is_same_text(a: &Text, b: &Text) -> bool
    ensures { IsTrue result ↔ (a.now ≡ b.now) }
{
    a == b
}

fn are_same_texts(a: &Items<Text>, b: &Items<Text>) -> bool
    ensures { IsTrue result ↔ (a.now ≡ b.now) }
{
    a == b
}

fn is_same_kind(a: &RuleKind, b: &RuleKind) -> bool
    ensures { IsTrue result ↔ (a.now ≡ b.now) }
{
    a == b
}

fn is_same_rule(a: &Rule, b: &Rule) -> bool
    ensures { IsTrue result ↔ (a.now ≡ b.now) }
{
    a == b
}

fn are_same_rules(a: &Items<Rule>, b: &Items<Rule>) -> bool
    ensures same { IsTrue result → a.now ≡ b.now }
    ensures complete { a.now ≡ b.now → IsTrue result }
{
    let (a, b) = (a.as_slice(), b.as_slice());
    if a.len() != b.len() {
        return false;
    }
    for i in 0..a.len() {
        if !is_same_rule(&a[i], &b[i]) {
            return false;
        }
    }
    true
}

fn is_same_selector(a: &Selector, b: &Selector) -> bool
    ensures { IsTrue result ↔ (a.now ≡ b.now) }
{
    are_same_rules(&a.rules, &b.rules) && a.moment == b.moment
}

fn is_same_moment(a: Moment, b: Moment) -> bool
    ensures { IsTrue result ↔ (a ≡ b) }
{
    a == b
}

/// A range, a step and a moment.
fn are_same_times(a: (Ms, Ms, Moment), b: (Ms, Ms, Moment)) -> bool
    ensures { IsTrue result ↔ (a ≡ b) }
{
    a.0 == b.0 && a.1 == b.1 && is_same_moment(a.2, b.2)
}

fn is_same_grouping(a: &Grouping, b: &Grouping) -> bool
    ensures { IsTrue result ↔ (a.now ≡ b.now) }
{
    a.without == b.without && are_same_texts(&a.names, &b.names)
}

fn is_same_pairing(a: &Pairing, b: &Pairing) -> bool
    ensures { IsTrue result ↔ (a.now ≡ b.now) }
{
    a.on == b.on
        && a.card == b.card
        && are_same_texts(&a.names, &b.names)
        && are_same_texts(&a.extra, &b.extra)
}

impl Expr {
    /// Whether two trees are the same, places included. It takes no memory.
    #[cycle(same)]
    pub fn is_same(&self, other: &Expr) -> bool
        ensures same { IsTrue result → self.now ≡ other.now }
        ensures complete { self.now ≡ other.now → IsTrue result }
    {
        self.at == other.at && is_same_node(&self.node, &other.node)
    }
}

#[cycle(same)]
fn is_same_node(a: &Node, b: &Node) -> bool
    ensures same { IsTrue result → a.now ≡ b.now }
    ensures complete { a.now ≡ b.now → IsTrue result }
{
    match (a, b) {
        (Node::Number(a), Node::Number(b)) => a == b,
        (Node::Words(a), Node::Words(b)) => is_same_text(a, b),
        (Node::Paren(a), Node::Paren(b)) => a.get().is_same(b.get()),
        (Node::Negate(a), Node::Negate(b)) => a.get().is_same(b.get()),
        (Node::Select(a), Node::Select(b)) => is_same_selector(a, b),
        (Node::Range(a, r), Node::Range(b, s)) => *r == *s && is_same_selector(a, b),
        (
            Node::Subquery {
                inner: a,
                range: r,
                step: s,
                moment: m,
            },
            Node::Subquery {
                inner: b,
                range,
                step,
                moment,
            },
        ) => are_same_times((*r, *s, *m), (*range, *step, *moment)) && a.get().is_same(b.get()),
        (Node::Call(f, a), Node::Call(g, b)) => *f == *g && are_same(a, b),
        (Node::Aggregate(f, x, a), Node::Aggregate(g, y, b)) => *f == *g
            && is_same_grouping(x, y)
            && are_same(a, b),
        (Node::Pair(f, a, c, p), Node::Pair(g, b, d, q)) => *f == *g
            && is_same_pairing(p, q)
            && a.get().is_same(b.get())
            && c.get().is_same(d.get()),
        (Node::Set(f, a, c, p), Node::Set(g, b, d, q)) => *f == *g
            && is_same_pairing(p, q)
            && a.get().is_same(b.get())
            && c.get().is_same(d.get()),
        _ => false,
    }
}

#[cycle(same)]
fn are_same(a: &Items<Expr>, b: &Items<Expr>) -> bool
    ensures same { IsTrue result → a.now ≡ b.now }
    ensures complete { a.now ≡ b.now → IsTrue result }
{
    let (a, b) = (a.as_slice(), b.as_slice());
    if a.len() != b.len() {
        return false;
    }
    for i in 0..a.len() {
        if !a[i].is_same(&b[i]) {
            return false;
        }
    }
    true
}
