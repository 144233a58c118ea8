//! What the plan of a tree reads of its parts.
ghost use Rattle.std.specs.Prelude.{◌≡◌, map, slice_get, option_map};
ghost use Rattle.logical_plan.specs.Lowering.{low, rules_or, scalar_or, selects_or, windows_or, words_in};
ghost use Rattle.promql_meaning.specs.Results.{call_gives_scalar};

use func_table::Func;
use label_set::Rule;
use promql_ast::{Expr, Node, Selector};

/// The string that a tree is, parentheses dropped; else the empty text.
pub fn words(e: &Expr) -> &str
    ensures { result.now ≡ (low e.now).words }
{
    match &e.node {
        Node::Words(text) => text.as_str(),
        Node::Paren(inner) => words(inner.get()),
        _ => "",
    }
}

/// The string that the argument of a number is, counted from 0.
pub fn words_in(all: &[Expr], i: usize) -> &str
    ensures { result.now ≡ words_in (map low all.now) i }
{
    match all.get(i) {
        Some(e) => words(e),
        None => "",
    }
}

/// The rules of the selector that a tree is, parentheses dropped; of any other tree there are none.
fn rules(e: &Expr) -> &[Rule]
    ensures { result.now ≡ (low e.now).rules }
{
    match &e.node {
        Node::Select(selector) => selector.rules.as_slice(),
        Node::Range(selector, _) => selector.rules.as_slice(),
        Node::Paren(inner) => rules(inner.get()),
        _ => &[],
    }
}

/// The rules of the selector that the first argument is.
pub fn first_rules(all: &[Expr]) -> &[Rule]
    ensures { result.now ≡ rules_or (slice_get (map low all.now) 0) }
{
    match all.get(0) {
        Some(e) => rules(e),
        None => &[],
    }
}

/// The instant selector that a tree is, with its place, parentheses dropped.
fn own_selector(e: &Expr) -> Option<(u32, &Selector)>
    ensures { option_map (λ s. (s.0, s.1.now)) result ≡ (low e.now).selects }
{
    match &e.node {
        Node::Select(selector) => Some((e.at, selector)),
        Node::Paren(inner) => own_selector(inner.get()),
        _ => None,
    }
}

/// The instant selector that the first argument is, with its place.
pub fn first_selector(all: &[Expr]) -> Option<(u32, &Selector)>
    ensures { option_map (λ s. (s.0, s.1.now)) result ≡ selects_or (slice_get (map low all.now) 0) }
{
    match all.get(0) {
        Some(e) => own_selector(e),
        None => None,
    }
}

/// Whether a tree gives windows.
fn gives_windows(e: &Expr) -> bool
    ensures { result ≡ (low e.now).windows }
{
    match &e.node {
        Node::Range(_, _) | Node::Subquery { .. } => true,
        Node::Paren(inner) => gives_windows(inner.get()),
        _ => false,
    }
}

/// Whether the first argument gives windows.
pub fn first_gives_windows(all: &[Expr]) -> bool
    ensures { result ≡ windows_or (slice_get (map low all.now) 0) }
{
    match all.get(0) {
        Some(e) => gives_windows(e),
        None => false,
    }
}

const fn call_gives_scalar(f: Func) -> bool
    ensures { result ≡ call_gives_scalar f }
{
    match f {
        Func::Scalar | Func::Time => true,
        _ => false,
    }
}

/// Whether a tree gives a scalar.
fn gives_scalar(e: &Expr) -> bool
    ensures { result ≡ (low e.now).scalar }
{
    match &e.node {
        Node::Number(_) => true,
        Node::Paren(inner) | Node::Negate(inner) => gives_scalar(inner.get()),
        Node::Call(f, _) => call_gives_scalar(*f),
        Node::Pair(_, left, right, _) => gives_scalar(left.get()) && gives_scalar(right.get()),
        _ => false,
    }
}

/// Whether the first argument gives a scalar.
pub fn first_gives_scalar(all: &[Expr]) -> bool
    ensures { result ≡ scalar_or (slice_get (map low all.now) 0) }
{
    match all.get(0) {
        Some(e) => gives_scalar(e),
        None => false,
    }
}
