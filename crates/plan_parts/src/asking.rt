//! Which parts kernels let engines be asked for.
ghost use Rattle.exchange.specs.Requests.{AreRising};
ghost use Rattle.plan_serving.specs.Asking.{asked_selector, is_rising, plain_selector, selector_in, stamped_selector};
ghost use Rattle.promql_ast.specs.declared.tree.Node.TheViews.{out-Node};
ghost use Rattle.std.specs.Prelude.{◌≡◌, None, Some, IfNone, IfSome, IsTrue};

use func_table::Func;
use promql_ast::{Expr, Node, Selector};
use step_table::PartKind;

/// Whether each number is below the next one. It takes no memory.
pub fn are_rising(numbers: &[u32]) -> bool
    ensures told { result ≡ is_rising numbers.now }
    ensures rising { IsTrue result → AreRising numbers.now }
{
    let mut rest = numbers;
    while rest.len() > 1 {
        let first = rest[0];
        let next = rest[1];
        if next <= first {
            return false;
        }
        rest = rest.split_at(1).1;
    }
    true
}

/// The selector that a node is.
fn plain(node: &Node) -> Option<&Selector>
    ensures some { IfSome result (λ s. plain_selector (out-Node node.now) ≡ Some s.now) }
    ensures none { IfNone result (plain_selector (out-Node node.now) ≡ None) }
{
    match node {
        Node::Select(selector) => Some(selector),
        Node::Number(_) => None,
        Node::Words(_) => None,
        Node::Paren(_) => None,
        Node::Negate(_) => None,
        Node::Range(_, _) => None,
        Node::Subquery { .. } => None,
        Node::Call(_, _) => None,
        Node::Aggregate(_, _, _) => None,
        Node::Pair(_, _, _, _) => None,
        Node::Set(_, _, _, _) => None,
    }
}

/// The selector whose timestamp a call is.
fn under_stamp(f: Func, arguments: &[Expr]) -> Option<&Selector>
    ensures some { IfSome result (λ s. stamped_selector f arguments.now ≡ Some s.now) }
    ensures none { IfNone result (stamped_selector f arguments.now ≡ None) }
{
    match f {
        Func::Timestamp => match arguments {
            [] => None,
            [e] => plain(&e.node),
            _ => None,
        },
        Func::Element(_) => None,
        Func::Window(_) => None,
        Func::Absent => None,
        Func::AbsentOver => None,
        Func::HistogramQuantile => None,
        Func::LabelJoin => None,
        Func::LabelReplace => None,
        Func::Scalar => None,
        Func::Sort => None,
        Func::SortDesc => None,
        Func::Time => None,
        Func::Vector => None,
    }
}

/// The selector that a node is, or whose timestamp it is.
fn within(node: &Node) -> Option<&Selector>
    ensures some { IfSome result (λ s. selector_in (out-Node node.now) ≡ Some s.now) }
    ensures none { IfNone result (selector_in (out-Node node.now) ≡ None) }
{
    match node {
        Node::Select(selector) => Some(selector),
        Node::Call(f, arguments) => under_stamp(*f, arguments.as_slice()),
        Node::Number(_) => None,
        Node::Words(_) => None,
        Node::Paren(_) => None,
        Node::Negate(_) => None,
        Node::Range(_, _) => None,
        Node::Subquery { .. } => None,
        Node::Aggregate(_, _, _) => None,
        Node::Pair(_, _, _, _) => None,
        Node::Set(_, _, _, _) => None,
    }
}

/// The selector whose rows, or whose timestamp's rows, a part is.
pub(crate) fn selector_asked<'a>(kind: &PartKind, expr: &'a Expr) -> Option<&'a Selector>
    ensures some { IfSome result (λ s. asked_selector kind.now expr.now ≡ Some s.now) }
    ensures none { IfNone result (asked_selector kind.now expr.now ≡ None) }
{
    match kind {
        PartKind::Rows => within(&expr.node),
        PartKind::Windows => None,
        PartKind::Partial(_, _) => None,
    }
}
