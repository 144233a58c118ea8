//! Laws of the depth of a tree.
ghost use Rattle.func_table.specs.declared.table.Aggregate.{Aggregate};
ghost use Rattle.func_table.specs.declared.table.Func.{Func};
ghost use Rattle.func_table.specs.declared.table.SetOp.{SetOp};
ghost use Rattle.label_set.specs.declared.rules.Grouping.{Grouping};
ghost use Rattle.label_set.specs.declared.rules.Pairing.{Pairing};
ghost use Rattle.promql_ast.specs.Depth.{depth, greatest};
ghost use Rattle.promql_ast.specs.declared.tree.Expr.{Expr};
ghost use Rattle.promql_ast.specs.declared.tree.Moment.{Moment};
ghost use Rattle.promql_ast.specs.declared.tree.Selector.{Selector};
ghost use Rattle.std.specs.Prelude.{◌≡◌, ◌+◌, ℕ, List, map, max};
ghost use Rattle.ticks.specs.declared.moment.Ms.{Ms};
ghost use Rattle.xfrac.specs.declared.value.PairOp.{PairOp};
ghost use Rattle.xfrac.specs.declared.value.XFrac.{XFrac};

use crate::Node;

/// A law, with nothing to run: the depth of each kind of node, by the depths of its children.
pub fn depths_are_by_nodes()
    ensures number { (e : Expr) (value : XFrac) → e.node ≡ Node.Number value → depth e ≡ 1 }
    ensures words { (e : Expr) (text : List ℕ) → e.node ≡ Node.Words text → depth e ≡ 1 }
    ensures paren { (e inner : Expr) → e.node ≡ Node.Paren inner → depth e ≡ 1 + depth inner }
    ensures negate { (e inner : Expr) → e.node ≡ Node.Negate inner → depth e ≡ 1 + depth inner }
    ensures select { (e : Expr) (selector : Selector) → e.node ≡ Node.Select selector → depth e ≡ 1 }
    ensures range { (e : Expr) (selector : Selector) (length : Ms) → e.node ≡ Node.Range selector length → depth e ≡ 1 }
    ensures subquery { (e inner : Expr) (range step : Ms) (moment : Moment) → e.node ≡ Node.Subquery inner range step moment → depth e ≡ 1 + depth inner }
    ensures call { (e : Expr) (f : Func) (arguments : List Expr) → e.node ≡ Node.Call f arguments → depth e ≡ 1 + greatest (map depth arguments) }
    ensures aggregate { (e : Expr) (f : Aggregate) (grouping : Grouping) (arguments : List Expr) → e.node ≡ Node.Aggregate f grouping arguments → depth e ≡ 1 + greatest (map depth arguments) }
    ensures pair { (e : Expr) (op : PairOp) (left right : Expr) (pairing : Pairing) → e.node ≡ Node.Pair op left right pairing → depth e ≡ 1 + max (depth left) (depth right) }
    ensures set { (e : Expr) (op : SetOp) (left right : Expr) (pairing : Pairing) → e.node ≡ Node.Set op left right pairing → depth e ≡ 1 + max (depth left) (depth right) }
{}
