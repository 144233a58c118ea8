//! Checking a tree.
ghost use Rattle.match_rule.specs.Gains.{Gains};
ghost use Rattle.promql_ast.specs.Depth.{depth};
ghost use Rattle.promql_ast.specs.Parts.{parts_of};
ghost use Rattle.promql_type.specs.Answers.{IsLeastRefusal, MayFault, refusals_of};
ghost use Rattle.promql_type.specs.Judging.{judged};
ghost use Rattle.promql_type.specs.Refusals.{least, lesser};
ghost use Rattle.promql_type.specs.Replacements.{AreKept, AreTaken};
ghost use Rattle.promql_type.specs.Settled.{settled};
ghost use Rattle.promql_type.specs.TypedTrees.{placed_of, tree_of};
ghost use Rattle.std.specs.Prelude.{◌≡◌, [], Some, IfOk, IfErr, OnOk};

use crate::judge::judge;
use crate::least::{first_of, lesser};
use crate::points::crowd_refusal;
use crate::replace::{Placed, build, collect};
use crate::rules::{is_scalar, result_refusal};
use crate::settle::settle;
use crate::typed_tree::{TypeFault, Typed};
use holders::Items;
use match_rule::Patterns;
use promql_ast::{Expr, QueryRefusal};
use std::alloc::{AllocError, Global};

#[tactic(auto, using(crate::proofs::Leasts::least_append))]
/// The least refusal of a tree, but for those of patterns.
fn own_refusal(e: &Expr) -> Option<QueryRefusal>
    ensures { result ≡ least (refusals_of e.now) }
{
    let judged = judge(e);
    let result = result_refusal(judged.operand.gives);
    lesser(judged.least, lesser(crowd_refusal(e, 1), result))
}

/// The one of two refusals that is answered.
fn sooner(own: Option<QueryRefusal>, pattern: QueryRefusal) -> QueryRefusal
    ensures { lesser own (Some pattern) ≡ Some result }
{
    match own {
        None => pattern,
        Some(own) => first_of(own, pattern),
    }
}

/// The typed tree of a tree that is not refused.
fn typed(alloc: Global, expr: Expr, placed: Items<Placed>) -> Result<Typed, AllocError>
    requires { refusals_of expr ≡ [] }
    ensures tree { IfOk result (λ t. tree_of t ≡ settled expr) }
    ensures placed { IfOk result (λ t. placed_of t ≡ placed) }
{
    let settled = settle(alloc, expr)?;
    Ok(Typed::new(settled.tree, is_scalar(settled.gives), placed))
}

/// The typed tree of a tree: each node is of the kind that is wanted in its place, the pairing of an operator is dropped
/// beside a number, and the pattern of each `label_replace` call is kept. Else it is refused, by the one of all its refusals
/// that has the least place and, of those, the least number; the tree is dropped. The patterns that were there keep their
/// numbers, and after any answer further ones may be there. Typing changes no rules, moments or lengths of time of a tree, nor
/// its depth.
pub fn check(alloc: Global, expr: Expr, patterns: &mut Patterns) -> Result<Typed, TypeFault>
    // a tree is taken where nothing refuses it
    ensures tree { IfOk result (λ t. tree_of t ≡ settled expr) }
    ensures taken { OnOk result (refusals_of expr ≡ []) }
    ensures kept { OnOk result (AreTaken patterns.old (judged expr).replacements patterns.new) }
    ensures placed { IfOk result (λ t. AreKept patterns.new (judged (tree_of t)).replacements (placed_of t)) }
    ensures parts { IfOk result (λ t. parts_of (tree_of t) ≡ parts_of expr) }
    ensures depth { IfOk result (λ t. depth (tree_of t) ≡ depth expr) }

    ensures refused { IfErr result (MayFault (IsLeastRefusal expr patterns.old patterns.new)) }
    ensures gains { Gains patterns.old patterns.new }
{
    let own = own_refusal(&expr);
    let mut wanted = Items::new(alloc);
    collect(alloc, &expr, &mut wanted)?;
    match build(alloc, wanted.as_slice(), patterns) {
        Err(TypeFault::Memory) => Err(TypeFault::Memory),
        Err(TypeFault::Refused(pattern)) => Err(TypeFault::Refused(sooner(own, pattern))),
        Ok(placed) => match own {
            Some(refusal) => Err(TypeFault::Refused(refusal)),
            None => Ok(typed(alloc, expr, placed)?),
        },
    }
}
