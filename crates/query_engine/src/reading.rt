//! The typed tree of a query's text.
ghost use Rattle.promql_type.specs.Answers.{MayFault};
ghost use Rattle.query_engine.specs.Evaluating.{IsRefusedWith};
ghost use Rattle.query_engine.specs.Readiness.{IsReadyTree};
ghost use Rattle.std.specs.Prelude.{◌≡◌, [], IfErr, IfOk};

use logical_plan::checked_trees_are_within_limits;
use match_rule::Patterns;
use promql_lex::LexFault;
use promql_parse::parse;
use promql_type::{TypeFault, Typed, check, edges_are_typed_alike};
use std::alloc::Global;

/// The typed tree of a query's text, whose windows all have their left edge where `closed` tells so, and else none; or the one
/// refusal of the text, with its place, counted in bytes from 0. The patterns of the tree, of which there are none before, are
/// kept; after an error some may be. The only other error is want of memory. (Prometheus querying.)
pub fn typed_tree(
    alloc: Global,
    text: &str,
    closed: bool,
    patterns: &mut Patterns,
) -> Result<Typed, TypeFault>
    requires { patterns.old ≡ [] }
    ensures tree { IfOk result (IsReadyTree text.now closed patterns.new) }
    ensures refused { IfErr result (MayFault (IsRefusedWith text.now)) }
{
    edges_are_typed_alike();
    checked_trees_are_within_limits();
    match parse(alloc, text, patterns) {
        Ok(tree) => check(alloc, tree.edged(closed)?, patterns),
        Err(LexFault::Refused(refusal)) => Err(TypeFault::Refused(refusal)),
        Err(LexFault::Memory) => Err(TypeFault::Memory),
    }
}
