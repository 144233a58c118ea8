//! Laws of typed trees and their refusals. The functions do nothing: each stands for what its contract says.
ghost use Rattle.promql_type.specs.Edges.{EdgesAreJudgedAlike, EdgesAreRefusedAlike, EdgesStayTyped};
ghost use Rattle.promql_type.specs.Fits.{TypedTreesFit};
ghost use Rattle.promql_type.specs.Refusals.{LeastIsFirst};

/// In a tree without refusals, as each typed tree is, each node has operands and arguments of the kinds that are wanted
/// there.
pub fn typed_trees_fit()
    ensures { TypedTreesFit }
{}

/// The refusal that is answered is one before which none of the tree comes, by place and then by number.
pub fn least_is_first()
    ensures { LeastIsFirst }
{}

/// Typing looks at no moment: of a tree whose windows are closed on the left it tells what it tells of the open one, and the
/// typed tree has the edge that the tree was given.
pub fn edges_are_typed_alike()
    ensures judged { EdgesAreJudgedAlike }
    ensures refused { EdgesAreRefusedAlike }
    ensures typed { EdgesStayTyped }
{}
