//! Typed trees.
ghost use Rattle.std.specs.Prelude.{◌≡◌, [], IfOk};
ghost use Rattle.promql_type.specs.Judging.{judged};
ghost use Rattle.promql_type.specs.Kinds.{is_scalar};
ghost use Rattle.promql_type.specs.Rules.{result_refusals};
ghost use Rattle.promql_type.specs.Settled.{kind_of};

use crate::replace::Placed;
use holders::Items;
use label_set::PatternId;
use promql_ast::{Expr, QueryRefusal};
use std::alloc::AllocError;
use thiserror::Error;

/// Why a tree has no type.
#[derive(Debug, Drop, PartialEq, Eq, Error)]
pub enum TypeFault {
    /// The refusal of the query, with its place.
    #[error("refused: {0}")]
    Refused(QueryRefusal),
    /// Memory ran out.
    #[error("out of memory")]
    Memory,
}

impl TypeFault {
    /// An equal fault. The only error is want of memory.
    pub fn copy(&self) -> Result<TypeFault, AllocError>
        ensures { IfOk result (λ f. f ≡ self.now) }
    {
        match self {
            TypeFault::Refused(refusal) => Ok(TypeFault::Refused(refusal.copy()?)),
            TypeFault::Memory => Ok(TypeFault::Memory),
        }
    }
}

impl From<AllocError> for TypeFault {
    ghost use Rattle.promql_type.specs.declared.typed_tree.TypeFault.TheVariants.{Memory};
    ghost use Rattle.std.specs.Prelude.{◌≡◌};

    ghost from_gives = { λ _ e. e ≡ Memory };

    fn from(_: AllocError) -> TypeFault {
        TypeFault::Memory
    }
}

/// A tree in which each node is of the kind that is wanted in its place, with the number of the pattern of each
/// `label_replace` call. It gives numbers or an instant vector.
#[derive(Drop, PartialEq, Eq)]
pub struct Typed {
    expr: Expr,
    scalar: bool,
    patterns: Items<Placed>,
    pub ghost well_typed: { (judged expr).refusals ≡ [] },
    pub ghost result_kind: { result_refusals (kind_of expr) ≡ [] },
    pub ghost scalar_is: { scalar ≡ is_scalar (kind_of expr) },
}

impl Typed {
    ghost use Rattle.promql_type.specs.TypedTrees.{pattern_at, placed_of, tree_of};
    ghost use Rattle.std.specs.Prelude.{◌≡◌, IfOk};
    ghost use Rattle.promql_type.specs.Kinds.{is_scalar};
    ghost use Rattle.promql_type.specs.Settled.{kind_of};

    /// A well typed tree with what it gives and the numbers of its patterns.
    pub(crate) fn new(expr: Expr, scalar: bool, patterns: Items<Placed>) -> Typed
        requires well_typed { (judged expr).refusals ≡ [] }
        requires result_kind { result_refusals (kind_of expr) ≡ [] }
        requires scalar_is { scalar ≡ is_scalar (kind_of expr) }
        ensures tree { tree_of result ≡ expr }
        ensures placed { placed_of result ≡ patterns }
    {
        Typed {
            expr,
            scalar,
            patterns,
        }
    }

    /// The tree. It takes no memory.
    pub fn expr(&self) -> &Expr
        ensures tree { result.now ≡ tree_of self.now }
        ensures well_typed { (judged result.now).refusals ≡ [] }
        ensures result_kind { result_refusals (kind_of result.now) ≡ [] }
    {
        &self.expr
    }

    /// Whether it gives numbers; else it gives an instant vector. It takes no memory.
    pub fn is_scalar(&self) -> bool
        ensures { result ≡ is_scalar (kind_of (tree_of self.now)) }
    {
        self.scalar
    }

    /// The number of the pattern of the `label_replace` call whose first byte is at this place, counted from 0. It takes no
    /// memory.
    pub fn pattern(&self, at: u32) -> Option<PatternId>
        ensures { result ≡ pattern_at (placed_of self.now) at }
    {
        for placed in self.patterns.as_slice() {
            if placed.at == at {
                return Some(placed.id);
            }
        }
        None
    }

    /// An equal typed tree. The only error is want of memory.
    pub fn copy(&self) -> Result<Typed, AllocError>
        ensures tree { IfOk result (λ t. tree_of t ≡ tree_of self.now) }
        ensures placed { IfOk result (λ t. placed_of t ≡ placed_of self.now) }
    {
        let expr = self.expr.copy()?;
        let patterns = self.patterns.copy()?;
        Ok(Typed {
            expr,
            scalar: self.scalar,
            patterns,
        })
    }
}
