//! Subqueries with too many points.
ghost use Rattle.promql_ast.specs.declared.refusal.QueryRefusal.TheVariants.{TooManyPoints};
ghost use Rattle.promql_type.specs.Points.{all_crowded, crowded, most_points, points};
ghost use Rattle.promql_type.specs.Rules.{where_true};
ghost use Rattle.promql_type.specs.Refusals.{least};
ghost use Rattle.std.specs.Prelude.{◌≡◌, ◌*◌, map, min, nat_lt};

use crate::least::lesser;
use promql_ast::{Expr, Node, QueryRefusal};
use ticks::Ms;

/// The most points that a subquery may have.
const MOST_POINTS: u64 = 200_000;

/// The points of a subquery alone.
fn points(range: Ms, step: Ms) -> u64
    ensures { result ≡ points range step }
{
    range
        .0
        .unsigned_abs()
        .div_ceil(step.0.unsigned_abs().max(1))
}

/// The points of a subquery inside of others that have so many points together. A number above the most stands still.
fn nested(around: u64, own: u64) -> u64
    ensures { result ≡ min (around * own) 200001 }
{
    around.saturating_mul(own).min(MOST_POINTS + 1)
}

/// The least refusal of a subquery with too many points, in a tree inside of subqueries that have so many points together.
/// It takes no memory.
#[tactic(auto, using(crate::proofs::Leasts::least_append))]
#[cycle(counting)]
pub fn crowd_refusal(e: &Expr, around: u64) -> Option<QueryRefusal>
    ensures { result ≡ least (crowded e.now around) }
{
    match &e.node {
        Node::Number(_) | Node::Words(_) | Node::Select(_) | Node::Range(_, _) => None,
        Node::Paren(inner) => crowd_refusal(inner.get(), around),
        Node::Negate(inner) => crowd_refusal(inner.get(), around),
        Node::Subquery {
            inner,
            range,
            step,
            ..
        } => {
            let inside = nested(around, points(*range, *step));
            lesser(
                own_refusal(inside, e.at),
                crowd_refusal(inner.get(), inside),
            )
        }
        Node::Call(_, arguments) => all_refusal(arguments.as_slice(), around),
        Node::Aggregate(_, _, arguments) => all_refusal(arguments.as_slice(), around),
        Node::Pair(_, left, right, _) => {
            let left = crowd_refusal(left.get(), around);
            lesser(left, crowd_refusal(right.get(), around))
        }
        Node::Set(_, left, right, _) => {
            let left = crowd_refusal(left.get(), around);
            lesser(left, crowd_refusal(right.get(), around))
        }
    }
}

/// The refusal of a subquery at a place that has so many points.
fn own_refusal(count: u64, at: u32) -> Option<QueryRefusal>
    ensures { result ≡ least (where_true (nat_lt most_points count) (TooManyPoints at)) }
{
    if MOST_POINTS < count {
        Some(QueryRefusal::TooManyPoints(at))
    } else {
        None
    }
}

#[tactic(auto, using(crate::proofs::Leasts::least_append))]
#[cycle(counting)]
fn all_refusal(arguments: &[Expr], around: u64) -> Option<QueryRefusal>
    ensures { result ≡ least (all_crowded (map crowded arguments.now) around) }
{
    let mut least = None;
    for e in arguments {
        least = lesser(least, crowd_refusal(e, around));
    }
    least
}
