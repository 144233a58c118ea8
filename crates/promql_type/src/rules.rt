//! Why one node is refused.
ghost use Rattle.promql_type.specs.Refusals.{least};
ghost use Rattle.promql_type.specs.Rules.{argument_refusals, comparison_refusals, count_refusals, label_refusals, matching_refusals, operand_refusals, pair_refusals, result_refusals, set_refusals, template_refusals, where_true};
ghost use Rattle.promql_type.specs.Kinds.{is_kind, is_scalar};
ghost use Rattle.promql_type.specs.Signatures.{signature};
ghost use Rattle.std.specs.Prelude.{◌≡◌};

use crate::kind::{Kind, Operand, is_number};
use crate::least::lesser;
use crate::literal::Literal;
use crate::signature::{Callee, is_count};
use crate::template::is_named;
use label_set::Pairing;
use promql_ast::QueryRefusal;
use xfrac::PairOp;

/// Whether it is a number.
pub const fn is_scalar(kind: Kind) -> bool
    ensures { result ≡ is_scalar kind }
{
    match kind {
        Kind::Scalar => true,
        Kind::Vector | Kind::Windows | Kind::Words => false,
    }
}

const fn is_kind(wanted: Kind, given: Kind) -> bool
    ensures { result ≡ is_kind wanted given }
{
    match (wanted, given) {
        (Kind::Scalar, Kind::Scalar) => true,
        (Kind::Vector, Kind::Vector) => true,
        (Kind::Windows, Kind::Windows) => true,
        (Kind::Words, Kind::Words) => true,
        _ => false,
    }
}

fn where_true(fact: bool, refusal: QueryRefusal) -> Option<QueryRefusal>
    ensures { result ≡ least (where_true fact refusal) }
{
    if fact { Some(refusal) } else { None }
}

/// The refusal of an operand that is no number and no instant vector.
pub fn operand_refusal(o: Operand) -> Option<QueryRefusal>
    ensures { result ≡ least (operand_refusals o) }
{
    where_true(!is_number(o.gives), QueryRefusal::WrongType(o.at))
}

/// The refusal of an argument that isn't of the wanted kind.
pub fn argument_refusal(wanted: Option<Kind>, o: Operand) -> Option<QueryRefusal>
    ensures { result ≡ least (argument_refusals wanted o) }
{
    match wanted {
        None => None,
        Some(wanted) => where_true(!is_kind(wanted, o.gives), QueryRefusal::WrongType(o.at)),
    }
}

/// The refusal of labels to match by beside a number.
fn matching_refusal(pairing: &Pairing, left: Operand, right: Operand) -> Option<QueryRefusal>
    ensures { result ≡ least (matching_refusals pairing.now left right) }
{
    if pairing.names.as_slice().is_empty() {
        None
    } else if is_scalar(left.gives) {
        Some(QueryRefusal::WrongType(left.at))
    } else {
        where_true(is_scalar(right.gives), QueryRefusal::WrongType(right.at))
    }
}

/// The refusal of a comparison of two numbers.
fn comparison_refusal(op: PairOp, left: Operand, right: Operand, at: u32) -> Option<QueryRefusal>
    ensures { result ≡ least (comparison_refusals op left right at) }
{
    match op {
        PairOp::Filter(_) => where_true(
            is_scalar(left.gives) && is_scalar(right.gives),
            QueryRefusal::NeedsBool(at),
        ),
        PairOp::Arith(_) | PairOp::Flag(_) => None,
    }
}

#[tactic(auto, using(crate::proofs::Leasts::least_append))]
/// The refusal of an arithmetic operation or a comparison.
pub fn pair_refusal(
    op: PairOp,
    pairing: &Pairing,
    left: Operand,
    right: Operand,
    at: u32,
) -> Option<QueryRefusal>
    ensures { result ≡ least (pair_refusals op pairing.now left right at) }
{
    let operands = lesser(operand_refusal(left), operand_refusal(right));
    let matching = matching_refusal(pairing, left, right);
    let comparison = comparison_refusal(op, left, right, at);
    lesser(operands, lesser(matching, comparison))
}

#[tactic(auto, using(crate::proofs::Leasts::least_append))]
/// The refusal of a set operation.
pub fn set_refusal(
    pairing: &Pairing,
    left: Operand,
    right: Operand,
    at: u32,
) -> Option<QueryRefusal>
    ensures { result ≡ least (set_refusals pairing.now left right at) }
{
    let operands = lesser(operand_refusal(left), operand_refusal(right));
    let matching = matching_refusal(pairing, left, right);
    let scalar = where_true(
        is_scalar(left.gives) || is_scalar(right.gives),
        QueryRefusal::SetOnScalar(at),
    );
    lesser(operands, lesser(matching, scalar))
}

/// The refusal of a wrong number of arguments.
pub fn count_refusal(callee: Callee, count: usize, at: u32) -> Option<QueryRefusal>
    ensures { result ≡ least (count_refusals (signature callee) count at) }
{
    where_true(!is_count(callee, count), QueryRefusal::WrongArity(at))
}

/// The refusal of a string that has to be a label's name.
pub fn label_refusal(literal: Option<Literal<'_>>) -> Option<QueryRefusal>
    ensures { result ≡ least (label_refusals literal.entry) }
{
    match literal {
        Some(Literal { at, text }) if text.is_empty() => Some(QueryRefusal::BadLabelName(at)),
        _ => None,
    }
}

/// The refusal of a replacement.
pub fn template_refusal(literal: Option<Literal<'_>>) -> Option<QueryRefusal>
    ensures { result ≡ least (template_refusals literal.entry) }
{
    match literal {
        Some(Literal { at, text }) => where_true(is_named(text), QueryRefusal::BadTemplate(at)),
        None => None,
    }
}

/// The refusal of what a query gives.
pub fn result_refusal(gives: Kind) -> Option<QueryRefusal>
    ensures { result ≡ least (result_refusals gives) }
{
    match gives {
        Kind::Scalar | Kind::Vector => None,
        Kind::Windows => Some(QueryRefusal::RangeResult(0)),
        Kind::Words => Some(QueryRefusal::StringResult(0)),
    }
}
