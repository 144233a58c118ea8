//! Operators and the sign minus.
ghost use Rattle.promql_meaning.specs.Givens.{step_of};
ghost use Rattle.promql_meaning.specs.Meaning.{negation, operation};
ghost use Rattle.std.specs.Prelude.{◌≡◌, IfOk};
ghost use Rattle.step_table.specs.Sets.{combined};

use func_table::SetOp;
use label_set::Pairing;
use promql_meaning::Given;
use std::alloc::{AllocError, Global};
use step_rules::{negated, with_operand};
use step_table::{Step, combine, pair};
use xfrac::PairOp;

/// The minus of a scalar or a vector. The only error is want of memory.
pub fn negation(alloc: Global, given: Given) -> Result<Given, AllocError>
    ensures { IfOk result (λ g. g ≡ negation given) }
{
    match given {
        Given::Scalar(step) => Ok(Given::Scalar(negated(alloc, &step)?)),
        other => Ok(Given::Vector(negated(alloc, &other.into_step(alloc)?)?)),
    }
}

/// An arithmetic operation or a comparison. The only error is want of memory.
pub fn operation(
    alloc: Global,
    op: PairOp,
    pairing: &Pairing,
    left: Given,
    right: Given,
) -> Result<Given, AllocError>
    ensures { IfOk result (λ g. g ≡ operation op pairing.now left right) }
{
    match left {
        Given::Scalar(l) => match right {
            Given::Scalar(r) => Ok(Given::Scalar(with_operand(alloc, op, false, &r, l)?)),
            other => {
                let r = other.into_step(alloc)?;
                Ok(Given::Vector(with_operand(alloc, op, true, &l, r)?))
            }
        },
        left => beside_vector(alloc, op, pairing, left.into_step(alloc)?, right),
    }
}

/// The same with a vector on the left.
fn beside_vector(
    alloc: Global,
    op: PairOp,
    pairing: &Pairing,
    left: Step,
    right: Given,
) -> Result<Given, AllocError>
    ensures { IfOk result (λ g. g ≡ operation op pairing.now (Given.Vector left) right) }
{
    match right {
        Given::Scalar(r) => Ok(Given::Vector(with_operand(alloc, op, false, &r, left)?)),
        other => {
            let right = other.into_step(alloc)?;
            Ok(Given::Vector(pair(alloc, &left, &right, op, pairing)?))
        }
    }
}

/// A set operation. The only error is want of memory.
pub fn set_operation(
    alloc: Global,
    op: SetOp,
    pairing: &Pairing,
    left: Given,
    right: Given,
) -> Result<Step, AllocError>
    ensures { IfOk result (λ s. s ≡ combined (step_of left) (step_of right) op pairing.now) }
{
    let left = left.into_step(alloc)?;
    let right = right.into_step(alloc)?;
    combine(alloc, &left, &right, op, pairing)
}
