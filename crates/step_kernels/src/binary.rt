//! Kernels that are fed two parts of a query at the same instants.
ghost use Rattle.op_element.specs.Rules.{IsScalar};
ghost use Rattle.op_match.specs.Joins.{AreTogether};
ghost use Rattle.std.specs.Prelude.{◌≡◌, IfOk, IsTrue, OnOk};
ghost use Rattle.step_batch.specs.Lent.{stages};
ghost use Rattle.step_kernels.specs.Binaries.{binaries, binary_lent, binary_rule, is_binary as is_binary_rule, takes_scalar as takes_scalar_by};

use crate::unary::reads_scalar;
use func_table::{Aggregate, SetOp};
use label_set::{Grouping, Pairing, Text};
use op_buckets::Buckets;
use op_element::{ElementRows, ElementRule};
use op_match::Joined;
use op_rank::{Ranked, is_ranking};
use op_ratio::Ratios;
use op_set::Combined;
use std::alloc::{AllocError, Global};
use step_batch::Batch;
use xfrac::PairOp;

/// What is made of each step of a part and the step of another one beside it. (Prometheus querying, "Functions" and
/// "Operators".)
#[derive(Drop)]
pub enum BinaryRule {
    /// A function of each row and a scalar, or an operator between a vector and a scalar. The scalar stands beside the rows.
    Apply(ElementRule),
    /// An operator between two vectors; the right one stands beside the left one.
    Join(PairOp, Pairing),
    /// A set operator between two vectors; the right one stands beside the left one.
    Combine(SetOp, Pairing),
    /// `histogram_quantile`; the quantile stands beside the buckets.
    Buckets,
    /// `topk`, `bottomk`, `quantile` or `count_values`, whose label the text is. The parameter stands beside the rows; for
    /// `count_values` it isn't read.
    Rank(Aggregate, Grouping, Text),
    /// Each row of a sum, divided by the row of a count that has its labels; the count stands beside the sum.
    Ratio,
}

/// A kernel of two parts, and the steps that it made of what it was fed last.
#[derive(Drop)]
pub enum Binary {
    Elements(ElementRows),
    Joins(Joined),
    Sets(Combined),
    Quantiles(Buckets),
    Ranks(Ranked),
    Ratios(Ratios),
}

/// Whether there is a kernel of a rule, as `Binary::new` asks: of all but an aggregation that takes no parameter. It takes no
/// memory.
pub fn is_binary(rule: &BinaryRule) -> bool
    ensures { result ≡ is_binary_rule rule.now }
{
    match rule {
        BinaryRule::Rank(f, _, _) => is_ranking(*f),
        _ => true,
    }
}

/// Whether what stands beside the rows has to be a scalar. It takes no memory.
pub fn takes_scalar(rule: &BinaryRule) -> bool
    ensures { result ≡ takes_scalar_by rule.now }
{
    match rule {
        BinaryRule::Apply(rule) => reads_scalar(*rule),
        BinaryRule::Join(_, _) | BinaryRule::Combine(_, _) | BinaryRule::Ratio => false,
        BinaryRule::Buckets | BinaryRule::Rank(_, _, _) => true,
    }
}

impl Binary {
    /// A kernel that was fed nothing. The only error is want of memory.
    pub fn new(alloc: Global, rule: BinaryRule) -> Result<Binary, AllocError>
        requires { IsTrue (is_binary_rule rule) }
        ensures { IfOk result (λ k. binary_rule k ≡ rule) }
    {
        match rule {
            BinaryRule::Apply(rule) => Ok(Binary::Elements(ElementRows::new(alloc, rule)?)),
            BinaryRule::Join(op, pairing) => Ok(Binary::Joins(Joined::new(alloc, op, pairing)?)),
            BinaryRule::Combine(op, pairing) => Ok(Binary::Sets(Combined::new(
                alloc, op, pairing,
            )?)),
            BinaryRule::Buckets => Ok(Binary::Quantiles(Buckets::new(alloc)?)),
            BinaryRule::Rank(f, by, label) => Ok(Binary::Ranks(Ranked::new(alloc, f, by, label)?)),
            BinaryRule::Ratio => Ok(Binary::Ratios(Ratios::new(alloc)?)),
        }
    }

    /// Takes steps of both parts in the place of what was fed before. The only error is want of memory; then a next feed may
    /// follow all the same.
    pub fn feed(&mut self, rows: &Batch<'_>, beside: &Batch<'_>) -> Result<(), AllocError>
        requires together { AreTogether rows.now beside.now }
        requires scalar { IsTrue (takes_scalar_by (binary_rule self.old)) → IsScalar beside.now }
        ensures rule { binary_rule self.new ≡ binary_rule self.old }
        ensures lent { OnOk result (stages (binary_lent self.new) ≡ binaries (binary_rule self.old) (stages rows.now) (stages beside.now)) }
    {
        match self {
            Binary::Elements(kernel) => kernel.feed(rows, beside, &*beside),
            Binary::Joins(kernel) => kernel.feed(rows, beside),
            Binary::Sets(kernel) => kernel.feed(rows, beside),
            Binary::Quantiles(kernel) => kernel.feed(rows, beside),
            Binary::Ranks(kernel) => kernel.feed(rows, beside),
            Binary::Ratios(kernel) => kernel.feed(rows, beside),
        }
    }

    /// Lends the steps that were made of what was fed last. It takes no memory.
    pub fn lend(&self) -> Batch<'_>
        ensures { result ≡ binary_lent self.now }
    {
        match self {
            Binary::Elements(kernel) => kernel.lend(),
            Binary::Joins(kernel) => kernel.lend(),
            Binary::Sets(kernel) => kernel.lend(),
            Binary::Quantiles(kernel) => kernel.lend(),
            Binary::Ranks(kernel) => kernel.lend(),
            Binary::Ratios(kernel) => kernel.lend(),
        }
    }
}
