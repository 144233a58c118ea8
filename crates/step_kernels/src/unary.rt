//! Kernels that are fed one part of a query.
ghost use Rattle.op_element.specs.Rules.{reads_first};
ghost use Rattle.std.specs.Prelude.{◌≡◌, map, IfOk, IsTrue, OnOk};
ghost use Rattle.step_batch.specs.Lent.{stages};
ghost use Rattle.step_kernels.specs.Unaries.{CanFeedUnary, KeepsPatterns, is_unary as is_unary_rule, reads_rows as reads_rows_of, unary_at, unary_lent, unary_rule};

use func_table::{Aggregate, Element};
use label_set::{Grouping, Relabel};
use match_rule::Patterns;
use op_aggregate::{Grouped, is_grouped};
use op_element::{ElementRows, ElementRule};
use op_labels::Relabelled;
use op_small::{Small, SmallRule};
use std::alloc::{AllocError, Global};
use step_batch::Batch;

/// What is made of each step of one part. (Prometheus querying, "Functions" and "Aggregation operators".)
#[derive(Drop)]
pub enum UnaryRule {
    /// A stamp, a scalar, a vector, or what is absent; a number and the time read no rows.
    Small(SmallRule),
    /// A function of each row that takes no scalar.
    Apply(ElementRule),
    /// An aggregation that makes one value of each group.
    Group(Aggregate, Grouping),
    /// New labels, or the rows whose labels pass rules.
    Relabel(Relabel),
}

/// A kernel of one part, and the steps that it made of what it was fed last.
#[derive(Drop)]
pub enum Unary {
    Small(Small),
    Elements(ElementRows),
    Groups(Grouped),
    Labels(Relabelled),
}

/// Whether a rule reads the rows of one part and nothing beside them, as `Unary::new` asks. It takes no memory.
pub fn is_unary(rule: &UnaryRule) -> bool
    ensures { result ≡ is_unary_rule rule.now }
{
    match rule {
        UnaryRule::Small(rule) => reads_rows(rule),
        UnaryRule::Apply(rule) => !reads_scalar(*rule),
        UnaryRule::Group(f, _) => is_grouped(*f),
        UnaryRule::Relabel(_) => true,
    }
}

fn reads_rows(rule: &SmallRule) -> bool
    ensures { result ≡ reads_rows_of rule.now }
{
    match rule {
        SmallRule::Number(_) | SmallRule::Time => false,
        SmallRule::Stamp { .. } | SmallRule::Scalar | SmallRule::Vector | SmallRule::Absent(_) =>
            true,
    }
}

/// Whether a rule reads a scalar beside the rows.
pub(crate) fn reads_scalar(rule: ElementRule) -> bool
    ensures { result ≡ reads_first rule }
{
    match rule {
        ElementRule::Apply(f) => matches!(
            f,
            Element::Round | Element::Clamp | Element::ClampMin | Element::ClampMax
        ),
        ElementRule::WithScalar { .. } => true,
    }
}

impl Unary {
    /// A kernel that was fed nothing. The only error is want of memory.
    pub fn new(alloc: Global, rule: UnaryRule) -> Result<Unary, AllocError>
        requires { IsTrue (is_unary_rule rule) }
        ensures rule { IfOk result (λ k. unary_rule k ≡ rule) }
        ensures can { IfOk result (λ k. (kept : _) → KeepsPatterns kept rule → CanFeedUnary kept k) }
    {
        match rule {
            UnaryRule::Small(rule) => Ok(Unary::Small(Small::new(alloc, rule)?)),
            UnaryRule::Apply(rule) => Ok(Unary::Elements(ElementRows::new(alloc, rule)?)),
            UnaryRule::Group(f, by) => Ok(Unary::Groups(Grouped::new(alloc, f, by, false)?)),
            UnaryRule::Relabel(rule) => Ok(Unary::Labels(Relabelled::new(alloc, rule)?)),
        }
    }

    /// Takes steps in the place of what was fed before. Each feed gets the same patterns. The only error is want of memory;
    /// then a next feed may follow all the same.
    pub fn feed(&mut self, rows: &Batch<'_>, patterns: &mut Patterns<'_>) -> Result<(), AllocError>
        requires { CanFeedUnary patterns.old self.old }
        ensures rule { unary_rule self.new ≡ unary_rule self.old }
        ensures can { CanFeedUnary patterns.old self.new }
        ensures same { patterns.new ≡ patterns.old }
        ensures lent { OnOk result (stages (unary_lent self.new) ≡ map (unary_at patterns.old (unary_rule self.old)) (stages rows.now)) }
    {
        match self {
            Unary::Small(kernel) => kernel.feed(&[], rows),
            Unary::Elements(kernel) => kernel.feed(rows, &*rows, &*rows),
            Unary::Groups(kernel) => kernel.feed(rows),
            Unary::Labels(kernel) => kernel.feed(rows, patterns),
        }
    }

    /// Lends the steps that were made of what was fed last. It takes no memory.
    pub fn lend(&self) -> Batch<'_>
        ensures { result ≡ unary_lent self.now }
    {
        match self {
            Unary::Small(kernel) => kernel.lend(),
            Unary::Elements(kernel) => kernel.lend(),
            Unary::Groups(kernel) => kernel.lend(),
            Unary::Labels(kernel) => kernel.lend(),
        }
    }
}
