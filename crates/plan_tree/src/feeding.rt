//! Kernels that are fed what their parts gave at the same instants.
ghost use Rattle.op_element.specs.Rules.{IsScalar, element_step};
ghost use Rattle.plan_tree.specs.Feeding.{HasRun};
ghost use Rattle.plan_tree.specs.Gathering.{CanTake, HasTaken};
ghost use Rattle.plan_tree.specs.Nodes.{IsThere, lent_by, shape_of, windows_at};
ghost use Rattle.plan_tree.specs.Shapes.{is_scalar, rule};
ghost use Rattle.plan_tree.specs.Worlds.{World};
ghost use Rattle.op_labels.specs.Rules.{Kept};
ghost use Rattle.std.specs.Prelude.{◌≡◌, ◌<◌, ℕ, ℤ, List, IsTrue, OnOk, length, slice_get};
ghost use Rattle.step_batch.specs.Lent.{stages};
ghost use Rattle.step_kernels.specs.Binaries.{binary_lent, binary_rule, binary_step, takes_scalar};
ghost use Rattle.step_kernels.specs.Unaries.{CanFeedUnary, unary_lent, unary_rule, unary_step};
ghost use Rattle.step_table.specs.Timed.{steps_over};
ghost use Rattle.step_table.specs.declared.step.Step.{Step};
ghost use Rattle.ticks.specs.declared.moment.Ms.{Ms};

use crate::laws::scalars_have_one_row;
use crate::node::Node;
use crate::outside::Outside;
use exchange::RunFault;
use match_rule::Patterns;
use op_element::ElementRows;
use std::alloc::AllocError;
use step_batch::{Batch, Windows};
use step_kernels::laws::{few_rows_are_scalars, steps_go_over};
use step_kernels::{Binary, Unary};

/// What a tree lends, its gathers by the exchange that they stand in.
pub(crate) fn lend_from<'a, O: Outside>(node: &'a Node, outside: &'a O) -> Batch<'a>
    requires { IsThere (O.places outside.now) node.now }
    ensures { result ≡ lent_by (O.places outside.now) node.now }
{
    node.lend(outside.exchange())
}

/// The same; where the tree is a scalar, each step has one row at most.
pub(crate) fn lend_scalar<'a, O: Outside>(node: &'a Node, outside: &'a O) -> Batch<'a>
    requires { IsThere (O.places outside.now) node.now }
    ensures lent { result ≡ lent_by (O.places outside.now) node.now }
    ensures scalar { (w : World) (kept : Kept) (at : List Ms) → IsTrue (is_scalar (shape_of node.now))
        → stages (lent_by (O.places outside.now) node.now) ≡ steps_over (rule w kept (shape_of node.now)) at → IsScalar result }
{
    few_rows_are_scalars();
    scalars_have_one_row();
    let batch = lend_from(node, outside);
    let _ = batch.len();
    batch
}

/// The windows that the gather at a place lends.
pub(crate) fn windows_from<'a, O: Outside>(place: usize, outside: &'a O) -> Windows<'a>
    requires { place < length (O.places outside.now) }
    ensures { result ≡ windows_at (O.places outside.now) place }
{
    outside.exchange().lend_windows(place)
}

/// Feeds a kernel of one part. The only error is want of memory.
pub(crate) fn feed_unary(
    kernel: &mut Unary,
    rows: &Batch<'_>,
    patterns: &mut Patterns<'_>,
) -> Result<(), AllocError>
    requires { CanFeedUnary patterns.old kernel.old }
    ensures rule { unary_rule kernel.new ≡ unary_rule kernel.old }
    ensures can { CanFeedUnary patterns.old kernel.new }
    ensures same { patterns.new ≡ patterns.old }
    ensures lent { OnOk result ((f : ℤ → Step) (at : List Ms) → stages rows.now ≡ steps_over f at
        → stages (unary_lent kernel.new) ≡ steps_over (λ t. unary_step patterns.old (unary_rule kernel.old) t (f t)) at) }
{
    steps_go_over();
    kernel.feed(rows, patterns)
}

/// Feeds a kernel of two parts. The only error is want of memory.
pub(crate) fn feed_binary(
    kernel: &mut Binary,
    rows: &Batch<'_>,
    beside: &Batch<'_>,
) -> Result<(), AllocError>
    requires together { (f : ℤ → Step) × (g : ℤ → Step) × (at : List Ms) × (stages rows.now ≡ steps_over f at) × (stages beside.now ≡ steps_over g at) }
    requires scalar { IsTrue (takes_scalar (binary_rule kernel.old)) → IsScalar beside.now }
    ensures rule { binary_rule kernel.new ≡ binary_rule kernel.old }
    ensures lent { OnOk result ((f g : ℤ → Step) (at : List Ms) → stages rows.now ≡ steps_over f at → stages beside.now ≡ steps_over g at
        → stages (binary_lent kernel.new) ≡ steps_over (λ t. binary_step (binary_rule kernel.old) (f t) (g t)) at) }
{
    steps_go_over();
    kernel.feed(rows, beside)
}

/// Feeds a function of rows that takes two scalars. The only error is want of memory.
pub(crate) fn feed_clamp(
    kernel: &mut ElementRows,
    rows: &Batch<'_>,
    low: &Batch<'_>,
    high: &Batch<'_>,
) -> Result<(), AllocError>
    requires together { (f : ℤ → Step) × (g : ℤ → Step) × (h : ℤ → Step) × (at : List Ms) × (stages rows.now ≡ steps_over f at)
        × (stages low.now ≡ steps_over g at) × (stages high.now ≡ steps_over h at) }
    requires low { IsScalar low.now }
    requires high { IsScalar high.now }
    ensures rule { kernel.new.rule ≡ kernel.old.rule }
    ensures lent { OnOk result ((f g h : ℤ → Step) (at : List Ms) → stages rows.now ≡ steps_over f at → stages low.now ≡ steps_over g at → stages high.now ≡ steps_over h at
        → stages kernel.new.lent ≡ steps_over (λ t. element_step kernel.old.rule (g t) (h t) (f t)) at) }
{
    kernel.feed(rows, low, high)
}

/// Takes what the gather at a place gives at its next instant, which a leaf of a tree stands for or reads.
pub(crate) fn feed_gather<O: Outside>(
    place: &mut usize,
    outside: &mut O,
    patterns: &mut Patterns<'_>,
) -> Result<(), RunFault>
    requires { (t : Ms) × CanTake patterns.old (O.engines outside.old) (O.places outside.old) place.old t }
    ensures leaf { place.new ≡ place.old }
    ensures taken { OnOk result ((t : Ms) (c : CanTake patterns.old (O.engines outside.old) (O.places outside.old) place.old t)
        → HasTaken c.place c.taken c.all c.known patterns.old (O.engines outside.new) (O.places outside.new) place.old t) }
    ensures others { (k : ℕ) → (k ≡ place.old → ⊥) → slice_get (O.places outside.new) k ≡ slice_get (O.places outside.old) k }
    ensures names { O.names outside.new ≡ O.names outside.old }
    ensures run { HasRun result (O.engines outside.old) (O.engines outside.new) }
    ensures same { patterns.new ≡ patterns.old }
{
    outside.take(*place, patterns)
}
