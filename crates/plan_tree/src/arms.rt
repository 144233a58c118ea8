//! What the kernel of a node is fed of the trees that it reads. Each lends within a function of its own, since a batch may be lent by a
//! tree or by the exchange. The only error is want of memory.
ghost use Rattle.exchange.specs.declared.fault.RunFault.TheVariants as run;
ghost use Rattle.op_element.specs.Rules.{element_step};
ghost use Rattle.op_subquery.specs.Rings.{IsReady};
ghost use Rattle.op_window.specs.Feeds.{CanFeedStore, HasReached};
ghost use Rattle.op_labels.specs.Rules.{filtered_windows};
ghost use Rattle.op_window.specs.Rules.{HasScalars, takes_scalar as reads_scalar, windows_of_lent, windows_of_series};
ghost use Rattle.plan_tree.specs.Feeding.{IsLending};
ghost use Rattle.plan_tree.specs.Nodes.{AreGiven, CanFilter, CanPass, IsThere, lent_by, rules_in, rules_of, shape_of, windows_at};
ghost use Rattle.plan_tree.specs.Shapes.{is_scalar, passing};
ghost use Rattle.promql_meaning.specs.Meaning.{windowed_by};
ghost use Rattle.series_marks.specs.Reaches.{reach_all, reads_of, searches_of};
ghost use Rattle.std.specs.Prelude.{◌≡◌, ◌+◌, ◌<◌, ◌≤◌, ◌≤ℤ◌, ◌∷◌, [], ℤ, List, Option, Some, IfErr, IsTrue, OnOk, length};
ghost use Rattle.step_batch.specs.Lent.{Lent, stages};
ghost use Rattle.step_batch.specs.LentWindows.{TimesRise};
ghost use Rattle.step_kernels.specs.Binaries.{binary_lent, binary_rule, binary_step, takes_scalar};
ghost use Rattle.step_kernels.specs.Unaries.{CanFeedUnary, unary_lent, unary_rule, unary_step};
ghost use Rattle.step_table.specs.Timed.{StepAt, steps_over};
ghost use Rattle.step_table.specs.declared.step.Step.{Step};
ghost use Rattle.subquery_rows.specs.Rings.{IsAsked, IsNextStep, Stands, time_left, windows_of_points};
ghost use Rattle.ticks.specs.Walks.{IsTime};
ghost use Rattle.ticks.specs.declared.moment.Ms.{Ms};
ghost use Rattle.ticks.specs.declared.walk.Walk.{Walk};

use crate::copying::{name_all, repeat_all};
use crate::feeding::{feed_binary, feed_clamp, feed_unary, lend_from, lend_scalar, windows_from};
use crate::gathering::or_memory;
use crate::node::Node;
use crate::outside::Outside;
use exchange::RunFault;
use match_rule::Patterns;
use op_element::ElementRows;
use op_labels::Relabelled;
use op_window::WindowRows;
use sample_store::Store;
use std::sync::ledger::Ledger;
use step_batch::{StepBuffer, Windows};
use step_kernels::{Binary, Unary};
use subquery_rows::SubqueryRows;
use ticks::{Ms, Work};

/// Feeds a function of the windows of series, and its scalar.
pub(crate) fn series_fed<O: Outside, W: Ledger>(
    kernel: &mut WindowRows,
    scalar: &Node,
    store: &Store,
    at: &[Ms],
    outside: &O,
    work: &mut Work<W>,
) -> Result<(), RunFault>
    requires there { IsThere (O.places outside.now) scalar.now }
    requires lends { IsLending (O.places outside.now) at.now scalar.now }
    requires scalar { IsTrue (reads_scalar kernel.old.f) → IsTrue (is_scalar (shape_of scalar.now)) }
    requires fed { (arg : Lent) → HasScalars kernel.old.f at.now arg → CanFeedStore kernel.old store.now at.now arg }
    ensures series { kernel.new.series ≡ kernel.old.series }
    ensures f { kernel.new.f ≡ kernel.old.f }
    ensures moment { kernel.new.moment ≡ kernel.old.moment }
    ensures range { kernel.new.range ≡ kernel.old.range }
    ensures reached { OnOk result (HasReached kernel.old kernel.new store.now at.now) }
    ensures lent { OnOk result ((g : ℤ → Step) → stages (lent_by (O.places outside.now) scalar.now) ≡ steps_over g at.now
        → stages kernel.new.buffer ≡ steps_over (λ t. windowed_by kernel.old.f t (g t) (windows_of_series store.now kernel.old.series kernel.old.moment kernel.old.range (record { 0 = t }))) at.now) }
    ensures fetched { work.new.fetched + reads_of kernel.old.reached store.now kernel.old.series ≤ work.old.fetched + reads_of (reach_all kernel.old.range.0 kernel.old.reached kernel.old.moment at.now) store.now kernel.old.series }
    ensures counted { OnOk result (work.new.fetched + reads_of kernel.old.reached store.now kernel.old.series ≡ work.old.fetched + reads_of (reach_all kernel.old.range.0 kernel.old.reached kernel.old.moment at.now) store.now kernel.old.series) }
    ensures probed { work.new.probed + searches_of kernel.old.reached kernel.old.series ≤ work.old.probed + searches_of (reach_all kernel.old.range.0 kernel.old.reached kernel.old.moment at.now) kernel.old.series }
    ensures tested { work.new.tested ≡ work.old.tested }
    ensures memory { IfErr result (λ fault. fault ≡ run.Memory) }
{
    or_memory(kernel.feed_store(store, at, &lend_scalar(scalar, outside), work))
}

/// Feeds a function of windows those that the gather at a place lends, of which those pass that a filter lets pass, if there is one,
/// and its scalar.
pub(crate) fn windows_fed<O: Outside>(
    kernel: &mut WindowRows,
    place: usize,
    passed: &mut Option<Relabelled>,
    scalar: &Node,
    outside: &O,
    patterns: &mut Patterns<'_>,
) -> Result<(), RunFault>
    requires there { IsThere (O.places outside.now) scalar.now }
    requires place { place < length (O.places outside.now) }
    requires pass { CanPass patterns.old passed.old }
    requires given { AreGiven kernel.old (windows_at (O.places outside.now) place) }
    requires lends { IsLending (O.places outside.now) ((windows_at (O.places outside.now) place).at ∷ []) scalar.now }
    requires scalar { IsTrue (reads_scalar kernel.old.f) → IsTrue (is_scalar (shape_of scalar.now)) }
    ensures f { kernel.new.f ≡ kernel.old.f }
    ensures moment { kernel.new.moment ≡ kernel.old.moment }
    ensures range { kernel.new.range ≡ kernel.old.range }
    ensures rules { rules_of passed.new ≡ rules_of passed.old }
    ensures pass { CanPass patterns.old passed.new }
    ensures same { patterns.new ≡ patterns.old }
    ensures lent { OnOk result ((g : ℤ → Step) → stages (lent_by (O.places outside.now) scalar.now) ≡ steps_over g ((windows_at (O.places outside.now) place).at ∷ [])
        → stages kernel.new.buffer ≡ steps_over (λ t. windowed_by kernel.old.f t (g t) (windows_of_lent (passing patterns.old (rules_of passed.old) (windows_at (O.places outside.now) place)) kernel.old.moment kernel.old.range (record { 0 = t }))) ((windows_at (O.places outside.now) place).at ∷ [])) }
    ensures memory { IfErr result (λ fault. fault ≡ run.Memory) }
{
    match passed {
        None => given_fed(kernel, &windows_from(place, outside), scalar, outside),
        Some(filter) => {
            windows_passed(filter, place, outside, patterns)?;
            given_fed(kernel, &filter.lend_windows(), scalar, outside)
        }
    }
}

/// Feeds a function of windows those that are lent at one instant, and its scalar.
fn given_fed<O: Outside>(
    kernel: &mut WindowRows,
    windows: &Windows<'_>,
    scalar: &Node,
    outside: &O,
) -> Result<(), RunFault>
    requires there { IsThere (O.places outside.now) scalar.now }
    requires given { AreGiven kernel.old windows.now }
    requires lends { IsLending (O.places outside.now) (windows.now.at ∷ []) scalar.now }
    requires scalar { IsTrue (reads_scalar kernel.old.f) → IsTrue (is_scalar (shape_of scalar.now)) }
    ensures f { kernel.new.f ≡ kernel.old.f }
    ensures moment { kernel.new.moment ≡ kernel.old.moment }
    ensures range { kernel.new.range ≡ kernel.old.range }
    ensures lent { OnOk result ((g : ℤ → Step) → stages (lent_by (O.places outside.now) scalar.now) ≡ steps_over g (windows.now.at ∷ [])
        → stages kernel.new.buffer ≡ steps_over (λ t. windowed_by kernel.old.f t (g t) (windows_of_lent windows.now kernel.old.moment kernel.old.range (record { 0 = t }))) (windows.now.at ∷ [])) }
    ensures memory { IfErr result (λ fault. fault ≡ run.Memory) }
{
    or_memory(kernel.feed_windows(windows, &lend_scalar(scalar, outside)))
}

/// Feeds a filter the windows that the gather at a place lends.
fn windows_passed<O: Outside>(
    filter: &mut Relabelled,
    place: usize,
    outside: &O,
    patterns: &mut Patterns<'_>,
) -> Result<(), RunFault>
    requires place { place < length (O.places outside.now) }
    requires can { CanFilter patterns.old filter.old }
    ensures rule { filter.new.rule ≡ filter.old.rule }
    ensures can { CanFilter patterns.old filter.new }
    ensures same { patterns.new ≡ patterns.old }
    ensures windows { OnOk result (filter.new.windows ≡ filtered_windows patterns.old (rules_in filter.old.rule) (windows_at (O.places outside.now) place)) }
    ensures memory { IfErr result (λ fault. fault ≡ run.Memory) }
{
    or_memory(filter.feed_windows(&windows_from(place, outside), patterns))
}

/// Feeds a kernel of one part.
pub(crate) fn unary_fed<O: Outside>(
    kernel: &mut Unary,
    rows: &Node,
    outside: &O,
    patterns: &mut Patterns<'_>,
) -> Result<(), RunFault>
    requires there { IsThere (O.places outside.now) rows.now }
    requires can { CanFeedUnary patterns.old kernel.old }
    ensures rule { unary_rule kernel.new ≡ unary_rule kernel.old }
    ensures can { CanFeedUnary patterns.old kernel.new }
    ensures same { patterns.new ≡ patterns.old }
    ensures lent { OnOk result ((f : ℤ → Step) (at : List Ms) → stages (lent_by (O.places outside.now) rows.now) ≡ steps_over f at
        → stages (unary_lent kernel.new) ≡ steps_over (λ t. unary_step patterns.old (unary_rule kernel.old) t (f t)) at) }
    ensures memory { IfErr result (λ fault. fault ≡ run.Memory) }
{
    or_memory(feed_unary(kernel, &lend_from(rows, outside), patterns))
}

/// Feeds a kernel of two parts.
pub(crate) fn binary_fed<O: Outside>(
    kernel: &mut Binary,
    rows: &Node,
    beside: &Node,
    outside: &O,
) -> Result<(), RunFault>
    requires rows { IsThere (O.places outside.now) rows.now }
    requires beside { IsThere (O.places outside.now) beside.now }
    requires together { (at : List Ms) × IsLending (O.places outside.now) at rows.now × IsLending (O.places outside.now) at beside.now }
    requires scalar { IsTrue (takes_scalar (binary_rule kernel.old)) → IsTrue (is_scalar (shape_of beside.now)) }
    ensures rule { binary_rule kernel.new ≡ binary_rule kernel.old }
    ensures lent { OnOk result ((f g : ℤ → Step) (at : List Ms) → stages (lent_by (O.places outside.now) rows.now) ≡ steps_over f at → stages (lent_by (O.places outside.now) beside.now) ≡ steps_over g at
        → stages (binary_lent kernel.new) ≡ steps_over (λ t. binary_step (binary_rule kernel.old) (f t) (g t)) at) }
    ensures memory { IfErr result (λ fault. fault ≡ run.Memory) }
{
    or_memory(feed_binary(
        kernel,
        &lend_from(rows, outside),
        &lend_scalar(beside, outside),
    ))
}

/// Feeds a function of rows that takes two scalars.
pub(crate) fn clamp_fed<O: Outside>(
    kernel: &mut ElementRows,
    rows: &Node,
    low: &Node,
    high: &Node,
    outside: &O,
) -> Result<(), RunFault>
    requires rows { IsThere (O.places outside.now) rows.now }
    requires low { IsThere (O.places outside.now) low.now }
    requires high { IsThere (O.places outside.now) high.now }
    requires together { (at : List Ms) × IsLending (O.places outside.now) at rows.now × IsLending (O.places outside.now) at low.now × IsLending (O.places outside.now) at high.now }
    requires scalars { IsTrue (is_scalar (shape_of low.now)) × IsTrue (is_scalar (shape_of high.now)) }
    ensures rule { kernel.new.rule ≡ kernel.old.rule }
    ensures lent { OnOk result ((f g h : ℤ → Step) (at : List Ms) → stages (lent_by (O.places outside.now) rows.now) ≡ steps_over f at → stages (lent_by (O.places outside.now) low.now) ≡ steps_over g at
        → stages (lent_by (O.places outside.now) high.now) ≡ steps_over h at → stages kernel.new.lent ≡ steps_over (λ t. element_step kernel.old.rule (g t) (h t) (f t)) at) }
    ensures memory { IfErr result (λ fault. fault ≡ run.Memory) }
{
    or_memory(feed_clamp(
        kernel,
        &lend_from(rows, outside),
        &lend_scalar(low, outside),
        &lend_scalar(high, outside),
    ))
}

/// Gives the step of an outer instant of a subquery.
pub(crate) fn points_fed<O: Outside>(
    kernel: &mut SubqueryRows,
    t: Ms,
    scalar: &Node,
    outside: &O,
) -> Result<(), RunFault>
    requires there { IsThere (O.places outside.now) scalar.now }
    requires asked { (outer : Walk) × (inner : ℤ → Step) × (last : Option Ms) × IsAsked kernel.old outer inner last t }
    requires ready { IsReady kernel.old.points t }
    requires time { IsTime t.0 }
    requires lends { IsLending (O.places outside.now) (t ∷ []) scalar.now }
    requires scalar { IsTrue (reads_scalar kernel.old.f) → IsTrue (is_scalar (shape_of scalar.now)) }
    ensures f { kernel.new.f ≡ kernel.old.f }
    ensures walk { kernel.new.walk ≡ kernel.old.walk }
    ensures next { kernel.new.next ≡ kernel.old.next }
    ensures moment { kernel.new.points.moment ≡ kernel.old.points.moment }
    ensures range { kernel.new.points.range ≡ kernel.old.points.range }
    ensures step { kernel.new.points.step ≡ kernel.old.points.step }
    ensures stands { OnOk result ((outer : Walk) (inner : ℤ → Step) (last : Option Ms) → IsAsked kernel.old outer inner last t → Stands kernel.new outer inner (Some t)) }
    ensures lent { OnOk result ((outer : Walk) (inner : ℤ → Step) (last : Option Ms) (g : ℤ → Step) → IsAsked kernel.old outer inner last t → stages (lent_by (O.places outside.now) scalar.now) ≡ steps_over g (t ∷ [])
        → stages kernel.new.buffer ≡ steps_over (λ u. windowed_by kernel.old.f u (g u) (windows_of_points kernel.old inner (record { 0 = u }))) (t ∷ [])) }
    ensures memory { IfErr result (λ fault. fault ≡ run.Memory) }
{
    or_memory(kernel.give(t, &lend_scalar(scalar, outside)))
}

/// Puts the one step that a tree lends at each of some instants.
pub(crate) fn once_fed<O: Outside>(
    steps: &mut StepBuffer,
    child: &Node,
    at: &[Ms],
    outside: &O,
) -> Result<(), RunFault>
    requires there { IsThere (O.places outside.now) child.now }
    requires named { steps.old.labels ≡ (lent_by (O.places outside.now) child.now).labels }
    requires one { (one : StepAt) × (stages (lent_by (O.places outside.now) child.now) ≡ one ∷ []) }
    requires rising { TimesRise at.now }
    ensures named { OnOk result (steps.new.labels ≡ (lent_by (O.places outside.now) child.now).labels) }
    ensures lent { OnOk result ((one : StepAt) → stages (lent_by (O.places outside.now) child.now) ≡ one ∷ [] → stages steps.new ≡ steps_over (λ t. one.step) at.now) }
    ensures memory { IfErr result (λ fault. fault ≡ run.Memory) }
{
    or_memory(repeat_all(steps, &lend_from(child, outside), at))
}

/// Hands a subquery the step of its next inner instant.
pub(crate) fn inner_taken<O: Outside>(
    kernel: &mut SubqueryRows,
    inner: &Node,
    outside: &O,
) -> Result<(), RunFault>
    requires there { IsThere (O.places outside.now) inner.now }
    requires next { (outer : Walk) × (f : ℤ → Step) × (last : Option Ms) × (at : Ms) × IsNextStep kernel.old outer f last at (lent_by (O.places outside.now) inner.now) }
    ensures f { kernel.new.f ≡ kernel.old.f }
    ensures walk { kernel.new.walk ≡ kernel.old.walk }
    ensures moment { kernel.new.points.moment ≡ kernel.old.points.moment }
    ensures range { kernel.new.points.range ≡ kernel.old.points.range }
    ensures step { kernel.new.points.step ≡ kernel.old.points.step }
    ensures last { OnOk result (kernel.new.points.last ≡ kernel.old.next) }
    ensures stands { OnOk result ((outer : Walk) (f : ℤ → Step) (last : Option Ms) (at : Ms) → IsNextStep kernel.old outer f last at (lent_by (O.places outside.now) inner.now) → Stands kernel.new outer f last) }
    ensures fewer { OnOk result ((m : ℤ) (at : Ms) → kernel.old.next ≡ Some at → at.0 ≤ℤ m → time_left kernel.new.next m < time_left kernel.old.next m) }
    ensures memory { IfErr result (λ fault. fault ≡ run.Memory) }
{
    or_memory(kernel.take(&lend_from(inner, outside)))
}

/// Gives the labels of what a tree lends their places in a buffer.
pub(crate) fn child_named<O: Outside>(
    steps: &mut StepBuffer,
    child: &Node,
    outside: &O,
) -> Result<(), RunFault>
    requires there { IsThere (O.places outside.now) child.now }
    ensures named { OnOk result (steps.new.labels ≡ (lent_by (O.places outside.now) child.now).labels) }
    ensures memory { IfErr result (λ fault. fault ≡ run.Memory) }
{
    or_memory(name_all(steps, lend_from(child, outside).labels()))
}
