//! topk, bottomk, quantile and count_values over steps that are lent.
ghost use Rattle.op_rank.specs.Rules.{IsScalar, all_ranked, is_ranking as ranks};
ghost use Rattle.std.specs.Prelude.{◌≡◌, [], length, IfOk, IsTrue, OnOk};
ghost use Rattle.step_batch.specs.Lent.{stages};

use crate::first_rows::FirstRows;
use crate::quantiles::Quantiles;
use crate::value_counts::ValueCounts;
use func_table::Aggregate;
use label_set::{Grouping, Text};
use std::alloc::{AllocError, Global};
use std::marker::Model;
use step_batch::Batch;

/// A kernel of `topk`, `bottomk`, `quantile` or `count_values`. `first`, `quantiles` or `counts` is fed, as `f` asks.
#[derive(Drop)]
pub struct Ranked {
    f: Aggregate,
    by: Grouping,
    label: Text,
    first: FirstRows,
    quantiles: Quantiles,
    counts: ValueCounts,
}

impl Model for Ranked {
    ghost use Rattle.op_rank.specs.Groups.{left_by};
    ghost use Rattle.op_rank.specs.Rules.{Ranks, is_ranking, lent_of};
    ghost use Rattle.std.specs.Prelude.{◌≡◌, IsTrue};

    ghost Value = { Ranks };

    ghost view = { λ k. record { rule = record { f = k.f; by = k.by; label = k.label }; lent = lent_of k.f k.first.lent k.quantiles.lent k.counts.lent } };

    ghost invariant = { λ k. IsTrue (is_ranking k.f) × ((k.first.left ≡ left_by k.by) × (k.quantiles.left ≡ left_by k.by) × (k.counts.left ≡ left_by k.by)) };
}

impl Ranked {
    /// A kernel that was fed nothing, of an aggregation by a grouping. `label` is the one that `count_values` sets, and isn't
    /// read for another aggregation. The only error is want of memory.
    pub fn new(alloc: Global, f: Aggregate, by: Grouping, label: Text) -> Result<Ranked, AllocError>
        requires { IsTrue (ranks f) }
        ensures rule { IfOk result (λ k. k.rule ≡ record { f = f; by = by; label = label }) }
        ensures lent { IfOk result (λ k. stages k.lent ≡ []) }
    {
        let first = FirstRows::new(alloc, &by)?;
        let quantiles = Quantiles::new(alloc, &by)?;
        let counts = ValueCounts::new(alloc, &by)?;
        Ok(Ranked {
            f,
            by,
            label,
            first,
            quantiles,
            counts,
        })
    }

    /// Takes steps, and beside each its parameter, in the place of what was fed before. `count_values` doesn't read the
    /// parameter. The only error is want of memory; then a next feed may follow all the same.
    pub fn feed(&mut self, rows: &Batch<'_>, arg: &Batch<'_>) -> Result<(), AllocError>
        requires args { length arg.now.steps ≡ length rows.now.steps }
        requires scalar { IsScalar arg.now }
        ensures rule { self.new.rule ≡ self.old.rule }
        ensures lent { OnOk result (stages self.new.lent ≡ all_ranked self.old.rule (stages arg.now) (stages rows.now)) }
    {
        match self.f {
            Aggregate::Quantile => self.quantiles.feed(rows, arg)?,
            Aggregate::CountValues => self.counts.feed(&self.by, self.label.as_str(), rows)?,
            Aggregate::TopK => self.first.feed(true, rows, arg)?,
            _ => self.first.feed(false, rows, arg)?,
        }
        Ok(())
    }

    /// Lends the steps that were made of what was fed last. It takes no memory.
    pub fn lend(&self) -> Batch<'_>
        ensures { result ≡ self.now.lent }
    {
        match self.f {
            Aggregate::Quantile => self.quantiles.lend(),
            Aggregate::CountValues => self.counts.lend(),
            _ => self.first.lend(),
        }
    }
}

/// Whether a kernel can be made of an aggregation, as `new` asks.
pub fn is_ranking(f: Aggregate) -> bool
    ensures { result ≡ ranks f }
{
    matches!(
        f,
        Aggregate::TopK | Aggregate::BottomK | Aggregate::Quantile | Aggregate::CountValues
    )
}
