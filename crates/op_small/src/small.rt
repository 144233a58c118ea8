ghost use Rattle.op_small.specs.Rules.{left_by as left_by_rule, smalls};
ghost use Rattle.std.specs.Prelude.{◌≡◌, [], IfOk, OnOk};
ghost use Rattle.step_batch.specs.Lent.{stages};
ghost use Rattle.step_batch.specs.LentWindows.{TimesRise};

use crate::ones::{put_absences, put_instants, put_scalars};
use crate::rows::{put_copies, put_rows};
use crate::rule::{SmallRule, left_by};
use std::alloc::{AllocError, Global};
use std::marker::Model;
use step_batch::Batch;
use step_put::{OutcomeBuffer, PlacedOutcome};
use ticks::Ms;

/// A small kernel, and the steps that it made of what it was fed last.
#[derive(Drop)]
pub struct Small {
    alloc: Global,
    rule: SmallRule,
    made: Vec<PlacedOutcome>,
    buffer: OutcomeBuffer,
}

impl Model for Small {
    ghost use Rattle.op_small.specs.Rules.{Smalls, left_by};
    ghost use Rattle.std.specs.Prelude.{◌≡◌};

    ghost Value = { Smalls };

    ghost view = { λ k. record { rule = k.rule; lent = k.buffer.lent } };

    ghost invariant = { λ k. k.buffer.left ≡ left_by k.rule };
}

impl Small {
    /// A kernel that was fed nothing. The only error is want of memory.
    pub fn new(alloc: Global, rule: SmallRule) -> Result<Small, AllocError>
        ensures rule { IfOk result (λ k. k.rule ≡ rule) }
        ensures lent { IfOk result (λ k. stages k.lent ≡ []) }
    {
        let buffer = OutcomeBuffer::new(alloc, left_by(&rule));
        Ok(Small {
            alloc,
            rule,
            made: Vec::new(alloc),
            buffer,
        })
    }

    /// Takes what is fed in the place of what was fed before. A number and the time read the instants alone; the other
    /// rules read the rows, at the rows' own instants. The only error is want of memory.
    pub fn feed(&mut self, at: &[Ms], rows: &Batch<'_>) -> Result<(), AllocError>
        requires { TimesRise at.now }
        ensures rule { self.new.rule ≡ self.old.rule }
        ensures lent { OnOk result (stages self.new.lent ≡ smalls self.old.rule at.now (stages rows.now)) }
    {
        fill(
            self.alloc,
            &self.rule,
            &mut self.made,
            &mut self.buffer,
            at,
            rows,
        )
    }

    /// Lends the steps that were made of what was fed last. It takes no memory.
    pub fn lend(&self) -> Batch<'_>
        ensures { result ≡ self.now.lent }
    {
        self.buffer.lend()
    }
}

/// Makes the steps of a feed in the place of those of the last one.
fn fill(
    alloc: Global,
    rule: &SmallRule,
    made: &mut Vec<PlacedOutcome>,
    buffer: &mut OutcomeBuffer,
    at: &[Ms],
    rows: &Batch<'_>,
) -> Result<(), AllocError>
    requires rising { TimesRise at.now }
    requires left { buffer.old.left ≡ left_by_rule rule.now }
    ensures left { buffer.new.left ≡ buffer.old.left }
    ensures lent { OnOk result (stages buffer.new.lent ≡ smalls rule.now at.now (stages rows.now)) }
{
    match rule {
        SmallRule::Number(value) => {
            let number = Some(*value);
            put_instants(alloc, buffer, &number, at)
        }
        SmallRule::Time => put_instants(alloc, buffer, &None, at),
        SmallRule::Stamp { own } => put_rows(buffer, made, *own, rows),
        SmallRule::Scalar => put_scalars(alloc, buffer, rows),
        SmallRule::Vector => put_copies(buffer, made, rows),
        SmallRule::Absent(under) => put_absences(alloc, buffer, under, rows),
    }
}
