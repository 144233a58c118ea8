ghost use Rattle.promql_meaning.specs.Results.{first_stop};
ghost use Rattle.result_rows.specs.Taken.{HasTaken, ordered_answer};
ghost use Rattle.std.specs.Option.{option_map};
ghost use Rattle.std.specs.Prelude.{◌≡◌, ◌++◌, [], List, None, IfOk};
ghost use Rattle.step_batch.specs.Lent.{stages};
ghost use Rattle.step_rules.specs.Ranked.{order_of};
ghost use Rattle.step_table.specs.Timed.{StepAt};

use crate::found::{Found, take_each};
use crate::series::{make_room, series_of};
use promql_meaning::{Answer, Outcome};
use std::alloc::{AllocError, Global};
use std::marker::Model;
use step_batch::{Batch, StepBuffer};
use step_put::{Left, Placing};
use step_rules::{ByValue, in_order};

/// What the instants so far of a query over a grid come to. Labels are placed once over all batches, and kept as long as the
/// labels at that place of a batch stay equal; the buffer that they stand in has no steps. So a row costs no search: its
/// point goes behind those at its own place.
#[derive(Drop)]
pub struct Collected {
    alloc: Global,
    placing: Placing,
    labels: StepBuffer,
    found: Found,
}

impl Model for Collected {
    ghost use Rattle.result_rows.specs.Taken.{IsReady, Kept, kept_of};

    ghost Value = { Kept };

    ghost view = { λ c. kept_of c.found };

    ghost invariant = { λ c. IsReady c.labels c.placing c.found };
}

impl Collected {
    /// Before the first instant. It takes no memory.
    pub fn new(alloc: Global) -> Collected
        ensures { HasTaken result [] }
    {
        Collected {
            alloc,
            placing: Placing::new(alloc, Left::All),
            labels: StepBuffer::new(alloc),
            found: Found::none(alloc),
        }
    }

    /// Takes the steps of a batch behind those before. It answers the outcome of the first instant at which the evaluation ends
    /// early, of which and behind which nothing is taken: that of a fatal mark, or that with it there are more than 4,000,000
    /// rows, counted over all instants so far. The only error is want of memory; then, and behind such an outcome, what was
    /// collected may only be dropped. (Prometheus querying; the limit on rows is this project's own.)
    pub fn take(&mut self, batch: &Batch<'_>) -> Result<Option<Outcome>, AllocError>
        ensures stop { IfOk result (λ stop. (steps : List StepAt) → HasTaken self.old steps → first_stop 0 (steps ++ stages batch.now) ≡ stop) }
        ensures taken { IfOk result (λ stop. stop ≡ None → (steps : List StepAt) → HasTaken self.old steps → HasTaken self.new (steps ++ stages batch.now)) }
    {
        self.placing.take(&mut self.labels, batch.labels())?;
        let own = self.labels.lend();
        make_room(self.alloc, &mut self.found.series, own.labels())?;
        take_each(&mut self.found, self.placing.places(), batch)
    }

    /// The answer of the instants so far: the series in the order of their labels, or by value where an order is given, and the
    /// notes in their order, each once. `scalar` tells that the expression gives a scalar. The only error is want of memory.
    /// (Prometheus querying.)
    pub fn answer(self, scalar: bool, order: Option<ByValue>) -> Result<Answer, AllocError>
        ensures { IfOk result (λ answer. (steps : List StepAt) → HasTaken self steps → answer ≡ ordered_answer scalar (option_map order_of order) steps) }
    {
        let _ = self.labels.lend().labels();
        let Found { series, marks, .. } = self.found;
        let series = series_of(self.alloc, series)?;
        Ok(Answer {
            scalar,
            series: in_order(self.alloc, order, series)?,
            notes: marks.notes,
        })
    }
}
