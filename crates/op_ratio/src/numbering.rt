ghost use Rattle.op_ratio.specs.Counts.{IsNumbered};
ghost use Rattle.std.specs.Prelude.{◌≡◌, length, IfOk, OnOk};

use label_set::Labels;
use std::alloc::{AllocError, Global};
use step_batch::StepBuffer;
use step_put::{Left, Placing};

/// The labels that were fed on both sides. Their number is their place in the buffer, which has no steps: equal labels have
/// one number, on whichever side they stand.
#[derive(Drop)]
pub(crate) struct Numbering {
    pub names: StepBuffer,
    pub sums: Placing,
    pub counts: Placing,
}

impl Numbering {
    /// Nothing is fed yet. It takes no memory.
    pub(crate) fn new(alloc: Global) -> Numbering
        ensures { IsNumbered result }
    {
        Numbering {
            names: StepBuffer::new(alloc),
            sums: Placing::new(alloc, Left::All),
            counts: Placing::new(alloc, Left::All),
        }
    }

    /// How many numbers there are.
    pub(crate) fn count(&self) -> usize
        ensures { result ≡ length self.now.names.labels }
    {
        self.names.lend().labels().len()
    }

    /// Takes the labels that are fed. Those that equal the ones fed before at the same place of their side keep their numbers.
    /// The only error is want of memory; then a next feed may follow all the same.
    pub(crate) fn renew(&mut self, sums: &[Labels], counts: &[Labels]) -> Result<(), AllocError>
        requires numbered { IsNumbered self.old }
        ensures numbered { IsNumbered self.new }
        ensures sums { OnOk result (self.new.sums.fed ≡ sums.now) }
        ensures counts { OnOk result (self.new.counts.fed ≡ counts.now) }
    {
        self.begin(sums.len().saturating_add(counts.len()));
        self.sums.take(&mut self.names, sums)?;
        self.counts.take(&mut self.names, counts)
    }

    /// Forgets all labels where there are more than twice as many as are fed on both sides, so that they don't grow with the
    /// number of feeds.
    fn begin(&mut self, fed: usize)
        requires { IsNumbered self.old }
        ensures { IsNumbered self.new }
    {
        if self.count() / 2 <= fed {
            return;
        }
        self.names.clear();
        self.sums.forget();
        self.counts.forget();
    }
}
