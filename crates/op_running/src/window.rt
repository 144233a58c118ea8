ghost use Rattle.op_running.specs.Kept.{IsKept, IsLossOf};
ghost use Rattle.promql_meaning.specs.Ranges.{window_value as value_of_window};
ghost use Rattle.std.specs.List.{All};
ghost use Rattle.std.specs.Prelude.{◌≡◌, ◌≤◌, ◌<◌, ◌++◌, ◌∷◌, [], List, IfOk, IfSome, OnOk, OnErr, drop, length};
ghost use Rattle.step_batch.specs.Columns.{column_more, columns_behind, has_some};
ghost use Rattle.window_fn.specs.Aggregates.{average, greatest, least, total};
ghost use Rattle.window_fn.specs.Windows.{IsFrame, IsInFrame};
ghost use Rattle.xfrac.specs.declared.value.XFrac.{XFrac};

use crate::extremes::{Greatest, Least};
use crate::losses::Loss;
use crate::rates::{increase_row, rate_row};
use crate::running::Running;
use crate::totals::{Total, mean_of, sum_of};
use func_table::Window;
use std::alloc::{AllocError, Global};
use std::marker::Model;
use step_batch::Slices;
use step_rules::window_value;
use ticks::Ms;
use window_fn::{WindowFrame, aggregates};
use xfrac::{NumFault, XFrac};

/// What is kept of the values of a window beside them.
#[derive(Drop)]
pub(crate) enum Kept {
    Nothing,
    Sum(Running<Total>),
    Least(Running<Least>),
    Greatest(Running<Greatest>),
    Lost(Running<Loss>),
}

/// The samples of a window, as `Slices`: later ones are put behind, and earlier ones are let go. Where it is made for a sum, a mean,
/// the least or the greatest value, that value costs as much as the samples that come and go, however many lie in the window.
/// Contracts see the samples alone.
#[derive(Drop)]
pub struct RunningWindow {
    samples: Slices,
    kept: Kept,
}

impl Model for RunningWindow {
    ghost use Rattle.op_running.specs.Kept.{IsKept};
    ghost use Rattle.step_batch.specs.Columns.{Columns};

    ghost Value = { Columns };

    ghost view = { λ w. w.samples };

    ghost invariant = { λ w. IsKept w.kept w.samples.values };
}

impl Kept {
    /// What a function asks to be kept. It takes no memory.
    fn of(alloc: Global, f: Window) -> Kept
        ensures { (xs : List XFrac) → IsKept result xs }
    {
        match f {
            Window::SumOver | Window::AvgOver => Kept::Sum(Running::new(alloc)),
            Window::MinOver => Kept::Least(Running::new(alloc)),
            Window::MaxOver => Kept::Greatest(Running::new(alloc)),
            Window::Rate | Window::Increase => Kept::Lost(Running::new(alloc)),
            _ => Kept::Nothing,
        }
    }

    /// So many values go in front.
    fn forget(&mut self, gone: usize)
        ensures { (xs : List XFrac) → gone ≤ length xs → IsKept self.old xs → IsKept self.new (drop gone xs) }
    {
        match self {
            Kept::Nothing => {}
            Kept::Sum(sum) => sum.forget(gone),
            Kept::Least(least) => least.forget(gone),
            Kept::Greatest(greatest) => greatest.forget(gone),
            Kept::Lost(lost) => lost.forget(gone),
        }
    }

    /// Counts the values that came.
    fn settle(&mut self, values: &[XFrac]) -> Result<(), AllocError>
        requires { IsKept self.old values.now }
        ensures { IsKept self.new values.now }
    {
        match self {
            Kept::Nothing => Ok(()),
            Kept::Sum(sum) => sum.settle(values),
            Kept::Least(least) => least.settle(values),
            Kept::Greatest(greatest) => greatest.settle(values),
            Kept::Lost(lost) => lost.settle(values),
        }
    }
}

impl RunningWindow {
    /// No samples, of a window of a function. It takes no memory.
    pub fn new(alloc: Global, f: Window) -> RunningWindow
        ensures { result ≡ record { times = []; values = [] } }
    {
        RunningWindow {
            samples: Slices::new(alloc),
            kept: Kept::of(alloc, f),
        }
    }

    /// The times of the samples. It takes no memory.
    pub fn times(&self) -> &[Ms]
        ensures { result.now ≡ self.now.times }
    {
        self.samples.times()
    }

    /// The values of the samples, as many as their times. It takes no memory.
    pub fn values(&self) -> &[XFrac]
        ensures { result.now ≡ self.now.values }
    {
        self.samples.values()
    }

    /// Whether a sample is left. It takes no memory.
    pub fn has_some(&self) -> bool
        ensures { result ≡ has_some self.now }
    {
        self.samples.has_some()
    }

    /// Puts a sample behind the others. The only error is want of memory; then nothing is changed.
    pub fn push(&mut self, at: Ms, value: XFrac) -> Result<(), AllocError>
        ensures ok { OnOk result (self.new ≡ column_more self.old at value) }
        ensures err { OnErr result (self.new ≡ self.old) }
    {
        self.samples.push(at, value)?;
        Ok(())
    }

    /// Lets the samples in front go that are no later than an edge. It takes no memory.
    pub fn forget(&mut self, edge: Ms)
        ensures { self.new ≡ columns_behind edge.0 self.old }
    {
        let before = self.samples.values().len();
        self.samples.forget(edge);
        let left = self.samples.values().len();
        self.kept.forget(before - left);
    }

    /// Counts the samples that came, so that the next values cost little. The only error is want of memory. The samples stay.
    pub fn settle(&mut self) -> Result<(), AllocError>
        ensures { self.new ≡ self.old }
    {
        self.kept.settle(self.samples.values())
    }

    /// The sum of the values.
    pub fn total(&self) -> Result<XFrac, NumFault>
        ensures { result ≡ total self.now.values }
    {
        let values = self.samples.values();
        match &self.kept {
            Kept::Sum(sum) => match sum.whole(values) {
                Some(whole) => sum_of(&whole),
                None => aggregates::total(values),
            },
            _ => aggregates::total(values),
        }
    }

    /// The mean of the values.
    pub fn average(&self) -> Result<XFrac, NumFault>
        requires { 0 < length self.now.values }
        ensures { result ≡ average self.now.values }
    {
        let values = self.samples.values();
        match &self.kept {
            Kept::Sum(sum) => match sum.whole(values) {
                Some(whole) => mean_of(&whole),
                None => aggregates::average(values),
            },
            _ => aggregates::average(values),
        }
    }

    /// The least value.
    pub fn least(&self) -> XFrac
        ensures { result ≡ least self.now.values }
    {
        let values = self.samples.values();
        match &self.kept {
            Kept::Least(least) => match least.whole(values) {
                Some(whole) => whole.value,
                None => aggregates::least(values),
            },
            _ => aggregates::least(values),
        }
    }

    /// The greatest value.
    pub fn greatest(&self) -> XFrac
        ensures { result ≡ greatest self.now.values }
    {
        let values = self.samples.values();
        match &self.kept {
            Kept::Greatest(greatest) => match greatest.whole(values) {
                Some(whole) => whole.value,
                None => aggregates::greatest(values),
            },
            _ => aggregates::greatest(values),
        }
    }

    /// What a counter lost, where that is kept of all values.
    fn loss(&self) -> Option<Loss>
        ensures { IfSome result (λ loss. IsLossOf loss self.now.values) }
    {
        match &self.kept {
            Kept::Lost(lost) => lost.whole(self.samples.values()),
            _ => None,
        }
    }

    /// What a function of counters gives of the samples.
    fn over_counter(
        &self,
        alloc: Global,
        f: Window,
        frame: &WindowFrame,
        arg: &XFrac,
    ) -> Result<Result<Option<XFrac>, NumFault>, AllocError>
        requires same { length self.now.times ≡ length self.now.values }
        requires some { 0 < length self.now.values }
        requires frame { IsFrame frame.now }
        requires times { All (IsInFrame frame.now) self.now.times }
        ensures { IfOk result (λ v. v ≡ value_of_window f frame.now arg.now self.now.times self.now.values) }
    {
        let times = self.samples.times();
        let values = self.samples.values();
        match (f, self.loss()) {
            (Window::Rate, Some(loss)) => Ok(rate_row(&loss, times, values, frame)),
            (Window::Increase, Some(loss)) => Ok(increase_row(&loss, times, values, frame)),
            _ => window_value(alloc, f, frame, arg, times, values),
        }
    }

    /// What a function gives of the samples; of none, nothing. The only error is want of memory.
    pub fn over(
        &self,
        alloc: Global,
        f: Window,
        frame: &WindowFrame,
        arg: &XFrac,
    ) -> Result<Result<Option<XFrac>, NumFault>, AllocError>
        requires same { length self.now.times ≡ length self.now.values }
        requires some { 0 < length self.now.values }
        requires frame { IsFrame frame.now }
        requires times { All (IsInFrame frame.now) self.now.times }
        ensures { IfOk result (λ v. v ≡ value_of_window f frame.now arg.now self.now.times self.now.values) }
    {
        match f {
            Window::SumOver => Ok(self.total().map(|total| Some(total))),
            Window::AvgOver => Ok(self.average().map(|average| Some(average))),
            Window::MinOver => Ok(Ok(Some(self.least()))),
            Window::MaxOver => Ok(Ok(Some(self.greatest()))),
            Window::Rate | Window::Increase => self.over_counter(alloc, f, frame, arg),
            _ => window_value(alloc, f, frame, arg, self.times(), self.values()),
        }
    }
}
