//! What is kept of values that come behind and go in front.
ghost use Rattle.op_running.specs.Kept.{AreTails, Keeps};
ghost use Rattle.std.specs.Prelude.{◌≡◌, ◌≤◌, ◌+◌, ◌<◌, ◌^◌, ◌++◌, [], List, IfSome, OnOk, drop, length};
ghost use Rattle.xfrac.specs.declared.value.XFrac.{XFrac};

use crate::summary::Summary;
use std::alloc::{AllocError, Global};
use xfrac::XFrac;

/// Of fewer values than this nothing is kept: to go over them costs no more than what is kept of them.
const FEW: usize = 8;

/// Two stacks: what is kept of each tail of the values in front, the shortest first, and of so many values behind these. What came
/// later isn't counted yet.
#[derive(Drop)]
pub(crate) struct Running<S> {
    tails: Vec<S>,
    behind: S,
    counted: usize,
}

impl<S: Summary> Running<S> {
    /// Of values none of which is counted. It takes no memory.
    pub fn new(alloc: Global) -> Running<S>
        ensures { (xs : List XFrac) → Keeps S.is_of result.tails.items result.behind result.counted xs }
    {
        Running {
            tails: Vec::new(alloc),
            behind: S::none(),
            counted: 0,
        }
    }

    /// So many values go in front. It takes no memory.
    pub fn forget(&mut self, gone: usize)
        ensures { (xs : List XFrac) → gone ≤ length xs → Keeps S.is_of self.old.tails.items self.old.behind self.old.counted xs → Keeps S.is_of self.new.tails.items self.new.behind self.new.counted (drop gone xs) }
    {
        let front = self.tails.len();
        if gone <= front {
            self.tails.truncate(front - gone);
        } else {
            self.tails.clear();
            self.behind = S::none();
            self.counted = 0;
        }
    }

    /// Counts the values that came, but a first few. The only error is want of memory; then none is counted.
    pub fn settle(&mut self, values: &[XFrac]) -> Result<(), AllocError>
        requires { Keeps S.is_of self.old.tails.items self.old.behind self.old.counted values.now }
        ensures { Keeps S.is_of self.new.tails.items self.new.behind self.new.counted values.now }
    {
        if self.tails.is_empty() && self.counted == 0 {
            if values.len() < FEW {
                return Ok(());
            }
            self.behind = S::none();
            self.begin(values)
        } else {
            let (_, rest) = values.split_at(self.tails.len() + self.counted);
            self.behind = with_values(self.behind, rest);
            self.counted += rest.len();
            Ok(())
        }
    }

    /// All values become those in front.
    fn begin(&mut self, values: &[XFrac]) -> Result<(), AllocError>
        requires empty { self.old.tails.items ≡ [] }
        requires behind { S.is_of self.old.behind [] }
        requires counted { self.old.counted ≡ 0 }
        ensures { Keeps S.is_of self.new.tails.items self.new.behind self.new.counted values.now }
    {
        match push_tails(&mut self.tails, values) {
            Ok(()) => Ok(()),
            Err(error) => {
                self.tails.clear();
                Err(error)
            }
        }
    }

    /// What is kept of all values, where each is counted.
    pub fn whole(&self, values: &[XFrac]) -> Option<S>
        requires { Keeps S.is_of self.now.tails.items self.now.behind self.now.counted values.now }
        ensures { IfSome result (λ s. S.is_of s values.now) }
    {
        let tails = self.tails.as_slice();
        if tails.len() + self.counted < values.len() {
            return None;
        }
        match tails.last() {
            None => Some(self.behind),
            Some(tail) => Some(tail.joined(&self.behind)),
        }
    }
}

/// What is kept of values, with those of a list behind them.
fn with_values<S: Summary>(summary: S, values: &[XFrac]) -> S
    requires { (xs : List XFrac) × S.is_of summary xs × (length xs + length values.now < 2 ^ 64) }
    ensures { (xs : List XFrac) → S.is_of summary xs → S.is_of result (xs ++ values.now) }
{
    let mut all = summary;
    for value in values {
        all = all.more(value);
    }
    all
}

/// What is kept of each tail of values, the shortest first.
fn push_tails<S: Summary>(tails: &mut Vec<S>, values: &[XFrac]) -> Result<(), AllocError>
    requires { tails.old.items ≡ [] }
    ensures many { OnOk result (length tails.new.items ≡ length values.now) }
    ensures tails { OnOk result (AreTails S.is_of tails.new.items values.now) }
{
    tails.reserve(values.len())?;
    let mut tail = S::none();
    let mut i = values.len();
    while i > 0 {
        i -= 1;
        tail = S::none().more(&values[i]).joined(&tail);
        tails.push(tail)?;
    }
    Ok(())
}
