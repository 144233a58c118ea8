//! A case is a kernel's steps, side by side, and the steps that it is to lend of them.
use crate::written::steps;
use label_set::Items;
use std::alloc::Global;
use std::test::Fail;
use step_table::Step;
use ticks::Ms;

/// Up to so many of the first steps, and the others.
pub fn parted(steps: &[(Ms, Step)], size: usize) -> (&[(Ms, Step)], &[(Ms, Step)]) {
    steps.split_at(size.min(steps.len()))
}

/// The steps of a case that are fed at once, those of up to two other sides, and those that are to be lent of them.
#[derive(Clone, Copy)]
pub struct Feed<'a> {
    pub rows: &'a [(Ms, Step)],
    pub first: &'a [(Ms, Step)],
    pub second: &'a [(Ms, Step)],
    pub wanted: &'a [(Ms, Step)],
}

impl<'a> Feed<'a> {
    /// Up to so many of the first steps of each side, and the others.
    fn cut(&self, size: usize) -> (Feed<'a>, Feed<'a>) {
        let (rows, more_rows) = parted(self.rows, size);
        let (first, more_first) = parted(self.first, size);
        let (second, more_second) = parted(self.second, size);
        let (wanted, more_wanted) = parted(self.wanted, size);
        let these = Feed {
            rows,
            first,
            second,
            wanted,
        };
        let others = Feed {
            rows: more_rows,
            first: more_first,
            second: more_second,
            wanted: more_wanted,
        };
        (these, others)
    }

    fn is_empty(&self) -> bool {
        self.rows.is_empty()
            && self.first.is_empty()
            && self.second.is_empty()
            && self.wanted.is_empty()
    }
}

/// The steps of a line: those that are fed, of up to two sides beside them, and those that are to be lent.
#[derive(Drop)]
pub struct Case {
    rows: Items<(Ms, Step)>,
    first: Items<(Ms, Step)>,
    second: Items<(Ms, Step)>,
    wanted: Items<(Ms, Step)>,
}

impl Case {
    /// The sides of a text, parted by ` > `, and behind them the steps that are to be lent. A side that isn't there, or is written
    /// `same`, has no steps.
    pub fn read(alloc: Global, text: &str) -> Result<Case, Fail> {
        let mut halves = text.rsplitn(2, " > ");
        let wanted = halves.next().ok_or("no lent steps")?;
        let mut sides = halves.next().ok_or("no steps that are fed")?.split(" > ");
        let rows = steps(alloc, sides.next().unwrap_or("same"))?;
        let first = steps(alloc, sides.next().unwrap_or("same"))?;
        let second = steps(alloc, sides.next().unwrap_or("same"))?;
        let wanted = steps(alloc, wanted)?;
        Ok(Case {
            rows,
            first,
            second,
            wanted,
        })
    }

    fn all(&self) -> Feed<'_> {
        Feed {
            rows: self.rows.as_slice(),
            first: self.first.as_slice(),
            second: self.second.as_slice(),
            wanted: self.wanted.as_slice(),
        }
    }

    /// Makes so many steps at once, as often as there are steps, so that behind the last one no step is fed, and answers whether
    /// each time `is_made` says yes, and no step of any side is left.
    pub fn holds<F: FnMut(&Feed<'_>) -> Result<bool, Fail>>(
        &self,
        size: usize,
        mut is_made: F,
    ) -> Result<bool, Fail>
        requires { F.IsAlwaysCallable is_made }
    {
        let mut left = self.all();
        for _ in 0..self.rows.as_slice().len() {
            let (these, others) = left.cut(size);
            if !is_made(&these)? {
                return Ok(false);
            }
            left = others;
        }
        Ok(left.is_empty())
    }
}

/// The first of the lines that doesn't hold, else `none`.
pub fn line_that_differs<'a, F: FnMut(&'a str) -> Result<bool, Fail>>(
    lines: &'a str,
    mut holds: F,
) -> Result<&'a str, Fail>
    requires { F.IsAlwaysCallable holds }
{
    for line in lines.split('\n') {
        if !holds(line)? {
            return Ok(line);
        }
    }
    Ok("none")
}
