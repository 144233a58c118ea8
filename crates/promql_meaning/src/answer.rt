ghost use Rattle.std.specs.Prelude.{◌≡◌, IfOk};

use label_set::{Items, Labels};
use promql_ast::QueryRefusal;
use std::alloc::AllocError;
use step_table::{Mark, Note};
use ticks::Ms;
use xfrac::XFrac;

/// A value at an instant, in milliseconds.
#[derive(Clone, Copy, Debug, PartialEq, Eq)]
pub struct Point {
    pub at: Ms,
    pub value: XFrac,
}

/// The points of one series, in rising time.
#[derive(Debug, Drop, PartialEq, Eq)]
pub struct ResultSeries {
    pub labels: Labels,
    pub points: Items<Point>,
}

impl ResultSeries {
    /// An equal value, on the allocators of this one. The only error is want of memory.
    pub fn copy(&self) -> Result<ResultSeries, AllocError>
        ensures { IfOk result (λ s. s ≡ self.now) }
    {
        Ok(ResultSeries {
            labels: self.labels.copy()?,
            points: self.points.copy()?,
        })
    }
}

impl Clone for ResultSeries {
    ghost is_clone = { λ s t. t ≡ s };

    fn clone(&self) -> Result<ResultSeries, AllocError> {
        self.copy()
    }
}

/// The series of an evaluation that has an answer, and its notes in their order, each once. `scalar` tells that the
/// expression gives a scalar, whose one series has no labels.
#[derive(Debug, Drop, PartialEq, Eq)]
pub struct Answer {
    pub scalar: bool,
    pub series: Items<ResultSeries>,
    pub notes: Items<Note>,
}

impl Answer {
    /// An equal value, on the allocators of this one. The only error is want of memory.
    pub fn copy(&self) -> Result<Answer, AllocError>
        ensures { IfOk result (λ a. a ≡ self.now) }
    {
        Ok(Answer {
            scalar: self.scalar,
            series: self.series.copy()?,
            notes: self.notes.copy()?,
        })
    }
}

impl Clone for Answer {
    ghost is_clone = { λ s t. t ≡ s };

    fn clone(&self) -> Result<Answer, AllocError> {
        self.copy()
    }
}

/// What comes of an evaluation.
#[derive(Debug, Drop, PartialEq, Eq)]
pub enum Outcome {
    /// Its answer.
    Answer(Answer),
    /// The expression was refused.
    Refused(QueryRefusal),
    /// The first instant that fails, in milliseconds, and the least of its fatal marks.
    Failed { at: Ms, mark: Mark },
    /// The first instant, in milliseconds, at which there were more than 4,000,000 rows, counted over all instants.
    TooManyRows { at: Ms },
}

impl Outcome {
    /// An equal value, on the allocators of this one. The only error is want of memory.
    pub fn copy(&self) -> Result<Outcome, AllocError>
        ensures { IfOk result (λ o. o ≡ self.now) }
    {
        match self {
            Outcome::Answer(answer) => Ok(Outcome::Answer(answer.copy()?)),
            Outcome::Refused(refusal) => Ok(Outcome::Refused(refusal.copy()?)),
            Outcome::Failed { at, mark } => Ok(Outcome::Failed {
                at: *at,
                mark: mark.copy()?,
            }),
            Outcome::TooManyRows { at } => Ok(Outcome::TooManyRows { at: *at }),
        }
    }
}

impl Clone for Outcome {
    ghost is_clone = { λ s t. t ≡ s };

    fn clone(&self) -> Result<Outcome, AllocError> {
        self.copy()
    }
}
