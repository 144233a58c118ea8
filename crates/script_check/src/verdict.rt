//! What a judgement of an evaluation comes to.
ghost use Rattle.std.specs.Prelude.{◌≡◌, IfOk};

use label_set::Labels;
use std::alloc::AllocError;
use ticks::Ms;
use xfrac::XFrac;

/// Why an outcome isn't what is expected. The reasons are listed in the order in which they are looked for.
#[derive(Debug, Drop, PartialEq, Eq)]
pub enum Reason {
    /// A failure is expected, and there is an answer.
    NoFailure,
    /// There is no answer, and no failure is expected.
    Unexpected,
    /// The failure that is expected has another text.
    FailureText,
    /// No warning is one that is expected.
    NoWarning,
    /// There is a warning that isn't expected.
    Warned,
    /// No info note is one that is expected.
    NoInfo,
    /// There is an info note that isn't expected.
    Informed,
    /// A scalar is expected, and the answer is none.
    NotScalar,
    /// A vector is expected, and the answer is a scalar.
    NotVector,
    /// A series with these labels is expected and isn't there; they are the least of such labels.
    Missing(Labels),
    /// A series with these labels is there and isn't expected; they are the least of such labels.
    Extra(Labels),
    /// The value under these labels at a time, in milliseconds, isn't near the expected one, or one of the two is absent. It
    /// is the first such value by labels and time.
    Differs {
        labels: Labels,
        at: Ms,
        wanted: Option<XFrac>,
        got: Option<XFrac>,
    },
    /// The scalar isn't near the expected one, or has no value.
    ScalarDiffers {
        wanted: XFrac,
        got: Option<XFrac>,
    },
    /// The first series of the answer that doesn't stand at its place has these labels.
    Order(Labels),
}

impl Reason {
    /// An equal value, on the allocators of this one. The only error is want of memory.
    pub fn copy(&self) -> Result<Reason, AllocError>
        ensures { IfOk result (λ r. r ≡ self.now) }
    {
        match self {
            Reason::NoFailure => Ok(Reason::NoFailure),
            Reason::Unexpected => Ok(Reason::Unexpected),
            Reason::FailureText => Ok(Reason::FailureText),
            Reason::NoWarning => Ok(Reason::NoWarning),
            Reason::Warned => Ok(Reason::Warned),
            Reason::NoInfo => Ok(Reason::NoInfo),
            Reason::Informed => Ok(Reason::Informed),
            Reason::NotScalar => Ok(Reason::NotScalar),
            Reason::NotVector => Ok(Reason::NotVector),
            Reason::Missing(labels) => Ok(Reason::Missing(labels.copy()?)),
            Reason::Extra(labels) => Ok(Reason::Extra(labels.copy()?)),
            Reason::Differs {
                labels,
                at,
                wanted,
                got,
            } => Ok(Reason::Differs {
                labels: labels.copy()?,
                at: *at,
                wanted: *wanted,
                got: *got,
            }),
            Reason::ScalarDiffers { wanted, got } => Ok(Reason::ScalarDiffers {
                wanted: *wanted,
                got: *got,
            }),
            Reason::Order(labels) => Ok(Reason::Order(labels.copy()?)),
        }
    }
}

impl Clone for Reason {
    ghost is_clone = { λ s t. t ≡ s };

    fn clone(&self) -> Result<Reason, AllocError> {
        self.copy()
    }
}

/// Whether an outcome is what is expected, and the first reason why it isn't.
#[derive(Debug, Drop, PartialEq, Eq)]
pub enum Verdict {
    /// It is.
    Pass,
    /// It isn't.
    Fail(Reason),
}

impl Verdict {
    /// An equal value, on the allocators of this one. The only error is want of memory.
    pub fn copy(&self) -> Result<Verdict, AllocError>
        ensures { IfOk result (λ v. v ≡ self.now) }
    {
        match self {
            Verdict::Pass => Ok(Verdict::Pass),
            Verdict::Fail(reason) => Ok(Verdict::Fail(reason.copy()?)),
        }
    }
}

impl Clone for Verdict {
    ghost is_clone = { λ s t. t ≡ s };

    fn clone(&self) -> Result<Verdict, AllocError> {
        self.copy()
    }
}
