use thiserror::Error;

/// Why a duration or a grid is refused.
#[derive(Clone, Copy, Debug, PartialEq, Eq, Error)]
pub enum TickRefusal {
    /// The text is no duration.
    #[error("no duration")]
    BadDuration = 1,
    /// A duration of more than 100 years, a time beyond the limit, a grid that ends before it starts or a step below
    /// a millisecond.
    #[error("out of range")]
    OutOfRange = 2,
    /// The grid has more than 11,000 instants.
    #[error("too many steps")]
    TooManySteps = 3,
}
