use thiserror::Error;

/// Why a text of a number is refused.
#[derive(Clone, Copy, Debug, PartialEq, Eq, Error)]
pub enum NumberRefusal {
    /// The text is no number.
    #[error("no number")]
    BadNumber = 1,
    /// The number is outside the limits.
    #[error("number out of range")]
    NumberRange = 2,
    /// Digits alone, more than one, begin with 0.
    #[error("leading zero")]
    LeadingZero = 3,
}

/// Why a text of a time is refused.
#[derive(Clone, Copy, Debug, PartialEq, Eq, Error)]
pub enum TimeRefusal {
    /// The text is neither a duration nor a whole number of milliseconds.
    #[error("no time")]
    BadTime = 1,
    /// A duration of more than 100 years, seconds beyond the limit, or a number outside the limits of numbers.
    #[error("time out of range")]
    OutOfRange = 2,
}
