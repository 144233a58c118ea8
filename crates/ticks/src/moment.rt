/// A time since the epoch, or a duration, in whole milliseconds. Either may be negative.
#[derive(Clone, Copy, Debug, PartialEq, Eq, PartialOrd, Ord)]
pub struct Ms(pub i64);
