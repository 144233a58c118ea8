//! The window of an outer instant.
ghost use Rattle.op_subquery.specs.Rings.{span_at};
ghost use Rattle.std.specs.Prelude.{◌≡◌};
ghost use Rattle.ticks.specs.Walks.{HasTimes, moment_at};

use ticks::{Ms, WalkMoment, last_before};

/// The window of an outer instant: the last time before it, and its moment, in milliseconds.
#[derive(Clone, Copy, Debug)]
pub(crate) struct Span {
    pub edge: Ms,
    pub moment: Ms,
}

impl Span {
    /// The window of an outer instant.
    pub(crate) fn of(moment: &WalkMoment, range: Ms, at: Ms) -> Span
        requires { HasTimes (moment_at moment.now at.0) range.0 }
        ensures { result ≡ span_at moment.now range at }
    {
        let m = moment.at(at);
        Span {
            edge: last_before(Ms(m - range.0), moment.closed),
            moment: Ms(m),
        }
    }
}
