//! What counters lose at their resets, as what is kept of values.
ghost use Rattle.op_running.specs.Kept.{seam};
ghost use Rattle.std.specs.Prelude.{◌≡◌, ◌++◌, List};
ghost use Rattle.window_fn.specs.Totals.{HasRoom, IsSumOf};
ghost use Rattle.xfrac.specs.declared.value.XFrac.{XFrac};

use crate::summary::Summary;
use crate::totals::{both, with_value};
use xfrac::laws::is_number;
use xfrac::{CompareOp, SumAcc, XFrac, compare};

/// The sum of what a counter stood at before each reset, and its first and last value.
#[derive(Clone, Copy, Debug)]
pub(crate) struct Loss {
    pub ends: Option<(XFrac, XFrac)>,
    pub lost: Option<SumAcc>,
}

impl Summary for Loss {
    ghost use Rattle.op_running.specs.Kept.{IsLossOf};

    ghost is_of = { IsLossOf };

    fn none() -> Loss {
        Loss {
            ends: None,
            lost: Some(SumAcc::new()),
        }
    }

    fn more(self, value: &XFrac) -> Loss {
        is_number(value);
        let Loss { ends, lost } = self;
        match ends {
            None => Loss {
                ends: Some((*value, *value)),
                lost,
            },
            Some((first, last)) => Loss {
                ends: Some((first, *value)),
                lost: with_loss(lost, &last, value),
            },
        }
    }

    fn joined(&self, behind: &Loss) -> Loss {
        let Loss { ends, lost } = *self;
        match ends {
            None => *behind,
            Some((first, last)) => match behind.ends {
                None => *self,
                Some((next, end)) => {
                    let lost = with_loss(lost, &last, &next);
                    Loss {
                        ends: Some((first, end)),
                        lost: both(&lost, &behind.lost),
                    }
                }
            },
        }
    }
}

/// The sum with what a counter stood at, where it is reset to the next value.
fn with_loss(sum: Option<SumAcc>, before: &XFrac, value: &XFrac) -> Option<SumAcc>
    requires { HasRoom sum }
    ensures { (xs : List XFrac) → IsSumOf sum xs → IsSumOf result (xs ++ seam before.now value.now) }
{
    if compare(CompareOp::Lt, value, before) {
        with_value(sum, before)
    } else {
        sum
    }
}
