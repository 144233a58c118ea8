//! The least and the greatest value as what is kept of values.
ghost use Rattle.std.specs.Prelude.{◌≡◌, ◌++◌, ◌∷◌, [], List};
ghost use Rattle.window_fn.specs.Aggregates.{greater as greater_of, lesser as lesser_of};

use crate::summary::Summary;
use xfrac::laws::{is_number, order_is_total};
use xfrac::{CompareOp, XFrac, compare, is_nan};

/// The least of values; NaN of none.
#[derive(Clone, Copy, Debug)]
pub(crate) struct Least {
    pub value: XFrac,
}

impl Summary for Least {
    ghost use Rattle.op_running.specs.Kept.{IsLeastOf};

    ghost is_of = { IsLeastOf };

    fn none() -> Least {
        Least { value: XFrac::NaN }
    }

    fn more(self, value: &XFrac) -> Least {
        is_number(value);
        Least {
            value: lesser(&self.value, value),
        }
    }

    fn joined(&self, behind: &Least) -> Least {
        order_is_total();
        Least {
            value: lesser(&self.value, &behind.value),
        }
    }
}

/// The greatest of values; NaN of none.
#[derive(Clone, Copy, Debug)]
pub(crate) struct Greatest {
    pub value: XFrac,
}

impl Summary for Greatest {
    ghost use Rattle.op_running.specs.Kept.{IsGreatestOf};

    ghost is_of = { IsGreatestOf };

    fn none() -> Greatest {
        Greatest { value: XFrac::NaN }
    }

    fn more(self, value: &XFrac) -> Greatest {
        is_number(value);
        Greatest {
            value: greater(&self.value, value),
        }
    }

    fn joined(&self, behind: &Greatest) -> Greatest {
        order_is_total();
        Greatest {
            value: greater(&self.value, &behind.value),
        }
    }
}

/// The second of two values where it is below the first; NaN gives way.
fn lesser(least: &XFrac, value: &XFrac) -> XFrac
    ensures { result ≡ lesser_of least.now value.now }
{
    if is_nan(least) || compare(CompareOp::Lt, value, least) {
        *value
    } else {
        *least
    }
}

/// The second of two values where it is above the first; NaN gives way.
fn greater(most: &XFrac, value: &XFrac) -> XFrac
    ensures { result ≡ greater_of most.now value.now }
{
    if is_nan(most) || compare(CompareOp::Gt, value, most) {
        *value
    } else {
        *most
    }
}
