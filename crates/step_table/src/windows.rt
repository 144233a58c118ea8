use label_set::{Items, Labels};
use ticks::Ms;
use xfrac::XFrac;

/// The samples of one window under its labels, in rising time: times in milliseconds, and as many values.
#[derive(Drop)]
pub struct WindowRow {
    pub labels: Labels,
    pub times: Items<Ms>,
    pub values: Items<XFrac>,
}
