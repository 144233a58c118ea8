use xfrac::{NumFault, XFrac};

/// What is made of a row: the place of the labels that it was fed under, and a value, nothing or a fault.
#[derive(Clone, Copy, Debug)]
pub struct PlacedOutcome {
    pub place: usize,
    pub value: Result<Option<XFrac>, NumFault>,
}
