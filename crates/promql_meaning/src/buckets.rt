use xfrac::XFrac;

/// A bucket of a histogram: its upper bound, and how many observations are not above it.
#[derive(Clone, Copy)]
pub struct Bucket {
    pub bound: XFrac,
    pub count: XFrac,
}
