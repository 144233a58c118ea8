//! Exact numbers: fractions within a fixed limit, the two infinities and NaN.
//! Its rows of tests stand in `number_tests`.
#![tactic(auto)]

mod arithmetic;
mod closeness;
mod divisors;
mod forming;
mod halves;
pub mod laws;
mod order;
mod power;
mod product;
mod ratio;
mod sums;
mod value;

pub use arithmetic::arith;
pub use closeness::near;
pub use forming::{abs, ceil, floor, neg, of};
pub use order::{cmp_total, compare};
pub use sums::SumAcc;
pub use value::{
    ArithOp, CompareOp, Frac, Held, LIMIT, NumFault, Overflow, PairOp, XFrac, is_nan, parts, whole,
    whole_count,
};
