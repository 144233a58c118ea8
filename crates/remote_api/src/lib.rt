//! Engines, each of which holds a part of the samples: a trait of what they are told and asked, what makes a delivery of theirs a
//! stray, and couriers, who pick the engine that is pulled next.
#![tactic(auto)]

mod asks;
mod checking;
mod couriers;
mod engine;
mod frame;

pub use asks::{Ask, Part};
pub use checking::CheckFault;
pub use couriers::{Courier, InOrder, Listed, Turns};
pub use engine::{Engine, EngineFail, Pulled};
pub use frame::{Frame, Stray};
