//! A reel of a changed list that takes over the pixels of frames of an old reel. Two frames of alike jobs look the same where
//! they have one plan: what is shown, without the frame's label, its header and how long its transition is.
#![tactic(auto)]

mod adopting;
mod ahead;
mod donors;
mod frames;
mod plan;
mod takeover;
mod whole;

pub use adopting::{AdoptFault, Adopted, adopt};
pub use plan::{FramePlan, PlanSide, are_alike, plan_at, plan_laws};
