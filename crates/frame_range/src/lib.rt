//! Which frames of a job are run: all of them, or those of part k of n.
#![tactic(auto)]

mod laws;
mod range;

pub use laws::part_laws;
pub use range::{Extent, FrameRange, range_of};
