//! The command `adopt`: the reel of a project's job in the reel folder. Frames of the old reel of another project that have an
//! equal plan are taken over, and the rest is rendered, as the text that the command puts, or the outcome that it comes to.
#![tactic(auto)]

mod plans;
mod reels;
mod report;

pub use plans::adopt;
