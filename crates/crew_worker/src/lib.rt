//! A worker's part of a run by a crew: it claims frames, makes them of source frames that the workers share, and hands them in.
#![tactic(auto)]

mod rounds;
mod shared_frames;
mod turns;

pub use rounds::Shared;
pub use shared_frames::SharedFrames;
