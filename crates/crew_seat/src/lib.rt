//! What one worker of a crew has for itself, and what its steps may make of it: the seats of a crew are made before the workers
//! begin, and taken apart after they have returned.
#![tactic(auto)]

mod seat;
mod seats;
mod why;

pub use seat::Seat;
pub use seats::{seat_all, threads_each, unseat};
pub use why::{is_source_fault, why_of};
