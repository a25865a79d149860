//! Stand-ins of the outside that several crates of tests use: a disk that notes the calls on it, scans whose loads pass a gate
//! first, and a writer that takes one byte at a time until its room is used up.
#![tactic(auto)]

mod gated;
mod noted;
mod slow;

pub use gated::{Gate, GatedScans};
pub use noted::{Call, Noted, Notes};
pub use slow::Slow;
