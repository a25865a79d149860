//! The reel of a job being written: a frame's file first, then its SHA-256 and its gate in the ledger.
#![tactic(auto)]

mod ahead;
mod damage;
mod files;
mod hashed;
mod reel;
mod store;
mod whole;

pub use damage::{CheckFault, check};
pub use hashed::Hashed;
pub use reel::Reel;
pub use whole::read_whole;
