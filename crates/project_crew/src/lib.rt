//! The reel of a project's job in the reel folder, run by a crew (`run_crewed`): the report that the command puts, or the
//! outcome that it comes to, and the scans and the disk that it was handed.
#![tactic(auto)]

mod crew;

pub use crew::{CrewEnded, CrewSize, run_crewed};
