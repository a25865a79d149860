//! Source files: a trait that reads them by path, scans over files in memory, of which some change or are all alike, and
//! one over the file system.
#![tactic(auto)]

mod first;
mod lent;
mod memory;
mod same;
mod scans;
mod system;
mod turning;

pub use first::head_of;
pub use memory::MemoryScans;
pub use same::SameScans;
pub use scans::{Head, Loaded, Scans};
pub use system::FileScans;
pub use turning::TurningScans;
