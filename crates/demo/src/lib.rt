//! The demonstration: a project, its edit list and the source frames that it needs, made in memory from nothing but a number of
//! events. Each four events are a cut, a dissolve, a wipe and a cut at half speed. The job is planned and run over an empty disk in
//! memory, and what the disk holds then is told by a digest. All of it is this project's own rule.
#![tactic(auto)]

mod counts;
mod digest;
mod files;
mod picture;
mod run;
mod scans;
mod shown;
mod texts;

pub use counts::{record_count, source_count};
pub use shown::demo;
