//! Source frames, asked for and, where they aren't shared, loaded; and a record frame, made of those that it needs. How a run
//! ends stands here too, since a frame that can't be made ends it.
#![tactic(auto)]

mod loader;
mod loading;
mod run_end;

pub use loader::Loader;
pub use run_end::RunEnd;
