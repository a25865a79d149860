//! The tables that are printed: the event table of an edit list, the plan of a job, and its pull list.
#![tactic(auto)]

mod plan;
mod pull;
mod table;

pub use plan::plan_of;
pub use pull::pull_of;
pub use table::event_table;
