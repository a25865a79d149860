//! The job of a conform: its parts, what each needed source frame's file says of its pixels, and the name of a job in
//! contracts. The rules are this project's own.
#![tactic(auto)]

mod cuts;
mod digest;
mod frames;
mod infos;
mod job;
mod lines;
mod need;
mod parts;
mod work;

pub use digest::job_digest;
pub use job::Job;
pub use need::Need;
pub use parts::{JobFault, JobParts};
pub use work::Work;
