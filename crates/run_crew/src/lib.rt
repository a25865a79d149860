//! A run by several workers: the reel of a job rendered into its folder, frame after frame. `run_alone`, the shared value and
//! what a worker does are passed on, so that those above a crew know this crate alone.
#![tactic(auto)]

mod crew;
mod each;
mod work;

pub use crew::{Crew, run_crew};
pub use crew_seat::Seat;
pub use crew_worker::{Shared, SharedFrames};
pub use frame_fetch::RunEnd;
pub use frame_share::{ShareLog, ShareStep};
pub use run_alone::{Report, Task, run_alone};
pub use station::{Crewed, Marks, Station};
