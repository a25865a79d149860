//! What one worker has for itself.
use conform_job::Work;
use frame_fetch::Loader;
use scan_source::Scans;
use station::{Crewed, Marks};

/// What one worker of a run of N's job has for itself.
#[derive(Drop)]
pub struct Seat<S: Scans, N: Work, C: Crewed> {
    /// Which worker it is, from 0.
    pub number: u16,
    /// In how many threads it renders a frame, its own among them; 0 is 1.
    pub threads: u32,
    /// Its shares of the totals of stops, and of what claimed frames need.
    pub marks: Marks<C>,
    /// What it loads source frames with: its scan, and its share of the total of misses.
    pub loader: Loader<N, C::Misses, S>,
    /// Whether a load of it failed, which ends its work.
    pub has_failed: bool,
}
