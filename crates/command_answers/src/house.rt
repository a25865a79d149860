//! How the program counts, hashes and shows, as it is handed in.
use frame_hash::Hasher;
use reel_qc::{Counter, Probe, Tone};

/// How a command counts, hashes and shows: what the program hands in beside words, scans and folders.
#[derive(Drop)]
pub struct House<'c, 'p, 't, C: Counter + Hasher> {
    /// On how many threads words are counted and digests are made.
    pub counter: &'c C,
    /// What the quality table counts.
    pub probes: &'p [Probe],
    /// The curve of the contact sheet.
    pub tone: &'t Tone,
}
