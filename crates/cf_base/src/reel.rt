//! Source reels of a project.
use crate::{Items, Name, PathText};

/// A source reel: the frames from `start` on, `frames` in number, whose files are numbered from `file` on. A day of
/// the reel's own counting has `day` frames.
#[derive(Clone, Copy)]
pub struct ReelEntry {
    pub name: Name,
    /// What stands before the number in the names of its files.
    pub prefix: PathText,
    pub start: u32,
    pub day: u32,
    pub frames: u32,
    pub file: u32,
}

/// The reels of a project, in its order.
pub type ReelRows = Items<ReelEntry>;
