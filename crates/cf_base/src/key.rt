//! Names of source frames.

/// A source frame: the place of its reel in the project, from 0, and its frame number in the day of that reel.
#[derive(Clone, Copy, Debug, PartialEq, Eq, PartialOrd, Ord)]
pub struct Key {
    pub reel: u16,
    pub source: u32,
}
