//! Limits of which more than one crate speaks. Each has its number here alone; code, clauses and definitions have its name.

/// How many record frames a reel has at most: this project's own rule (refusal 7.2).
pub const FRAMES: u32 = 262_144;

/// How many workers a crew has at most, each with a scan of its own: this project's own rule.
pub const WORKERS: usize = 16;

/// How many decoded source frames are shared at most: this project's own rule.
pub const SHARED: u32 = 16;

/// How many probes a table has at most: this project's own rule.
pub const PROBES: usize = 16;

/// How many bytes a file's header has that is written here, and the least that is read (SMPTE 268M).
pub const HEADER: usize = 2048;

/// The greatest width and height of a picture, in pixels: this project's own rule.
pub const LARGEST: u32 = 4096;

/// The most frames of a source reel, and of a transition: a day at 30 frames per second (SMPTE ST 12-1).
pub const LONGEST: u32 = 2_592_000;

/// How many bytes a project has at most: this project's own rule (refusal 14.1).
pub const PROJECT_BYTES: usize = 1_048_576;

/// How many bytes a cube has at most: this project's own rule (refusal 10.8).
pub const CUBE_BYTES: usize = 100_663_296;

/// How many bytes an edit decision list has at most: this project's own rule (refusal 3.7).
pub const LIST_BYTES: usize = 4_194_304;

/// How many bytes of a file are read at a time, where it isn't read whole.
pub const PIECE: usize = 65_536;
