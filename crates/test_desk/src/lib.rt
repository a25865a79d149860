//! The desk job in memory, which several crates of tests run: a project of two reels, its list and its 96 scans of 2 by 2
//! pixels, what its reel holds, and scans over its files that see one another.
#![tactic(auto)]

mod desk;
mod together;

pub use desk::{
    Desk, LIST, TWO, desk_scans, files_of, has_reels, is_whole, lined_picture, put_file, report,
    scans_of,
};
pub use together::{Together, scans_together};
