//! The quality table of a reel: counts over the words of each acknowledged frame's file, by functions that the caller hands in.
//! And its contact sheet: a small picture of each event's first frame, under a tone that the caller hands in, as one file.
//!
//! A frame's file is read as it lies in the folder, also where it is damaged. A table writes nothing, and a sheet its own file
//! alone. The counts of a frame can be made in pieces by several threads, and are the same then.
#![tactic(auto)]

mod hashing;
mod sheet;
mod table;
mod words;

pub use sheet::{SheetDone, Tone, ToneTable, make_sheet, square, square_table};
pub use table::{
    Counter, Forked, OneThread, Probe, ProbeKind, count_forked, high, low, quality_table, sum,
};
pub use words::{PIXELS, frame_words};
