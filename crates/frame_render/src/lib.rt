//! Frames of the reel: the file of one record frame, from the source frames that it needs. What a
//! pixel shows is this project's own rule; the file is DPX (SMPTE 268M), 10-bit RGB.
#![tactic(auto)]

mod buffer;
mod decoded;
mod file;
mod line;
mod picture;
mod reheaded;
mod rendered;
mod rooms;

pub use buffer::{FrameBuf, WordBuf};
pub use decoded::Decoded;
pub use file::{render, render_forked};
pub use reheaded::rehead;
pub use rendered::Rendered;
pub use rooms::{Rooms, Spare};
