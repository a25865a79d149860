//! Bands of a picture, as words of pixels (SMPTE 268M, method A): filled, copied, mixed of two sides, chosen from them, and
//! seen under a look. Each place is what its pixel is by the rules of trans_mix and tetra_look, for every length. Nothing
//! here takes memory.
#![tactic(auto)]

mod blend;
mod look;
mod plain;
mod wipe;

pub use blend::blend_band;
pub use look::{look_band, seen_band};
pub use plain::{copy_band, fill_band};
pub use wipe::{WipeFrame, wipe_band};
