//! The pixels of a DPX file as words of 32 bits: 10-bit RGB, filled by method A (SMPTE 268M). Nothing here takes memory.
#![tactic(auto)]

mod file;
mod word;

pub use file::{pack, unpack};
pub use word::{rgb_of, word_of};
