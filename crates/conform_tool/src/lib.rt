//! The top call: what the words of a command line come to, over scans, folders and an output that are handed in.
//!
//! `conform` does all that the program does: a run with several workers is a crew's, and all else is `answer`'s, which does it on
//! one thread.
#![tactic(auto)]

mod top;

pub use command_answers::answer;
pub use top::{Ended, conform};
