//! The reel of a project's job in the reel folder: a run on one thread (`run`), how far it is (`status`), whether what is done is
//! still whole (`verify`), the digests of its files (`sums`), counts over it (`qc`), and its contact sheet (`sheet`), as the text
//! that the command puts, or the outcome that it comes to.
#![tactic(auto)]

mod alone;
mod check;
mod contact;
mod digests;
mod progress;
mod quality;
mod report;

pub use alone::run;
pub use check::verify;
pub use contact::sheet;
pub use digests::sums;
pub use progress::status;
pub use quality::qc;
pub use report::{outcome_of_end, put_count, reply_of};
