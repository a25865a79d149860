//! Decoded source frames that several workers share: a list of at most so many, the last used first, and a log of what
//! was asked for and put there. How the list goes is this project's own rule.
#![tactic(auto)]

mod laws;
mod place;
mod share;
mod shares;
mod step;
mod ticket;
mod units;

pub use laws::share_laws;
pub use share::{Ask, Placed, Share};
pub use shares::Shares;
pub use step::{ShareLog, ShareStep};
pub use ticket::Ticket;
pub use units::Units;
