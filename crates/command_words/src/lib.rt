//! The words of the command line: `clap` reads them as one simple command, and the line that they make is a row of the
//! table of commands or none.
#![tactic(auto)]

mod command;
mod laws;
mod line;

pub use command::{Command, command_of};
pub use laws::command_laws;
