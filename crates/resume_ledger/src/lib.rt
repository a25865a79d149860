//! Which frames of a reel are done, kept in the reel's own folder so that a crash loses none of it.
//!
//! The ledger has two files. The body has a gate byte for each frame, which is opened only once the frame's file and its
//! SHA-256, the frame's record, are safe. The seal says that the body counts, and is written only once the body is safe. The
//! first version of the ledger had other files and no records: a folder of it is taken over. The bytes of all, and what
//! they mean, are this project's own rule.
#![tactic(auto)]

mod attach;
mod body;
mod hash;
mod laws;
mod layout;
mod ledger;
mod look;
mod older;
mod sealed;
mod write;

pub use attach::OpenFault;
pub use hash::{digest_of_file, hash_of_file};
pub use laws::ledger_laws;
pub use layout::Version;
pub use ledger::Ledger;
pub use look::LedgerView;
pub use write::write_firmly;
