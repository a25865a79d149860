//! The files of one reel folder on a disk that a crash may catch at any moment: what a disk promises, a disk in memory
//! that is as hostile as the promise lets it be, and the folder of a real file system.
#![tactic(auto)]

mod crash;
mod disk;
mod folder;
mod lock;
mod made;
mod memory;
mod names;
mod paths;
mod plain;
mod reel_files;
mod start;
mod store;

pub use disk::{Did, Disk, DiskFail, DiskFault, Got, Length, Place};
pub use folder::FolderDisk;
pub use lock::LockFiles;
pub use memory::MemoryDisk;
pub use reel_files::Lacks;
pub use start::Start;
