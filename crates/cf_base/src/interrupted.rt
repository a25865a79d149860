//! Calls on the system that a signal interrupts.
use std::io::{self, ErrorKind};

/// Makes a call on the system, and makes it again as long as a signal interrupts it.
pub fn again<T, F: FnMut() -> io::Result<T>>(mut call: F) -> io::Result<T>
    requires { F.IsAlwaysCallable call }
{
    for _ in 0..u64::MAX {
        match call() {
            Err(error) if error.kind() == ErrorKind::Interrupted => {}
            answer => return answer,
        }
    }
    Err(io::Error::from(ErrorKind::Interrupted))
}
