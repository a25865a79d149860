//! What is remembered of a call on the system that failed, to be told to people.
use arrayvec::ArrayString;
use std::fmt;
use std::io::{self, ErrorKind};

/// The bytes of the longest path: those of a folder, a slash, and the longest name of a file in it.
pub const LONGEST_PATH: usize = 255 + 1 + 16;

/// A path, relative to the current folder.
pub type FilePath = ArrayString<LONGEST_PATH>;

/// What was tried at a path.
#[derive(Clone, Copy, Debug, PartialEq, Eq)]
pub enum Tried {
    /// To see what stands there.
    Look,
    /// To open what stands there.
    Open,
    /// To make a file or a folder.
    Make,
    /// To remove a name of a file that has several.
    Remove,
    /// To take the lock.
    Lock,
    /// To read.
    Read,
    /// To write.
    Write,
    /// To make sure of what was written.
    Sync,
}

impl Tried {
    /// The word for it in a line for people.
    fn word(self) -> &'static str {
        match self {
            Tried::Look => "look",
            Tried::Open => "open",
            Tried::Make => "make",
            Tried::Remove => "remove",
            Tried::Lock => "lock",
            Tried::Read => "read",
            Tried::Write => "write",
            Tried::Sync => "sync",
        }
    }
}

/// Why a call failed: the path, what was tried there, and what the system said. If nothing was tried, the program itself
/// refused what it found, and the error's text says why.
#[derive(Clone, Copy)]
pub struct Trouble {
    path: FilePath,
    tried: Option<Tried>,
    error: io::Error,
}

impl Trouble {
    /// What the system answered.
    pub fn of(path: &FilePath, tried: Tried, error: io::Error) -> Trouble {
        Trouble {
            path: *path,
            tried: Some(tried),
            error,
        }
    }

    /// What the program refuses.
    pub fn refusal(path: &FilePath, kind: ErrorKind, why: &str) -> Trouble {
        Trouble {
            path: *path,
            tried: None,
            error: io::Error::new(kind, why),
        }
    }

    /// The path, relative to the current folder.
    pub fn path(&self) -> &str {
        self.path.as_str()
    }

    /// What was tried there; nothing, if the program itself refused what it found.
    pub fn tried(&self) -> Option<Tried> {
        self.tried
    }

    /// What the system answered, or why the program refused.
    pub fn error(&self) -> io::Error {
        self.error
    }

    /// Whether no such file was there.
    pub fn is_absence(&self) -> bool {
        self.error.kind() == ErrorKind::NotFound
    }
}

/// What the system answered, with the path and what was tried there.
pub fn told<T>(outcome: io::Result<T>, path: &FilePath, tried: Tried) -> Result<T, Trouble> {
    match outcome {
        Ok(value) => Ok(value),
        Err(error) => Err(Trouble::of(path, tried, error)),
    }
}

impl fmt::Display for Trouble {
    fn fmt<W: fmt::Write>(&self, f: &mut fmt::Formatter<W>) -> fmt::Result {
        let path = self.path();
        let error = self.error;
        match self.tried {
            Some(tried) => {
                let word = tried.word();
                write!(f, "{path}: {word}: {error}")
            }
            None => write!(f, "{path}: {error}"),
        }
    }
}
