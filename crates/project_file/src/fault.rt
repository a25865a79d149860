//! What a project file does wrong.

/// What is wrong. The numbers are this project's own.
#[derive(Clone, Copy, Debug, PartialEq, Eq)]
pub enum ProjectKind {
    /// 14.1: over 1,048,576 bytes, or a text that `toml` doesn't read as a table. Key 0 and reel 0.
    Text,
    /// 14.2: a key that has to be there isn't.
    MissingKey,
    /// 14.3: the value has another type than the key's, or a list has a member of another type.
    WrongType,
    /// 14.4: the value isn't in the key's range, or a list has another length.
    OutOfRange,
    /// 14.5: a key that a project file doesn't have. Key 0.
    UnknownKey,
}

/// What is wrong, and at which key: keys have the numbers 1 to 16 of the table at `read_project`, reels count from 1, and
/// reel 0 is the top.
#[derive(Clone, Copy, Debug, PartialEq, Eq)]
pub struct ProjectFault {
    pub kind: ProjectKind,
    pub key: u8,
    pub reel: u32,
}

/// Where a key stands.
#[derive(Clone, Copy)]
pub struct Place {
    pub key: u8,
    pub reel: u32,
}

impl Place {
    ghost use Rattle.std.specs.Prelude.{◌≡◌};
    ghost use Rattle.project_file.specs.Keys.{fault};
    ghost use Rattle.project_file.specs.Projects.{top};

    /// A key at the top.
    pub(crate) fn top(key: u8) -> Place
        ensures { result ≡ top key }
    {
        Place { key, reel: 0 }
    }

    /// What is wrong there.
    pub(crate) fn fault(self, kind: ProjectKind) -> ProjectFault
        ensures { result ≡ fault kind self }
    {
        ProjectFault {
            kind,
            key: self.key,
            reel: self.reel,
        }
    }
}
