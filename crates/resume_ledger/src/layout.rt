//! The two versions of the ledger, and what they differ in.
ghost use Rattle.std.specs.Prelude.{◌≡◌, ◌≤◌, IfSome};
ghost use Rattle.resume_ledger.specs.Body.{layout_of};
ghost use Rattle.resume_ledger.specs.inside.Body.{IsCountFor};

use cf_base::{FRAMES, FileId};

/// A version of the ledger.
#[derive(Clone, Copy, Debug, PartialEq, Eq)]
pub enum Version {
    /// One byte for each frame, its gate. A folder of this version is taken over, and its files are never written.
    One,
    /// For each frame a gate and the SHA-256 of its file.
    Two,
}

impl Version {
    /// The file of the seal.
    pub(crate) fn seal(self) -> FileId
        ensures { result ≡ (layout_of self).seal }
    {
        match self {
            Version::One => FileId::Seal,
            Version::Two => FileId::Seal2,
        }
    }

    /// The file of the body.
    pub(crate) fn body(self) -> FileId
        ensures { result ≡ (layout_of self).body }
    {
        match self {
            Version::One => FileId::Body,
            Version::Two => FileId::Body2,
        }
    }

    /// The whole content of the seal.
    pub(crate) fn mark(self) -> [u8; 15]
        ensures { result ≡ (layout_of self).mark }
    {
        match self {
            Version::One => *b"CONFORM SEAL 1\n",
            Version::Two => *b"CONFORM SEAL 2\n",
        }
    }

    /// The first eight bytes of a body.
    pub(crate) fn magic(self) -> [u8; 8]
        ensures { result ≡ (layout_of self).magic }
    {
        match self {
            Version::One => *b"CFLEDGR1",
            Version::Two => *b"CFLEDGR2",
        }
    }

    /// The byte of a frame's gate in a body.
    pub(crate) fn gate(self, i: u32) -> usize
        ensures { result ≡ (layout_of self).gate i }
    {
        match self {
            Version::One => 64 + i as usize,
            Version::Two => 64 + 33 * i as usize,
        }
    }

    /// The length of the longest body, in bytes.
    pub(crate) fn most(self) -> u64
        ensures { result ≡ (layout_of self).most }
    {
        match self {
            Version::One => 64 + u64::from(FRAMES),
            Version::Two => 64 + 33 * u64::from(FRAMES),
        }
    }

    /// How many frames a body of that many bytes is for.
    pub(crate) fn frames(self, len: usize) -> Option<u32>
        requires { len ≤ (layout_of self).most }
        ensures exact { IsCountFor (layout_of self) len result }
        ensures behind { IfSome result (λ frames. 64 ≤ len) }
    {
        if len < 64 {
            return None;
        }
        let rest = len - 64;
        match self {
            Version::One => Some(rest as u32),
            Version::Two if rest % 33 == 0 => Some((rest / 33) as u32),
            Version::Two => None,
        }
    }
}
