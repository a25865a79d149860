//! Rendered frames with the SHA-256 of their files.
ghost use Rattle.std.specs.Prelude.{◌≡◌};
ghost use Rattle.sha2.specs.Sha256.{sha256};

use conform_job::Work;
use frame_render::Rendered;
use sha2::{Digest, Sha256};
use std::marker::Model;

/// A rendered frame of N's job with the SHA-256 (FIPS 180-4) of its file. Contracts see the frame.
///
/// The digest takes as long as a read of the whole file, so it is made here, by whoever rendered the
/// frame, and not in a finish, which holds others up.
#[derive(Drop)]
pub struct Hashed<N: Work> {
    frame: Rendered<N>,
    hash: [u8; 32],
}

impl<N: Work> Model for Hashed<N> {
    ghost use Rattle.std.specs.Prelude.{◌≡◌};
    ghost use Rattle.sha2.specs.Sha256.{sha256};
    ghost use Rattle.frame_render.specs.Frame.{FrameBytes};

    ghost Value = { FrameBytes };

    ghost view = { λ h. h.frame };

    ghost invariant = { λ h. h.hash ≡ sha256 h.frame.bytes };
}

impl<N: Work> Hashed<N> {
    /// Makes the digest of a rendered frame's file. Takes no memory.
    pub fn of(frame: Rendered<N>) -> Hashed<N>
        ensures { result ≡ frame }
    {
        let hash = Sha256::digest(frame.bytes());
        Hashed { frame, hash }
    }

    /// A rendered frame whose file's digest was made already.
    pub fn with(frame: Rendered<N>, hash: [u8; 32]) -> Hashed<N>
        requires hash { hash ≡ sha256 frame.bytes }
        ensures { result ≡ frame }
    {
        Hashed { frame, hash }
    }

    /// The frame.
    pub fn frame(&self) -> &Rendered<N>
        ensures { result.now ≡ self.now }
    {
        &self.frame
    }

    /// The SHA-256 of its file.
    pub fn hash(&self) -> [u8; 32]
        ensures { result ≡ sha256 self.now.bytes }
    {
        self.hash
    }

    /// The frame, without its digest.
    pub fn into_frame(self) -> Rendered<N>
        ensures { result ≡ self }
    {
        let Hashed { frame, .. } = self;
        frame
    }
}
