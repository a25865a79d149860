//! The calls that were made on a disk, as clauses see them. They take no memory, and to note one does nothing at run time.
ghost use Rattle.std.specs.Prelude.{◌≡◌, List, [], ◌∷◌};
ghost use Rattle.std.specs.Borrow.{ftrue};
ghost use Rattle.std.specs.Coded.{coded_list};
ghost use Rattle.reel_disk.specs.Call.{Call};
ghost use Rattle.reel_disk.specs.inside.CallCode.{call_code};

use crate::{Did, Got, Length};
use cf_base::FileId;
use std::marker::Model;

/// The calls, the newest first.
#[derive(Drop)]
pub(crate) struct Calls {
    ghost list: { List Call } by { coded_list call_code },
}

impl Model for Calls {
    ghost also_owns = { λ _. ftrue };
}

// It owns nothing.
unsafe impl Send for Calls {}

/// One call, with what it was given and what it answered.
#[derive(Clone, Copy, Drop)]
pub(crate) enum Note<'a> {
    Length(FileId, Length),
    Read(FileId, u64, &'a [u8], Got),
    WriteWhole(FileId, &'a [u8], Did),
    WriteAt(FileId, u64, &'a [u8], Did),
    Sync(FileId, Did),
}

impl Calls {
    ghost use Rattle.reel_disk.specs.inside.Noted.{call_of};

    pub(crate) fn new() -> Calls
        ensures { result.list ≡ [] }
    {
        Calls {}
    }

    #[inline(always)]
    pub(crate) fn then(&self, _note: &Note<'_>) -> Calls
        ensures { result.list ≡ call_of _note.now ∷ self.now.list }
    {
        Calls {}
    }
}
