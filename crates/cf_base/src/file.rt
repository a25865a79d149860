//! Names of the files of a reel folder.
ghost use Rattle.std.specs.Prelude.{◌≡◌};
ghost use Rattle.cf_base.specs.FileId.{same_id};

/// A file of a reel folder. Its name on disk is this project's own rule.
#[derive(Clone, Copy, Debug, PartialEq, Eq, PartialOrd, Ord)]
pub enum FileId {
    /// The seal of the ledger.
    Seal,
    /// The body of the ledger, with one gate byte for each frame.
    Body,
    /// The seal of a ledger of version 2.
    Seal2,
    /// The body of a ledger of version 2.
    Body2,
    /// The contact sheet.
    Sheet,
    /// The picture file of a record frame: the number of its record reel, and its record frame number.
    Frame { reel: u16, frame: u32 },
}

/// Whether two names are one.
pub fn is_same_file(a: FileId, b: FileId) -> bool
    ensures { result ≡ same_id a b }
{
    match (a, b) {
        (FileId::Seal, FileId::Seal) => true,
        (FileId::Body, FileId::Body) => true,
        (FileId::Seal2, FileId::Seal2) => true,
        (FileId::Body2, FileId::Body2) => true,
        (FileId::Sheet, FileId::Sheet) => true,
        (
            FileId::Frame { reel, frame },
            FileId::Frame {
                reel: other_reel,
                frame: other_frame,
            },
        ) => reel == other_reel && frame == other_frame,
        _ => false,
    }
}
