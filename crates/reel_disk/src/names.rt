//! The names of the files of a reel folder.
ghost use Rattle.std.specs.Prelude.{◌≡◌, IfSome};
ghost use Rattle.reel_disk.specs.Names.{file_name};
ghost use Rattle.reel_disk.specs.inside.Names.{HasName};

use arrayvec::ArrayString;
use cf_base::{FileId, frame_file_name};

/// The bytes of the longest name.
pub(crate) const LONGEST_NAME: usize = 16;

/// The name of a file: `conform.seal`, `conform.body`, `conform.seal2`, `conform.body2`, `sheet.dpx`, or for a frame the
/// name in its header. A frame whose reel needs more than three digits, or its number more than seven, has none. This
/// project's own rule.
pub(crate) fn name_of(id: FileId) -> Option<ArrayString<LONGEST_NAME>>
    ensures { IfSome result (λ name. HasName id × (name.bytes ≡ file_name id)) }
{
    match id {
        FileId::Seal => short("conform.seal"),
        FileId::Body => short("conform.body"),
        FileId::Seal2 => short("conform.seal2"),
        FileId::Body2 => short("conform.body2"),
        FileId::Sheet => short("sheet.dpx"),
        FileId::Frame { reel, frame } => {
            if reel > 999 || frame > 9_999_999 {
                return None;
            }
            ArrayString::from_byte_string(&frame_file_name(reel, frame)).ok()
        }
    }
}

fn short(name: &str) -> Option<ArrayString<LONGEST_NAME>>
    ensures { IfSome result (λ text. text.bytes ≡ name.now) }
{
    ArrayString::from(name).ok()
}
