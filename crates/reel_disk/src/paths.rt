//! The paths below a reel folder.
use crate::names::name_of;
use arrayvec::ArrayString;
use cf_base::{FileId, FilePath, PathText, Trouble};
use std::fmt::Write as _;
use std::io::ErrorKind;
use std::str;

/// A path that has no room, or no text: it isn't reached.
fn no_path(path: &FilePath) -> Trouble {
    Trouble::refusal(path, ErrorKind::InvalidInput, "no file has this name")
}

/// The path of the folder itself.
pub(crate) fn folder_path(folder: &PathText) -> Result<FilePath, Trouble> {
    let mut path = ArrayString::new();
    let Ok(text) = str::from_utf8(folder.bytes()) else {
        return Err(no_path(&path));
    };
    match path.try_push_str(text) {
        Ok(()) => Ok(path),
        Err(_) => Err(no_path(&path)),
    }
}

/// The path of a name in the folder.
fn path_below(folder: &PathText, name: &str) -> Result<FilePath, Trouble> {
    let mut path = folder_path(folder)?;
    match write!(path, "/{name}") {
        Ok(()) => Ok(path),
        Err(_) => Err(no_path(&path)),
    }
}

/// The path of the folder that the folder lies in: also where its own path is that of a link to it.
pub(crate) fn parent_path(folder: &PathText) -> Result<FilePath, Trouble> {
    path_below(folder, "..")
}

/// The path of a file of the folder.
pub(crate) fn file_path(folder: &PathText, id: FileId) -> Result<FilePath, Trouble> {
    match name_of(id) {
        Some(name) => path_below(folder, name.as_str()),
        None => Err(no_path(&folder_path(folder)?)),
    }
}
