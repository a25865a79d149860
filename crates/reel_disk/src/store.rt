//! The files of a disk in memory, its loose places, and each step so far with what it takes to go back.
ghost use Rattle.std.specs.Prelude.{◌≡◌, ◌+◌, ◌-◌, ◌<◌, ◌≤◌, length, take, drop, min, ◌++◌, ◌∷◌, [], OnOk, OnErr, IfOk, MatchOption, Some, None, vec_len, vec_capacity, filter, not};
ghost use Rattle.reel_disk.specs.Disk.{view_of, HasFailedAt, HasLength, HasWrittenAt, HasWrittenWhole, SameBut, IsStill, IsSynced, IsInFile, with_range, overwritten};
ghost use Rattle.reel_disk.specs.Memory.{history_of, find_file, content_of};
ghost use Rattle.reel_disk.specs.inside.Memory.{GivesBack, HasRoom, IsSameStore, file_of_place, stored};
ghost use Rattle.cf_base.specs.FileId.{same_id};
ghost use Rattle.reel_disk.specs.declared.disk.Did.TheVariants.{Done};
ghost use Rattle.reel_disk.specs.declared.disk.Length.TheVariants.{There};
ghost use Rattle.cf_base.specs.declared.file.FileId.{FileId};

use crate::Place;
use cf_base::{FileId, is_same_file};
use std::alloc::{AllocError, Global};
use std::collections::BTreeMap;
use std::mem::replace;

/// What was done, with what was there before.
#[derive(Drop)]
pub(crate) enum Step {
    /// A write failed: its place became loose, and no file changed.
    Loosened,
    /// A file was written whole.
    Wrote {
        id: FileId,
        before: Option<Vec<u8>>,
    },
    /// A part of a file was written, from byte `start` on.
    Patched {
        id: FileId,
        start: usize,
        before: Vec<u8>,
    },
    /// A file was synced: these were the loose places.
    Synced {
        before: Vec<Place>,
    },
}

/// What a disk in memory holds. The newest loose place comes first, and the oldest step.
#[derive(Drop)]
pub(crate) struct Store {
    pub(crate) files: BTreeMap<FileId, Vec<u8>>,
    pub(crate) loose: Vec<Place>,
    pub(crate) steps: Vec<Step>,
}

/// Gives a file these bytes, and hands back what was there.
pub(crate) fn put(
    files: &mut BTreeMap<FileId, Vec<u8>>,
    id: FileId,
    bytes: Vec<u8>,
) -> Result<Option<Vec<u8>>, AllocError>
    ensures before { IfOk result (λ before. content_of before ≡ find_file files.old id) }
    ensures there { OnOk result (find_file files.new id ≡ Some bytes.items) }
    ensures same { OnOk result (SameBut id (find_file files.old) (find_file files.new)) }
    ensures err { OnErr result ((q : FileId) → find_file files.new q ≡ find_file files.old q) }
{
    match files.insert(id, bytes) {
        Ok(before) => Ok(before),
        Err(_) => Err(AllocError),
    }
}

/// Writes over a part of some bytes, and hands back what was there.
fn patch_bytes(
    alloc: Global,
    file: &mut Vec<u8>,
    start: usize,
    bytes: &[u8],
) -> Result<Vec<u8>, AllocError>
    requires { start + length bytes.now ≤ vec_len file.old }
    ensures before { IfOk result (λ before. before.items ≡ take (length bytes.now) (drop start file.old.items)) }
    ensures written { OnOk result (file.new.items ≡ overwritten file.old.items start bytes.now) }
    ensures err { OnErr result (file.new.items ≡ file.old.items) }
{
    let end = start + bytes.len();
    let before = file[start..end].to_vec(alloc)?;
    file[start..end].copy_from_slice(bytes);
    Ok(before)
}

/// Writes over a part of a file, and hands back what was there.
fn patch(
    alloc: Global,
    files: &mut BTreeMap<FileId, Vec<u8>>,
    id: FileId,
    start: usize,
    bytes: &[u8],
) -> Result<Vec<u8>, AllocError>
    requires { IsInFile (find_file files.old id) start (length bytes.now) }
    ensures before { IfOk result (λ before. GivesBack (find_file files.old id) start bytes.now before.items) }
    ensures there { OnOk result (find_file files.new id ≡ with_range (find_file files.old id) start bytes.now) }
    ensures same { OnOk result (SameBut id (find_file files.old) (find_file files.new)) }
    ensures err { OnErr result ((q : FileId) → find_file files.new q ≡ find_file files.old q) }
{
    match files.get_mut(&id) {
        Some(file) => match patch_bytes(alloc, file, start, bytes) {
            Ok(before) => Ok(before),
            Err(refused) => Err(refused),
        },
        None => Err(AllocError),
    }
}

fn push_in_room<T: Drop>(list: &mut Vec<T>, item: T)
    requires { vec_len list.old < vec_capacity list.old }
    ensures { list.new.items ≡ list.old.items ++ item ∷ [] }
{
    let _ = list.push(item);
}

/// The newest loose place goes first.
fn loosen_place(loose: &mut Vec<Place>, place: Place)
    requires { vec_len loose.old < vec_capacity loose.old }
    ensures { loose.new.items ≡ place ∷ loose.old.items }
{
    let _ = loose.insert(0, place);
}

/// Room for one more loose place and one more step.
fn make_room(store: &mut Store) -> Result<(), AllocError>
    ensures same { IsSameStore store.old store.new }
    ensures room { OnOk result (HasRoom store.new) }
{
    store.loose.reserve(1)?;
    store.steps.reserve(1)?;
    Ok(())
}

/// A write that fails leaves its place loose, where there is room to say so.
pub(crate) fn loosen(store: &mut Store, place: Place)
    ensures time { HasFailedAt (history_of store.old) (history_of store.new) place }
    ensures files { (q : FileId) → view_of (history_of store.new) q ≡ view_of (history_of store.old) q }
{
    if make_room(store).is_ok() {
        loosen_place(&mut store.loose, place);
        push_in_room(&mut store.steps, Step::Loosened);
    }
}

/// Gives a file these bytes and no others.
pub(crate) fn write_file(
    alloc: Global,
    store: &mut Store,
    id: FileId,
    bytes: &[u8],
) -> Result<(), AllocError>
    ensures ok { OnOk result (HasWrittenWhole (history_of store.old) (history_of store.new) id bytes.now Done) }
    ensures err { OnErr result (IsStill (history_of store.old) (history_of store.new)) }
{
    let copy = bytes.to_vec(alloc)?;
    make_room(store)?;
    let before = put(&mut store.files, id, copy)?;
    loosen_place(&mut store.loose, Place::Whole(id));
    push_in_room(&mut store.steps, Step::Wrote { id, before });
    Ok(())
}

/// Writes over a part of a file, from byte `start` on.
pub(crate) fn write_part(
    alloc: Global,
    store: &mut Store,
    id: FileId,
    start: u64,
    bytes: &[u8],
) -> Result<(), AllocError>
    requires { IsInFile (view_of (history_of store.old) id) start (length bytes.now) }
    ensures ok { OnOk result (HasWrittenAt (history_of store.old) (history_of store.new) id start bytes.now Done) }
    ensures err { OnErr result (IsStill (history_of store.old) (history_of store.new)) }
{
    make_room(store)?;
    let from = start as usize;
    let before = patch(alloc, &mut store.files, id, from, bytes)?;
    let len = bytes.len() as u64;
    loosen_place(&mut store.loose, Place::Range { id, start, len });
    push_in_room(
        &mut store.steps,
        Step::Patched {
            id,
            start: from,
            before,
        },
    );
    Ok(())
}

fn place_file(place: Place) -> FileId
    ensures { result ≡ file_of_place place }
{
    match place {
        Place::Whole(id) => id,
        Place::Range { id, .. } => id,
    }
}

/// The places but those of one file.
fn others(alloc: Global, loose: &[Place], id: FileId) -> Result<Vec<Place>, AllocError>
    ensures { IfOk result (λ left. left.items ≡ filter (λ place. not (same_id (file_of_place place) id)) loose.now) }
{
    loose
        .iter()
        .copied()
        .filter(|place| !is_same_file(place_file(*place), id))
        .collect(alloc)
}

/// No place of the file is loose any more.
pub(crate) fn settle(alloc: Global, store: &mut Store, id: FileId) -> Result<(), AllocError>
    ensures ok { OnOk result (IsSynced (history_of store.old) (history_of store.new) id) }
    ensures err { OnErr result (IsStill (history_of store.old) (history_of store.new)) }
{
    let left = others(alloc, &store.loose, id)?;
    make_room(store)?;
    let before = replace(&mut store.loose, left);
    push_in_room(&mut store.steps, Step::Synced { before });
    Ok(())
}

/// The bytes of a file.
pub(crate) fn bytes_of(store: &Store, id: FileId) -> Option<&[u8]>
    ensures { MatchOption result (stored store.now id ≡ None) (λ bytes. stored store.now id ≡ Some bytes.now) }
{
    match store.files.get(&id) {
        Some(bytes) => Some(bytes),
        None => None,
    }
}

/// How long a file is.
pub(crate) fn length_of(store: &Store, id: FileId) -> Option<u64>
    ensures { MatchOption result (stored store.now id ≡ None) (λ n. HasLength (stored store.now id) (There n)) }
{
    match bytes_of(store, id) {
        Some(bytes) => Some(bytes.len() as u64),
        None => None,
    }
}

/// Copies from a place on, as much as there is and fits.
pub(crate) fn copy_from(bytes: &[u8], start: u64, into: &mut [u8]) -> usize
    ensures count { result ≡ min (length into.old) (length bytes.now - start) }
    ensures copied { take result into.new ≡ take result (drop start bytes.now) }
{
    let from = (start.min(bytes.len() as u64)) as usize;
    let n = into.len().min(bytes.len() - from);
    into[..n].copy_from_slice(&bytes[from..from + n]);
    n
}
