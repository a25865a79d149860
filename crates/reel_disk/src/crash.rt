//! What a crash leaves of a disk in memory.
ghost use Rattle.std.specs.Prelude.{◌≡◌, ℕ, ◌-◌, List, Option, Some, None, IfOk, OnOk};
ghost use Rattle.reel_disk.specs.Disk.{Files, SameBut, IsLooseAt, view_of};
ghost use Rattle.reel_disk.specs.Crash.{IsEach, IsEarlier, IsTurned, IsPicked, IsCrash};
ghost use Rattle.reel_disk.specs.inside.Crash.{WasFirm};
ghost use Rattle.reel_disk.specs.Memory.{history_of, history_from, find_file, content_of, put_back, loose_before, view_before};
ghost use Rattle.reel_disk.specs.inside.Memory.{IsLeft, is_whole_of, has_byte, is_whole_loose, is_byte_loose, byte_of};

use crate::Place;
use crate::store::{Step, Store, bytes_of, put};
use cf_base::{FileId, is_same_file};
use std::alloc::{AllocError, Global};
use std::collections::BTreeMap;

fn is_whole(place: Place, id: FileId) -> bool
    ensures { result ≡ is_whole_of id place }
{
    match place {
        Place::Whole(file) => is_same_file(file, id),
        Place::Range { .. } => false,
    }
}

fn covers(place: Place, id: FileId, k: u64) -> bool
    ensures { result ≡ has_byte id k place }
{
    match place {
        Place::Whole(_) => false,
        Place::Range {
            id: file,
            start,
            len,
        } => is_same_file(file, id) && (start <= k && k - start < len),
    }
}

/// Whether the file is loose as a whole.
fn whole_loose(loose: &[Place], id: FileId) -> bool
    ensures { result ≡ is_whole_loose loose.now id }
{
    loose.iter().any(|place| is_whole(*place, id))
}

/// Whether a loose range has this byte.
fn byte_loose(loose: &[Place], id: FileId, k: u64) -> bool
    ensures { result ≡ is_byte_loose loose.now id k }
{
    loose.iter().any(|place| covers(*place, id, k))
}

/// The loose places before a step.
fn loose_then<'a>(step: &'a Step, loose: &'a [Place]) -> &'a [Place]
    ensures { result.now ≡ loose_before step.now loose.now }
{
    match step {
        Step::Synced { before } => before,
        _ => match loose {
            [_, rest @ ..] => rest,
            [] => loose,
        },
    }
}

/// A byte before a part of its file was written.
fn byte_under(byte: Option<u8>, k: usize, start: usize, before: &[u8]) -> Option<u8>
    ensures { (content : Option (List ℕ)) → byte ≡ byte_of content k → result ≡ byte_of (put_back content start before.now) k }
{
    match byte {
        None => None,
        Some(_) => {
            if k < start || k - start >= before.len() {
                return byte;
            }
            Some(before[k - start])
        }
    }
}

fn byte_in(file: &Option<Vec<u8>>, k: usize) -> Option<u8>
    ensures { result ≡ byte_of (content_of file.now) k }
{
    match file {
        Some(bytes) => bytes.get(k).copied(),
        None => None,
    }
}

/// A byte before a step.
fn byte_then(step: &Step, id: FileId, k: usize, byte: Option<u8>) -> Option<u8>
    ensures { (files : Files) → byte ≡ byte_of (files id) k → result ≡ byte_of (view_before step.now files id) k }
{
    match step {
        Step::Wrote { id: file, before } => {
            if is_same_file(*file, id) {
                byte_in(before, k)
            } else {
                byte
            }
        }
        Step::Patched {
            id: file,
            start,
            before,
        } => {
            if is_same_file(*file, id) {
                byte_under(byte, k, *start, before)
            } else {
                byte
            }
        }
        Step::Loosened | Step::Synced { .. } => byte,
    }
}

/// A byte at the last moment at which it was not loose.
fn byte_before(
    steps: &[Step],
    loose: &[Place],
    id: FileId,
    k: usize,
    byte: Option<u8>,
) -> Option<u8>
    ensures { (files : Files) → byte ≡ byte_of (files id) k → WasFirm (history_from files loose.now steps.now) id k result }
{
    let mut i = steps.len();
    let mut places = loose;
    let mut value = byte;
    while i > 0 {
        if !byte_loose(places, id, k as u64) {
            return value;
        }
        i -= 1;
        let step = &steps[i];
        value = byte_then(step, id, k, value);
        places = loose_then(step, places);
    }
    value
}

/// The bytes as they were before they became loose.
fn earlier(alloc: Global, store: &Store, id: FileId, bytes: &[u8]) -> Result<Vec<u8>, AllocError>
    requires { view_of (history_of store.now) id ≡ Some bytes.now }
    ensures { IfOk result (λ left. IsEach (IsEarlier (history_of store.now) id) bytes.now (Some left.items)) }
{
    let mut left = Vec::new(alloc);
    for k in 0..bytes.len() {
        let byte = byte_before(&store.steps, &store.loose, id, k, Some(bytes[k]));
        left.push(byte.unwrap_or(0))?;
    }
    Ok(left)
}

fn turn(loose: &[Place], id: FileId, k: usize, byte: u8) -> u8
    ensures loose { IsLooseAt loose.now id k → result ≡ 255 - byte }
    ensures firm { (IsLooseAt loose.now id k → ⊥) → result ≡ byte }
{
    if byte_loose(loose, id, k as u64) {
        255 - byte
    } else {
        byte
    }
}

/// The bytes with the loose ones turned over.
fn turned(alloc: Global, store: &Store, id: FileId, bytes: &[u8]) -> Result<Vec<u8>, AllocError>
    requires { view_of (history_of store.now) id ≡ Some bytes.now }
    ensures { IfOk result (λ left. IsEach (IsTurned (history_of store.now) id) bytes.now (Some left.items)) }
{
    let mut left = Vec::new(alloc);
    for k in 0..bytes.len() {
        left.push(turn(&store.loose, id, k, bytes[k]))?;
    }
    Ok(left)
}

/// What was there before the loose places were loose: nothing, where the file is loose as a whole.
fn reverted(
    alloc: Global,
    store: &Store,
    id: FileId,
    bytes: &[u8],
) -> Result<Option<Vec<u8>>, AllocError>
    requires { view_of (history_of store.now) id ≡ Some bytes.now }
    ensures { IfOk result (λ left. IsPicked 1 (history_of store.now) id (Some bytes.now) (content_of left)) }
{
    if whole_loose(&store.loose, id) {
        return Ok(None);
    }
    let left = earlier(alloc, store, id, bytes)?;
    Ok(Some(left))
}

/// The first half of a file that is loose as a whole, else the file with its loose bytes turned over.
fn damaged(
    alloc: Global,
    store: &Store,
    id: FileId,
    bytes: &[u8],
) -> Result<Option<Vec<u8>>, AllocError>
    requires { view_of (history_of store.now) id ≡ Some bytes.now }
    ensures { IfOk result (λ left. IsPicked 2 (history_of store.now) id (Some bytes.now) (content_of left)) }
{
    if whole_loose(&store.loose, id) {
        let half = bytes[..bytes.len() / 2].to_vec(alloc)?;
        return Ok(Some(half));
    }
    let left = turned(alloc, store, id, bytes)?;
    Ok(Some(left))
}

/// What is left of one file.
fn file_left(
    alloc: Global,
    store: &Store,
    id: FileId,
    pick: u8,
) -> Result<Option<Vec<u8>>, AllocError>
    ensures { IfOk result (λ left. IsPicked pick (history_of store.now) id (view_of (history_of store.now) id) (content_of left)) }
{
    let Some(bytes) = bytes_of(store, id) else {
        return Ok(None);
    };
    if pick == 0 {
        let copy = bytes.to_vec(alloc)?;
        return Ok(Some(copy));
    }
    if pick == 1 {
        return reverted(alloc, store, id, bytes);
    }
    damaged(alloc, store, id, bytes)
}

/// Puts down what is left of a file, where anything is.
fn put_left(
    files: &mut BTreeMap<FileId, Vec<u8>>,
    id: FileId,
    left: Option<Vec<u8>>,
) -> Result<(), AllocError>
    ensures same { OnOk result (SameBut id (find_file files.old) (find_file files.new)) }
    ensures there { OnOk result (IsLeft (content_of left) (find_file files.old id) (find_file files.new id)) }
{
    match left {
        Some(bytes) => match put(files, id, bytes) {
            Ok(_) => Ok(()),
            Err(refused) => Err(refused),
        },
        None => Ok(()),
    }
}

/// The files that a crash leaves.
pub(crate) fn files_left(
    alloc: Global,
    store: &Store,
    pick: u8,
) -> Result<BTreeMap<FileId, Vec<u8>>, AllocError>
    ensures { IfOk result (λ files. IsCrash pick (history_of store.now) (find_file files)) }
{
    let mut files = BTreeMap::new(alloc);
    for (id, _) in &store.files {
        let left = file_left(alloc, store, *id, pick)?;
        put_left(&mut files, *id, left)?;
    }
    Ok(files)
}
