//! The cells of the sheet: which record frames they show, and the sums over the frames' files.
ghost use Rattle.std.specs.Prelude.{◌≡◌, ◌+◌, ◌-◌, ◌*◌, ◌<◌, ◌≤◌, All, [], ◌∷◌, length, slice_get, IfOk, IfSome, IsErrOf, Err};
ghost use Rattle.cf_base.specs.declared.event.EventRec.{EventRec};
ghost use Rattle.reel_disk.specs.State.{LeavesDisk, OnlyReads};
ghost use Rattle.frame_render.specs.Frame.{pixel_count};
ghost use Rattle.record_timeline.specs.Accepted.{first_frame, frame_count};
ghost use Rattle.reel_writer.specs.Reel.{frames_of};
ghost use Rattle.reel_qc.specs.inside.Boxes.{HasPicture, HasPictures, HasRow, place_frames};
ghost use Rattle.reel_qc.specs.Sheet.{cell_frames, first_frames, frames_in, most_cells, whole_picture};

use crate::sheet::boxes::{Boxes, boxes_of};
use crate::words::{Buffers, pixels_of, read_frame};
use cf_base::{EventRec, LARGEST, PIECE};
use conform_job::Job;
use reel_disk::{Disk, DiskFail};
use resume_ledger::LedgerView;
use std::alloc::{AllocError, Global};

/// The record frame of each cell, in list order.
pub(crate) fn cell_frames(alloc: Global, job: &Job) -> Result<Vec<u32>, AllocError>
    ensures frames { IfOk result (λ frames. frames.items ≡ cell_frames job.now) }
    ensures within { IfOk result (λ frames. All (λ i. i < frames_of job.now) frames.items) }
    ensures some { IfOk result (λ frames. 0 < length frames.items) }
    ensures few { IfOk result (λ frames. length frames.items ≤ 32768) }
{
    let mut frames = first_frames(alloc, job)?;
    frames.truncate(most_cells(job));
    Ok(frames)
}

/// As many cells as fit into 4096 lines.
fn most_cells(job: &Job) -> usize
    ensures most { result ≡ most_cells job.now }
    ensures some { 8 ≤ result }
    ensures few { result ≤ 32768 }
{
    job.recall();
    8 * (LARGEST / boxes_of(job.height())) as usize
}

/// The first record frame of each event that has record frames.
fn first_frames(alloc: Global, job: &Job) -> Result<Vec<u32>, AllocError>
    ensures frames { IfOk result (λ frames. frames.items ≡ first_frames job.now) }
    ensures within { IfOk result (λ frames. All (λ i. i < frames_of job.now) frames.items) }
    ensures some { IfOk result (λ frames. 0 < length frames.items) }
{
    let timeline = job.timeline();
    let frames = frames_from(alloc, timeline.events(), timeline.first().0)?;
    Ok(frames)
}

/// The same of a list whose reel begins with this record frame.
fn frames_from(alloc: Global, events: &[EventRec], first: u32) -> Result<Vec<u32>, AllocError>
    requires first { first ≡ first_frame events.now }
    ensures frames { IfOk result (λ frames. frames.items ≡ frames_in events.now) }
    ensures within { IfOk result (λ frames. All (λ i. i < frame_count events.now) frames.items) }
{
    let mut frames = Vec::new(alloc);
    for event in events {
        if event.rec_in < event.rec_out {
            frames.push(event.rec_in - first)?;
        }
    }
    Ok(frames)
}

/// The eight cells of a row, from the left.
pub(crate) fn load_row<D: Disk>(
    alloc: Global,
    disk: &mut D,
    job: &Job,
    view: &LedgerView,
    frames: &[u32],
    row: u32,
    buffers: &mut Buffers,
) -> Result<Vec<Option<Boxes>>, DiskFail>
    requires size { length view.now.gates ≡ frames_of job.now }
    requires frames { frames.now ≡ cell_frames job.now }
    requires within { All (λ i. i < frames_of job.now) frames.now }
    requires row { row ≤ LARGEST }
    requires piece { length buffers.old.piece.items ≡ PIECE }
    ensures cells { IfOk result (λ cells. length cells.items ≡ 8) }
    ensures pictures { IfOk result (λ cells. HasRow job.now view.now D.tells row (D.state disk.old) (D.state disk.new) cells.items) }
    ensures piece { length buffers.new.piece.items ≡ PIECE }
    ensures reads { OnlyReads D.tells (D.state disk.old) (D.state disk.new) }
    ensures disk { LeavesDisk (IsErrOf result DiskFail.DiskFault) (D.state disk.old) (D.state disk.new) }
{
    let mut cells = Vec::new(alloc);
    for c in 0..8 {
        let frame = frame_at(frames, row * 8 + c);
        let cell = load_cell(alloc, disk, job, view, frame, buffers)?;
        let Ok(()) = cells.push(cell) else {
            return Err(DiskFail::NoMemory);
        };
    }
    Ok(cells)
}

/// The record frame of a place, where it has a cell.
fn frame_at(frames: &[u32], place: u32) -> Option<u32>
    ensures { result ≡ slice_get frames.now place }
{
    frames.get(place as usize).copied()
}

/// The cell of a record frame, and of none.
fn load_cell<D: Disk>(
    alloc: Global,
    disk: &mut D,
    job: &Job,
    view: &LedgerView,
    frame: Option<u32>,
    buffers: &mut Buffers,
) -> Result<Option<Boxes>, DiskFail>
    requires size { length view.now.gates ≡ frames_of job.now }
    requires within { IfSome frame (λ i. i < frames_of job.now) }
    requires piece { length buffers.old.piece.items ≡ PIECE }
    ensures cell { IfOk result (λ cell. HasPictures job.now view.now D.tells (place_frames frame)
        (D.state disk.old) (D.state disk.new) (cell ∷ [])) }
    ensures piece { length buffers.new.piece.items ≡ PIECE }
    ensures reads { OnlyReads D.tells (D.state disk.old) (D.state disk.new) }
    ensures disk { LeavesDisk (IsErrOf result DiskFail.DiskFault) (D.state disk.old) (D.state disk.new) }
{
    match frame {
        Some(i) => load_frame(alloc, disk, job, view, i, buffers),
        None => Ok(None),
    }
}

/// The cell of a record frame: none where the frame isn't acknowledged or its file is short.
fn load_frame<D: Disk>(
    alloc: Global,
    disk: &mut D,
    job: &Job,
    view: &LedgerView,
    i: u32,
    buffers: &mut Buffers,
) -> Result<Option<Boxes>, DiskFail>
    requires size { length view.now.gates ≡ frames_of job.now }
    requires within { i < frames_of job.now }
    requires piece { length buffers.old.piece.items ≡ PIECE }
    ensures cell { IfOk result (λ cell. HasPictures job.now view.now D.tells (i ∷ [])
        (D.state disk.old) (D.state disk.new) (cell ∷ [])) }
    ensures piece { length buffers.new.piece.items ≡ PIECE }
    ensures reads { OnlyReads D.tells (D.state disk.old) (D.state disk.new) }
    ensures disk { LeavesDisk (IsErrOf result DiskFail.DiskFault) (D.state disk.old) (D.state disk.new) }
{
    if !view.is_acked(i) {
        return Ok(None);
    }
    read_frame(disk, job, i, buffers)?;
    let cell = sums_of(alloc, job, &buffers.words)?;
    Ok(cell)
}

/// The sums of a picture, where none of its words is missing.
fn sums_of(alloc: Global, job: &Job, words: &[u32]) -> Result<Option<Boxes>, AllocError>
    requires few { length words.now ≤ pixel_count job.now }
    ensures { IfOk result (HasPicture job.now (whole_picture job.now words.now)) }
{
    job.recall();
    if words.len() < pixels_of(job) {
        return Ok(None);
    }
    Ok(Some(Boxes::of(alloc, words, job.width(), job.height())?))
}
