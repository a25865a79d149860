//! The contact sheet, as a file of the reel folder.
ghost use Rattle.std.specs.Prelude.{◌≡◌, ◌+◌, ◌*◌, ◌/◌, ◌<◌, ◌≤◌, All, ℕ, true, length, OnOk, IfOk, IsErrOf, Err};
ghost use Rattle.cf_base.specs.declared.file.FileId.TheVariants.{Sheet};
ghost use Rattle.reel_disk.specs.State.{LeavesDisk, OnlyReads};
ghost use Rattle.dpx_header.specs.Writing.{IsOutHead, header_of};
ghost use Rattle.reel_disk.specs.Call.{writes_in};
ghost use Rattle.reel_disk.specs.Disk.{view_of};
ghost use Rattle.reel_disk.specs.Runs.{Extends, Spares, StaysSo};
ghost use Rattle.reel_writer.specs.Reel.{frames_of, HasAcked, IsSoundReel};
ghost use Rattle.scan_source.specs.World.{World};
ghost use Rattle.reel_qc.specs.inside.Boxes.{DrawsRow, DrawsSheet, HasSheetOf};
ghost use Rattle.reel_qc.specs.Sheet.{cell_frames, cell_height, cell_width, sheet_file, sheet_head, sheet_peak, sheet_rows, HasWrittenSheet, MakesSheet, WritesSheet};

mod boxes;
mod cells;
mod curves;
mod drawing;
mod tone;
mod tone_table;

use crate::sheet::boxes::boxes_of;
use crate::sheet::cells::{cell_frames, load_row};
use crate::sheet::drawing::{Drawing, draw_cells};
use crate::words::{Buffers, pixels_of};
use cf_base::{FileId, HEADER, LARGEST, PIECE};
use conform_job::Job;
pub use curves::{square, square_table};
use dpx_header::{OutHead, write_header};
use printed_text::put_bytes;
use reel_disk::{Disk, DiskFail};
use resume_ledger::{LedgerView, write_firmly};
use std::alloc::{AllocError, Global};
pub use tone::Tone;
pub use tone_table::ToneTable;

/// What a sheet has.
#[derive(Clone, Copy, Debug, PartialEq, Eq)]
pub struct SheetDone {
    /// How many cells.
    pub cells: u32,
    /// The greatest code of the sheet, 0 to 1023.
    pub peak: u16,
}

/// Makes the contact sheet of a reel, and writes it to the file `FileId::Sheet`, whole, and syncs it: a small picture of each
/// event's first frame, eight side by side, each code under the tone. Of an event whose first frame the view doesn't
/// acknowledge, or whose file is short there, the picture is the project's black.
///
/// It reads one frame at a time, and takes memory for one frame and the sheet. `NoMemory` comes before the first write;
/// `DiskFault` comes only where the disk's count of faults rose.
pub fn make_sheet<D: Disk>(
    alloc: Global,
    disk: &mut D,
    job: &Job,
    view: &LedgerView,
    tone: &Tone,
) -> Result<SheetDone, DiskFail>
    requires size { length view.now.gates ≡ frames_of job.now }

    // The sheet is there, and a crash keeps it so.
    ensures sheet { OnOk result (D.tells ≡ true
        → HasWrittenSheet tone.now.table job.now view.now (D.state disk.old).history (D.state disk.new).history) }
    ensures peak { IfOk result (λ done. D.tells ≡ true
        → done.peak ≡ sheet_peak tone.now.table job.now view.now (view_of (D.state disk.old).history)) }
    ensures code { IfOk result (λ done. done.peak ≤ 1023) }

    // At each moment all other files are as they were, what is sound and fit stays so, and so does what is acknowledged.
    ensures past { D.tells ≡ true → Extends (D.state disk.old).history (D.state disk.new).history }
    ensures spares { D.tells ≡ true → Spares (D.state disk.old).history (D.state disk.new).history (λ q. q ≡ Sheet) }
    ensures sound { D.tells ≡ true → (world : World)
        → StaysSo (D.state disk.old).history (D.state disk.new).history (IsSoundReel job.now world) }
    ensures kept { D.tells ≡ true → (i : ℕ) → StaysSo (D.state disk.old).history (D.state disk.new).history (HasAcked job.now i) }

    // Over every disk, it has so many cells, reads the files of their acknowledged frames alone, and is of what these gave.
    ensures made { IfOk result (λ done. MakesSheet tone.now.table job.now view.now done
        (D.state disk.old).calls (D.state disk.new).calls) }

    // Whatever the disk tells, nothing but the sheet is written and synced, and where memory was missing nothing is.
    ensures writes { WritesSheet (writes_in (D.state disk.old).calls) (writes_in (D.state disk.new).calls) }
    ensures reads { result ≡ Err DiskFail.NoMemory → OnlyReads D.tells (D.state disk.old) (D.state disk.new) }
    ensures disk { LeavesDisk (IsErrOf result DiskFail.DiskFault) (D.state disk.old) (D.state disk.new) }
{
    let sheet = sheet_of(alloc, disk, job, view, tone)?;
    match write_firmly(disk, FileId::Sheet, &sheet.bytes) {
        Ok(()) => Ok(sheet.done),
        Err(_) => Err(DiskFail::DiskFault),
    }
}

/// A sheet that is drawn and not yet written: the bytes of its file, and what it has.
#[derive(Drop)]
struct SheetFile {
    bytes: Vec<u8>,
    done: SheetDone,
}

/// The sheet of what the disk holds.
fn sheet_of<D: Disk>(
    alloc: Global,
    disk: &mut D,
    job: &Job,
    view: &LedgerView,
    tone: &Tone,
) -> Result<SheetFile, DiskFail>
    requires size { length view.now.gates ≡ frames_of job.now }
    ensures drawn { IfOk result (λ sheet. HasSheetOf tone.now.table job.now view.now D.tells (D.state disk.old) (D.state disk.new)
        sheet.bytes.items sheet.done.peak) }
    ensures bytes { IfOk result (λ sheet. D.tells ≡ true
        → sheet.bytes.items ≡ sheet_file tone.now.table job.now view.now (view_of (D.state disk.old).history)) }
    ensures cells { IfOk result (λ sheet. sheet.done.cells ≡ length (cell_frames job.now)) }
    ensures peak { IfOk result (λ sheet. D.tells ≡ true
        → sheet.done.peak ≡ sheet_peak tone.now.table job.now view.now (view_of (D.state disk.old).history)) }
    ensures code { IfOk result (λ sheet. sheet.done.peak ≤ 1023) }
    ensures reads { OnlyReads D.tells (D.state disk.old) (D.state disk.new) }
    ensures disk { LeavesDisk (IsErrOf result DiskFail.DiskFault) (D.state disk.old) (D.state disk.new) }
{
    job.recall();
    let frames = cell_frames(alloc, job)?;
    let drawing = draw_sheet(alloc, disk, job, view, &frames, tone)?;
    let Drawing { bytes, greatest } = drawing;
    Ok(SheetFile {
        bytes,
        done: SheetDone {
            cells: frames.len() as u32,
            peak: tone.at(greatest),
        },
    })
}

/// The bytes of the sheet with these cells, and the greatest code before the tone.
fn draw_sheet<D: Disk>(
    alloc: Global,
    disk: &mut D,
    job: &Job,
    view: &LedgerView,
    frames: &[u32],
    tone: &Tone,
) -> Result<Drawing, DiskFail>
    requires size { length view.now.gates ≡ frames_of job.now }
    requires frames { frames.now ≡ cell_frames job.now }
    requires within { All (λ i. i < frames_of job.now) frames.now }
    requires some { 0 < length frames.now }
    ensures drawn { IfOk result (λ drawing. DrawsSheet tone.now.table job.now view.now D.tells
        (D.state disk.old) (D.state disk.new) drawing) }
    ensures reads { OnlyReads D.tells (D.state disk.old) (D.state disk.new) }
    ensures disk { LeavesDisk (IsErrOf result DiskFail.DiskFault) (D.state disk.old) (D.state disk.new) }
{
    let rows = rows_of(job, frames);
    let mut drawing = begin(alloc, job, rows)?;
    let mut buffers = Buffers::new(alloc, pixels_of(job))?;
    let shown = Shown {
        alloc,
        job,
        view,
        frames,
        tone,
    };
    for row in 0..rows {
        draw_row(&shown, disk, row, &mut buffers, &mut drawing)?;
    }
    Ok(drawing)
}

/// How many rows the cells need.
fn rows_of(job: &Job, frames: &[u32]) -> u32
    requires frames { frames.now ≡ cell_frames job.now }
    requires some { 0 < length frames.now }
    ensures rows { result ≡ sheet_rows job.now }
    ensures some { 1 ≤ result }
    ensures wide { 0 < cell_width job.now }
    ensures fit { result * cell_height job.now ≤ LARGEST }
{
    job.recall();
    ((frames.len() + 7) / 8) as u32
}

/// A sheet of so many rows, of which nothing but the header is drawn.
fn begin(alloc: Global, job: &Job, rows: u32) -> Result<Drawing, AllocError>
    requires rows { rows ≡ sheet_rows job.now }
    requires some { 1 ≤ rows }
    requires fit { rows * cell_height job.now ≤ LARGEST }
    ensures header { IfOk result (λ drawing. drawing.bytes.items ≡ header_of (sheet_head job.now)) }
    ensures greatest { IfOk result (λ drawing. drawing.greatest ≡ 0) }
{
    let head = sheet_head(job, rows);
    let mut header = [0; HEADER];
    write_header(&head, &mut header);
    let mut bytes = Vec::with_capacity(
        alloc,
        HEADER + 4 * (head.width as usize * head.height as usize),
    )?;
    put_bytes(&mut bytes, &header)?;
    Ok(Drawing { bytes, greatest: 0 })
}

/// The header of a sheet of so many rows.
fn sheet_head(job: &Job, rows: u32) -> OutHead
    requires rows { rows ≡ sheet_rows job.now }
    requires some { 1 ≤ rows }
    requires fit { rows * cell_height job.now ≤ LARGEST }
    ensures head { result ≡ sheet_head job.now }
    ensures valid { IsOutHead result }
{
    job.recall();
    OutHead {
        width: 8 * boxes_of(job.width()),
        height: height_of(rows, boxes_of(job.height())),
        reel: 0,
        frame: 0,
        position: 0,
        length: 1,
        timecode: None,
        title: job.project().title,
    }
}

/// The height of so many rows.
fn height_of(rows: u32, cell: u32) -> u32
    requires some_rows { 1 ≤ rows }
    requires some_lines { 1 ≤ cell }
    requires fit { rows * cell ≤ LARGEST }
    ensures height { result ≡ rows * cell }
    ensures some { 1 ≤ result }
{
    rows * cell
}

/// What a sheet shows: the first frames of the job's events, of which the view says whether they are acknowledged, under a tone.
#[derive(Drop)]
struct Shown<'j, 'v, 'f, 't> {
    alloc: Global,
    job: &'j Job,
    view: &'v LedgerView,
    frames: &'f [u32],
    tone: &'t Tone,
}

/// Draws a row, behind those before it.
fn draw_row<D: Disk>(
    shown: &Shown<'_, '_, '_, '_>,
    disk: &mut D,
    row: u32,
    buffers: &mut Buffers,
    drawing: &mut Drawing,
) -> Result<(), DiskFail>
    requires size { length shown.now.view.now.gates ≡ frames_of shown.now.job.now }
    requires frames { shown.now.frames.now ≡ cell_frames shown.now.job.now }
    requires within { All (λ i. i < frames_of shown.now.job.now) shown.now.frames.now }
    requires row { row ≤ LARGEST }
    requires piece { length buffers.old.piece.items ≡ PIECE }
    ensures drawn { OnOk result (DrawsRow shown.now.tone.now.table shown.now.job.now shown.now.view.now
        D.tells row (D.state disk.old) (D.state disk.new) drawing.old drawing.new) }
    ensures piece { length buffers.new.piece.items ≡ PIECE }
    ensures reads { OnlyReads D.tells (D.state disk.old) (D.state disk.new) }
    ensures disk { LeavesDisk (IsErrOf result DiskFail.DiskFault) (D.state disk.old) (D.state disk.new) }
{
    shown.job.recall();
    let cells = load_row(
        shown.alloc,
        disk,
        shown.job,
        shown.view,
        shown.frames,
        row,
        buffers,
    )?;
    draw_cells(shown.job, shown.tone, &cells, row, drawing)?;
    Ok(())
}
