//! The quality table, as text.
ghost use Rattle.std.specs.Prelude.{◌≡◌, ◌∷◌, [], ◌++◌, ◌<◌, ◌≤◌, true, length, map, codes, decimal, OnOk, IfOk, IsErrOf};
ghost use Rattle.reel_disk.specs.State.{LeavesDisk, OnlyReads};
ghost use Rattle.printed_text.specs.Text.{spaced_line};
ghost use Rattle.reel_disk.specs.Disk.{view_of};
ghost use Rattle.reel_writer.specs.Reel.{frames_of};
ghost use Rattle.reel_qc.specs.Table.{IsTable, kind_word, quality_table, IsDefinedWhereSound};
ghost use Rattle.reel_qc.specs.inside.Table.{AddsRow, AddsRows};

mod blocks;
mod counter;
mod counting;
mod counts;
mod pieces;
mod probe;

use crate::table::counting::{Counting, count_frame};
use crate::words::{Buffers, PIXELS, pixels_of};
use cf_base::PIECE;
use conform_job::Job;
pub use counter::{Counter, Forked, OneThread};
pub use counts::{high, low, sum};
pub use pieces::count_forked;
use printed_text::{put_bytes, put_number};
pub use probe::{Probe, ProbeKind};
use reel_disk::{Disk, DiskFail};
use resume_ledger::LedgerView;
use std::alloc::{AllocError, Global};

/// The quality table of a reel: the line `qc` and the kinds of the probes; a line for each frame that the view acknowledges,
/// in order, with its number and the count of each probe over the words of its file, of which an absent one has none; last
/// `frames` and how many lines these are. It only reads, and holds as many words at once as the counter takes, at most a file.
///
/// `DiskFault` comes only where the disk's count of faults rose.
pub fn quality_table<D: Disk, C: Counter>(
    alloc: Global,
    counter: &C,
    probes: &[Probe],
    disk: &mut D,
    job: &Job,
    view: &LedgerView,
) -> Result<Vec<u8>, DiskFail>
    requires ready { C.ready }
    requires size { length view.now.gates ≡ frames_of job.now }
    ensures table { IfOk result (λ text. D.tells ≡ true
        → text.items ≡ quality_table (map (λ p. p.kind) probes.now) job.now view.now (view_of (D.state disk.old).history)) }

    // Where the folder is sound, and the view is what it acknowledges, these are the files of the definition.
    ensures sound { IfOk result (λ text. D.tells ≡ true
        → IsDefinedWhereSound (map (λ p. p.kind) probes.now) job.now view.now (view_of (D.state disk.old).history) text.items) }

    // Over every disk, it reads the files of the acknowledged frames alone, each once, and counts the words that they gave.
    ensures known { IfOk result (λ text. IsTable (map (λ p. p.kind) probes.now) job.now view.now
        (D.state disk.old).calls (D.state disk.new).calls text.items) }

    // It only reads: what the disk tells stays at every moment, and no write and no sync is made, whatever the answer is.
    ensures reads { OnlyReads D.tells (D.state disk.old) (D.state disk.new) }
    ensures disk { LeavesDisk (IsErrOf result DiskFail.DiskFault) (D.state disk.old) (D.state disk.new) }
{
    let room = counter.most_words().min(pixels_of(job));
    let mut buffers = Buffers::new(alloc, room)?;
    let mut text = Vec::new(alloc);
    put_kinds(&mut text, probes)?;
    let counting = Counting {
        alloc,
        counter,
        probes,
    };
    let frames = put_rows(&counting, disk, job, view, &mut buffers, &mut text)?;
    put_frames(&mut text, frames)?;
    Ok(text)
}

/// The first line.
fn put_kinds(text: &mut Vec<u8>, probes: &[Probe]) -> Result<(), AllocError>
    ensures { OnOk result (text.new.items
        ≡ text.old.items ++ spaced_line (codes "qc" ∷ map kind_word (map (λ p. p.kind) probes.now))) }
{
    put_bytes(text, b"qc")?;
    for probe in probes {
        put_word(text, word_of(probe.kind()))?;
    }
    put_bytes(text, b"\n")?;
    Ok(())
}

/// Appends a blank and a word.
fn put_word(text: &mut Vec<u8>, word: &[u8]) -> Result<(), AllocError>
    ensures { OnOk result (text.new.items ≡ text.old.items ++ (32 ∷ word.now)) }
{
    put_bytes(text, b" ")?;
    put_bytes(text, word)
}

/// Appends a blank and a count.
fn put_count(text: &mut Vec<u8>, count: u64) -> Result<(), AllocError>
    ensures { OnOk result (text.new.items ≡ text.old.items ++ (32 ∷ decimal count)) }
{
    put_bytes(text, b" ")?;
    put_number(text, count)
}

/// The word of a kind.
fn word_of(kind: ProbeKind) -> &'static [u8]
    ensures { result.now ≡ kind_word kind }
{
    match kind {
        ProbeKind::High => b"high",
        ProbeKind::Low => b"low",
        ProbeKind::Sum => b"sum",
    }
}

/// The last line.
fn put_frames(text: &mut Vec<u8>, frames: u32) -> Result<(), AllocError>
    ensures { OnOk result (text.new.items
        ≡ text.old.items ++ spaced_line (codes "frames" ∷ decimal frames ∷ [])) }
{
    put_bytes(text, b"frames ")?;
    put_number(text, frames)?;
    put_bytes(text, b"\n")
}

/// The lines of all frames that are acknowledged, and how many these are.
fn put_rows<D: Disk, C: Counter>(
    counting: &Counting<'_, '_, C>,
    disk: &mut D,
    job: &Job,
    view: &LedgerView,
    buffers: &mut Buffers,
    text: &mut Vec<u8>,
) -> Result<u32, DiskFail>
    requires ready { C.ready }
    requires size { length view.now.gates ≡ frames_of job.now }
    requires piece { length buffers.old.piece.items ≡ PIECE }
    requires room { 0 < length buffers.old.words.items }
    requires few { length buffers.old.words.items ≤ PIXELS }
    ensures rows { IfOk result
        (AddsRows (map (λ p. p.kind) counting.now.probes.now) job.now view.now D.tells (D.state disk.old) (D.state disk.new)
        text.old text.new) }
    ensures reads { OnlyReads D.tells (D.state disk.old) (D.state disk.new) }
    ensures disk { LeavesDisk (IsErrOf result DiskFail.DiskFault) (D.state disk.old) (D.state disk.new) }
{
    let mut frames = 0;
    for i in 0..job.count() {
        frames += put_frame(counting, disk, job, view, i, buffers, text)?;
    }
    Ok(frames)
}

/// The line of a frame, where it is acknowledged: whether it has one, 1 or 0.
fn put_frame<D: Disk, C: Counter>(
    counting: &Counting<'_, '_, C>,
    disk: &mut D,
    job: &Job,
    view: &LedgerView,
    i: u32,
    buffers: &mut Buffers,
    text: &mut Vec<u8>,
) -> Result<u32, DiskFail>
    requires ready { C.ready }
    requires size { length view.now.gates ≡ frames_of job.now }
    requires within { i < frames_of job.now }
    requires piece { length buffers.old.piece.items ≡ PIECE }
    requires room { 0 < length buffers.old.words.items }
    requires few { length buffers.old.words.items ≤ PIXELS }
    ensures rows { IfOk result
        (AddsRow (map (λ p. p.kind) counting.now.probes.now) job.now view.now i D.tells (D.state disk.old) (D.state disk.new)
        text.old text.new) }
    ensures few { IfOk result (λ more. more ≤ 1) }
    ensures piece { length buffers.new.piece.items ≡ PIECE }
    ensures room { length buffers.new.words.items ≡ length buffers.old.words.items }
    ensures reads { OnlyReads D.tells (D.state disk.old) (D.state disk.new) }
    ensures disk { LeavesDisk (IsErrOf result DiskFail.DiskFault) (D.state disk.old) (D.state disk.new) }
{
    if !view.is_acked(i) {
        return Ok(0);
    }
    let counts = count_frame(counting, disk, job, i, buffers)?;
    put_row(i, &counts, text)?;
    Ok(1)
}

/// The line of a frame with these counts.
fn put_row(frame: u32, counts: &[u64], text: &mut Vec<u8>) -> Result<(), AllocError>
    ensures { OnOk result (text.new.items ≡ text.old.items ++ spaced_line (decimal frame ∷ map decimal counts.now)) }
{
    put_number(text, frame)?;
    for count in counts {
        put_count(text, *count)?;
    }
    put_bytes(text, b"\n")?;
    Ok(())
}
