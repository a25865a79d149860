//! The counts of several probes over the words of a frame's file.
ghost use Rattle.std.specs.Prelude.{◌≡◌, ◌<◌, ◌≤◌, true, length, map, OnOk, IfOk, IsErrOf};
ghost use Rattle.reel_disk.specs.State.{LeavesDisk, OnlyReads};
ghost use Rattle.conform_job.specs.Job.{file_of};
ghost use Rattle.reel_disk.specs.Disk.{view_of};
ghost use Rattle.reel_writer.specs.Reel.{frames_of};
ghost use Rattle.reel_qc.specs.inside.Table.{AddsCounts, HasCounted};
ghost use Rattle.reel_qc.specs.Reads.{ReadsFrame, ReadsWords};
ghost use Rattle.reel_qc.specs.Words.{frame_words, words_in};

use crate::table::counter::Counter;
use crate::table::probe::Probe;
use crate::words::{Buffers, PIXELS, pixels_of, read_words};
use cf_base::{FileId, PIECE};
use conform_job::Job;
use reel_disk::{Disk, DiskFail};
use std::alloc::Global;

/// What counts: the probes, how they count, and where the memory comes from.
#[derive(Drop)]
pub(crate) struct Counting<'c, 'p, C: Counter> {
    pub alloc: Global,
    pub counter: &'c C,
    pub probes: &'p [Probe],
}

/// The count of each probe over the words of a frame's file, an absent one as no words.
pub(crate) fn count_frame<D: Disk, C: Counter>(
    counting: &Counting<'_, '_, C>,
    disk: &mut D,
    job: &Job,
    i: u32,
    buffers: &mut Buffers,
) -> Result<Vec<u64>, DiskFail>
    requires ready { C.ready }
    requires within { i < frames_of job.now }
    requires piece { length buffers.old.piece.items ≡ PIECE }
    requires room { 0 < length buffers.old.words.items }
    requires few { length buffers.old.words.items ≤ PIXELS }
    ensures counted { IfOk result (λ counts. HasCounted (map (λ p. p.kind) counting.now.probes.now) (D.tells ≡ true)
        (frame_words job.now (view_of (D.state disk.old).history (file_of job.now i)))
        (λ words. ReadsFrame job.now i words (D.state disk.old).calls (D.state disk.new).calls) counts.items) }
    ensures piece { length buffers.new.piece.items ≡ PIECE }
    ensures room { length buffers.new.words.items ≡ length buffers.old.words.items }
    ensures reads { OnlyReads D.tells (D.state disk.old) (D.state disk.new) }
    ensures disk { LeavesDisk (IsErrOf result DiskFail.DiskFault) (D.state disk.old) (D.state disk.new) }
{
    let mut counts = vec![in counting.alloc; 0u64; counting.probes.len()]?;
    let (id, most) = (job.file_of(i), pixels_of(job));
    count_file(
        counting,
        disk,
        id,
        most,
        &mut buffers.piece,
        &mut buffers.words,
        &mut counts,
    )?;
    Ok(counts)
}

/// Adds the count of each probe over the words of a file, at most so many, to its own.
fn count_file<D: Disk, C: Counter>(
    counting: &Counting<'_, '_, C>,
    disk: &mut D,
    id: FileId,
    most: usize,
    piece: &mut [u8],
    words: &mut [u32],
    counts: &mut [u64],
) -> Result<(), DiskFail>
    requires ready { C.ready }
    requires most { most ≤ PIXELS }
    requires piece { length piece.old ≡ PIECE }
    requires room { 0 < length words.old }
    requires few { length words.old ≤ PIXELS }
    requires counts { length counts.old ≡ length counting.now.probes.now }
    ensures added { OnOk result (AddsCounts (map (λ p. p.kind) counting.now.probes.now) (D.tells ≡ true)
        (words_in 0 most (view_of (D.state disk.old).history id))
        (λ words. ReadsWords id 0 most words (D.state disk.old).calls (D.state disk.new).calls) most counts.old counts.new) }
    ensures reads { OnlyReads D.tells (D.state disk.old) (D.state disk.new) }
    ensures disk { LeavesDisk (IsErrOf result DiskFail.DiskFault) (D.state disk.old) (D.state disk.new) }
{
    let mut done = 0;
    while done < most {
        let room = words.len().min(most - done);
        count_part(counting, disk, id, done, piece, &mut words[..room], counts)?;
        done += room;
    }
    Ok(())
}

/// Adds the count of each probe over the words of a file from the `first`-th on, as many as there is room for, to its own.
fn count_part<D: Disk, C: Counter>(
    counting: &Counting<'_, '_, C>,
    disk: &mut D,
    id: FileId,
    first: usize,
    piece: &mut [u8],
    words: &mut [u32],
    counts: &mut [u64],
) -> Result<(), DiskFail>
    requires ready { C.ready }
    requires first { first ≤ PIXELS }
    requires piece { length piece.old ≡ PIECE }
    requires few { length words.old ≤ PIXELS }
    requires counts { length counts.old ≡ length counting.now.probes.now }
    ensures added { OnOk result (AddsCounts (map (λ p. p.kind) counting.now.probes.now) (D.tells ≡ true)
        (words_in first (length words.old) (view_of (D.state disk.old).history id))
        (λ read. ReadsWords id first (length words.old) read (D.state disk.old).calls (D.state disk.new).calls)
        (length words.old) counts.old counts.new) }
    ensures reads { OnlyReads D.tells (D.state disk.old) (D.state disk.new) }
    ensures disk { LeavesDisk (IsErrOf result DiskFail.DiskFault) (D.state disk.old) (D.state disk.new) }
{
    let found = read_words(disk, id, first, piece, words)?;
    counting
        .counter
        .add_counts(counting.alloc, counting.probes, &words[..found], counts)?;
    Ok(())
}
