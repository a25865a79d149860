//! The pull list of a job, as text.
ghost use Rattle.std.specs.Prelude.{◌≡◌, ◌<◌, ◌≤◌, ◌++◌, All, OnOk, IfOk};
ghost use Rattle.std.specs.List.{sum_by};
ghost use Rattle.cf_base.specs.Timing.{CanCount, frames_in_day};
ghost use Rattle.printed_tables.specs.Pull.{IsLabelled, line_at, mode_of, pull_of, range_line, size_of};

use crate::table::put_label;
use cf_base::{Mode, Rate, ReelEntry};
use conform_job::Job;
use printed_text::{put_bytes, put_number};
use pull_list::{PullList, PullRange};
use std::alloc::{AllocError, Global};

/// One line for each range, and the line of both numbers.
pub fn pull_of(alloc: Global, job: &Job, list: &PullList) -> Result<Vec<u8>, AllocError>
    requires { All (IsLabelled job.now.parts.project.rate job.now.parts.reels) list.now }
    ensures { IfOk result (λ text. text.items ≡ pull_of job.now.parts.project.rate job.now.parts.reels list.now) }
{
    let entries = job.reels().entries();
    let ranges = list.items();
    let mut text = Vec::new(alloc);
    for range in ranges {
        put_range(&mut text, job.rate(), entries, range)?;
    }
    put_bytes(&mut text, b"ranges ")?;
    put_number(&mut text, ranges.len())?;
    put_bytes(&mut text, b" frames ")?;
    put_number(&mut text, size_of(ranges))?;
    put_bytes(&mut text, b"\n")?;
    Ok(text)
}

/// How many frames the ranges hold.
fn size_of(ranges: &[PullRange]) -> u128
    ensures { result ≡ sum_by size_of ranges.now }
{
    let mut size: u128 = 0;
    for range in ranges {
        size += u128::from(range.end.saturating_sub(range.start));
    }
    size
}

/// The line of a range.
fn put_range(
    text: &mut Vec<u8>,
    rate: Rate,
    entries: &[ReelEntry],
    range: &PullRange,
) -> Result<(), AllocError>
    requires { IsLabelled rate entries.now range.now }
    ensures { OnOk result (text.new.items ≡ text.old.items ++ line_at rate entries.now range.now) }
{
    let e = entries[usize::from(range.reel)];
    put_line(text, rate, &e, range)
}

/// The line of a range of this reel.
fn put_line(
    text: &mut Vec<u8>,
    rate: Rate,
    e: &ReelEntry,
    range: &PullRange,
) -> Result<(), AllocError>
    requires some { range.now.start < range.now.end }
    requires counts { CanCount rate (mode_of e.now) }
    requires day { range.now.end ≤ frames_in_day rate (mode_of e.now) }
    ensures { OnOk result (text.new.items ≡ text.old.items ++ range_line rate range.now e.now) }
{
    let mode = mode_of(e);
    put_bytes(text, e.name.bytes())?;
    put_bytes(text, b" ")?;
    put_label(text, rate, mode, range.start)?;
    put_label(text, rate, mode, range.end - 1)?;
    put_number(text, range.end - range.start)?;
    put_bytes(text, b"\n")?;
    Ok(())
}

/// How the labels of a reel are counted.
fn mode_of(e: &ReelEntry) -> Mode
    ensures { result ≡ mode_of e.now }
{
    if e.day == 2_589_408 {
        Mode::Drop
    } else {
        Mode::NonDrop
    }
}
