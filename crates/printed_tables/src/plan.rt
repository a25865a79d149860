//! The plan of a job, as text.
ghost use Rattle.std.specs.Prelude.{◌≡◌, ◌<◌, ◌≤◌, ◌++◌, ◌∷◌, [], OnOk, IfOk};
ghost use Rattle.std.specs.Fmt.{signed_decimal};
ghost use Rattle.record_timeline.specs.Accepted.{frame_count};
ghost use Rattle.record_timeline.specs.Shots.{IsSideIn, IsShotIn};
ghost use Rattle.conform_job.specs.Cuts.{record_reel, reel_count};
ghost use Rattle.printed_tables.specs.Plan.{plan_of, begins_reel, frame_line, reel_line, side_text, shot_text, kind_word};

use crate::table::put_label;
use cf_base::{EventRec, Transition, last_digits};
use conform_job::Job;
use printed_text::{put_bytes, put_number};
use record_timeline::{Shot, Side};
use std::alloc::{AllocError, Global};

/// One line for each record frame, and the line of their number; where the record is cut, a line before each reel's first
/// frame.
pub fn plan_of(alloc: Global, job: &Job) -> Result<Vec<u8>, AllocError>
    ensures { IfOk result (λ text. text.items ≡ plan_of job.now.parts) }
{
    let mut text = Vec::new(alloc);
    let count = job.count();
    for i in 0..count {
        put_reel(&mut text, job, i)?;
        put_frame(&mut text, job, i)?;
    }
    put_bytes(&mut text, b"frames ")?;
    put_number(&mut text, count)?;
    put_bytes(&mut text, b"\n")?;
    Ok(text)
}

/// The line of a reel, where the record is cut and record frame `i` is the reel's first.
#[tactic(auto, unfolding(crate::specs::Plan::reel_line))]
fn put_reel(text: &mut Vec<u8>, job: &Job, i: u32) -> Result<(), AllocError>
    requires { i < frame_count job.now.parts.timeline.events }
    ensures { OnOk result (text.new.items ≡ text.old.items ++ reel_line job.now.parts i) }
{
    let reel = job.reel_of(i);
    if !begins_reel(job, reel, i) {
        return Ok(());
    }
    put_bytes(text, b"reel ")?;
    put_number(text, reel)?;
    put_bytes(text, b"\n")?;
    Ok(())
}

/// Whether the record is cut, and record frame `i`, which is one of this reel, the reel's first.
fn begins_reel(job: &Job, reel: u16, i: u32) -> bool
    requires some { 1 ≤ reel }
    requires most { reel ≤ reel_count job.now.parts }
    requires own { reel ≡ record_reel job.now.parts i }
    ensures { result ≡ begins_reel job.now.parts i }
{
    !job.project().cuts.items().is_empty() && i == job.reel_span(reel).start
}

/// The line of record frame `i`.
fn put_frame(text: &mut Vec<u8>, job: &Job, i: u32) -> Result<(), AllocError>
    requires { i < frame_count job.now.parts.timeline.events }
    ensures { OnOk result (text.new.items ≡ text.old.items ++ frame_line job.now.parts.timeline i) }
{
    let timeline = job.timeline();
    let number = timeline.first().0 + i;
    put_label(text, job.rate(), timeline.mode(), number)?;
    put_shot(text, timeline.events(), job.shot(i))?;
    put_bytes(text, b"\n")?;
    Ok(())
}

/// What a shot shows.
fn put_shot(text: &mut Vec<u8>, events: &[EventRec], shot: Shot) -> Result<(), AllocError>
    requires { IsShotIn events.now shot }
    ensures { OnOk result (text.new.items ≡ text.old.items ++ shot_text events.now shot) }
{
    match shot {
        Shot::Gap => put_bytes(text, b"BL"),
        Shot::One { side } => put_side(text, events, side),
        Shot::Two {
            old,
            new,
            transition,
            k,
            d,
        } => {
            put_kind(text, transition)?;
            put_bytes(text, b" ")?;
            put_number(text, k)?;
            put_bytes(text, b"/")?;
            put_number(text, d)?;
            put_bytes(text, b" ")?;
            put_side(text, events, old)?;
            put_bytes(text, b" ")?;
            put_side(text, events, new)?;
            Ok(())
        }
    }
}

/// The reel and the number of a source frame, or `BL`.
fn put_side(text: &mut Vec<u8>, events: &[EventRec], side: Side) -> Result<(), AllocError>
    requires { IsSideIn events.now side }
    ensures { OnOk result (text.new.items ≡ text.old.items ++ side_text events.now side) }
{
    match side {
        Side::Black => put_bytes(text, b"BL"),
        Side::Frame { event, source } => put_source(text, &events[event as usize], source),
    }
}

/// The reel and the number of a source frame.
fn put_source(text: &mut Vec<u8>, event: &EventRec, source: i64) -> Result<(), AllocError>
    ensures { OnOk result (text.new.items ≡ text.old.items ++ event.now.reel ++ 32 ∷ [] ++ signed_decimal source) }
{
    put_bytes(text, event.reel.bytes())?;
    put_bytes(text, b" ")?;
    put_number(text, source)?;
    Ok(())
}

/// `D`, or `W` and the three digits of the wipe.
fn put_kind(text: &mut Vec<u8>, transition: Transition) -> Result<(), AllocError>
    ensures { OnOk result (text.new.items ≡ text.old.items ++ kind_word transition) }
{
    match transition {
        Transition::Cut => put_bytes(text, b"C"),
        Transition::Dissolve { .. } => put_bytes(text, b"D"),
        Transition::Wipe { code, .. } => {
            let digits: [u8; 3] = last_digits(u32::from(code));
            put_bytes(text, b"W")?;
            put_bytes(text, &digits)
        }
    }
}
