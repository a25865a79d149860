//! The project file, and the edit list.
ghost use Rattle.std.specs.Prelude.{◌≡◌, ◌+◌, ◌*◌, ◌/◌, ◌%◌, ◌<◌, ◌≤◌, ◌++◌, ◌∷◌, OnOk, IfOk};
ghost use Rattle.printed_text.specs.Text.{ended};
ghost use Rattle.demo.specs.Texts.{project_text, head_text, reel_text, list_text, event_text, event_line, motion_line, transition, label_text};

use crate::counts::source_count;
use cf_base::{FrameNo, Mode, Rate, last_digits};
use cf_timecode::{label_of, text};
use printed_text::{put_bytes, put_number};
use std::alloc::{AllocError, Global};

/// The first frame of the hour at which the reels begin.
pub(crate) const HOUR: u32 = 86_400;

/// The project of that many events.
pub(crate) fn project_text(alloc: Global, events: u32) -> Result<Vec<u8>, AllocError>
    requires some { 1 ≤ events }
    requires most { events ≤ 1000 }
    ensures { IfOk result (λ project. project.items ≡ project_text events) }
{
    let mut project = Vec::new(alloc);
    put_head(&mut project)?;
    let frames = source_count(events);
    for reel in 0..4 {
        put_reel(&mut project, frames, reel)?;
    }
    Ok(project)
}

fn put_head(project: &mut Vec<u8>) -> Result<(), AllocError>
    ensures { OnOk result (project.new.items ≡ project.old.items ++ head_text) }
{
    put_line(project, b"title = \"DEMO\"")?;
    put_line(project, b"rate = 24")?;
    put_line(project, b"width = 32")?;
    put_line(project, b"height = 18")?;
    put_line(project, b"edl = \"demo.edl\"")?;
    Ok(())
}

/// A source reel of the project.
fn put_reel(project: &mut Vec<u8>, frames: u32, reel: u32) -> Result<(), AllocError>
    ensures { OnOk result (project.new.items ≡ project.old.items ++ reel_text frames reel) }
{
    let digit: [u8; 1] = last_digits(reel);
    put_line(project, b"[[reel]]")?;
    put_bytes(project, b"name = \"R")?;
    put_bytes(project, &digit)?;
    put_line(project, b"\"")?;
    put_bytes(project, b"prefix = \"r")?;
    put_bytes(project, &digit)?;
    put_line(project, b".\"")?;
    put_line(project, b"start = \"01:00:00:00\"")?;
    put_bytes(project, b"frames = ")?;
    put_number(project, frames)?;
    put_line(project, b"")?;
    Ok(())
}

/// Appends bytes and the end of their line.
fn put_line(text: &mut Vec<u8>, piece: &[u8]) -> Result<(), AllocError>
    ensures { OnOk result (text.new.items ≡ text.old.items ++ ended piece.now) }
{
    put_bytes(text, piece)?;
    put_bytes(text, b"\n")?;
    Ok(())
}

/// The edit list of that many events.
pub(crate) fn list_text(alloc: Global, events: u32) -> Result<Vec<u8>, AllocError>
    requires some { 1 ≤ events }
    requires most { events ≤ 1000 }
    ensures { IfOk result (λ list. list.items ≡ list_text events) }
{
    let mut list = Vec::new(alloc);
    put_line(&mut list, b"TITLE: DEMO")?;
    for event in 0..events {
        put_event(&mut list, event)?;
    }
    Ok(list)
}

/// The line of an event, from 0, and the motion line behind the last of a group.
fn put_event(list: &mut Vec<u8>, event: u32) -> Result<(), AllocError>
    requires { event < 1000 }
    ensures { OnOk result (list.new.items ≡ list.old.items ++ event_text event) }
{
    put_event_line(list, event / 4, event % 4)?;
    if event % 4 == 3 {
        put_motion_line(list, event / 4)?;
    }
    Ok(())
}

/// The line of the event of a group that comes from a reel.
fn put_event_line(list: &mut Vec<u8>, group: u32, reel: u32) -> Result<(), AllocError>
    requires group { group < 250 }
    requires reel { reel < 4 }
    ensures { OnOk result (list.new.items ≡ list.old.items ++ event_line group reel) }
{
    let number: [u8; 6] = last_digits(4 * group + reel + 1);
    let digit: [u8; 1] = last_digits(reel);
    put_bytes(list, &number)?;
    put_bytes(list, b" R")?;
    put_bytes(list, &digit)?;
    put_bytes(list, b" V ")?;
    put_bytes(list, transition(reel))?;
    put_label(list, source_in(group))?;
    put_label(list, source_in(group) + 6)?;
    put_label(list, record_in(group, reel))?;
    put_label(list, record_in(group, reel) + 6)?;
    put_line(list, b"")?;
    Ok(())
}

/// The motion line of a group.
fn put_motion_line(list: &mut Vec<u8>, group: u32) -> Result<(), AllocError>
    requires { group < 250 }
    ensures { OnOk result (list.new.items ≡ list.old.items ++ motion_line group) }
{
    put_bytes(list, b"M2 R3 012.0")?;
    put_label(list, source_in(group))?;
    put_line(list, b"")?;
    Ok(())
}

/// The words of the transition to a reel.
fn transition(reel: u32) -> &'static [u8]
    ensures { result.now ≡ transition reel }
{
    match reel {
        1 => b"D 004",
        2 => b"W102 006",
        _ => b"C",
    }
}

fn source_in(group: u32) -> u32
    requires { group < 250 }
    ensures { result ≡ 86400 + 6 * group }
{
    HOUR + 6 * group
}

fn record_in(group: u32, reel: u32) -> u32
    requires group { group < 250 }
    requires reel { reel < 4 }
    ensures { result ≡ 86400 + 26 * group + 6 * reel }
{
    HOUR + 26 * group + 6 * reel
}

/// A space, and the label of a frame of the day.
#[tactic(auto, unfolding(crate::specs::Texts::label_text))]
fn put_label(list: &mut Vec<u8>, number: u32) -> Result<(), AllocError>
    requires { number < 100000 }
    ensures { OnOk result (list.new.items ≡ list.old.items ++ 32 ∷ label_text number) }
{
    put_bytes(list, b" ")?;
    put_bytes(
        list,
        &text(
            Mode::NonDrop,
            label_of(Rate::R24, Mode::NonDrop, FrameNo(number)),
        ),
    )?;
    Ok(())
}
