//! The reels of a project file.
ghost use Rattle.std.specs.Prelude.{◌≡◌, ◌≤◌, ◌<◌, IfOk, IfSome, codes, false, length};
ghost use Rattle.std.specs.List.{All};
ghost use Rattle.toml.specs.View.{items_view, table_view, view};
ghost use Rattle.toml.specs.Data.{get_member};
ghost use Rattle.cf_base.specs.Timing.{CanCount, frames_in_day};
ghost use Rattle.cf_base.specs.declared.timing.Mode.TheVariants.{NonDrop};
ghost use Rattle.project_file.specs.Keys.{all_items, is_table, needed, optional, text_at, whole_at};
ghost use Rattle.project_file.specs.inside.Keys.{seen_as, GivesSeen};
ghost use Rattle.project_file.specs.Projects.{mode_of, mode_at, label_number, prefix_of, reel_at, reel_name_of};
ghost use Rattle.project_file.specs.Projects.{reel_of, reels_at, reels_from, reels_in, IsReelInRange};

use crate::fault::{Place, ProjectFault, ProjectKind};
use crate::keys::{flag_at, member, whole_at};
use cf_base::{Fail, LONGEST, Mode, Name, PathText, Rate, ReelEntry, can_count, day};
use cf_timecode::{counting_laws, frames_of, parse};
use std::alloc::Global;
use toml::{Table, Value};

/// Key 9: the members of the list of reels, none where there is no list.
pub(crate) fn reels_in(table: &Table) -> Result<&[Value], ProjectFault>
    ensures reels { seen_as (λ values. items_view values.now) result ≡ reels_in (table_view table.now) }
    ensures few { IfOk result (λ values. length values.now ≤ 1024) }
{
    let Some(value) = member(table, "reel") else {
        return Ok(&[]);
    };
    reels_at(value)
}

#[tactic(auto, using(crate::proofs::Projects::count_view))]
fn reels_at(value: &Value) -> Result<&[Value], ProjectFault>
    ensures reels { seen_as (λ values. items_view values.now) result ≡ reels_at (view value.now) }
    ensures few { IfOk result (λ values. length values.now ≤ 1024) }
{
    let place = Place::top(9);
    let Some(items) = value.as_array() else {
        return Err(place.fault(ProjectKind::WrongType));
    };
    if !all_tables(items) {
        return Err(place.fault(ProjectKind::WrongType));
    }
    if items.len() <= 1024 {
        Ok(items.as_slice())
    } else {
        Err(place.fault(ProjectKind::OutOfRange))
    }
}

fn all_tables(items: &[Value]) -> bool
    ensures tables { result ≡ all_items is_table (items_view items.now) }
{
    'items: for item in items {
        if !item.is_table() {
            return false;
        }
    }
    true
}

/// The entries of the reels.
pub(crate) fn read_reels(
    alloc: Global,
    rate: Rate,
    values: &[Value],
) -> Result<Vec<ReelEntry>, Fail<ProjectFault>>
    requires few { length values.now ≤ 1024 }
    ensures reels { GivesSeen (λ reels. reels.items) result (reels_from rate 1 (items_view values.now)) }
    ensures range { IfOk result (λ reels. All IsReelInRange reels.items) }
    ensures few { IfOk result (λ reels. length reels.items ≤ 1024) }
{
    let mut reels = Vec::new(alloc);
    let mut number: u32 = 1;
    'values: for value in values {
        let reel = match reel_at(rate, number, value) {
            Ok(reel) => reel,
            Err(fault) => return Err(Fail::Fault(fault)),
        };
        let Ok(()) = reels.push(reel) else {
            return Err(Fail::NoMemory);
        };
        number += 1;
    }
    Ok(reels)
}

fn reel_at(rate: Rate, reel: u32, value: &Value) -> Result<ReelEntry, ProjectFault>
    ensures reel { result ≡ reel_at rate reel (view value.now) }
    ensures range { IfOk result IsReelInRange }
{
    let Some(table) = value.as_table() else {
        return Err(Place::top(9).fault(ProjectKind::WrongType));
    };
    reel_of(rate, reel, table)
}

fn reel_of(rate: Rate, reel: u32, table: &Table) -> Result<ReelEntry, ProjectFault>
    ensures reel { result ≡ reel_of rate reel (table_view table.now) }
    ensures range { IfOk result IsReelInRange }
{
    let name = name_in(Place { key: 10, reel }, table)?;
    let prefix = prefix_in(Place { key: 11, reel }, table)?;
    let mode = mode_in(reel, rate, table)?;
    let start = start_in(Place { key: 12, reel }, rate, mode, table)?;
    let frames = frames_in(Place { key: 14, reel }, table)?;
    let file = file_in(Place { key: 15, reel }, start, table)?;
    Ok(ReelEntry {
        name,
        prefix,
        start,
        day: day(rate, mode),
        frames,
        file,
    })
}

/// Key 10.
fn name_in(place: Place, table: &Table) -> Result<Name, ProjectFault>
    ensures name { result ≡ needed place (text_at place reel_name_of) (get_member (codes "name") (table_view table.now)) }
{
    let Some(value) = member(table, "name") else {
        return Err(place.fault(ProjectKind::MissingKey));
    };
    let Some(text) = value.as_str() else {
        return Err(place.fault(ProjectKind::WrongType));
    };
    reel_name_of(text.as_bytes()).ok_or(place.fault(ProjectKind::OutOfRange))
}

/// The name of a reel: a Name other than `BL`.
fn reel_name_of(bytes: &[u8]) -> Option<Name>
    ensures name { result ≡ reel_name_of bytes.now }
{
    if bytes == b"BL".as_slice() {
        return None;
    }
    Name::of(bytes)
}

/// Key 11.
fn prefix_in(place: Place, table: &Table) -> Result<PathText, ProjectFault>
    ensures prefix { result ≡ needed place (text_at place prefix_of) (get_member (codes "prefix") (table_view table.now)) }
    ensures range { IfOk result (λ prefix. length prefix ≤ 200) }
{
    let Some(value) = member(table, "prefix") else {
        return Err(place.fault(ProjectKind::MissingKey));
    };
    let Some(text) = value.as_str() else {
        return Err(place.fault(ProjectKind::WrongType));
    };
    prefix_of(text.as_bytes()).ok_or(place.fault(ProjectKind::OutOfRange))
}

/// A path of at most 200 bytes.
fn prefix_of(bytes: &[u8]) -> Option<PathText>
    ensures prefix { result ≡ prefix_of bytes.now }
    ensures range { IfSome result (λ prefix. length prefix ≤ 200) }
{
    if bytes.len() > 200 {
        return None;
    }
    PathText::of(bytes)
}

/// Key 13.
fn mode_in(reel: u32, rate: Rate, table: &Table) -> Result<Mode, ProjectFault>
    ensures mode { result ≡ optional NonDrop (mode_at reel rate) (get_member (codes "drop") (table_view table.now)) }
    ensures counts { IfOk result (λ mode. CanCount rate mode) }
{
    let Some(value) = member(table, "drop") else {
        return Ok(Mode::NonDrop);
    };
    mode_at(reel, rate, value)
}

fn mode_at(reel: u32, rate: Rate, value: &Value) -> Result<Mode, ProjectFault>
    ensures mode { result ≡ mode_at reel rate (view value.now) }
    ensures counts { IfOk result (λ mode. CanCount rate mode) }
{
    let place = Place { key: 13, reel };
    let mode = mode_of(flag_at(place, value)?);
    if can_count(rate, mode) {
        Ok(mode)
    } else {
        Err(place.fault(ProjectKind::OutOfRange))
    }
}

fn mode_of(drop: bool) -> Mode
    ensures { result ≡ mode_of drop }
{
    if drop { Mode::Drop } else { Mode::NonDrop }
}

/// Key 12.
fn start_in(place: Place, rate: Rate, mode: Mode, table: &Table) -> Result<u32, ProjectFault>
    requires { CanCount rate mode }
    ensures start { result ≡ needed place (text_at place (label_number rate mode)) (get_member (codes "start") (table_view table.now)) }
    ensures day { IfOk result (λ n. n < frames_in_day rate mode) }
{
    let Some(value) = member(table, "start") else {
        return Err(place.fault(ProjectKind::MissingKey));
    };
    let Some(text) = value.as_str() else {
        return Err(place.fault(ProjectKind::WrongType));
    };
    label_number(rate, mode, text.as_bytes()).ok_or(place.fault(ProjectKind::OutOfRange))
}

/// The number in its day of the label that the bytes spell (SMPTE ST 12-1).
pub fn label_number(rate: Rate, mode: Mode, bytes: &[u8]) -> Option<u32>
    requires { CanCount rate mode }
    ensures number { result ≡ label_number rate mode bytes.now }
    ensures day { IfSome result (λ n. n < frames_in_day rate mode) }
{
    match parse(rate, mode, bytes) {
        Ok(label) => {
            counting_laws();
            Some(frames_of(rate, mode, label))
        }
        Err(_) => None,
    }
}

/// Key 14.
fn frames_in(place: Place, table: &Table) -> Result<u32, ProjectFault>
    ensures frames { result ≡ needed place (whole_at place 1 LONGEST) (get_member (codes "frames") (table_view table.now)) }
    ensures range { IfOk result (λ n. (1 ≤ n) × (n ≤ LONGEST)) }
{
    let Some(value) = member(table, "frames") else {
        return Err(place.fault(ProjectKind::MissingKey));
    };
    whole_at(place, 1, LONGEST, value)
}

/// Key 15.
fn file_in(place: Place, start: u32, table: &Table) -> Result<u32, ProjectFault>
    requires { start ≤ 9999999 }
    ensures file { result ≡ optional start (whole_at place 0 9999999) (get_member (codes "file") (table_view table.now)) }
    ensures range { IfOk result (λ n. n ≤ 9999999) }
{
    let Some(value) = member(table, "file") else {
        return Ok(start);
    };
    whole_at(place, 0, 9_999_999, value)
}
