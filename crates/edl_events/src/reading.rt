//! One pass over the lines of a text.
ghost use Rattle.std.specs.Prelude.{◌≡◌, ◌≤◌, ℕ, length, Ok, unwrap_or, OnOk, IfOk, ◌++◌, map, nat_abs};
ghost use Rattle.std.specs.Ordering.{nat_cmp};
ghost use Rattle.std.specs.BTreeMap.{get};
ghost use Rattle.edl_lines.specs.declared.LineKind.TheVariants.{Motion};
ghost use Rattle.std.specs.Option.{option_to_list};
ghost use Rattle.edl_lines.specs.Within.{IsIn, IsSpanIn};
ghost use Rattle.cf_base.specs.Timing.{CanCount};
ghost use Rattle.edl_events.specs.Places.{lines_in, head_of_kind};
ghost use Rattle.edl_events.specs.inside.Rounds.{FirstRound, refused_at};
ghost use Rattle.edl_events.specs.inside.Reads.{ReadsLine, IsPlain, IsAdded, noted, spoken, line_of};

use crate::steps::{State, label_number, next_step};
use crate::table::Table;
use crate::{ListKind, ListRefusal};
use cf_base::{EventRec, Fail, LIST_BYTES, Mode, Name, Rate, Span, line_at, lines_in_turn};
use edl_lines::{LineKind, read_line};
use std::alloc::{AllocError, Global};
use std::collections::BTreeMap;

/// What the lines so far say, and their events.
#[derive(Drop)]
pub struct Reading {
    /// What they say for the next line.
    pub state: State,
    /// Their picture lines, but for the speeds.
    pub events: Vec<EventRec>,
    /// The event lines to which a motion line may belong.
    pub table: Table,
    /// The speeds of event lines by their places.
    pub speeds: BTreeMap<u32, i32>,
}

/// Reads the lines of a text, up to its first fault.
pub fn read_lines(alloc: Global, rate: Rate, text: &[u8]) -> Result<Reading, Fail<ListRefusal>>
    requires { length text.now ≤ LIST_BYTES }
    ensures { FirstRound rate (lines_in text.now) result }
{
    lines_in_turn();
    let mut reading = Reading {
        state: State {
            lines: 0,
            mode: Mode::NonDrop,
            record_mode: None,
            last_out: None,
            pictures: 0,
        },
        events: Vec::new(alloc),
        table: Table {
            number: None,
            counts: BTreeMap::new(alloc),
            places: BTreeMap::new(alloc),
        },
        speeds: BTreeMap::new(alloc),
    };
    let mut at = 0;
    while let Some(span) = line_at(text, at) {
        let line = reading.state.lines + 1;
        match read_more(rate, &mut reading, &text[span.start..span.end]) {
            Ok(()) => {}
            Err(fail) => return Err(refused_at(line, fail)),
        }
        at = span.next;
    }
    Ok(reading)
}

/// A fault with its line.
fn refused_at(line: u32, fail: Fail<ListKind>) -> Fail<ListRefusal>
    ensures { result ≡ refused_at line fail }
{
    match fail {
        Fail::Fault(kind) => Fail::Fault(ListRefusal { line, kind }),
        Fail::NoMemory => Fail::NoMemory,
    }
}

/// Reads a line more.
pub fn read_more(rate: Rate, reading: &mut Reading, line: &[u8]) -> Result<(), Fail<ListKind>>
    requires counts { CanCount rate reading.old.state.mode }
    requires record_counts { CanCount rate (unwrap_or reading.old.state.record_mode reading.old.state.mode) }
    requires few { reading.old.state.lines ≤ LIST_BYTES }
    requires few_pictures { reading.old.state.pictures ≤ 10000 }
    requires short { length line.now ≤ LIST_BYTES }
    ensures { ReadsLine rate (line_of line.now) reading.old result reading.new }
{
    let kind = match read_line(line) {
        Ok(kind) => kind,
        Err(fault) => return Err(Fail::Fault(ListKind::Line(fault))),
    };
    match kind {
        LineKind::Motion {
            reel,
            speed,
            trigger,
        } => read_motion(rate, reading, line, &reel, speed, trigger),
        _ => read_plain(rate, reading, line, kind),
    }
}

/// Reads a line more that is no motion line.
fn read_plain(
    rate: Rate,
    reading: &mut Reading,
    line: &[u8],
    kind: LineKind,
) -> Result<(), Fail<ListKind>>
    requires counts { CanCount rate reading.old.state.mode }
    requires record_counts { CanCount rate (unwrap_or reading.old.state.record_mode reading.old.state.mode) }
    requires few { reading.old.state.lines ≤ LIST_BYTES }
    requires few_pictures { reading.old.state.pictures ≤ 10000 }
    requires within { IsIn line.now kind }
    requires plain { IsPlain kind }
    ensures { ReadsLine rate (record { bytes = line.now; kind = Ok kind }) reading.old result reading.new }
{
    match next_step(rate, &reading.state, line, kind) {
        Err(kind) => Err(Fail::Fault(kind)),
        Ok(step) => match keep(&mut reading.events, step.event) {
            Err(_) => Err(Fail::NoMemory),
            Ok(()) => match add_line(&mut reading.table, &kind, reading.state.lines) {
                Err(_) => Err(Fail::NoMemory),
                Ok(()) => {
                    reading.state = step.state;
                    Ok(())
                }
            },
        },
    }
}

/// An event line stands in the table.
fn add_line(table: &mut Table, kind: &LineKind, place: u32) -> Result<(), AllocError>
    ensures { OnOk result (IsAdded (head_of_kind (Ok kind.now)) place table.old table.new) }
{
    match *kind {
        LineKind::Event { number, reel, .. } => table.add(number, place, &reel),
        LineKind::Skipped { number, reel } => table.add(number, place, &reel),
        _ => Ok(()),
    }
}

/// Reads a motion line more.
fn read_motion(
    rate: Rate,
    reading: &mut Reading,
    line: &[u8],
    reel: &Name,
    speed: i32,
    trigger: Span,
) -> Result<(), Fail<ListKind>>
    requires counts { CanCount rate reading.old.state.mode }
    requires few { reading.old.state.lines ≤ LIST_BYTES }
    requires within { IsSpanIn line.now trigger }
    requires bound { nat_abs speed ≤ 999999 }
    ensures { ReadsLine rate (record { bytes = line.now; kind = Ok (Motion reel.now speed trigger) }) reading.old result reading.new }
{
    if let Err(kind) = label_number(rate, reading.state.mode, line, trigger) {
        return Err(Fail::Fault(kind));
    }
    let Some(place) = reading.table.owner(reel) else {
        return Err(Fail::Fault(ListKind::StrayMotion));
    };
    match note_speed(&mut reading.speeds, place, speed) {
        Err(_) => Err(Fail::NoMemory),
        Ok(()) => match reading.table.take_motion(reel) {
            Err(_) => Err(Fail::NoMemory),
            Ok(()) => {
                reading.state.lines += 1;
                Ok(())
            }
        },
    }
}

/// The line at a place has the speed, if it had none.
fn note_speed(speeds: &mut BTreeMap<u32, i32>, place: u32, speed: i32) -> Result<(), AllocError>
    ensures { OnOk result ((event : ℕ) → get nat_cmp speeds.new event ≡ noted (get nat_cmp speeds.old event) place speed event) }
{
    if speeds.contains_key(&place) {
        return Ok(());
    }
    speeds.insert(place, speed)?;
    Ok(())
}

/// The events with their speeds.
pub fn put_speeds(
    alloc: Global,
    events: &[EventRec],
    speeds: &BTreeMap<u32, i32>,
) -> Result<Vec<EventRec>, AllocError>
    ensures { IfOk result (λ v. v.items ≡ map (spoken speeds.now) events.now) }
{
    events.iter().map(|e| spoken(e, speeds)).collect(alloc)
}

/// An event with its speed.
fn spoken(e: &EventRec, speeds: &BTreeMap<u32, i32>) -> EventRec
    ensures { result ≡ spoken speeds.now e.now }
{
    EventRec {
        speed: speeds.get(&e.line.saturating_sub(1)).copied(),
        ..*e
    }
}

/// The event of a picture line stands behind the others.
fn keep(events: &mut Vec<EventRec>, event: Option<EventRec>) -> Result<(), AllocError>
    ensures { OnOk result (events.new.items ≡ events.old.items ++ option_to_list event) }
{
    if let Some(event) = event {
        events.push(event)?;
    }
    Ok(())
}
