//! The event table of an edit list, as text.
ghost use Rattle.std.specs.Prelude.{◌≡◌, ◌<◌, ◌++◌, ◌∷◌, [], codes, OnOk, IfOk};
ghost use Rattle.cf_base.specs.Timing.{CanCount, frames_in_day};
ghost use Rattle.cf_base.specs.Events.{IsWellMade, IsWellMadeEvent};
ghost use Rattle.printed_text.specs.Text.{spaced_line};
ghost use Rattle.printed_tables.specs.Table.{event_table, event_line, label_word, rate_word, mode_word, transition_word, speed_word};

use cf_base::{EventList, EventRec, FrameNo, Mode, Rate, Transition, last_digits};
use cf_timecode::{label_of, text};
use printed_text::{put_bytes, put_number};
use std::alloc::{AllocError, Global};

/// The table: the line of the rate and the record mode, one line for each event, and the line of their number.
pub fn event_table(alloc: Global, rate: Rate, list: &EventList) -> Result<Vec<u8>, AllocError>
    requires made { IsWellMade rate list.now.mode list.now.events }
    ensures { IfOk result (λ table. table.items ≡ event_table rate list.now) }
{
    let mut table = Vec::new(alloc);
    put_head(&mut table, rate, list.mode)?;
    for event in list.events.items() {
        put_event(&mut table, rate, list.mode, event)?;
    }
    put_bytes(&mut table, b"events ")?;
    put_number(&mut table, list.events.items().len())?;
    put_bytes(&mut table, b"\n")?;
    Ok(table)
}

/// The line of the rate and the record mode.
fn put_head(table: &mut Vec<u8>, rate: Rate, mode: Mode) -> Result<(), AllocError>
    ensures { OnOk result (table.new.items ≡ table.old.items ++ spaced_line (codes "rate" ∷ rate_word rate ∷ mode_word mode ∷ [])) }
{
    put_bytes(table, b"rate ")?;
    put_bytes(table, rate_word(rate).as_bytes())?;
    put_bytes(table, b" ")?;
    put_bytes(table, mode_word(mode).as_bytes())?;
    put_bytes(table, b"\n")
}

fn rate_word(rate: Rate) -> &'static str
    ensures { result.now ≡ rate_word rate }
{
    match rate {
        Rate::R24 => "24",
        Rate::R25 => "25",
        Rate::R30 => "30",
    }
}

fn mode_word(mode: Mode) -> &'static str
    ensures { result.now ≡ mode_word mode }
{
    match mode {
        Mode::NonDrop => "non-drop",
        Mode::Drop => "drop",
    }
}

/// One event's line; `mode` is that of the record labels.
fn put_event(
    table: &mut Vec<u8>,
    rate: Rate,
    mode: Mode,
    event: &EventRec,
) -> Result<(), AllocError>
    requires counts { CanCount rate mode }
    requires made { IsWellMadeEvent rate mode event.now }
    ensures { OnOk result (table.new.items ≡ table.old.items ++ event_line rate mode event.now) }
{
    put_number(table, event.line)?;
    put_bytes(table, b" ")?;
    put_bytes(table, event.reel.bytes())?;
    put_bytes(table, b" ")?;
    put_label(table, rate, event.src_mode, event.src_in)?;
    put_label(table, rate, event.src_mode, event.src_out)?;
    put_label(table, rate, mode, event.rec_in)?;
    put_label(table, rate, mode, event.rec_out)?;
    put_transition(table, event.transition)?;
    put_bytes(table, b" ")?;
    put_speed(table, event.speed)?;
    put_bytes(table, b"\n")?;
    Ok(())
}

/// The label of a frame number, and a space.
#[tactic(auto, unfolding(crate::specs::Table::label_word))]
pub fn put_label(table: &mut Vec<u8>, rate: Rate, mode: Mode, number: u32) -> Result<(), AllocError>
    requires counts { CanCount rate mode }
    requires in_day { number < frames_in_day rate mode }
    ensures { OnOk result (table.new.items ≡ table.old.items ++ label_word rate mode number ++ 32 ∷ []) }
{
    put_bytes(table, &text(mode, label_of(rate, mode, FrameNo(number))))?;
    put_bytes(table, b" ")?;
    Ok(())
}

fn put_transition(table: &mut Vec<u8>, transition: Transition) -> Result<(), AllocError>
    ensures { OnOk result (table.new.items ≡ table.old.items ++ transition_word transition) }
{
    match transition {
        Transition::Cut => put_bytes(table, b"C"),
        Transition::Dissolve { d } => {
            put_bytes(table, b"D")?;
            put_number(table, d)
        }
        Transition::Wipe { code, d } => {
            let digits: [u8; 3] = last_digits(u32::from(code));
            put_bytes(table, b"W")?;
            put_bytes(table, &digits)?;
            put_bytes(table, b"/")?;
            put_number(table, d)
        }
    }
}

fn put_speed(table: &mut Vec<u8>, speed: Option<i32>) -> Result<(), AllocError>
    ensures { OnOk result (table.new.items ≡ table.old.items ++ speed_word speed) }
{
    match speed {
        Some(hundredths) => put_number(table, hundredths),
        None => put_bytes(table, b"-"),
    }
}
