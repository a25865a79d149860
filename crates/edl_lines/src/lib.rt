//! Lines of a CMX 3600 edit decision list: one line to its kind with its fields, or to its one fault.
//!
//! A blank is a space or a tab, and a token is a longest run of other bytes. Tokens behind those that a kind of line has
//! are passed over. Nothing here takes memory.
#![tactic(auto)]

mod event;
mod numbers;

ghost use Rattle.std.specs.Prelude.{◌≡◌, ◌≤◌, length, map, IfOk, List, ℕ};
ghost use Rattle.std.specs.List.{list_all, prefix_len, suffix_len};
ghost use Rattle.cf_base.specs.Tokens.{tokens, is_blank};
ghost use Rattle.edl_lines.specs.Within.{IsIn, IsSpanIn};
ghost use Rattle.edl_lines.specs.Lines.{reading, fcm_of, trimmed_from};

use cf_base::{LIST_BYTES, Mode, Name, Span, Transition, is_blank, token_from};
use event::{read_event, read_motion};
use thiserror::Error;

/// What a line is. Spans are places in the line, in bytes from 0.
#[derive(Clone, Copy)]
pub enum LineKind {
    /// Blanks alone, or no bytes.
    Blank,
    /// Any line that is of no other kind.
    Note,
    /// `TITLE:`.
    Title {
        /// Where its text stands, without blanks at both ends.
        text: Span,
    },
    /// `FCM:`, a change of the frame counting mode.
    Fcm {
        /// The mode from here on.
        mode: Mode,
    },
    /// `M2`, a speed of a source.
    Motion {
        /// The source reel.
        reel: Name,
        /// Hundredths of a frame per second, at most 999,999 in size.
        speed: i32,
        /// Where its trigger label stands.
        trigger: Span,
    },
    /// A picture event.
    Event {
        /// The event number, at most 999,999.
        number: u32,
        /// The source reel.
        reel: Name,
        /// How it comes in; its duration isn't tested here.
        transition: Transition,
        /// Where source in, source out, record in and record out stand.
        times: [Span; 4],
    },
    /// An event of other channels, which is passed over.
    Skipped {
        /// The event number, at most 999,999.
        number: u32,
        /// The source reel.
        reel: Name,
    },
}

/// Why a line is refused. The numbers are this project's own.
#[derive(Clone, Copy, Debug, PartialEq, Eq, Error)]
pub enum LineFault {
    /// 3.1: an event number that isn't one to six digits, a reel that is no name, or a token that is missing.
    #[error("an event line that cannot be read")]
    BadEvent,
    /// 3.2: channels that name neither a picture nor sound alone.
    #[error("unknown channels")]
    BadChannel,
    /// 3.3: a key event.
    #[error("a key event")]
    Key,
    /// 3.4: a motion line whose reel, speed or trigger is missing or of another form.
    #[error("a motion line that cannot be read")]
    BadMotion,
    /// 3.5: `FCM:` without the words of a mode.
    #[error("an unknown frame counting mode")]
    BadFcm,
    /// 3.6: a transition of another form, or one whose duration isn't one to five digits.
    #[error("an unknown transition or duration")]
    BadTransition,
}

/// The one kind of a line with its fields, or its one fault. The line has no line ends, and at most 4,194,304 bytes.
pub fn read_line(line: &[u8]) -> Result<LineKind, LineFault>
    requires short { length line.now ≤ LIST_BYTES }
    ensures kind { result ≡ reading line.now }
    ensures within { IfOk result (λ kind. IsIn line.now kind) }
{
    let Some(first) = token_from(line, 0) else {
        return Ok(LineKind::Blank);
    };
    let bytes = &line[first.start..first.end];
    if bytes[0].is_ascii_digit() {
        return read_event(line, first);
    }
    if bytes.starts_with(b"TITLE:") {
        return Ok(LineKind::Title {
            text: trimmed_from(line, first.start + 6),
        });
    }
    if bytes.starts_with(b"FCM:") {
        return read_fcm(&line[first.start + 4..]);
    }
    if bytes == b"M2".as_slice() {
        return read_motion(line, first);
    }
    Ok(LineKind::Note)
}

/// The line from a place on, without blanks at both ends.
fn trimmed_from(line: &[u8], from: usize) -> Span
    requires within { from ≤ length line.now }
    requires small { length line.now ≤ LIST_BYTES }
    ensures text { result ≡ trimmed_from line.now from }
    ensures within { IsSpanIn line.now result }
{
    let rest = &line[from..];
    if are_blank(rest) {
        return Span {
            start: from as u32,
            end: from as u32,
        };
    }
    Span {
        start: (from + blanks_in_front(rest)) as u32,
        end: (line.len() - blanks_at_end(rest)) as u32,
    }
}

fn are_blank(bytes: &[u8]) -> bool
    ensures { result ≡ list_all is_blank bytes.now }
{
    bytes.iter().all(|byte| is_blank(*byte))
}

fn blanks_in_front(bytes: &[u8]) -> usize
    ensures value { result ≡ prefix_len is_blank bytes.now }
    ensures bound { result ≤ length bytes.now }
{
    bytes.iter().take_while(|byte| is_blank(**byte)).count()
}

fn blanks_at_end(bytes: &[u8]) -> usize
    ensures value { result ≡ suffix_len is_blank bytes.now }
    ensures bound { result ≤ length bytes.now }
{
    bytes
        .iter()
        .rev()
        .take_while(|byte| is_blank(**byte))
        .count()
}

/// The mode that the words behind `FCM:` name.
fn read_fcm(rest: &[u8]) -> Result<LineKind, LineFault>
    ensures kind { result ≡ fcm_of (map (λ t. t.bytes) (tokens rest.now)) }
    ensures within { (line : List ℕ) → IfOk result (λ kind. IsIn line kind) }
{
    let Some(first) = token_from(rest, 0) else {
        return Err(LineFault::BadFcm);
    };
    let Some(second) = token_from(rest, first.end) else {
        return Err(LineFault::BadFcm);
    };
    let first_word = &rest[first.start..first.end];
    let second_word = &rest[second.start..second.end];
    if first_word == b"DROP".as_slice() && second_word == b"FRAME".as_slice() {
        return Ok(LineKind::Fcm { mode: Mode::Drop });
    }
    if first_word == b"NON-DROP".as_slice() && second_word == b"FRAME".as_slice() {
        return Ok(LineKind::Fcm {
            mode: Mode::NonDrop,
        });
    }
    let Some(third) = token_from(rest, second.end) else {
        return Err(LineFault::BadFcm);
    };
    let third_word = &rest[third.start..third.end];
    if first_word == b"NON".as_slice()
        && second_word == b"DROP".as_slice()
        && third_word == b"FRAME".as_slice()
    {
        return Ok(LineKind::Fcm {
            mode: Mode::NonDrop,
        });
    }
    Err(LineFault::BadFcm)
}
