//! Event and motion lines, token by token.
ghost use Rattle.std.specs.Prelude.{◌≡◌, ◌≤◌, ◌<◌, ◌∷◌, ◌==◌, length, IfOk};
ghost use Rattle.std.specs.List.{list_any, list_all};
ghost use Rattle.cf_base.specs.Tokens.{tokens_from, token_between, IsGap};
ghost use Rattle.edl_lines.specs.Lines.{event_of, motion_of, picture_of, is_picture, has_picture, has_no_picture, is_other_channel, timed_event};
ghost use Rattle.edl_lines.specs.Within.{IsIn};
ghost use Rattle.edl_lines.specs.inside.Shapes.{lasting, shape_of, lasting_event};

use crate::numbers::{decimal, speed_of};
use crate::{LineFault, LineKind};
use cf_base::{
    LIST_BYTES, Name, Span, TokenSpan, Transition, are_digits, digits_value, token_from,
};

/// An event line whose first token is its number.
pub fn read_event(line: &[u8], first: TokenSpan) -> Result<LineKind, LineFault>
    requires small { length line.now ≤ LIST_BYTES }
    requires apart { (first.start < first.end) × (first.end ≤ length line.now) }
    requires gap { IsGap line.now first.end }
    ensures within { IfOk result (λ kind. IsIn line.now kind) }
    ensures kind { result ≡ event_of (token_between line.now first.start first.end ∷ tokens_from line.now first.end) }
{
    let Some(number) = decimal(6, &line[first.start..first.end]) else {
        return Err(LineFault::BadEvent);
    };
    let Some(reel_token) = token_from(line, first.end) else {
        return Err(LineFault::BadEvent);
    };
    let Some(reel) = Name::of(&line[reel_token.start..reel_token.end]) else {
        return Err(LineFault::BadEvent);
    };
    let Some(channels) = token_from(line, reel_token.end) else {
        return Err(LineFault::BadEvent);
    };
    match is_picture(&line[channels.start..channels.end]) {
        Ok(true) => read_picture(line, channels.end, number, reel),
        Ok(false) => Ok(LineKind::Skipped { number, reel }),
        Err(fault) => Err(fault),
    }
}

/// Whether the channels name a picture event, or one that is passed over.
fn is_picture(bytes: &[u8]) -> Result<bool, LineFault>
    ensures { result ≡ is_picture bytes.now }
{
    if has_picture(bytes) {
        Ok(true)
    } else if has_no_picture(bytes) {
        Ok(false)
    } else {
        Err(LineFault::BadChannel)
    }
}

fn has_picture(bytes: &[u8]) -> bool
    ensures { result ≡ has_picture bytes.now }
{
    has_v(bytes) || bytes == b"B".as_slice()
}

fn has_v(bytes: &[u8]) -> bool
    ensures { result ≡ list_any (λ b. b == 86) bytes.now }
{
    bytes.iter().any(|byte| *byte == b'V')
}

fn has_no_picture(bytes: &[u8]) -> bool
    ensures { result ≡ has_no_picture bytes.now }
{
    are_other_channels(bytes) || bytes == b"NONE".as_slice()
}

fn are_other_channels(bytes: &[u8]) -> bool
    ensures { result ≡ list_all is_other_channel bytes.now }
{
    bytes.iter().all(|byte| is_other_channel(*byte))
}

fn is_other_channel(byte: u8) -> bool
    ensures { result ≡ is_other_channel byte }
{
    byte == b'A' || byte.is_ascii_digit() || byte == b'/'
}

/// A picture event by what stands behind its channels.
fn read_picture(line: &[u8], at: usize, number: u32, reel: Name) -> Result<LineKind, LineFault>
    requires small { length line.now ≤ LIST_BYTES }
    requires within { at ≤ length line.now }
    requires gap { IsGap line.now at }
    ensures within { IfOk result (λ kind. IsIn line.now kind) }
    ensures kind { result ≡ picture_of number reel (tokens_from line.now at) }
{
    let Some(token) = token_from(line, at) else {
        return Err(LineFault::BadEvent);
    };
    let bytes = &line[token.start..token.end];
    if bytes == b"C".as_slice() {
        return read_times(line, token.end, number, reel, Transition::Cut);
    }
    match shape_of(bytes) {
        Ok(shape) => read_lasting(line, token.end, number, reel, shape),
        Err(fault) => Err(fault),
    }
}

/// A picture event by what stands behind its transition's first token.
fn read_lasting(
    line: &[u8],
    at: usize,
    number: u32,
    reel: Name,
    shape: Shape,
) -> Result<LineKind, LineFault>
    requires small { length line.now ≤ LIST_BYTES }
    requires within { at ≤ length line.now }
    requires gap { IsGap line.now at }
    ensures within { IfOk result (λ kind. IsIn line.now kind) }
    ensures kind { result ≡ lasting_event number reel shape (tokens_from line.now at) }
{
    let Some(duration) = token_from(line, at) else {
        return Err(LineFault::BadTransition);
    };
    let Some(d) = decimal(5, &line[duration.start..duration.end]) else {
        return Err(LineFault::BadTransition);
    };
    read_times(line, duration.end, number, reel, lasting(shape, d))
}

/// The four times of a picture event.
fn read_times(
    line: &[u8],
    at: usize,
    number: u32,
    reel: Name,
    transition: Transition,
) -> Result<LineKind, LineFault>
    requires small { length line.now ≤ LIST_BYTES }
    requires within { at ≤ length line.now }
    requires gap { IsGap line.now at }
    ensures within { IfOk result (λ kind. IsIn line.now kind) }
    ensures kind { result ≡ timed_event number reel transition (tokens_from line.now at) }
{
    let Some(source_in) = token_from(line, at) else {
        return Err(LineFault::BadEvent);
    };
    let Some(source_out) = token_from(line, source_in.end) else {
        return Err(LineFault::BadEvent);
    };
    let Some(record_in) = token_from(line, source_out.end) else {
        return Err(LineFault::BadEvent);
    };
    let Some(record_out) = token_from(line, record_in.end) else {
        return Err(LineFault::BadEvent);
    };
    let times = [
        span_of(source_in),
        span_of(source_out),
        span_of(record_in),
        span_of(record_out),
    ];
    Ok(LineKind::Event {
        number,
        reel,
        transition,
        times,
    })
}

fn span_of(token: TokenSpan) -> Span
    requires { (token.start ≤ LIST_BYTES) × (token.end ≤ LIST_BYTES) }
    ensures { result ≡ record { start = token.start; end = token.end } }
{
    Span {
        start: token.start as u32,
        end: token.end as u32,
    }
}

/// A transition that lasts, before its duration is read.
#[derive(Clone, Copy)]
enum Shape {
    Dissolve,
    Wipe(u16),
}

fn lasting(shape: Shape, d: u32) -> Transition
    ensures { result ≡ lasting shape d }
{
    match shape {
        Shape::Dissolve => Transition::Dissolve { d },
        Shape::Wipe(code) => Transition::Wipe { code, d },
    }
}

/// `D`, or `W` and three digits.
fn shape_of(bytes: &[u8]) -> Result<Shape, LineFault>
    requires { 0 < length bytes.now }
    ensures { result ≡ shape_of bytes.now }
{
    if bytes == b"D".as_slice() {
        Ok(Shape::Dissolve)
    } else if bytes.len() == 4 && bytes[0] == b'W' && are_digits(&bytes[1..]) {
        Ok(Shape::Wipe(digits_value(&bytes[1..]) as u16))
    } else if bytes[0] == b'K' {
        Err(LineFault::Key)
    } else {
        Err(LineFault::BadTransition)
    }
}

/// A motion line whose first token is `M2`.
pub fn read_motion(line: &[u8], first: TokenSpan) -> Result<LineKind, LineFault>
    requires small { length line.now ≤ LIST_BYTES }
    requires apart { (first.start < first.end) × (first.end ≤ length line.now) }
    requires gap { IsGap line.now first.end }
    ensures within { IfOk result (λ kind. IsIn line.now kind) }
    ensures kind { result ≡ motion_of (token_between line.now first.start first.end ∷ tokens_from line.now first.end) }
{
    let Some(reel_token) = token_from(line, first.end) else {
        return Err(LineFault::BadMotion);
    };
    let Some(reel) = Name::of(&line[reel_token.start..reel_token.end]) else {
        return Err(LineFault::BadMotion);
    };
    let Some(speed_token) = token_from(line, reel_token.end) else {
        return Err(LineFault::BadMotion);
    };
    let Some(speed) = speed_of(&line[speed_token.start..speed_token.end]) else {
        return Err(LineFault::BadMotion);
    };
    let Some(trigger) = token_from(line, speed_token.end) else {
        return Err(LineFault::BadMotion);
    };
    Ok(LineKind::Motion {
        reel,
        speed,
        trigger: span_of(trigger),
    })
}
