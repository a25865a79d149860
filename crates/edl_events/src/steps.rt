//! One line more, from what the lines before it say.
ghost use Rattle.std.specs.Prelude.{◌≡◌, ◌≤◌, ◌<◌, length, slice_range, IfOk, IfSome, unwrap_or, Some, ◌-◌};
ghost use Rattle.cf_base.specs.Timing.{CanCount, can_count, frames_in_day};
ghost use Rattle.edl_lines.specs.Within.{IsSpanIn, AreSpansIn, IsIn};
ghost use Rattle.edl_events.specs.inside.Made.{AreTimes};
ghost use Rattle.edl_events.specs.Pictures.{label_number, times_of, is_at, leads, transition_fits};
ghost use Rattle.edl_events.specs.inside.Steps.{IsInDayOf, picture_from, step_of};

use crate::ListKind;
use cf_base::{EventRec, LIST_BYTES, Mode, Name, Rate, Span, Transition, can_count};
use cf_timecode::{counting_laws, frames_of, parse};
use edl_lines::{LineFault, LineKind};
use trans_mix::known_wipe;

/// How many picture lines a list has at most.
const MOST_PICTURES: u32 = 10_000;

/// What the lines so far say for the next one.
#[derive(Clone, Copy)]
pub struct State {
    /// How many lines there were.
    pub lines: u32,
    /// The mode in force.
    pub mode: Mode,
    /// The mode of record labels, once an event line has come.
    pub record_mode: Option<Mode>,
    /// The record out of the last picture line.
    pub last_out: Option<u32>,
    /// How many picture lines there were.
    pub pictures: u32,
}

/// What the lines say with one more, and its event if it is a picture line.
#[derive(Clone, Copy)]
pub struct Step {
    /// What they say for the next line.
    pub state: State,
    /// The event, but for its speed.
    pub event: Option<EventRec>,
}

/// Source in and out, record in and out, as numbers of their days.
#[derive(Clone, Copy)]
pub struct Times {
    /// The first source frame.
    pub src_in: u32,
    /// The frame behind the last source frame.
    pub src_out: u32,
    /// The first record frame.
    pub rec_in: u32,
    /// The frame behind the last record frame.
    pub rec_out: u32,
}

/// The bytes of a line in a span.
fn bytes_in(line: &[u8], span: Span) -> &[u8]
    requires begins { span.start ≤ span.end }
    requires ends { span.end ≤ length line.now }
    ensures { result.now ≡ slice_range line.now span.start span.end }
{
    &line[span.start as usize..span.end as usize]
}

/// The number of the label in a span of a line.
pub fn label_number(rate: Rate, mode: Mode, line: &[u8], span: Span) -> Result<u32, ListKind>
    requires counts { CanCount rate mode }
    requires span { IsSpanIn line.now span }
    ensures value { result ≡ label_number rate mode line.now span }
    ensures day { IfOk result (λ n. n < frames_in_day rate mode) }
{
    match parse(rate, mode, bytes_in(line, span)) {
        Ok(label) => {
            counting_laws();
            Ok(frames_of(rate, mode, label))
        }
        Err(fault) => Err(ListKind::Label(fault)),
    }
}

/// The four times of a picture line: sources in the mode in force, records in the record mode.
fn times_of(
    rate: Rate,
    mode: Mode,
    record_mode: Mode,
    line: &[u8],
    spans: [Span; 4],
) -> Result<Times, ListKind>
    requires counts { CanCount rate mode }
    requires record_counts { CanCount rate record_mode }
    requires spans { AreSpansIn line.now spans }
    ensures value { result ≡ times_of rate mode record_mode line.now spans }
    ensures day { IfOk result (λ times. AreTimes rate mode record_mode times) }
{
    let [a, b, c, d] = spans;
    let src_in = label_number(rate, mode, line, a)?;
    let src_out = label_number(rate, mode, line, b)?;
    let rec_in = label_number(rate, record_mode, line, c)?;
    let rec_out = label_number(rate, record_mode, line, d)?;
    Ok(Times {
        src_in,
        src_out,
        rec_in,
        rec_out,
    })
}

/// Whether a place is this number.
fn is_at(place: Option<u32>, n: u32) -> bool
    ensures { result ≡ is_at place n }
{
    place == Some(n)
}

/// Whether a transition of d frames comes from where the picture line before ends, and fits.
fn leads(before: Option<u32>, times: Times, d: u32) -> Result<(), ListKind>
    requires { times.rec_in ≤ times.rec_out }
    ensures { result ≡ leads before times d }
{
    if !is_at(before, times.rec_in) {
        return Err(ListKind::NoFrom);
    }
    if 1 <= d && d <= times.rec_out - times.rec_in {
        Ok(())
    } else {
        Err(ListKind::Duration)
    }
}

/// Whether a transition comes from somewhere and fits its event; a wipe's code is tested first.
fn transition_fits(
    before: Option<u32>,
    times: Times,
    transition: Transition,
) -> Result<(), ListKind>
    requires { times.rec_in ≤ times.rec_out }
    ensures { result ≡ transition_fits before times transition }
{
    match transition {
        Transition::Cut => Ok(()),
        Transition::Dissolve { d } => leads(before, times, d),
        Transition::Wipe { code, d } => {
            if known_wipe(code) {
                leads(before, times, d)
            } else {
                Err(ListKind::UnknownWipe)
            }
        }
    }
}

/// The event of a picture line but for its speed, or its first fault.
fn picture(
    rate: Rate,
    state: &State,
    line: &[u8],
    number: u32,
    reel: &Name,
    transition: Transition,
    spans: [Span; 4],
) -> Result<EventRec, ListKind>
    requires counts { CanCount rate state.now.mode }
    requires record_counts { CanCount rate (unwrap_or state.now.record_mode state.now.mode) }
    requires spans { AreSpansIn line.now spans }
    requires few { state.now.lines ≤ LIST_BYTES }
    ensures value { result ≡ picture_from rate state.now line.now number reel.now transition spans }
    ensures day { IfOk result (IsInDayOf rate state.now) }
{
    let record_mode = state.record_mode.unwrap_or(state.mode);
    let times = match times_of(rate, state.mode, record_mode, line, spans) {
        Ok(times) => times,
        Err(kind) => return Err(kind),
    };
    if times.rec_out < times.rec_in {
        return Err(ListKind::Backwards);
    }
    if MOST_PICTURES <= state.pictures {
        return Err(ListKind::TooMany);
    }
    if let Err(kind) = transition_fits(state.last_out, times, transition) {
        return Err(kind);
    }
    Ok(EventRec {
        line: state.lines + 1,
        number,
        reel: *reel,
        src_mode: state.mode,
        src_in: times.src_in,
        src_out: times.src_out,
        rec_in: times.rec_in,
        rec_out: times.rec_out,
        speed: None,
        transition,
    })
}

/// What the lines say with one more, or its first fault; motion lines apart.
pub fn next_step(rate: Rate, state: &State, line: &[u8], kind: LineKind) -> Result<Step, ListKind>
    requires counts { CanCount rate state.now.mode }
    requires record_counts { CanCount rate (unwrap_or state.now.record_mode state.now.mode) }
    requires within { IsIn line.now kind }
    requires few { state.now.lines ≤ LIST_BYTES }
    requires few_pictures { state.now.pictures ≤ 10000 }
    ensures value { result ≡ step_of rate state.now line.now kind }
    ensures day { IfOk result (λ t. IfSome t.event (IsInDayOf rate state.now)) }
{
    let lines = state.lines + 1;
    match kind {
        LineKind::Fcm { mode } => {
            if !can_count(rate, mode) {
                return Err(ListKind::Line(LineFault::BadFcm));
            }
            Ok(Step {
                state: State {
                    lines,
                    mode,
                    ..*state
                },
                event: None,
            })
        }
        LineKind::Event {
            number,
            reel,
            transition,
            times,
        } => match picture(rate, state, line, number, &reel, transition, times) {
            Ok(event) => Ok(Step {
                state: State {
                    lines,
                    mode: state.mode,
                    record_mode: Some(state.record_mode.unwrap_or(state.mode)),
                    last_out: Some(event.rec_out),
                    pictures: state.pictures + 1,
                },
                event: Some(event),
            }),
            Err(kind) => Err(kind),
        },
        LineKind::Skipped { .. } => Ok(Step {
            state: State {
                lines,
                record_mode: Some(state.record_mode.unwrap_or(state.mode)),
                ..*state
            },
            event: None,
        }),
        _ => Ok(Step {
            state: State { lines, ..*state },
            event: None,
        }),
    }
}
