//! Timecode labels and their numbers in the day, after SMPTE ST 12-1.
//!
//! The meaning of every call is counting: a label's number is how many steps of one frame lead to it from 00:00:00:00,
//! where drop-frame counting passes over frames 00 and 01 of each minute that isn't a multiple of ten. The code has
//! closed formulas. Nothing here takes memory.
#![tactic(auto)]

ghost use Rattle.std.specs.Prelude.{◌≡◌, ◌≤◌, ◌<◌, true, false, ◌&&◌, ◌+◌, ◌*◌, ◌/◌, ◌%◌, ◌⊎◌, length, IfOk};
ghost use Rattle.std.specs.Char.{is_ascii_digit};
ghost use Rattle.cf_base.specs.Timing.{CanCount, frames_in_day};
ghost use Rattle.cf_timecode.specs.Counting.{IsValid, label_after, is_in_range, is_passed_over, CountsOnce, FillsDay, NumbersCount, NumbersFit, NumbersRise, NeverPassedOver};
ghost use Rattle.cf_timecode.specs.Spelling.{parsed, spelled, bcd_of, bcd_pair, has_shape, has_digits, is_separator, has_semicolon, number_at, SpellsBack};

use cf_base::{FrameNo, Mode, Rate};
use thiserror::Error;

/// A time address of SMPTE ST 12-1: hours, minutes, seconds and frames.
#[derive(Clone, Copy, Debug, PartialEq, Eq)]
pub struct Label {
    /// Hours, 0 to 23 in a valid label.
    pub h: u8,
    /// Minutes, 0 to 59 in a valid label.
    pub m: u8,
    /// Seconds, 0 to 59 in a valid label.
    pub s: u8,
    /// Frames, below the counting base in a valid label.
    pub f: u8,
}

/// Why a token is no label. The cases are tried in this order; their numbers are this project's own.
#[derive(Clone, Copy, Debug, PartialEq, Eq, Error)]
pub enum TcFault {
    /// 2.1: not two digits four times with `:` or `;` between.
    #[error("not two digits four times with separators between")]
    Shape,
    /// 2.2: an hour over 23, a minute or a second over 59, or a frame not below the counting base.
    #[error("a number out of its range")]
    Range,
    /// 2.3: a label that drop-frame counting passes over.
    #[error("a label that drop-frame counting passes over")]
    Dropped,
    /// 2.4: the drop-frame separator `;` in non-drop counting.
    #[error("a drop-frame separator in non-drop counting")]
    DropMark,
}

/// The label that a token of eleven bytes spells, `HH:MM:SS:FF` with `:` or `;` at each separator's place, or the first
/// of the four faults that holds. A `:` is taken at the last place in drop-frame counting, too.
pub fn parse(rate: Rate, mode: Mode, token: &[u8]) -> Result<Label, TcFault>
    requires counts { CanCount rate mode }
    ensures label { result ≡ parsed rate mode token.now }
    ensures valid { IfOk result (λ label. IsValid rate mode label) }
{
    if !has_shape(token) {
        return Err(TcFault::Shape);
    }
    let label = Label {
        h: number_at(token, 0),
        m: number_at(token, 3),
        s: number_at(token, 6),
        f: number_at(token, 9),
    };
    if !is_in_range(rate, label) {
        return Err(TcFault::Range);
    }
    if is_passed_over(mode, label) {
        return Err(TcFault::Dropped);
    }
    if has_semicolon(token) && matches!(mode, Mode::NonDrop) {
        return Err(TcFault::DropMark);
    }
    Ok(label)
}

/// The number of a valid label in its day, in frames: so many steps lead to it from 00:00:00:00.
pub fn frames_of(rate: Rate, mode: Mode, label: Label) -> u32
    requires counts { CanCount rate mode }
    requires valid { IsValid rate mode label }
    ensures reached { label_after rate mode result ≡ label }
    ensures below { result < frames_in_day rate mode }
{
    let minutes = u32::from(label.h) * 60 + u32::from(label.m);
    let seconds = minutes * 60 + u32::from(label.s);
    match (rate, mode) {
        (Rate::R24, _) => seconds * 24 + u32::from(label.f),
        (Rate::R25, _) => seconds * 25 + u32::from(label.f),
        (Rate::R30, Mode::NonDrop) => seconds * 30 + u32::from(label.f),
        (Rate::R30, Mode::Drop) => seconds * 30 + u32::from(label.f) - 2 * (minutes - minutes / 10),
    }
}

/// The label of a frame number below the day's: that to which so many steps lead from 00:00:00:00. The inverse of
/// `frames_of`.
pub fn label_of(rate: Rate, mode: Mode, n: FrameNo) -> Label
    requires counts { CanCount rate mode }
    requires in_day { n.0 < frames_in_day rate mode }
    ensures reached { result ≡ label_after rate mode n.0 }
    ensures valid { IsValid rate mode result }
{
    match (rate, mode) {
        (Rate::R24, _) => plain_label(n.0 / 24, n.0 % 24),
        (Rate::R25, _) => plain_label(n.0 / 25, n.0 % 25),
        (Rate::R30, Mode::NonDrop) => plain_label(n.0 / 30, n.0 % 30),
        (Rate::R30, Mode::Drop) => {
            let kept = n.0 + dropped_before(n.0);
            plain_label(kept / 30, kept % 30)
        }
    }
}

/// What holds of counting: no label comes twice, a day's number of labels comes to 24 hours, no step leads to a label
/// that is passed over, and the number of a label by arithmetic is its number by counting, and lies in the day. Of two
/// labels of the day, exactly the earlier one has the lesser number.
pub fn counting_laws()
    ensures once { CountsOnce }
    ensures day { FillsDay }
    ensures kept { NeverPassedOver }
    ensures numbers { NumbersCount }
    ensures fit { NumbersFit }
    ensures order { NumbersRise }
{}

/// How many labels drop-frame counting has passed over when it comes to frame n.
fn dropped_before(n: u32) -> u32
    requires { n < 2589408 }
    ensures small { result ≤ 2592 }
    ensures numbered { let kept = n + result in kept / 1800 * 1798 + kept / 1800 / 10 * 2 + kept % 1800 ≡ n }
    ensures kept { let kept = n + result in (2 ≤ kept % 1800) ⊎ (kept / 1800 % 10 ≡ 0) }
{
    // Ten minutes have 17982 frames: one minute of 1800, and nine of 1798.
    let rest = n % 17982;
    let minutes_dropped = if rest < 1800 {
        0
    } else {
        (rest - 1800) / 1798 + 1
    };
    18 * (n / 17982) + 2 * minutes_dropped
}

/// The label of a second in the day and a frame in it.
fn plain_label(second: u32, frame: u32) -> Label
    requires day { second < 86400 }
    requires frame { frame < 30 }
    ensures { result ≡ record { h = second / 3600; m = second / 60 % 60; s = second % 60; f = frame } }
{
    Label {
        h: (second / 3600) as u8,
        m: (second / 60 % 60) as u8,
        s: (second % 60) as u8,
        f: frame as u8,
    }
}

/// The eleven bytes of a label, `HH:MM:SS:FF`, with `;` as the last separator in drop-frame counting.
pub fn text(mode: Mode, label: Label) -> [u8; 11]
    requires digits { (label.h ≤ 99) × (label.m ≤ 99) × (label.s ≤ 99) × (label.f ≤ 99) }
    ensures text { result ≡ spelled mode label }
{
    let last = match mode {
        Mode::NonDrop => b':',
        Mode::Drop => b';',
    };
    [
        b'0' + label.h / 10,
        b'0' + label.h % 10,
        b':',
        b'0' + label.m / 10,
        b'0' + label.m % 10,
        b':',
        b'0' + label.s / 10,
        b'0' + label.s % 10,
        last,
        b'0' + label.f / 10,
        b'0' + label.f % 10,
    ]
}

/// The text of a valid label is parsed as that label.
pub fn text_law()
    ensures parsed { SpellsBack }
{}

/// The eight decimal digits HHMMSSFF of a label, four bits each, as ST 12-1 has its binary groups of digits: hours in the
/// uppermost byte.
pub fn bcd(label: Label) -> u32
    requires digits { (label.h ≤ 99) × (label.m ≤ 99) × (label.s ≤ 99) × (label.f ≤ 99) }
    ensures digits { result ≡ bcd_of label }
{
    bcd_pair(label.h) * 0x100_0000
        + bcd_pair(label.m) * 0x1_0000
        + bcd_pair(label.s) * 0x100
        + bcd_pair(label.f)
}

fn bcd_pair(n: u8) -> u32
    requires { n ≤ 99 }
    ensures { result ≡ bcd_pair n }
{
    u32::from(n / 10) * 16 + u32::from(n % 10)
}

fn is_in_range(rate: Rate, label: Label) -> bool
    ensures { result ≡ is_in_range rate label }
{
    let base = match rate {
        Rate::R24 => 24,
        Rate::R25 => 25,
        Rate::R30 => 30,
    };
    label.h < 24 && label.m < 60 && label.s < 60 && label.f < base
}

fn is_passed_over(mode: Mode, label: Label) -> bool
    ensures { result ≡ is_passed_over mode label }
{
    match mode {
        Mode::NonDrop => false,
        Mode::Drop => label.f < 2 && label.s == 0 && label.m % 10 != 0,
    }
}

fn has_shape(token: &[u8]) -> bool
    ensures { result ≡ has_shape token.now }
{
    token.len() == 11
        && has_digits(token, 0)
        && is_separator(token[2])
        && has_digits(token, 3)
        && is_separator(token[5])
        && has_digits(token, 6)
        && is_separator(token[8])
        && has_digits(token, 9)
}

fn has_digits(token: &[u8], i: usize) -> bool
    requires { i + 1 < length token.now }
    ensures { result ≡ has_digits token.now i }
{
    token[i].is_ascii_digit() && token[i + 1].is_ascii_digit()
}

fn is_separator(byte: u8) -> bool
    ensures { result ≡ is_separator byte }
{
    byte == b':' || byte == b';'
}

fn has_semicolon(token: &[u8]) -> bool
    requires { length token.now ≡ 11 }
    ensures { result ≡ has_semicolon token.now }
{
    token[2] == b';' || token[5] == b';' || token[8] == b';'
}

/// The number of two digits.
fn number_at(token: &[u8], i: usize) -> u8
    requires length { i + 1 < length token.now }
    requires digits { has_digits token.now i ≡ true }
    ensures { result ≡ number_at token.now i }
{
    10 * (token[i] - b'0') + (token[i + 1] - b'0')
}
