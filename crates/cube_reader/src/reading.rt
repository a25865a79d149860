//! One pass over the lines of a text.
ghost use Rattle.std.specs.Prelude.{◌≡◌, ◌≤◌, length, [], ◌∷◌, true, false};
ghost use Rattle.cf_base.specs.Tokens.{IsGap};
ghost use Rattle.cube_reader.specs.Table.{greatest_size};
ghost use Rattle.cube_reader.specs.Text.{tokens_of, lines_in, is_passed_over, is_data};
ghost use Rattle.cube_reader.specs.inside.Steps.{ReadsAll, ReadsLine, refused_at, words_from};

use crate::fault::{CubeFault, CubeKind};
use crate::keywords::keyword_of;
use crate::state::{State, clamped};
use crate::words::three_numbers;
use cf_base::{CUBE_BYTES, Fail, Fixed, line_at, lines_in_turn, token_from};
use std::alloc::Global;

/// What the lines so far say, and their table.
#[derive(Drop)]
pub struct Reading {
    /// How many lines there were.
    pub lines: u32,
    /// What they say for the next one.
    pub state: State,
    /// The values of their data lines.
    pub entries: Vec<[Fixed; 3]>,
}

/// Reads the lines of a text, up to its first fault.
pub fn read_lines(alloc: Global, text: &[u8]) -> Result<Reading, Fail<CubeFault>>
    requires { length text.now ≤ CUBE_BYTES }
    ensures { ReadsAll (lines_in text.now) result }
{
    lines_in_turn();
    let mut reading = Reading {
        lines: 0,
        state: State::new(),
        entries: Vec::new(alloc),
    };
    let mut at = 0;
    while let Some(span) = line_at(text, at) {
        let line = reading.lines + 1;
        match read_more(&mut reading, &text[span.start..span.end]) {
            Ok(()) => {}
            Err(fail) => return Err(refused_at(line, fail)),
        }
        at = span.next;
    }
    Ok(reading)
}

/// A fault with its line.
fn refused_at(line: u32, fail: Fail<CubeKind>) -> Fail<CubeFault>
    ensures { result ≡ refused_at line fail }
{
    match fail {
        Fail::Fault(kind) => Fail::Fault(CubeFault { line, kind }),
        Fail::NoMemory => Fail::NoMemory,
    }
}

/// Reads a line more.
fn read_more(reading: &mut Reading, line: &[u8]) -> Result<(), Fail<CubeKind>>
    requires few { reading.old.lines ≤ CUBE_BYTES }
    requires few_data { reading.old.state.data_lines ≤ CUBE_BYTES }
    requires sized { reading.old.state.size ≤ greatest_size reading.old.state.seen.cube_size }
    ensures { ReadsLine (tokens_of line.now) reading.old result reading.new }
{
    let Some(first) = token_from(line, 0) else {
        reading.lines += 1;
        return Ok(());
    };
    let word = &line[first.start..first.end];
    if word[0] == b'#' {
        reading.lines += 1;
        return Ok(());
    }
    if begins_number(word[0]) {
        return read_data(reading, line);
    }
    read_keyword(reading, word, line, first.end)
}

/// Whether a word with this first byte makes a data line.
fn begins_number(byte: u8) -> bool
    ensures { result ≡ is_data ((byte ∷ []) ∷ []) }
{
    byte.is_ascii_digit() || byte == b'+' || byte == b'-' || byte == b'.'
}

/// Reads a data line more.
fn read_data(reading: &mut Reading, line: &[u8]) -> Result<(), Fail<CubeKind>>
    requires few { reading.old.lines ≤ CUBE_BYTES }
    requires few_data { reading.old.state.data_lines ≤ CUBE_BYTES }
    requires sized { reading.old.state.size ≤ greatest_size reading.old.state.seen.cube_size }
    requires solid { is_passed_over (tokens_of line.now) ≡ false }
    requires begins { is_data (tokens_of line.now) ≡ true }
    ensures { ReadsLine (tokens_of line.now) reading.old result reading.new }
{
    if let Some(kind) = reading.state.data_fault() {
        return Err(Fail::Fault(kind));
    }
    let Some(values) = three_numbers(line, 0) else {
        return Err(Fail::Fault(CubeKind::Number));
    };
    match reading.entries.push(clamped(&values)) {
        Err(_) => Err(Fail::NoMemory),
        Ok(()) => {
            reading.state.data_lines += 1;
            reading.lines += 1;
            Ok(())
        }
    }
}

/// Reads a keyword line more: its first word, and the place behind it.
fn read_keyword(
    reading: &mut Reading,
    word: &[u8],
    line: &[u8],
    at: usize,
) -> Result<(), Fail<CubeKind>>
    requires few { reading.old.lines ≤ CUBE_BYTES }
    requires within { at ≤ length line.now }
    requires gap { IsGap line.now at }
    requires first { tokens_of line.now ≡ word.now ∷ words_from line.now at }
    requires solid { is_passed_over (tokens_of line.now) ≡ false }
    requires keyword { is_data (tokens_of line.now) ≡ false }
    ensures { ReadsLine (tokens_of line.now) reading.old result reading.new }
{
    let Some(keyword) = keyword_of(word) else {
        return Err(Fail::Fault(CubeKind::Keyword));
    };
    match reading.state.with_keyword(keyword, line, at) {
        Err(kind) => Err(Fail::Fault(kind)),
        Ok(state) => {
            reading.state = state;
            reading.lines += 1;
            Ok(())
        }
    }
}
