//! The words of a line as numbers.
ghost use Rattle.std.specs.Prelude.{◌≡◌, ◌≤◌, length, drop, IfNone, IfSome, None, Some};
ghost use Rattle.cf_base.specs.Tokens.{IsGap};
ghost use Rattle.cube_reader.specs.Text.{is_far};
ghost use Rattle.cube_reader.specs.inside.Steps.{words_from, first_number, values, bounds, small_number, size_in};

use crate::fault::CubeKind;
use cf_base::{Fixed, are_digits, digits_value, read_fixed, token_from};

/// How far a bound may be from 0: 100.
const FARTHEST: u64 = 100_000_000_000;

/// A number of a line, and the place behind it.
#[derive(Clone, Copy)]
struct NumberSpan {
    value: Fixed,
    end: usize,
}

/// The number at or behind a place of the line; None where there is none, or another word.
fn next_number(line: &[u8], at: usize) -> Option<NumberSpan>
    requires within { at ≤ length line.now }
    requires gap { IsGap line.now at }
    ensures none { IfNone result (first_number (words_from line.now at) ≡ None) }
    ensures value { IfSome result (λ n. first_number (words_from line.now at) ≡ Some n.value) }
    ensures rest { IfSome result (λ n. drop 1 (words_from line.now at) ≡ words_from line.now n.end) }
    ensures within { IfSome result (λ n. n.end ≤ length line.now) }
    ensures gap { IfSome result (λ n. IsGap line.now n.end) }
{
    let Some(token) = token_from(line, at) else {
        return None;
    };
    match read_fixed(&line[token.start..token.end]) {
        Ok(value) => Some(NumberSpan {
            value,
            end: token.end,
        }),
        Err(_) => None,
    }
}

/// The number behind a place, if it is the line's last word.
fn last_number(line: &[u8], at: usize) -> Option<[Fixed; 1]>
    requires within { at ≤ length line.now }
    requires gap { IsGap line.now at }
    ensures { result ≡ values 1 (words_from line.now at) }
{
    let Some(number) = next_number(line, at) else {
        return None;
    };
    match token_from(line, number.end) {
        Some(_) => None,
        None => Some([number.value]),
    }
}

/// The two numbers behind a place, if they are the line's last words.
fn two_numbers(line: &[u8], at: usize) -> Option<[Fixed; 2]>
    requires within { at ≤ length line.now }
    requires gap { IsGap line.now at }
    ensures { result ≡ values 2 (words_from line.now at) }
{
    let Some(first) = next_number(line, at) else {
        return None;
    };
    match last_number(line, first.end) {
        Some(rest) => Some([first.value, rest[0]]),
        None => None,
    }
}

/// The three numbers behind a place, if they are the line's last words.
pub fn three_numbers(line: &[u8], at: usize) -> Option<[Fixed; 3]>
    requires within { at ≤ length line.now }
    requires gap { IsGap line.now at }
    ensures { result ≡ values 3 (words_from line.now at) }
{
    let Some(first) = next_number(line, at) else {
        return None;
    };
    match two_numbers(line, first.end) {
        Some(rest) => Some([first.value, rest[0], rest[1]]),
        None => None,
    }
}

/// Whether a bound is over 100 in size.
fn is_far(bound: Fixed) -> bool
    ensures { result ≡ is_far bound }
{
    bound.0.unsigned_abs() > FARTHEST
}

/// Two bounds.
///
/// Errors: 10.3 where these aren't two numbers, 10.5 where one is over 100 in size.
pub fn two_bounds(line: &[u8], at: usize) -> Result<[Fixed; 2], CubeKind>
    requires within { at ≤ length line.now }
    requires gap { IsGap line.now at }
    ensures { result ≡ bounds 2 (words_from line.now at) }
{
    match two_numbers(line, at) {
        None => Err(CubeKind::Number),
        Some(bounds) => {
            if is_far(bounds[0]) || is_far(bounds[1]) {
                Err(CubeKind::Domain)
            } else {
                Ok(bounds)
            }
        }
    }
}

/// A bound for each channel.
///
/// Errors: 10.3 where these aren't three numbers, 10.5 where one is over 100 in size.
pub fn three_bounds(line: &[u8], at: usize) -> Result<[Fixed; 3], CubeKind>
    requires within { at ≤ length line.now }
    requires gap { IsGap line.now at }
    ensures { result ≡ bounds 3 (words_from line.now at) }
{
    match three_numbers(line, at) {
        None => Err(CubeKind::Number),
        Some(bounds) => {
            if is_far(bounds[0]) || is_far(bounds[1]) || is_far(bounds[2]) {
                Err(CubeKind::Domain)
            } else {
                Ok(bounds)
            }
        }
    }
}

/// The one word behind a place as a size: None where there isn't one alone, of one to six digits, from 2 to the greatest.
pub fn size_from(line: &[u8], at: usize, greatest: u32) -> Option<u32>
    requires within { at ≤ length line.now }
    requires gap { IsGap line.now at }
    ensures { result ≡ size_in greatest (words_from line.now at) }
{
    let Some(token) = token_from(line, at) else {
        return None;
    };
    match token_from(line, token.end) {
        Some(_) => None,
        None => small_number(&line[token.start..token.end], greatest),
    }
}

/// One to six digits, from 2 to the greatest.
fn small_number(word: &[u8], greatest: u32) -> Option<u32>
    ensures { result ≡ small_number greatest word.now }
{
    if word.is_empty() || word.len() > 6 || !are_digits(word) {
        return None;
    }
    let value = digits_value(word);
    if 2 <= value && value <= greatest {
        Some(value)
    } else {
        None
    }
}
