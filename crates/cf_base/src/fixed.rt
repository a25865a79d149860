//! Decimal numbers in units of 10^-9, as the tables of a look have them. The form is this project's own rule, made after
//! the numbers of Adobe Cube LUT 1.0.
ghost use Rattle.std.specs.Prelude.{◌≡◌, ◌≤◌, ◌*◌, ◌^◌, true, ◌+◌, ◌<◌, pos, neg_ℤ, min, take, slice_index, length, ◌++◌};
ghost use Rattle.std.specs.List.{list_all, list_any, position_or_len};
ghost use Rattle.std.specs.Char.{is_ascii_digit};
ghost use Rattle.std.specs.Str.Parse.{digits_value, digits_value_after, starts_with_minus, without_leading_sign};
ghost use Rattle.cf_base.specs.Fixed.{fixed_of, mantissa, exponent, is_exponent_mark, is_point, is_numeral, is_number, whole_part, decimals, nearest, exponent_size, numerator, denominator};
ghost use Rattle.cf_base.specs.inside.FixedSize.{moved_size};

use crate::digits::are_digits;
use thiserror::Error;

/// A number in units of 10^-9.
#[derive(Clone, Copy, Debug, PartialEq, Eq)]
pub struct Fixed(pub i64);

/// Why a token is no number.
#[derive(Clone, Copy, Debug, PartialEq, Eq, Error)]
pub enum FixedFault {
    /// 1.1: its form isn't that of a number.
    #[error("not in the form of a number")]
    NotNumber,
    /// 1.2: its exponent is over 99 in size.
    #[error("an exponent over 99 in size")]
    Exponent,
}

/// The token without its sign.
fn without_sign(token: &[u8]) -> &[u8]
    ensures { result.now ≡ without_leading_sign token.now }
{
    match token.first() {
        Some(b'+' | b'-') => &token[1..],
        _ => token,
    }
}

/// Whether the token begins with a minus.
fn is_negative(token: &[u8]) -> bool
    ensures { result ≡ starts_with_minus token.now }
{
    match token.first() {
        Some(c) => *c == b'-',
        None => false,
    }
}

/// Where the mark of the exponent stands, or the length.
fn mark_of(body: &[u8]) -> usize
    ensures mark { result ≡ position_or_len is_exponent_mark body.now }
    ensures within { result ≤ length body.now }
{
    for (at, c) in body.iter().enumerate() {
        if is_mark(*c) {
            return at;
        }
    }
    body.len()
}

/// Whether the byte is e or E.
fn is_mark(c: u8) -> bool
    ensures { result ≡ is_exponent_mark c }
{
    c == b'e' || c == b'E'
}

/// The mantissa.
fn mantissa_of(token: &[u8]) -> &[u8]
    ensures { result.now ≡ mantissa token.now }
{
    let body = without_sign(token);
    &body[..mark_of(body)]
}

/// The exponent with its sign, or nothing.
fn exponent_of(token: &[u8]) -> &[u8]
    ensures { result.now ≡ exponent token.now }
{
    let body = without_sign(token);
    let at = mark_of(body);
    if at < body.len() {
        &body[at + 1..]
    } else {
        &[]
    }
}

/// Whether these are digits, one or more.
fn is_numeral(ds: &[u8]) -> bool
    ensures { result ≡ is_numeral ds.now }
{
    !ds.is_empty() && are_digits(ds)
}

/// Where the point stands, or the length.
fn point_of(mantissa: &[u8]) -> usize
    ensures point { result ≡ position_or_len is_point mantissa.now }
    ensures within { result ≤ length mantissa.now }
{
    for (at, c) in mantissa.iter().enumerate() {
        if *c == b'.' {
            return at;
        }
    }
    mantissa.len()
}

/// What stands before the point.
fn whole_of(token: &[u8]) -> &[u8]
    ensures { result.now ≡ whole_part token.now }
{
    let mantissa = mantissa_of(token);
    &mantissa[..point_of(mantissa)]
}

/// What stands after the point.
fn decimals_of(token: &[u8]) -> &[u8]
    ensures { result.now ≡ decimals token.now }
{
    let mantissa = mantissa_of(token);
    let at = point_of(mantissa);
    if at < mantissa.len() {
        &mantissa[at + 1..]
    } else {
        &[]
    }
}

/// Whether the two are digits, one or more in all.
fn are_digits_in_two(whole: &[u8], decimals: &[u8]) -> bool
    ensures { result ≡ is_numeral (whole.now ++ decimals.now) }
{
    (!whole.is_empty() || !decimals.is_empty()) && are_digits(whole) && are_digits(decimals)
}

/// Whether there is a mark of an exponent.
fn has_mark(token: &[u8]) -> bool
    ensures { result ≡ list_any is_exponent_mark token.now }
{
    token.iter().any(|c| is_mark(*c))
}

/// Whether the token is a number.
fn is_number_token(token: &[u8]) -> bool
    ensures { result ≡ is_number token.now }
{
    are_digits_in_two(whole_of(token), decimals_of(token))
        && (is_numeral(without_sign(exponent_of(token))) || !has_mark(without_sign(token)))
}

/// The most that a size may be, in units: 1000.
const GREATEST: u64 = 1_000_000_000_000;

/// The number that the digits write after another's, or the greatest size where that is less.
fn digits_after(start: u64, ds: &[u8]) -> u64
    requires start { start ≤ GREATEST }
    requires digits { list_all is_ascii_digit ds.now ≡ true }
    ensures { result ≡ min GREATEST (digits_value_after 10 start ds.now) }
{
    let mut value = start;
    for c in ds {
        value = u64::min(GREATEST, value * 10 + u64::from(*c - b'0'));
    }
    value
}

/// The number that the digits of both write, or the greatest size where that is less.
fn digits_of_two(whole: &[u8], decimals: &[u8]) -> u64
    requires whole { list_all is_ascii_digit whole.now ≡ true }
    requires decimals { list_all is_ascii_digit decimals.now ≡ true }
    ensures { result ≡ min GREATEST (digits_value 10 (whole.now ++ decimals.now)) }
{
    digits_after(digits_after(0, whole), decimals)
}

/// A number with so many zeros after it, or the greatest size where that is less.
fn with_zeros(value: u64, zeros: usize) -> u64
    requires { value ≤ GREATEST }
    ensures { result ≡ min GREATEST (value * 10 ^ zeros) }
{
    let mut sum = value;
    for _ in 0..zeros {
        sum = u64::min(GREATEST, sum * 10);
    }
    sum
}

/// The number that the first digits of both write, or the greatest size where that is less.
fn first_digits(whole: &[u8], decimals: &[u8], keep: usize) -> u64
    requires whole { list_all is_ascii_digit whole.now ≡ true }
    requires decimals { list_all is_ascii_digit decimals.now ≡ true }
    requires keep { keep ≤ length whole.now + length decimals.now }
    ensures { result ≡ min GREATEST (digits_value 10 (take keep (whole.now ++ decimals.now))) }
{
    if keep <= whole.len() {
        digits_after(0, &whole[..keep])
    } else {
        digits_of_two(whole, &decimals[..keep - whole.len()])
    }
}

/// The digit at a place of both.
fn digit_at(whole: &[u8], decimals: &[u8], at: usize) -> u8
    requires { at < length whole.now + length decimals.now }
    ensures { result ≡ slice_index (whole.now ++ decimals.now) at }
{
    if at < whole.len() {
        whole[at]
    } else {
        decimals[at - whole.len()]
    }
}

/// A number's size in units, from the digits before and after its point and from its exponent, which
/// moves the point up or down.
fn size_of(whole: &[u8], decimals: &[u8], up: u32, down: u32) -> u64
    requires whole { list_all is_ascii_digit whole.now ≡ true }
    requires decimals { list_all is_ascii_digit decimals.now ≡ true }
    requires up { up ≤ 99 }
    requires down { down ≤ 99 }
    ensures { result ≡ min GREATEST (moved_size whole.now decimals.now up down) }
{
    let total = whole.len() + decimals.len();
    let lift = 9 + up as usize;
    let shift = decimals.len() + down as usize;
    if shift <= lift {
        return with_zeros(digits_of_two(whole, decimals), lift - shift);
    }
    let cut = shift - lift;
    if cut > total {
        return 0;
    }
    let kept = first_digits(whole, decimals, total - cut);
    if digit_at(whole, decimals, total - cut) >= b'5' {
        u64::min(kept + 1, GREATEST)
    } else {
        kept
    }
}

/// The exponent's size, or the greatest size where that is less.
fn places_of(token: &[u8]) -> u64
    requires { is_number token.now ≡ true }
    ensures { result ≡ min GREATEST (exponent_size token.now) }
{
    digits_after(0, without_sign(exponent_of(token)))
}

/// The size of the token's number in units, by its exponent's size.
fn units_of(token: &[u8], places: u32) -> u64
    requires number { is_number token.now ≡ true }
    requires places { places ≡ exponent_size token.now }
    requires most { places ≤ 99 }
    ensures { result ≡ min GREATEST (nearest (numerator token.now) (denominator token.now)) }
{
    let (whole, decimals) = (whole_of(token), decimals_of(token));
    if is_negative(exponent_of(token)) {
        size_of(whole, decimals, 0, places)
    } else {
        size_of(whole, decimals, places, 0)
    }
}

/// Reads a token as a number in units of 10^-9, rounded half away from zero; a size over 1000 is kept as 1000.
/// 1.1 `NotNumber` and 1.2 `Exponent`, in this order. Takes no memory.
pub fn read_fixed(token: &[u8]) -> Result<Fixed, FixedFault>
    ensures { result ≡ fixed_of token.now }
{
    if !is_number_token(token) {
        return Err(FixedFault::NotNumber);
    }
    let places = places_of(token);
    if places > 99 {
        return Err(FixedFault::Exponent);
    }
    let size = units_of(token, places as u32);
    if is_negative(token) {
        Ok(Fixed(negated(size)))
    } else {
        Ok(Fixed(size as i64))
    }
}

/// The size as a negative number.
fn negated(size: u64) -> i64
    requires { size ≤ GREATEST }
    ensures { result ≡ neg_ℤ (pos size) }
{
    -(size as i64)
}
