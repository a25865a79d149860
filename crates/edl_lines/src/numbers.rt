//! Numbers in tokens.
ghost use Rattle.std.specs.Prelude.{◌≡◌, ◌≤◌, ◌<◌, ◌^◌, length, IfSome, nat_abs};
ghost use Rattle.std.specs.List.{position_or_len};
ghost use Rattle.cf_base.specs.Fixed.{is_point};
ghost use Rattle.edl_lines.specs.Numbers.{decimal, speed_of, hundredths, fraction};

use cf_base::{are_digits, digits_value};

/// One to `most` digits, as a number.
pub fn decimal(most: usize, bytes: &[u8]) -> Option<u32>
    requires { most ≤ 9 }
    ensures value { result ≡ decimal most bytes.now }
    ensures bound { IfSome result (λ n. n < 10 ^ most) }
{
    if 1 <= bytes.len() && bytes.len() <= most && are_digits(bytes) {
        Some(digits_value(bytes))
    } else {
        None
    }
}

/// A speed in hundredths.
pub fn speed_of(bytes: &[u8]) -> Option<i32>
    ensures value { result ≡ speed_of bytes.now }
    ensures bound { IfSome result (λ n. nat_abs n ≤ 999999) }
{
    let Some((sign, rest)) = bytes.split_first() else {
        return None;
    };
    let magnitude = match *sign {
        b'+' | b'-' => hundredths(rest),
        _ => hundredths(bytes),
    };
    let Some(magnitude) = magnitude else {
        return None;
    };
    let speed = magnitude as i32;
    Some(if *sign == b'-' { -speed } else { speed })
}

/// One to four digits, and a point with one or two digits or none, in hundredths.
fn hundredths(bytes: &[u8]) -> Option<u32>
    ensures value { result ≡ hundredths bytes.now }
    ensures bound { IfSome result (λ n. n ≤ 999999) }
{
    let point = place_of_point(bytes);
    if point == bytes.len() {
        let Some(whole) = decimal(4, bytes) else {
            return None;
        };
        return Some(whole * 100);
    }
    let Some(whole) = decimal(4, &bytes[..point]) else {
        return None;
    };
    let Some(part) = fraction(&bytes[point + 1..]) else {
        return None;
    };
    Some(whole * 100 + part)
}

/// Where the first point stands, or the length.
fn place_of_point(bytes: &[u8]) -> usize
    ensures value { result ≡ position_or_len is_point bytes.now }
    ensures bound { result ≤ length bytes.now }
{
    bytes.iter().take_while(|byte| **byte != b'.').count()
}

/// One or two digits behind the point, in hundredths.
fn fraction(bytes: &[u8]) -> Option<u32>
    ensures value { result ≡ fraction bytes.now }
    ensures bound { IfSome result (λ n. n ≤ 99) }
{
    if bytes.len() == 1 {
        let Some(tenths) = decimal(1, bytes) else {
            return None;
        };
        Some(tenths * 10)
    } else {
        decimal(2, bytes)
    }
}
