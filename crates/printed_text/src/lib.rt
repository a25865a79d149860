//! Texts that grow piece by piece. Each call appends its piece, or fails for want of memory.
#![tactic(auto)]

ghost use Rattle.std.specs.Prelude.{◌≡◌, ◌++◌, OnOk};
ghost use Rattle.hex.specs.Hex.{encode_lower};

use itoa::{Buffer, Integer};
use std::alloc::AllocError;

/// Appends bytes.
pub fn put_bytes(text: &mut Vec<u8>, piece: &[u8]) -> Result<(), AllocError>
    ensures { OnOk result (text.new.items ≡ text.old.items ++ piece.now) }
{
    text.extend_from_slice(piece)
}

/// Appends a number in decimal digits, with `-` before a negative one.
pub fn put_number<I: Integer>(text: &mut Vec<u8>, number: I) -> Result<(), AllocError>
    ensures { OnOk result (text.new.items ≡ text.old.items ++ I.text number) }
{
    let mut buffer = Buffer::new();
    text.extend_from_slice(buffer.format(number).as_bytes())
}

/// Appends a digest in 64 hexadecimal digits.
pub fn put_digest(text: &mut Vec<u8>, digest: &[u8; 32]) -> Result<(), AllocError>
    ensures { OnOk result (text.new.items ≡ text.old.items ++ encode_lower digest.now) }
{
    put_bytes(text, &digits_of(digest))
}

/// The hexadecimal digits of a digest.
fn digits_of(digest: &[u8; 32]) -> [u8; 64]
    ensures { result ≡ encode_lower digest.now }
{
    let mut digits = [0; 64];
    match hex::encode_to_slice(digest.as_slice(), &mut digits) {
        Ok(()) => digits,
        Err(_) => unreachable!(),
    }
}
