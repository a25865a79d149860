//! Decimal digits: what they write, numbers in a fixed number of them, and the file names that are made of these.
ghost use Rattle.std.specs.Prelude.{◌≡◌, ◌≤◌, ◌<◌, ◌^◌, true, length};
ghost use Rattle.std.specs.Char.{is_ascii_digit};
ghost use Rattle.std.specs.List.{list_all};
ghost use Rattle.std.specs.Str.Parse.{digits_value as value_of_digits};
ghost use Rattle.cf_base.specs.Digits.{digits, frame_file_name as name_of_frame};

/// Whether each byte is a decimal digit in ASCII.
pub fn are_digits(bytes: &[u8]) -> bool
    ensures { result ≡ list_all is_ascii_digit bytes.now }
{
    bytes.iter().all(|byte| byte.is_ascii_digit())
}

/// The number that up to nine digits write.
pub fn digits_value(bytes: &[u8]) -> u32
    requires length { length bytes.now ≤ 9 }
    requires digits { list_all is_ascii_digit bytes.now ≡ true }
    ensures value { result ≡ value_of_digits 10 bytes.now }
    ensures bound { result < 10 ^ length bytes.now }
{
    let mut value = 0;
    for byte in bytes {
        value = value * 10 + u32::from(*byte - b'0');
    }
    value
}

/// The last `N` decimal digits of a number in ASCII, leading zeros among them.
pub fn last_digits<const N: usize>(number: u32) -> [u8; N]
    ensures { result ≡ digits N number }
{
    let mut text = [b'0'; N];
    let mut rest = number;
    for place in (0..N).rev() {
        text[place] = b'0' + (rest % 10) as u8;
        rest /= 10;
    }
    text
}

/// The name of the file of a record frame: `r`, the reel in three digits, a point, the frame in seven digits, and
/// `.dpx`. It stands in the header of the file, too.
#[tactic(auto, unfolding(crate::specs::Digits::frame_file_name))]
pub fn frame_file_name(reel: u16, frame: u32) -> [u8; 16]
    ensures { result ≡ name_of_frame reel frame }
{
    let reel: [u8; 3] = last_digits(u32::from(reel));
    let frame: [u8; 7] = last_digits(frame);
    let mut name = *b"rRRR.FFFFFFF.dpx";
    name[1..4].copy_from_slice(&reel);
    name[5..12].copy_from_slice(&frame);
    name
}
