//! The path of a source frame's file, and the frame's key.
ghost use Rattle.std.specs.Prelude.{◌≡◌, ◌+◌, ◌++◌, ◌^◌, ◌<◌, ◌≤◌, ◌-ℤ◌, ◌≤ℤ◌, ◌<ℤ◌, pos, take, length, Some, codes, IsTrue};
ghost use Rattle.cf_base.specs.Digits.{digits};
ghost use Rattle.source_reels.specs.Reels.{has_frame, path_text, path_of, from_zero, key_of_frame};

use cf_base::{Key, PathText, ReelEntry, last_digits};

/// Whether the reel has the source frame.
fn has_frame(e: &ReelEntry, source: i64) -> bool
    ensures has { result ≡ has_frame e.now source }
    ensures low { IsTrue result → pos e.now.start ≤ℤ source }
    ensures high { IsTrue result → source <ℤ pos (e.now.start + e.now.frames) }
{
    i64::from(e.start) <= source && source < i64::from(e.start) + i64::from(e.frames)
}

/// How many frames of the reel come before one that it has.
fn place_in(e: &ReelEntry, source: i64) -> u32
    requires few { e.now.frames ≤ 10000000 }
    requires low { pos e.now.start ≤ℤ source }
    requires high { source <ℤ pos (e.now.start + e.now.frames) }
    ensures place { result ≡ from_zero (source -ℤ pos e.now.start) }
    ensures within { result < e.now.frames }
{
    (source - i64::from(e.start)) as u32
}

/// The path of a source frame's file, if the reel has the frame.
pub fn path_of(e: &ReelEntry, source: i64) -> Option<PathText>
    requires prefix { length e.now.prefix ≤ 200 }
    requires number { e.now.file + e.now.frames ≤ 10000000 }
    ensures { result ≡ path_of e.now source }
{
    if has_frame(e, source) {
        path_text(e, place_in(e, source))
    } else {
        None
    }
}

/// The path of the reel's `k`-th frame, from 0.
fn path_text(e: &ReelEntry, k: u32) -> Option<PathText>
    requires prefix { length e.now.prefix ≤ 200 }
    requires number { e.now.file + k < 2 ^ 32 }
    ensures { result ≡ Some (path_text e.now k) }
{
    let prefix = e.prefix.bytes();
    let end = prefix.len();
    let text = joined(prefix, &file_number(e.file + k));
    PathText::of(&text[..end + 11])
}

/// The two texts behind one another.
fn joined(prefix: &[u8], number: &[u8; 11]) -> [u8; 211]
    requires { length prefix.now ≤ 200 }
    ensures { take (length prefix.now + 11) result ≡ prefix.now ++ number.now }
{
    let mut text = [0; 211];
    let end = prefix.len();
    text[..end].copy_from_slice(prefix);
    text[end..end + 11].copy_from_slice(number);
    text
}

/// Seven digits and `.dpx`.
fn file_number(number: u32) -> [u8; 11]
    ensures { result ≡ digits 7 number ++ codes ".dpx" }
{
    let number: [u8; 7] = last_digits(number);
    let mut text = *b"FFFFFFF.dpx";
    text[..7].copy_from_slice(&number);
    text
}

/// The key of a source frame, if the reel, which stands at the place `reel` of its table, has the frame.
pub fn key_of(e: &ReelEntry, reel: u16, source: i64) -> Option<Key>
    requires { e.now.start + e.now.frames ≤ e.now.day }
    ensures { result ≡ key_of_frame reel source e.now }
{
    if !has_frame(e, source) {
        return None;
    }
    Some(Key {
        reel,
        source: number_of(source, e.day),
    })
}

/// The number of a source frame in its day.
fn number_of(source: i64, day: u32) -> u32
    requires low { pos 0 ≤ℤ source }
    requires high { source <ℤ pos day }
    ensures { result ≡ from_zero source }
{
    source as u32
}
