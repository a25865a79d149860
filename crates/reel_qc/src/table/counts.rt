//! The station's own counts, one of each kind. Each takes any list of at most 16,777,216 words, and no memory.
ghost use Rattle.reel_qc.specs.Counts.{count_of, code_sum, reaches_high, reaches_low};
ghost use Rattle.reel_qc.specs.declared.table.probe.ProbeKind.TheVariants.{High, Low, Sum};
ghost use Rattle.std.specs.Prelude.{◌≡◌, ◌≤◌, length};

use crate::words::PIXELS;

/// How many words have a code of 1020 or more.
pub fn high(words: &[u32]) -> u64
    requires { length words.now ≤ PIXELS }
    ensures { result ≡ count_of High words.now }
{
    let mut count = 0u64;
    for word in words {
        if is_high(*word) {
            count += 1;
        }
    }
    count
}

/// How many words have a code of 3 or less.
pub fn low(words: &[u32]) -> u64
    requires { length words.now ≤ PIXELS }
    ensures { result ≡ count_of Low words.now }
{
    let mut count = 0u64;
    for word in words {
        if is_low(*word) {
            count += 1;
        }
    }
    count
}

/// All three codes of all words, added up.
pub fn sum(words: &[u32]) -> u64
    requires { length words.now ≤ PIXELS }
    ensures { result ≡ count_of Sum words.now }
{
    let mut total = 0u64;
    for word in words {
        total += u64::from(codes_of(*word));
    }
    total
}

/// Whether the greatest code of a word is 1020 or more.
fn is_high(word: u32) -> bool
    ensures { result ≡ reaches_high word }
{
    (word >> 22)
        .max((word >> 12) & 1023)
        .max((word >> 2) & 1023)
        >= 1020
}

/// Whether the least code of a word is 3 or less.
fn is_low(word: u32) -> bool
    ensures { result ≡ reaches_low word }
{
    (word >> 22)
        .min((word >> 12) & 1023)
        .min((word >> 2) & 1023)
        <= 3
}

/// The three codes of a word, added up.
fn codes_of(word: u32) -> u32
    ensures sum { result ≡ code_sum word }
    ensures small { result ≤ 3069 }
{
    (word >> 22) + ((word >> 12) & 1023) + ((word >> 2) & 1023)
}
