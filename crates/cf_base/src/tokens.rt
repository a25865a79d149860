//! Tokens of a line: the longest runs of bytes that are no blanks. A blank is a space or a tab.
ghost use Rattle.std.specs.Prelude.{◌≡◌, ◌≤◌, ◌<◌, ℕ, [], ◌∷◌, true, false, length, slice_index, IfNone, IfSome};
ghost use Rattle.cf_base.specs.Tokens.{is_blank, tokens_from, token_between, IsGap};

/// Where a token stands in its line: its bytes from `start` up to `end`.
#[derive(Clone, Copy, Debug, PartialEq, Eq)]
pub struct TokenSpan {
    pub start: usize,
    pub end: usize,
}

/// The first token at or behind a place that no token runs over; None exactly where there is none.
pub fn token_from(line: &[u8], at: usize) -> Option<TokenSpan>
    requires within { at ≤ length line.now }
    requires gap { IsGap line.now at }
    ensures none { IfNone result (tokens_from line.now at ≡ []) }
    ensures some { IfSome result (λ t. tokens_from line.now at
        ≡ token_between line.now t.start t.end ∷ tokens_from line.now t.end) }
    ensures apart { IfSome result (λ t. (at ≤ t.start) × (t.start < t.end) × (t.end ≤ length line.now)) }
    ensures gap { IfSome result (λ t. IsGap line.now t.end) }
{
    let start = solid_from(line, at);
    if start == line.len() {
        return None;
    }
    let end = blank_from(line, start);
    Some(TokenSpan { start, end })
}

/// The first place from `at` on whose byte is no blank, or the line's length.
fn solid_from(line: &[u8], at: usize) -> usize
    requires { at ≤ length line.now }
    ensures low { at ≤ result }
    ensures high { result ≤ length line.now }
    ensures passed { (k : ℕ) → at ≤ k → k < result → is_blank (slice_index line.now k) ≡ true }
    ensures found { result < length line.now → is_blank (slice_index line.now result) ≡ false }
{
    let mut place = at;
    while place < line.len() && is_blank(line[place]) {
        place += 1;
    }
    place
}

/// The first place from `at` on whose byte is a blank, or the line's length.
fn blank_from(line: &[u8], at: usize) -> usize
    requires { at ≤ length line.now }
    ensures low { at ≤ result }
    ensures high { result ≤ length line.now }
    ensures passed { (k : ℕ) → at ≤ k → k < result → is_blank (slice_index line.now k) ≡ false }
    ensures found { result < length line.now → is_blank (slice_index line.now result) ≡ true }
{
    let mut place = at;
    while place < line.len() && !is_blank(line[place]) {
        place += 1;
    }
    place
}

/// Whether a byte is a space or a tab.
pub fn is_blank(byte: u8) -> bool
    ensures { result ≡ is_blank byte }
{
    byte == b' ' || byte == b'\t'
}
