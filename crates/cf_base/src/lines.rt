//! Lines of a text: its pieces between LF bytes. One CR at the end of a piece is left off, and a text that ends in LF
//! has no further line.
ghost use Rattle.std.specs.Prelude.{◌≡◌, ◌≤◌, ◌==◌, length, if◌then◌else◌, Some, None};
ghost use Rattle.std.specs.List.{position_or_len};
ghost use Rattle.cf_base.specs.Lines.{is_line_feed, without_return, line_span, LinesInTurn};

/// The places from `start` up to `end`, which is excluded.
#[derive(Clone, Copy, Debug, PartialEq, Eq)]
pub struct Span {
    pub start: u32,
    pub end: u32,
}

/// Where a line stands in its text: its bytes from `start` up to `end`, and the place where the next line begins.
#[derive(Clone, Copy, Debug, PartialEq, Eq)]
pub struct LineSpan {
    pub start: usize,
    pub end: usize,
    pub next: usize,
}

/// The line that begins at a place: it ends before the next LF or at the text's end, and one CR at its end is left off.
/// None exactly where the place is the text's length.
pub fn line_at(text: &[u8], at: usize) -> Option<LineSpan>
    requires { at ≤ length text.now }
    ensures { result ≡ (if at == length text.now then None else Some (line_span text.now at)) }
{
    if at == text.len() {
        return None;
    }
    let rest = &text[at..];
    let feed = place_of_feed(rest);
    let end = at + length_without_return(&rest[..feed]);
    let next = if at + feed < text.len() {
        at + feed + 1
    } else {
        text.len()
    };
    Some(LineSpan {
        start: at,
        end,
        next,
    })
}

/// Where the first LF stands, or the length.
fn place_of_feed(rest: &[u8]) -> usize
    ensures value { result ≡ position_or_len is_line_feed rest.now }
    ensures bound { result ≤ length rest.now }
{
    rest.iter().take_while(|byte| **byte != b'\n').count()
}

/// How long a line is without one CR at its end.
fn length_without_return(line: &[u8]) -> usize
    ensures value { result ≡ length (without_return line.now) }
    ensures bound { result ≤ length line.now }
{
    if !line.is_empty() && line[line.len() - 1] == b'\r' {
        line.len() - 1
    } else {
        line.len()
    }
}

/// A law: the lines of the text behind a place are the line that begins there and the lines behind its `next`.
pub fn lines_in_turn()
    ensures { LinesInTurn }
{}
