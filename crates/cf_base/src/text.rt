//! Texts of printable ASCII in fixed arrays. Contracts see the lists of their bytes.
ghost use Rattle.std.specs.Prelude.{◌≡◌, ◌≤◌, [], length};
ghost use Rattle.std.specs.List.{list_all};
ghost use Rattle.cf_base.specs.Text.{IsPathText, IsTitleText, IsName, path_text_of, title_text_of, name_of, is_path_text, is_title_text, is_name, is_within, is_printable, is_name_byte};

use crate::inline::Inline;
use std::marker::Model;

/// The path of a file, relative to the current folder: 1 to 255 bytes from 20 to 7E hexadecimal.
#[derive(Clone, Copy, Debug, PartialEq, Eq, PartialOrd, Ord)]
pub struct PathText {
    text: Inline<255>,
}

impl Model for PathText {
    ghost use Rattle.std.specs.Prelude.{ℕ, List};
    ghost use Rattle.cf_base.specs.Text.{IsPathText};

    ghost Value = { List ℕ };

    ghost view = { λ path. path.text };

    ghost invariant = { λ path. IsPathText path.text };

    ghost inverse = { λ bytes. record { text = bytes } };
}

impl PathText {
    /// The path of these bytes, None exactly where their number or one of them is out of range.
    pub fn of(bytes: &[u8]) -> Option<Self>
        ensures text { result ≡ path_text_of bytes.now }
    {
        if is_path_text(bytes) {
            Some(PathText {
                text: Inline::of(bytes),
            })
        } else {
            None
        }
    }

    /// Its bytes.
    pub fn bytes(&self) -> &[u8]
        ensures text { result.now ≡ self.now }
        ensures valid { IsPathText self.now }
        ensures size { (1 ≤ length self.now) × (length self.now ≤ 255) }
    {
        self.text.bytes()
    }
}

/// A title: 0 to 199 bytes from 20 to 7E hexadecimal.
#[derive(Clone, Copy, Debug, PartialEq, Eq)]
pub struct TitleText {
    text: Inline<199>,
}

impl Model for TitleText {
    ghost use Rattle.std.specs.Prelude.{ℕ, List};
    ghost use Rattle.cf_base.specs.Text.{IsTitleText};

    ghost Value = { List ℕ };

    ghost view = { λ title. title.text };

    ghost invariant = { λ title. IsTitleText title.text };

    ghost inverse = { λ bytes. record { text = bytes } };
}

impl TitleText {
    /// The title of no bytes.
    pub fn empty() -> Self
        ensures { result ≡ [] }
    {
        TitleText {
            text: Inline::of(&[]),
        }
    }

    /// The title of these bytes, None exactly where their number or one of them is out of range.
    pub fn of(bytes: &[u8]) -> Option<Self>
        ensures text { result ≡ title_text_of bytes.now }
    {
        if is_title_text(bytes) {
            Some(TitleText {
                text: Inline::of(bytes),
            })
        } else {
            None
        }
    }

    /// Its bytes.
    pub fn bytes(&self) -> &[u8]
        ensures text { result.now ≡ self.now }
        ensures valid { IsTitleText self.now }
        ensures size { length self.now ≤ 199 }
    {
        self.text.bytes()
    }
}

/// The name of a reel: 1 to 64 bytes from 21 to 7E hexadecimal.
#[derive(Clone, Copy, Debug, PartialEq, Eq, PartialOrd, Ord)]
pub struct Name {
    text: Inline<64>,
}

impl Model for Name {
    ghost use Rattle.std.specs.Prelude.{ℕ, List};
    ghost use Rattle.cf_base.specs.Text.{IsName};

    ghost Value = { List ℕ };

    ghost view = { λ name. name.text };

    ghost invariant = { λ name. IsName name.text };

    ghost inverse = { λ bytes. record { text = bytes } };
}

impl Name {
    /// The name of these bytes, None exactly where their number or one of them is out of range.
    pub fn of(bytes: &[u8]) -> Option<Self>
        ensures text { result ≡ name_of bytes.now }
    {
        if is_name(bytes) {
            Some(Name {
                text: Inline::of(bytes),
            })
        } else {
            None
        }
    }

    /// Its bytes.
    pub fn bytes(&self) -> &[u8]
        ensures text { result.now ≡ self.now }
        ensures valid { IsName self.now }
        ensures size { (1 ≤ length self.now) × (length self.now ≤ 64) }
    {
        self.text.bytes()
    }
}

fn is_path_text(bytes: &[u8]) -> bool
    ensures { result ≡ is_path_text bytes.now }
{
    is_within(1, 255, bytes.len()) && are_printable(bytes)
}

fn is_title_text(bytes: &[u8]) -> bool
    ensures { result ≡ is_title_text bytes.now }
{
    is_within(0, 199, bytes.len()) && are_printable(bytes)
}

fn is_name(bytes: &[u8]) -> bool
    ensures { result ≡ is_name bytes.now }
{
    is_within(1, 64, bytes.len()) && are_name_bytes(bytes)
}

fn is_within(low: usize, high: usize, n: usize) -> bool
    ensures { result ≡ is_within low high n }
{
    low <= n && n <= high
}

fn are_printable(bytes: &[u8]) -> bool
    ensures { result ≡ list_all is_printable bytes.now }
{
    bytes.iter().all(|byte| is_printable(*byte))
}

fn are_name_bytes(bytes: &[u8]) -> bool
    ensures { result ≡ list_all is_name_byte bytes.now }
{
    bytes.iter().all(|byte| is_name_byte(*byte))
}

fn is_printable(byte: u8) -> bool
    ensures { result ≡ is_printable byte }
{
    0x20 <= byte && byte <= 0x7E
}

fn is_name_byte(byte: u8) -> bool
    ensures { result ≡ is_name_byte byte }
{
    0x21 <= byte && byte <= 0x7E
}
