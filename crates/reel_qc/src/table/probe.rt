//! Functions that count, as a house hands them in.
ghost use Rattle.reel_qc.specs.Counts.{AreFrameWords, count_of};
ghost use Rattle.std.specs.Prelude.{◌≡◌, ℕ, ◌≤◌, length};

use crate::words::PIXELS;

/// What a probe counts over the words of a frame.
#[derive(Clone, Copy, Debug, PartialEq, Eq)]
pub enum ProbeKind {
    /// The words whose greatest code is 1020 or more.
    High,
    /// The words whose least code is 3 or less.
    Low,
    /// All three codes of all words, added up.
    Sum,
}

/// A function that counts over the words of a frame.
pub type Count = fn(&[u32]) -> u64;

/// A function that was handed in, with what it counts.
#[derive(Clone, Copy)]
pub struct Probe {
    kind: ProbeKind,
    count: Count,
    // it may be called on the words of every frame
    ghost callable: { (words : _) → AreFrameWords words.now → Count.pre count words },
    // and then it answers the count of its kind
    ghost counts: { (words : _) (n : ℕ) → AreFrameWords words.now → Count.post count words n → n ≡ count_of kind words.now },
}

impl Probe {
    /// Keeps a function that may be called on any list of at most 16,777,216 words, and answers the count of the kind there.
    /// Takes no memory, as all here.
    pub fn new(kind: ProbeKind, count: fn(&[u32]) -> u64) -> Probe
        requires callable { (words : _) → AreFrameWords words.now → Count.pre count words }
        requires counts { (words : _) (n : ℕ) → AreFrameWords words.now → Count.post count words n → n ≡ count_of kind words.now }
        ensures { result.kind ≡ kind }
    {
        Probe { kind, count }
    }

    /// What it counts.
    pub fn kind(&self) -> ProbeKind
        ensures { result ≡ self.now.kind }
    {
        self.kind
    }

    /// The count of at most 16,777,216 words, by the function that was handed in.
    pub fn run(&self, words: &[u32]) -> u64
        requires { length words.now ≤ PIXELS }
        ensures { result ≡ count_of self.now.kind words.now }
    {
        (self.count)(words)
    }
}
