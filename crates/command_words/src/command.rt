//! The commands, and which of them a line gives.
ghost use Rattle.std.specs.Prelude.{◌≡◌, ◌↔◌, ℕ, List, IfOk, IfSome, IsTrue, MatchOption, None, Some, map, slice_get};
ghost use Rattle.std.specs.Str.Parse.{AllDigits};
ghost use Rattle.command_words.specs.Commands.{Gives, HasCounts, IsCount, IsFewDigits, IsNoCommand, IsPartNumber, IsPath, IsRow, Spells, rate_word};
ghost use Rattle.command_words.specs.inside.Commands.{IsDigit, SplitsAtSlash, FindsAdopt, FindsCount, FindsExtent, FindsList, FindsPart, FindsPath, FindsPull, FindsRun};
ghost use Rattle.command_words.specs.inside.Lines.{text_of_line};

use crate::line::{Line, line_of};
use cf_base::{Fail, Never, PathText, Rate};
use frame_range::Extent;
use std::alloc::Global;

/// What the words ask for.
#[derive(Clone, Copy, Debug, PartialEq, Eq)]
pub enum Command {
    /// `frame PATH`: the frame of one DPX file under the station's own header.
    Frame(PathText),
    /// `list FILE RATE`: the event table of an edit list; RATE is `24`, `25` or `30`.
    List(PathText, Rate),
    /// `plan PROJECT`: what each record frame of a project's job shows.
    Plan(PathText),
    /// `run PROJECT`: renders a project's job into the reel folder; `part PROJECT K/N`: only the frames of part K of N, each
    /// written in one to three digits, of which the first isn't 0. The options `--workers N` and `--share N`, each 1 to 16,
    /// are 4 and 8 if they aren't given.
    Run {
        project: PathText,
        extent: Extent,
        workers: u16,
        share: u16,
    },
    /// `status PROJECT`: how much of a project's reel is rendered.
    Status(PathText),
    /// `verify PROJECT`: whether what is rendered of a project's reel still is what was written.
    Verify(PathText),
    /// `sums PROJECT`: the digests of the files of what is rendered of a project's reel, as its ledger keeps them.
    Sums(PathText),
    /// `qc PROJECT`: counts over the frames that are rendered of a project's reel.
    Qc(PathText),
    /// `sheet PROJECT`: a contact sheet of the frames that are rendered of a project's reel.
    Sheet(PathText),
    /// `adopt PROJECT OLD`: conforms a changed list, and takes over what is rendered of the reel of the old project.
    Adopt {
        project: PathText,
        old: PathText,
    },
    /// `pull PROJECT MARGIN`: the ranges of source frames that a project's job needs, with a margin of 0 to 1000 frames on
    /// both sides, in one to four digits.
    Pull {
        project: PathText,
        margin: u32,
    },
    /// `demo N`: renders a job of N events that is made in memory; N is 1 to 1000, in one to four digits.
    Demo(u32),
}

/// The command that the words spell, None exactly where they spell none. `Fail::NoMemory` is the only error.
pub fn command_of(alloc: Global, words: &[&str]) -> Result<Option<Command>, Fail<Never>>
    ensures command { IfOk result (λ found. MatchOption found
        (IsNoCommand (map (λ w. w.now) words.now))
        (λ command. Spells (map (λ w. w.now) words.now) command)) }
    ensures counts { IfOk result (λ found. IfSome found HasCounts) }
{
    let Ok(found) = line_of(alloc, words) else {
        return Err(Fail::NoMemory);
    };
    let Some(line) = found else {
        return Ok(None);
    };
    Ok(command_on(&line))
}

/// The command that a line gives, None exactly where it gives none.
fn command_on(line: &Line<'_>) -> Option<Command>
    ensures { MatchOption result ((command : Command) → Gives (text_of_line line.now) command → ⊥)
        (λ command. Gives (text_of_line line.now) command) }
{
    if let Some(path) = path_after(line, "frame") {
        return Some(Command::Frame(path));
    }
    if let Some(list) = list_on(line) {
        return Some(list);
    }
    if let Some(project) = path_after(line, "plan") {
        return Some(Command::Plan(project));
    }
    if let Some(run) = run_on(line) {
        return Some(run);
    }
    if let Some(part) = part_on(line) {
        return Some(part);
    }
    if let Some(project) = path_after(line, "status") {
        return Some(Command::Status(project));
    }
    if let Some(project) = path_after(line, "verify") {
        return Some(Command::Verify(project));
    }
    if let Some(project) = path_after(line, "sums") {
        return Some(Command::Sums(project));
    }
    if let Some(project) = path_after(line, "qc") {
        return Some(Command::Qc(project));
    }
    if let Some(project) = path_after(line, "sheet") {
        return Some(Command::Sheet(project));
    }
    if let Some(adopt) = adopt_on(line) {
        return Some(adopt);
    }
    if let Some(pull) = pull_on(line) {
        return Some(pull);
    }
    let Some(count) = count_after(line, "demo") else {
        return None;
    };
    Some(Command::Demo(count))
}

/// The path of a line that is a command's word and a path.
fn path_after(line: &Line<'_>, word: &str) -> Option<PathText>
    ensures { FindsPath (text_of_line line.now) word.now result }
{
    if !is_alone(line, word) {
        return None;
    }
    path_of(line.subject)
}

/// The count of a line that is a command's word and a count.
fn count_after(line: &Line<'_>, word: &str) -> Option<u32>
    ensures { FindsCount (text_of_line line.now) word.now result }
{
    if !is_alone(line, word) {
        return None;
    }
    count_of(line.subject)
}

/// The row `list FILE RATE`.
fn list_on(line: &Line<'_>) -> Option<Command>
    ensures { FindsList (text_of_line line.now) result }
{
    if line.command != "list" || line.has_options {
        return None;
    }
    let extra = line.extra?;
    let rate = rate_of(extra)?;
    let file = path_of(line.subject)?;
    Some(Command::List(file, rate))
}

/// The row `run PROJECT`, with its options.
fn run_on(line: &Line<'_>) -> Option<Command>
    ensures { FindsRun (text_of_line line.now) result }
{
    if line.command != "run" || line.extra.is_some() {
        return None;
    }
    let project = path_of(line.subject)?;
    Some(Command::Run {
        project,
        extent: Extent::Whole,
        workers: line.workers,
        share: line.share,
    })
}

/// The row `part PROJECT K/N`, with its options.
fn part_on(line: &Line<'_>) -> Option<Command>
    ensures { FindsPart (text_of_line line.now) result }
{
    if line.command != "part" {
        return None;
    }
    let extra = line.extra?;
    let extent = extent_of(extra)?;
    let project = path_of(line.subject)?;
    Some(Command::Run {
        project,
        extent,
        workers: line.workers,
        share: line.share,
    })
}

/// The row `adopt PROJECT OLD`.
fn adopt_on(line: &Line<'_>) -> Option<Command>
    ensures { FindsAdopt (text_of_line line.now) result }
{
    if line.command != "adopt" || line.has_options {
        return None;
    }
    let extra = line.extra?;
    let old = path_of(extra)?;
    let project = path_of(line.subject)?;
    Some(Command::Adopt { project, old })
}

/// The row `pull PROJECT MARGIN`.
fn pull_on(line: &Line<'_>) -> Option<Command>
    ensures { FindsPull (text_of_line line.now) result }
{
    if line.command != "pull" || line.has_options {
        return None;
    }
    let extra = line.extra?;
    let margin = few_digits_of(extra)?;
    let project = path_of(line.subject)?;
    Some(Command::Pull { project, margin })
}

/// Whether the line is the word and its subject, and nothing else.
fn is_alone(line: &Line<'_>, word: &str) -> bool
    ensures { IsTrue result ↔ IsRow (text_of_line line.now) word.now None }
{
    line.command == word && line.extra.is_none() && !line.has_options
}

fn path_of(text: &str) -> Option<PathText>
    ensures { MatchOption result ((path : List ℕ) → IsPath text.now path → ⊥)
        (λ path. IsPath text.now path) }
{
    PathText::of(text.as_bytes())
}

fn rate_of(text: &str) -> Option<Rate>
    ensures { MatchOption result ((rate : Rate) → text.now ≡ rate_word rate → ⊥)
        (λ rate. text.now ≡ rate_word rate) }
{
    match text {
        "24" => Some(Rate::R24),
        "25" => Some(Rate::R25),
        "30" => Some(Rate::R30),
        _ => None,
    }
}

/// The number of one to four digits, where it is 1 to 1000.
fn count_of(text: &str) -> Option<u32>
    ensures { MatchOption result ((count : ℕ) → IsCount text.now count → ⊥)
        (λ count. IsCount text.now count) }
{
    let count = few_digits_of(text)?;
    if count < 1 {
        return None;
    }
    Some(count)
}

/// The number of one to four digits, where it is up to 1000.
fn few_digits_of(text: &str) -> Option<u32>
    ensures { MatchOption result ((number : ℕ) → IsFewDigits text.now number → ⊥)
        (λ number. IsFewDigits text.now number) }
{
    if text.len() > 4 || !is_digits(text) {
        return None;
    }
    let Ok(number) = text.parse::<u32>() else {
        return None;
    };
    if 1000 < number {
        return None;
    }
    Some(number)
}

/// The part that a word writes, as `3/8`.
fn extent_of(text: &str) -> Option<Extent>
    ensures { FindsExtent text.now result }
{
    let Some((front, back)) = halves_of(text) else {
        return None;
    };
    let part = part_number_of(front)?;
    let parts = part_number_of(back)?;
    if part < 1 || parts < part {
        return None;
    }
    Some(Extent::Part { part, parts })
}

/// What stands on both sides of the first slash.
fn halves_of(text: &str) -> Option<(&str, &str)>
    ensures { SplitsAtSlash text.now result }
{
    text.split_once('/')
}

/// The number of one to three digits, of which the first isn't 0.
fn part_number_of(text: &str) -> Option<u16>
    ensures { MatchOption result ((number : ℕ) → IsPartNumber text.now number → ⊥)
        (λ number. IsPartNumber text.now number) }
{
    if text.len() > 3 || begins_with_zero(text) || !is_digits(text) {
        return None;
    }
    let Ok(number) = text.parse::<u16>() else {
        return None;
    };
    if 999 < number {
        return None;
    }
    Some(number)
}

fn begins_with_zero(text: &str) -> bool
    ensures { IsTrue result ↔ (slice_get text.now 0 ≡ Some 48) }
{
    text.as_bytes().first() == Some(&b'0')
}

fn is_digits(text: &str) -> bool
    ensures { IsTrue result ↔ AllDigits 10 text.now }
{
    text.as_bytes().iter().all(|byte| is_digit(*byte))
}

fn is_digit(byte: u8) -> bool
    ensures { IsTrue result ↔ IsDigit byte }
{
    (b'0'..=b'9').contains(&byte)
}
