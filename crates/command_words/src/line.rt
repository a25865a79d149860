//! What stands on a command line, whatever the command.
ghost use Rattle.std.specs.Prelude.{◌≡◌, IfOk, false, option_map};
ghost use Rattle.clap.specs.Words.{app_of, first_of, found_of, one_of, rows_of, rule_of};
ghost use Rattle.command_words.specs.Lines.{from_words, number_rule, positional_command, simple_command, stands, texts_of};
ghost use Rattle.command_words.specs.inside.Lines.{ReadsNumeral, FindsLine, FindsLineIn, ReadsNumber};

use cf_base::{Fail, Never};
use clap::error::ErrorKind;
use clap::parser::ValueSource;
use clap::{Arg, ArgMatches, value_parser};
use std::alloc::{AllocError, Global};

/// The words of a line, each in its place.
#[derive(Drop)]
pub struct Line<'a> {
    pub command: &'a str,
    pub subject: &'a str,
    /// A word behind the subject.
    pub extra: Option<&'a str>,
    /// How many workers render, 1 to 16: 4 where no option says so.
    pub workers: u16,
    /// How many frames are shared, 1 to 16: 8 where no option says so.
    pub share: u16,
    /// Whether one of the two options stands on the line.
    pub has_options: bool,
}

/// The line that the words make, None exactly where they make none.
pub fn line_of<'a>(alloc: Global, words: &'a [&'a str]) -> Result<Option<Line<'a>>, Fail<Never>>
    ensures line { IfOk result (FindsLine (texts_of words.now)) }
{
    let Ok(command) = simple_command(alloc) else {
        return Err(Fail::NoMemory);
    };
    match command.try_get_matches_from(words) {
        Ok(matches) => Ok(line_in(&matches)),
        Err(error) => {
            if error.kind() == ErrorKind::OutOfMemory {
                Err(Fail::NoMemory)
            } else {
                Ok(None)
            }
        }
    }
}

/// The one command that `clap` reads: three words in their places, and two options.
fn simple_command<'a>(alloc: Global) -> Result<clap::Command<'a>, AllocError>
    ensures app { IfOk result (λ c. app_of c ≡ simple_command) }
{
    positional_command(alloc)?
        .arg(number_option(alloc, "workers", "4"))?
        .arg(number_option(alloc, "share", "8"))
}

/// The command without its options: two words that have to be there, and a third.
fn positional_command<'a>(alloc: Global) -> Result<clap::Command<'a>, AllocError>
    ensures app { IfOk result (λ c. app_of c ≡ positional_command) }
{
    clap::Command::new(alloc, "conform")
        .no_binary_name(true)
        .disable_help_flag(true)
        .disable_version_flag(true)
        .arg(Arg::new(alloc, "command").required(true))?
        .arg(Arg::new(alloc, "subject").required(true))?
        .arg(Arg::new(alloc, "extra"))
}

/// An option that takes a number from 1 to 16.
fn number_option<'a>(alloc: Global, name: &'a str, default: &'a str) -> Arg<'a>
    ensures rule { rule_of result ≡ number_rule name.now default.now }
    ensures global { result.global ≡ false }
{
    Arg::new(alloc, name)
        .long(name)
        .value_parser(value_parser!(u16).range(1..=16))
        .default_value(default)
}

/// The line of what was found.
fn line_in<'a>(matches: &ArgMatches<'a>) -> Option<Line<'a>>
    ensures line { FindsLineIn (rows_of (found_of matches.now)) result }
{
    let Some(command) = text_of(matches, "command") else {
        return None;
    };
    let Some(subject) = text_of(matches, "subject") else {
        return None;
    };
    let Some(workers) = number_of(matches, "workers") else {
        return None;
    };
    let Some(share) = number_of(matches, "share") else {
        return None;
    };
    Some(Line {
        command,
        subject,
        extra: text_of(matches, "extra"),
        workers,
        share,
        has_options: is_given(matches, "workers") | is_given(matches, "share"),
    })
}

/// The word of a positional.
fn text_of<'a>(matches: &ArgMatches<'a>, id: &str) -> Option<&'a str>
    ensures text { option_map (λ word. word.now) result ≡ first_of id.now (rows_of (found_of matches.now)) }
{
    matches.get_str(id)
}

/// The number of an option. `clap` has refused all others, but says so of the words and not of the value.
fn number_of(matches: &ArgMatches<'_>, id: &str) -> Option<u16>
    ensures number { ReadsNumber (one_of id.now (rows_of (found_of matches.now))) result }
{
    let Some(number) = numeral_of(matches, id) else {
        return None;
    };
    if 1 <= number && number <= 16 {
        Some(number)
    } else {
        None
    }
}

/// What an option's word writes.
fn numeral_of(matches: &ArgMatches<'_>, id: &str) -> Option<u16>
    ensures numeral { ReadsNumeral (one_of id.now (rows_of (found_of matches.now))) result }
{
    matches.get_one::<u16>(id)
}

/// Whether the words name the option.
fn is_given(matches: &ArgMatches<'_>, id: &str) -> bool
    ensures given { result ≡ stands id.now (rows_of (found_of matches.now)) }
{
    comes_from_words(matches.value_source(id))
}

fn comes_from_words(source: Option<ValueSource>) -> bool
    ensures { result ≡ from_words source }
{
    match source {
        Some(source) => source == ValueSource::CommandLine,
        None => false,
    }
}
