//! The conform station's command line: the words after the program's name, scans and two folders below the current folder,
//! standard output, the counts of the quality table and the tone of the contact sheet are handed to the top call, whose outcome
//! is the status. Standard error says the cause of what failed.
#![tactic(auto)]

ghost use Rattle.std.specs.Prelude.{◌≡◌, map, IfOk};
ghost use Rattle.std.specs.Process.{exit_status};
ghost use Rattle.std.specs.String.{string_bytes};
ghost use Rattle.outcome.specs.Status.{status_of};

use cf_base::{Put, Sink, StreamSink};
use conform_tool::{Ended, conform};
use outcome::Outcome;
use outside::{Outside, arguments, outside_of, split_words, tell_cause};
use printed_lines::plain_line;
use reel_qc::{Probe, ProbeKind, Tone, high, low, square, square_table, sum};
use std::alloc::{AllocError, Global};
use std::io;
use std::process::ExitCode;

fn main(rt: HostRuntime) -> ExitCode {
    let alloc = rt.alloc();
    let mut out = StreamSink::new(io::writer(&rt));
    let Ok(owned) = arguments(&rt) else {
        return without_memory(&mut out);
    };
    let Ok(words) = words_of(alloc, &owned) else {
        return without_memory(&mut out);
    };
    let (places, words) = split_words(&words);
    let Ok(
        Outside {
            scans,
            disk,
            mut old,
        },
    ) = outside_of(&rt, &places)
    else {
        return without_memory(&mut out);
    };
    let probes = [
        Probe::new(ProbeKind::High, high),
        Probe::new(ProbeKind::Low, low),
        Probe::new(ProbeKind::Sum, sum),
    ];
    let tone = Tone::new(square_table(), square);
    let Ended {
        outcome,
        scans,
        disk,
    } = conform(
        &rt, alloc, words, scans, disk, &mut old, &mut out, &probes, &tone,
    );
    tell_cause(&rt, &outcome, &scans, &disk, &old);
    if let Some(error) = out.trouble() {
        let _ = eprintln!(rt; "conform: standard output: write: {error}");
    }
    exit_of(&outcome)
}

/// The status of an outcome, as the program's.
fn exit_of(outcome: &Outcome) -> ExitCode
    ensures { exit_status result ≡ status_of outcome.now }
{
    ExitCode::from(outcome.status())
}

/// Puts the line of want of memory, where there was none for what a call is handed.
fn without_memory<K: Sink>(out: &mut K) -> ExitCode {
    let reached = Outcome::NoMemory;
    let answer = match out.put(plain_line(&reached).as_bytes()) {
        Put::All => reached,
        Put::Failed => Outcome::SinkFault {
            instead: reached.status(),
        },
    };
    exit_of(&answer)
}

/// The words, as they are lent to a call.
fn words_of(alloc: Global, owned: &[String]) -> Result<Vec<&str>, AllocError>
    ensures { IfOk result (λ words. map (λ word. word.now) words.items ≡ map string_bytes owned.now) }
{
    let mut words = Vec::new(alloc);
    for word in owned {
        words.push(word.as_str())?;
    }
    Ok(words)
}
