//! The command `list`.
ghost use Rattle.std.specs.Prelude.{◌≡◌, IfOk, IsOkAnd, Err};
ghost use Rattle.edl_events.specs.Lists.{list_of};
ghost use Rattle.project_run.specs.Calls.{Replies};
ghost use Rattle.command_answers.specs.inside.Faults.{IfFault};
ghost use Rattle.command_answers.specs.Reply.{IsReplyOverScan};
ghost use Rattle.printed_tables.specs.Table.{event_table};
ghost use Rattle.command_words.specs.declared.command.Command.TheVariants as commands;

use cf_base::{Fail, PathText, Rate};
use edl_events::{ListRefusal, read_list};
use outcome::{Outcome, Refused, Which};
use printed_tables::event_table;
use project_job::{MOST_LIST, load};
use scan_source::Scans;
use std::alloc::Global;

/// The event table of the list at a path, or the outcome that was reached.
pub fn list<S: Scans>(
    alloc: Global,
    path: &PathText,
    rate: Rate,
    scan: &mut S,
) -> Result<Vec<u8>, Outcome>
    ensures reply { Replies result (IsReplyOverScan (commands.List path.now rate) (S.state scan.old) (S.state scan.new)) }
    ensures same { (S.state scan.new).loans ≡ (S.state scan.old).loans }
{
    let front = match load(alloc, path, MOST_LIST, Which::List, scan) {
        Ok(front) => front,
        Err(outcome) => return Err(outcome),
    };
    match table_of(alloc, rate, &front.bytes) {
        Ok(table) => Ok(table),
        Err(Fail::Fault(refusal)) => Err(Outcome::Refused(Refused::List(refusal))),
        Err(Fail::NoMemory) => Err(Outcome::NoMemory),
    }
}

/// The event table of a list's text, or its first refusal.
fn table_of(alloc: Global, rate: Rate, text: &[u8]) -> Result<Vec<u8>, Fail<ListRefusal>>
    ensures form { IfOk result (λ table. IsOkAnd (list_of rate text.now) (λ list. table.items ≡ event_table rate list)) }
    ensures fault { IfFault result (λ refusal. list_of rate text.now ≡ Err refusal) }
{
    let list = match read_list(alloc, rate, text) {
        Ok(list) => list,
        Err(Fail::Fault(refusal)) => return Err(Fail::Fault(refusal)),
        Err(Fail::NoMemory) => return Err(Fail::NoMemory),
    };
    match event_table(alloc, rate, &list) {
        Ok(table) => Ok(table),
        Err(_) => Err(Fail::NoMemory),
    }
}
