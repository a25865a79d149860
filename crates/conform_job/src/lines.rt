//! The places of the events' reels in the table.
ghost use Rattle.std.specs.Prelude.{◌≡◌, IfOk, IfErr};
ghost use Rattle.conform_job.specs.Refusals.{is_unknown, unknown_of};
ghost use Rattle.conform_job.specs.inside.Lines.{ArePlaces, IsPlacedUnless};

use crate::JobFault;
use cf_base::EventRec;
use source_reels::ReelTable;
use std::alloc::Global;

/// The place of each event's reel, or the first event whose reel is neither black nor in the table. Each name is looked up
/// at most twice.
pub fn places_of(
    alloc: Global,
    table: &ReelTable,
    events: &[EventRec],
) -> Result<Vec<Option<u16>>, JobFault>
    ensures none { IfOk result (λ places. ArePlaces table.now events.now places.items) }
    ensures refused { IfErr result (IsPlacedUnless table.now events.now) }
{
    if let Some(fault) = unknown_of(table, events) {
        return Err(fault);
    }
    let mut places = Vec::new(alloc);
    for e in events {
        let Ok(()) = places.push(table.find(&e.reel)) else {
            return Err(JobFault::NoMemory);
        };
    }
    Ok(places)
}

/// The first event whose reel is neither black nor in the table.
fn unknown_of(table: &ReelTable, events: &[EventRec]) -> Option<JobFault>
    ensures { result ≡ unknown_of table.now events.now }
{
    match events.iter().find(|e| is_unknown(table, e)) {
        Some(e) => Some(JobFault::UnknownReel { line: e.line }),
        None => None,
    }
}

fn is_unknown(table: &ReelTable, e: &EventRec) -> bool
    ensures { result ≡ is_unknown table.now e.now }
{
    !e.is_black() && table.find(&e.reel).is_none()
}
