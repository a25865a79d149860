//! What is asked of all picture lines once their speeds are known.
ghost use Rattle.std.specs.Prelude.{◌≡◌, ◌==◌, ◌+◌, nat_lt};
ghost use Rattle.cf_base.specs.Events.{record_length};
ghost use Rattle.edl_events.specs.Lists.{has_lengths, second_round, has_event};

use crate::{ListKind, ListRefusal};
use cf_base::EventRec;

/// Whether a source without motion is as long as its record; black has no length.
fn has_lengths(e: &EventRec) -> bool
    ensures { result ≡ has_lengths e.now }
{
    e.speed.is_some() || e.is_black() || has_equal_lengths(e)
}

/// Whether the source is as long as the record.
fn has_equal_lengths(e: &EventRec) -> bool
    ensures { result ≡ (e.now.src_out == e.now.src_in + record_length e.now) }
{
    u64::from(e.src_out) == u64::from(e.src_in) + u64::from(e.rec_out.saturating_sub(e.rec_in))
}

/// The first picture line whose source is not as long as its record.
pub fn second_round(events: &[EventRec]) -> Option<ListRefusal>
    ensures { result ≡ second_round events.now }
{
    let e = events.iter().find(|e| !has_lengths(e))?;
    Some(ListRefusal {
        line: e.line,
        kind: ListKind::Lengths,
    })
}

/// Whether an event has a record frame.
pub fn has_event(events: &[EventRec]) -> bool
    ensures { result ≡ has_event events.now }
{
    events.iter().any(|e| has_frames(e))
}

/// Whether the event has a record frame.
fn has_frames(e: &EventRec) -> bool
    ensures { result ≡ nat_lt 0 (record_length e.now) }
{
    0 < e.rec_out.saturating_sub(e.rec_in)
}
