//! What the head of a source frame's file says.
ghost use Rattle.std.specs.Prelude.{◌≡◌, ◌≢◌, IfSome};
ghost use Rattle.scan_source.specs.Plan.{one_more};
ghost use Rattle.scan_source.specs.Planned.{FollowsIfTold};
ghost use Rattle.scan_source.specs.World.{file_at};
ghost use Rattle.source_reels.specs.Seen.{IsSeen, IsSeenFrame};
ghost use Rattle.source_reels.specs.inside.Seen.{IsSeenIn};
ghost use Rattle.scan_source.specs.State.{LeavesScan};

use cf_base::{HEADER, PathText};
use dpx_header::{DpxFault, FrameInfo, read_header};
use scan_source::{Head, Scans};

/// What a file says of its pixels (SMPTE 268M).
#[derive(Clone, Copy, Debug, PartialEq, Eq)]
pub enum Seen {
    /// Where its pixels lie.
    Info(FrameInfo),
    /// There is no file at the path.
    Absent,
    /// Its header is refused, 8.1 to 8.13.
    Bad(DpxFault),
    /// The scan failed, which it counts as a fault.
    Fault,
}

/// What the file at a path says of its pixels, by one call of `head`. Takes no memory.
pub fn inspect<S: Scans>(scans: &mut S, path: &PathText) -> Seen
    ensures told { IfSome (S.state scans.old).world (λ files. IsSeen result (file_at files path.now)) }
    ensures frame { IsSeenFrame result }

    ensures scan { LeavesScan (result ≡ Seen.Fault) (S.state scans.old) (S.state scans.new) }
    ensures plan { FollowsIfTold (S.state scans.old).plan (S.state scans.new).plan (result ≡ Seen.Fault) }

    ensures heads { (S.state scans.new).heads ≡ one_more (S.state scans.old).heads }
    ensures loads { (S.state scans.new).loads ≡ (S.state scans.old).loads }
{
    let mut head = [0; HEADER];
    match scans.head(path, &mut head) {
        Head::Found { len } => seen_of(&head, len),
        Head::Absent => Seen::Absent,
        Head::Failed => Seen::Fault,
    }
}

/// What a file of that many bytes with that head says.
fn seen_of(head: &[u8; HEADER], len: u64) -> Seen
    ensures seen { IsSeenIn result head.now len }
    ensures frame { IsSeenFrame result }
    ensures found { result ≢ Seen.Fault }
{
    match read_header(head, len) {
        Ok(info) => Seen::Info(info),
        Err(fault) => Seen::Bad(fault),
    }
}
