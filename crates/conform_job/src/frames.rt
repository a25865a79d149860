//! The source frames that a timeline asks for, each inspected where it is first asked for.
ghost use Rattle.std.specs.Prelude.{◌≡◌, ◌+◌, ◌<◌, length, [], ◌∷◌, Some, None, Err, IfSome, IfOk, IfErr, OnOk};
ghost use Rattle.scan_source.specs.Plan.{one_more};
ghost use Rattle.scan_source.specs.World.{file_at};
ghost use Rattle.record_timeline.specs.Accepted.{first_frame, frame_count};
ghost use Rattle.record_timeline.specs.Shots.{IsSideIn, IsShotIn};
ghost use Rattle.source_reels.specs.Reels.{path_of_key};
ghost use Rattle.source_reels.specs.Seen.{IsSeenFrame};
ghost use Rattle.conform_job.specs.Ended.{EndInTurn, FaultAt, path_count};
ghost use Rattle.conform_job.specs.Answers.{IsStep, IsOfFrame, IsInfoOf, AreInfosOf, Grows, HeadsGrow, count_after};
ghost use Rattle.conform_job.specs.inside.Answers.{IsJudged};
ghost use Rattle.conform_job.specs.Asks.{asks_of, asks_of_side, asks_of_shot, shot_of_frame};
ghost use Rattle.conform_job.specs.Infos.{HasEachOnce};
ghost use Rattle.conform_job.specs.inside.Infos.{IsSetTo};
ghost use Rattle.conform_job.specs.Keys.{info_at, key_at, key_of_ask};
ghost use Rattle.conform_job.specs.inside.Lines.{places_of};
ghost use Rattle.conform_job.specs.Refusals.{asks_refusal, frames_refusal, key_refusal, name_of_ask};
ghost use Rattle.scan_source.specs.State.{LeavesScan};

use crate::infos::Infos;
use crate::{JobFault, JobParts};
use cf_base::{EventRec, FrameNo, Key, Name, PathText};
use dpx_header::FrameInfo;
use record_timeline::{Shot, Side, Timeline};
use scan_source::Scans;
use source_reels::{ReelTable, Seen, inspect};
use std::alloc::Global;

/// A source frame, as a refusal names it.
#[derive(Clone, Copy)]
struct Named {
    line: u32,
    reel: Name,
    source: i64,
}

/// A source frame of the event at a place in the list.
#[derive(Clone, Copy)]
pub struct Ask {
    pub event: u32,
    pub source: i64,
}

impl Named {
    /// 15.2 for it.
    fn missing(&self) -> JobFault
        ensures { result ≡ JobFault.MissingFrame self.now.line self.now.reel self.now.source }
    {
        JobFault::MissingFrame {
            line: self.line,
            reel: self.reel,
            source: self.source,
        }
    }
}

/// Inspects the file of a key.
fn inspect_key<S: Scans>(
    parts: &JobParts,
    named: &Named,
    key: Key,
    scans: &mut S,
) -> Result<FrameInfo, JobFault>
    requires { key.reel < length parts.now.reels }
    ensures told { IfSome (S.state scans.old).world (λ world. IsStep result (key_refusal parts.now (file_at world) named.now (Some key))) }
    ensures info { IfOk result (IsInfoOf parts.now (S.state scans.old).world key) }
    ensures names { IfErr result (IsOfFrame (Some named.now)) }

    ensures scan { LeavesScan (result ≡ Err JobFault.SourceFault) (S.state scans.old) (S.state scans.new) }

    ensures heads { OnOk result ((S.state scans.new).heads ≡ one_more (S.state scans.old).heads) }
    ensures asked { (S.state scans.new).heads ≡ count_after (path_count (path_of_key parts.now.reels key)) (S.state scans.old).heads }
    ensures loads { (S.state scans.new).loads ≡ (S.state scans.old).loads }
{
    let Some(path) = path_of_key(&parts.reels, key) else {
        return Err(named.missing());
    };
    let seen = inspect(scans, &path);
    judged(named, parts.project.width, parts.project.height, seen)
}

/// The path of a key's file.
pub fn path_of_key(table: &ReelTable, key: Key) -> Option<PathText>
    requires { key.reel < length table.now }
    ensures { result ≡ path_of_key table.now key }
{
    table.path_of(key.reel, i64::from(key.source))
}

/// What is refused of a file that was inspected.
fn judged(named: &Named, width: u32, height: u32, seen: Seen) -> Result<FrameInfo, JobFault>
    requires { IsSeenFrame seen }
    ensures { IsJudged named.now width height seen result }
{
    match seen {
        Seen::Info(info) => {
            if info.width != width || info.height != height {
                return Err(JobFault::Geometry {
                    line: named.line,
                    reel: named.reel,
                    source: named.source,
                });
            }
            Ok(info)
        }
        Seen::Absent => Err(named.missing()),
        Seen::Bad(fault) => Err(JobFault::BadFrame {
            line: named.line,
            reel: named.reel,
            source: named.source,
            fault,
        }),
        Seen::Fault => Err(JobFault::SourceFault),
    }
}

/// The key of a source frame, if its reel is in the table and has the frame.
fn key_at(table: &ReelTable, place: Option<u16>, ask: Ask) -> Option<Key>
    requires { IfSome place (λ reel. reel < length table.now) }
    ensures key { result ≡ key_at table.now ask.source place }
    ensures in_table { IfSome result (λ key. key.reel < length table.now) }
{
    match place {
        Some(reel) => table.key_of(reel, ask.source),
        None => None,
    }
}

/// The events of the list.
pub fn events_of(parts: &JobParts) -> &[EventRec]
    ensures { result.now ≡ parts.now.timeline.events }
{
    parts.timeline.events()
}

/// How a refusal names a source frame.
fn named_of(parts: &JobParts, ask: Ask) -> Named
    requires { ask.event < length parts.now.timeline.events }
    ensures { name_of_ask parts.now.timeline.events ask ≡ Some result }
{
    let e = &events_of(parts)[ask.event as usize];
    Named {
        line: e.line,
        reel: e.reel,
        source: ask.source,
    }
}

/// The key of a source frame, where the places of the events' reels are known.
pub fn key_of(parts: &JobParts, places: &[Option<u16>], ask: Ask) -> Option<Key>
    requires places { places.now ≡ places_of parts.now.reels parts.now.timeline.events }
    requires within { ask.event < length parts.now.timeline.events }
    ensures key { result ≡ key_of_ask parts.now.reels parts.now.timeline.events ask }
    ensures in_table { IfSome result (λ key. key.reel < length parts.now.reels) }
{
    key_at(&parts.reels, places[ask.event as usize], ask)
}

/// Keeps what a key's file says.
fn keep(infos: &mut Infos, key: Key, info: FrameInfo) -> Result<(), JobFault>
    ensures set { OnOk result (IsSetTo infos.old key info infos.new) }
    ensures len { OnOk result (info_at infos.old key ≡ None → length infos.new ≡ length infos.old + 1) }
    ensures once { OnOk result (info_at infos.old key ≡ None → HasEachOnce infos.old → HasEachOnce infos.new) }
    ensures err { IfErr result (λ fault. fault ≡ JobFault.NoMemory) }
{
    match infos.set(key, info) {
        Ok(()) => Ok(()),
        Err(_) => Err(JobFault::NoMemory),
    }
}

/// Inspects a source frame, unless that was done before.
fn inspect_frame<S: Scans>(
    parts: &JobParts,
    places: &[Option<u16>],
    ask: Ask,
    scans: &mut S,
    infos: &mut Infos,
) -> Result<(), JobFault>
    requires within { ask.event < length parts.now.timeline.events }
    requires places { places.now ≡ places_of parts.now.reels parts.now.timeline.events }
    requires each { AreInfosOf parts.now (S.state scans.old).world infos.old }
    ensures told { IfSome (S.state scans.old).world (λ world. IsStep result (asks_refusal parts.now (file_at world) (ask ∷ []))) }
    ensures grows { OnOk result (Grows parts.now (S.state scans.old).world (ask ∷ []) infos.old infos.new) }

    ensures scan { LeavesScan (result ≡ Err JobFault.SourceFault) (S.state scans.old) (S.state scans.new) }

    ensures heads { OnOk result (HeadsGrow (S.state scans.old).heads (S.state scans.new).heads (length infos.old) (length infos.new)) }
    ensures end { IfErr result (FaultAt parts.now (S.state scans.old) (S.state scans.new) (ask ∷ []) infos.old) }
    ensures loads { (S.state scans.new).loads ≡ (S.state scans.old).loads }
{
    let named = named_of(parts, ask);
    let Some(key) = key_of(parts, places, ask) else {
        return Err(named.missing());
    };
    if infos.get(key).is_some() {
        return Ok(());
    }
    match inspect_key(parts, &named, key, scans) {
        Ok(info) => keep(infos, key, info),
        Err(fault) => Err(fault),
    }
}

/// Inspects what a side asks for.
fn inspect_side<S: Scans>(
    parts: &JobParts,
    places: &[Option<u16>],
    side: Side,
    scans: &mut S,
    infos: &mut Infos,
) -> Result<(), JobFault>
    requires within { IsSideIn parts.now.timeline.events side }
    requires places { places.now ≡ places_of parts.now.reels parts.now.timeline.events }
    requires each { AreInfosOf parts.now (S.state scans.old).world infos.old }
    ensures told { IfSome (S.state scans.old).world (λ world. IsStep result (asks_refusal parts.now (file_at world) (asks_of_side side))) }
    ensures grows { OnOk result (Grows parts.now (S.state scans.old).world (asks_of_side side) infos.old infos.new) }

    ensures scan { LeavesScan (result ≡ Err JobFault.SourceFault) (S.state scans.old) (S.state scans.new) }

    ensures heads { OnOk result (HeadsGrow (S.state scans.old).heads (S.state scans.new).heads (length infos.old) (length infos.new)) }
    ensures end { IfErr result (FaultAt parts.now (S.state scans.old) (S.state scans.new) (asks_of_side side) infos.old) }
    ensures loads { (S.state scans.new).loads ≡ (S.state scans.old).loads }
{
    match side {
        Side::Black => Ok(()),
        Side::Frame { event, source } => inspect_frame(
            parts,
            places,
            Ask { event, source },
            scans,
            infos,
        ),
    }
}

/// Inspects what a shot asks for, the old side before the new.
fn inspect_shot<S: Scans>(
    parts: &JobParts,
    places: &[Option<u16>],
    shot: Shot,
    scans: &mut S,
    infos: &mut Infos,
) -> Result<(), JobFault>
    requires within { IsShotIn parts.now.timeline.events shot }
    requires places { places.now ≡ places_of parts.now.reels parts.now.timeline.events }
    requires each { AreInfosOf parts.now (S.state scans.old).world infos.old }
    ensures told { IfSome (S.state scans.old).world (λ world. IsStep result (asks_refusal parts.now (file_at world) (asks_of_shot shot))) }
    ensures grows { OnOk result (Grows parts.now (S.state scans.old).world (asks_of_shot shot) infos.old infos.new) }

    ensures scan { LeavesScan (result ≡ Err JobFault.SourceFault) (S.state scans.old) (S.state scans.new) }

    ensures heads { OnOk result (HeadsGrow (S.state scans.old).heads (S.state scans.new).heads (length infos.old) (length infos.new)) }
    ensures end { IfErr result (FaultAt parts.now (S.state scans.old) (S.state scans.new) (asks_of_shot shot) infos.old) }
    ensures loads { (S.state scans.new).loads ≡ (S.state scans.old).loads }
{
    match shot {
        Shot::Gap => Ok(()),
        Shot::One { side } => inspect_side(parts, places, side, scans, infos),
        Shot::Two { old, new, .. } => match inspect_side(parts, places, old, scans, infos) {
            Ok(()) => inspect_side(parts, places, new, scans, infos),
            Err(fault) => Err(fault),
        },
    }
}

/// What the file of each source frame says that the timeline asks for.
pub fn infos_of<S: Scans>(
    alloc: Global,
    parts: &JobParts,
    places: &[Option<u16>],
    scans: &mut S,
) -> Result<Infos, JobFault>
    requires places { places.now ≡ places_of parts.now.reels parts.now.timeline.events }
    ensures told { IfSome (S.state scans.old).world (λ world. IsStep result (frames_refusal parts.now (file_at world))) }
    ensures grows { IfOk result (Grows parts.now (S.state scans.old).world (asks_of parts.now.timeline) []) }

    ensures scan { LeavesScan (result ≡ Err JobFault.SourceFault) (S.state scans.old) (S.state scans.new) }

    ensures heads { IfOk result (λ infos. HeadsGrow (S.state scans.old).heads (S.state scans.new).heads 0 (length infos)) }
    ensures end { IfErr result (EndInTurn parts.now (S.state scans.old).world (S.state scans.old).heads (S.state scans.new).heads) }
    ensures loads { (S.state scans.new).loads ≡ (S.state scans.old).loads }
{
    let mut infos = Infos::new(alloc);
    for i in 0..parts.timeline.count() {
        let shot = shot_of(&parts.timeline, i);
        if let Err(fault) = inspect_shot(parts, places, shot, scans, &mut infos) {
            return Err(fault);
        }
    }
    Ok(infos)
}

/// The number of a record frame, counted from 0 in the reel.
pub fn frame_of(timeline: &Timeline, i: u32) -> FrameNo
    requires { i < frame_count timeline.now.events }
    ensures { result.0 ≡ first_frame timeline.now.events + i }
{
    FrameNo(timeline.first().0 + i)
}

/// What a record frame shows.
pub fn shot_of(timeline: &Timeline, i: u32) -> Shot
    requires { i < frame_count timeline.now.events }
    ensures shot { result ≡ shot_of_frame timeline.now i }
    ensures fits { IsShotIn timeline.now.events result }
{
    timeline.shot_at(frame_of(timeline, i))
}
