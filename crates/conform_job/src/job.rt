//! A job, and how it is planned.
ghost use Rattle.std.specs.Prelude.{◌≡◌, ◌<◌, ◌≤◌, length, None, Some, Err, IfSome, IfOk, IfErr, MatchResult};
ghost use Rattle.scan_source.specs.World.{file_at};
ghost use Rattle.record_timeline.specs.Accepted.{frame_count};
ghost use Rattle.record_timeline.specs.Shots.{IsShotIn};
ghost use Rattle.source_reels.specs.Reels.{path_of_key};
ghost use Rattle.conform_job.specs.Answers.{IsStep, HeadsGrow};
ghost use Rattle.conform_job.specs.Asks.{shot_of_frame};
ghost use Rattle.conform_job.specs.Cuts.{record_reel, reel_count, reel_span, HasFramesOf, IsWithin};
ghost use Rattle.conform_job.specs.Ended.{HasAsked};
ghost use Rattle.conform_job.specs.inside.Found.{IsFound};
ghost use Rattle.conform_job.specs.Infos.{HasEachOnce};
ghost use Rattle.conform_job.specs.Job.{ArePlanned, IsByLines, IsJobOf, IsNeeded, file_of};
ghost use Rattle.conform_job.specs.inside.Lines.{ArePlaces, IsPlacedUnless};
ghost use Rattle.conform_job.specs.Refusals.{first_refusal, told_refusal};
ghost use Rattle.scan_source.specs.State.{LeavesScan};

use crate::cuts::{cut_numbers, record_reel, reel_span};
use crate::frames::{events_of, frame_of, infos_of, path_of_key, shot_of};
use crate::infos::Infos;
use crate::lines::places_of;
use crate::need::need_of_shot;
use crate::{JobFault, JobParts, Need};
use cf_base::{FRAMES, FileId, Key, PathText, Rate, Span};
use project_file::Project;
use record_timeline::{Shot, Timeline};
use scan_source::Scans;
use source_reels::ReelTable;
use std::alloc::Global;
use std::marker::Model;
use tetra_look::Look;

/// A job that was accepted. Contracts see its parts, and what the file of each needed key says of its pixels.
#[derive(Drop)]
pub struct Job {
    parts: JobParts,
    /// The frame numbers of the project's cuts, which ascend.
    cuts: Vec<u32>,
    /// The place of each event's reel, so that no name is looked up for a frame.
    places: Vec<Option<u16>>,
    infos: Infos,
}

impl Model for Job {
    ghost use Rattle.conform_job.specs.Job.{JobData};
    ghost use Rattle.conform_job.specs.inside.Lines.{KeepsJob};

    ghost Value = { JobData };

    ghost view = { λ j. record { parts = j.parts; infos = j.infos } };

    ghost invariant = { λ j. KeepsJob j.parts j.infos j.places.items j.cuts.items };
}

impl Job {
    ghost use Rattle.std.specs.Prelude.{Option};
    ghost use Rattle.conform_job.specs.Job.{need_at, AreMet, HasNeeds, HasTableKeys, IsJob};

    /// The job of these parts, or the first refusal; the parts are given up on a refusal.
    ///
    /// First comes 15.5, for the first cut that is no label of the record above the cut before it and the record's first
    /// frame, and below the record's end; then 15.1, for the first event whose reel is neither `BL` nor in the table. Then the
    /// record frames are taken in order, and of a frame the old side before the new. Each source frame is tested where it is
    /// first asked for, and inspected there, once: 15.2 where the reel doesn't have it or there is no file, 15.3 where the
    /// file's header is refused, 15.4 where its size isn't the project's. `SourceFault` and `NoMemory` end the plan where they
    /// come.
    pub fn plan<S: Scans>(alloc: Global, parts: JobParts, scans: &mut S) -> Result<Job, JobFault>
        requires { ArePlanned parts }

        // What is accepted and refused, and 15.5 and 15.1 also where the scan tells nothing.
        ensures told { IfSome (S.state scans.old).world (λ world. IsStep result (first_refusal parts (file_at world))) }
        ensures lines { MatchResult result (λ _. told_refusal parts ≡ None) (λ why. IsByLines why (told_refusal parts)) }

        // The job has these parts, and one info for each needed key, which was inspected once.
        ensures job { IfOk result (IsJobOf parts (S.state scans.old).world) }
        ensures once { IfOk result (λ job. HasEachOnce job.infos) }
        ensures heads { IfOk result (λ job. HeadsGrow (S.state scans.old).heads (S.state scans.new).heads 0 (length job.infos)) }

        // Where it is refused: no head for 15.5 and 15.1, and else one for each frame before the refused one, which is named, and
        // its own, if it has a path.
        ensures asked { IfErr result (HasAsked parts (S.state scans.old).world (S.state scans.old).heads (S.state scans.new).heads) }

        ensures scan { LeavesScan (result ≡ Err JobFault.SourceFault) (S.state scans.old) (S.state scans.new) }

        ensures loads { (S.state scans.new).loads ≡ (S.state scans.old).loads }
    {
        match found_of(alloc, &parts, scans) {
            Ok(found) => Ok(Job {
                parts,
                cuts: found.cuts,
                places: found.places,
                infos: found.infos,
            }),
            Err(fault) => Err(fault),
        }
    }

    /// Recalls what every job keeps, for the proof of the caller, and does nothing when it runs: the parts are planned and no
    /// cut or reel of them is refused, there are 1 to 262,144 record frames, the title has at most 199 bytes, each needed key
    /// is of a reel in the table, and each record frame has what it needs.
    pub fn recall(&self)
        ensures job { IsJob self.now.parts self.now.infos }
        ensures some { 1 ≤ frame_count self.now.parts.timeline.events }
        ensures most { frame_count self.now.parts.timeline.events ≤ FRAMES }
        ensures title { length self.now.parts.project.title ≤ 199 }
        ensures keys { HasTableKeys self.now.parts }
        ensures needs { HasNeeds self.now }
    {
        // The parts say so with these values.
        let _ = self.parts.timeline.count();
        let _ = self.parts.project.title.bytes();
    }

    /// The digest of the texts that the parts were read from. Takes no memory, as all readers.
    pub fn digest(&self) -> [u8; 32]
        ensures { result ≡ self.now.parts.digest }
    {
        self.parts.digest
    }

    /// How many record frames there are, and what holds of every job.
    pub fn count(&self) -> u32
        ensures count { result ≡ frame_count self.now.parts.timeline.events }
        ensures job { IsJob self.now.parts self.now.infos }
    {
        self.parts.timeline.count()
    }

    /// Pixels in a line, 1 to 4096.
    pub fn width(&self) -> u32
        ensures { result ≡ self.now.parts.project.width }
    {
        self.parts.project.width
    }

    /// Lines of a frame, 1 to 4096.
    pub fn height(&self) -> u32
        ensures { result ≡ self.now.parts.project.height }
    {
        self.parts.project.height
    }

    /// How many bands a frame is rendered in, 1 to 64.
    pub fn bands(&self) -> u32
        ensures { result ≡ self.now.parts.project.bands }
    {
        self.parts.project.bands
    }

    /// The project.
    pub fn project(&self) -> &Project
        ensures { result.now ≡ self.now.parts.project }
    {
        &self.parts.project
    }

    /// The counting base of all labels, which is also the timeline's.
    pub fn rate(&self) -> Rate
        ensures rate { result ≡ self.now.parts.project.rate }
        ensures timeline { result ≡ self.now.parts.timeline.rate }
    {
        self.parts.project.rate
    }

    /// The table of the project's reels.
    pub fn reels(&self) -> &ReelTable
        ensures { result.now ≡ self.now.parts.reels }
    {
        &self.parts.reels
    }

    /// The timeline of the project's list.
    pub fn timeline(&self) -> &Timeline
        ensures { result.now ≡ self.now.parts.timeline }
    {
        &self.parts.timeline
    }

    /// The look of each pixel.
    pub fn look(&self) -> &Look
        ensures { result.now ≡ self.now.parts.look }
    {
        &self.parts.look
    }

    /// The path of the file of a key that a record frame needs.
    pub fn path_of(&self, key: Key) -> PathText
        requires { IsNeeded self.now.parts key }
        ensures { Some result ≡ path_of_key self.now.parts.reels key }
    {
        path_of_needed(&self.parts, key)
    }

    /// The record reel of record frame `i`, from 0: one more than the number of cuts at or below it. Takes no memory.
    pub fn reel_of(&self, i: u32) -> u16
        requires { i < frame_count self.now.parts.timeline.events }
        ensures reel { result ≡ record_reel self.now.parts i }
        ensures some { 1 ≤ result }
        ensures most { result ≤ reel_count self.now.parts }
        ensures few { result ≤ 999 }
        ensures within { IsWithin i (reel_span self.now.parts result) }
    {
        record_reel(&self.parts, &self.cuts, i)
    }

    /// The indexes of a reel's record frames, the end excluded. Takes no memory.
    pub fn reel_span(&self, reel: u16) -> Span
        requires some { 1 ≤ reel }
        requires most { reel ≤ reel_count self.now.parts }
        ensures span { result ≡ reel_span self.now.parts reel }
        ensures frames { HasFramesOf self.now.parts reel result }
    {
        reel_span(&self.parts, &self.cuts, reel)
    }

    /// The file that record frame `i`, from 0, is written to: its record reel, and the frame's number.
    pub fn file_of(&self, i: u32) -> FileId
        requires { i < frame_count self.now.parts.timeline.events }
        ensures { result ≡ file_of self.now i }
    {
        FileId::Frame {
            reel: self.reel_of(i),
            frame: frame_of(&self.parts.timeline, i).0,
        }
    }

    /// What record frame `i`, from 0, shows.
    pub fn shot(&self, i: u32) -> Shot
        requires { i < frame_count self.now.parts.timeline.events }
        ensures shot { result ≡ shot_of_frame self.now.parts.timeline i }
        ensures fits { IsShotIn self.now.parts.timeline.events result }
    {
        shot_of(&self.parts.timeline, i)
    }

    /// What record frame `i`, from 0, needs: each of its sides that is a source frame has its need.
    pub fn need(&self, i: u32) -> Need
        requires { i < frame_count self.now.parts.timeline.events }
        ensures need { result ≡ need_at self.now i }
        ensures met { AreMet (shot_of_frame self.now.parts.timeline i) result }
    {
        need_of_shot(&self.parts, &self.places, &self.infos, self.shot(i))
    }
}

/// What a plan finds of its parts: the numbers of the cuts, the places of the events' reels, and the files' infos.
#[derive(Drop)]
struct Found {
    cuts: Vec<u32>,
    places: Vec<Option<u16>>,
    infos: Infos,
}

/// What a job has beside its parts, or the first refusal: the cuts first, then the lines, then the frames.
fn found_of<S: Scans>(alloc: Global, parts: &JobParts, scans: &mut S) -> Result<Found, JobFault>
    requires { ArePlanned parts.now }
    ensures told { IfSome (S.state scans.old).world (λ world. IsStep result (first_refusal parts.now (file_at world))) }
    ensures lines { MatchResult result (λ _. told_refusal parts.now ≡ None) (λ why. IsByLines why (told_refusal parts.now)) }
    ensures found { IfOk result (IsFound parts.now (S.state scans.old).world) }
    ensures heads { IfOk result (λ found. HeadsGrow (S.state scans.old).heads (S.state scans.new).heads 0 (length found.infos)) }
    ensures asked { IfErr result (HasAsked parts.now (S.state scans.old).world (S.state scans.old).heads (S.state scans.new).heads) }

    ensures scan { LeavesScan (result ≡ Err JobFault.SourceFault) (S.state scans.old) (S.state scans.new) }

    ensures loads { (S.state scans.new).loads ≡ (S.state scans.old).loads }
{
    let cuts = match cut_numbers(alloc, parts) {
        Ok(cuts) => cuts,
        Err(fault) => return Err(fault),
    };
    let places = match places_in(alloc, parts) {
        Ok(places) => places,
        Err(fault) => return Err(fault),
    };
    match infos_of(alloc, parts, &places, scans) {
        Ok(infos) => Ok(Found {
            cuts,
            places,
            infos,
        }),
        Err(fault) => Err(fault),
    }
}

/// The path of the file of a key that a record frame needs.
fn path_of_needed(parts: &JobParts, key: Key) -> PathText
    requires { IsNeeded parts.now key }
    ensures { Some result ≡ path_of_key parts.now.reels key }
{
    let Some(path) = path_of_key(&parts.reels, key) else {
        unreachable!()
    };
    path
}

/// The place of each event's reel.
fn places_in(alloc: Global, parts: &JobParts) -> Result<Vec<Option<u16>>, JobFault>
    ensures none { IfOk result (λ places. ArePlaces parts.now.reels parts.now.timeline.events places.items) }
    ensures refused { IfErr result (IsPlacedUnless parts.now.reels parts.now.timeline.events) }
{
    places_of(alloc, &parts.reels, events_of(parts))
}
