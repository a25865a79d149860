//! Source frames by way of the share: one that is there isn't loaded again. And a record frame, made of those that it needs.
ghost use Rattle.std.specs.Prelude.{◌≡◌, ◌+◌, ◌<◌, ◌≤◌, ◌∷◌, [], Some, length, IfSome, IfOk, IfErr, OnOk, OnErr};
ghost use Rattle.std.specs.Arc.{arc_value};
ghost use Rattle.std.specs.Option.{option_copied, option_map};
ghost use Rattle.conform_job.specs.Job.{need_at};
ghost use Rattle.conform_job.specs.Keys.{info_at};
ghost use Rattle.frame_render.specs.Frame.{AreSidesOf, HasKeyOf, frame_size};
ghost use Rattle.record_timeline.specs.Accepted.{frame_count};
ghost use Rattle.frame_fetch.specs.Asks.{key_of_side, keys_of_need, needs_of};
ghost use Rattle.frame_fetch.specs.Ends.{IsUnrendered};
ghost use Rattle.frame_fetch.specs.Loading.{CanLoad, HasLoadedFor};
ghost use Rattle.frame_fetch.specs.Sharing.{WereAsked, WereTried};

use crate::RunEnd;
use crate::loading::fetch;
use cf_base::Key;
use conform_job::{Job, Work};
use dpx_header::FrameInfo;
use frame_render::{Decoded, FrameBuf, Rendered, Rooms, render, render_forked};
use frame_share::{Ask, Placed, Shares, Units};
use scan_source::Scans;
use std::alloc::Global;
use std::sync::Arc;
use std::sync::ledger::Ledger;
use std::thread::Threads;

/// What one worker loads source frames of N's job with, and makes record frames of them.
#[derive(Drop)]
pub struct Loader<N: Work, L: Ledger, S: Scans> {
    /// Where memory comes from.
    pub alloc: Global,
    /// The source files.
    pub scan: S,
    /// What is kept from frame to frame.
    pub rooms: Rooms<N>,
    /// The misses that it counted.
    pub units: Units<L>,
    /// How often it loaded a source file.
    pub loads: u64,
}

/// The source frames that a record frame needs, as they are held while it is rendered.
#[derive(Drop)]
struct Sides<N: Work> {
    old: Option<Arc<Decoded<N>>>,
    new: Option<Arc<Decoded<N>>>,
}

/// A frame that is shared, as it is lent to rendering.
fn lent<N: Work>(frame: &Option<Arc<Decoded<N>>>) -> Option<&Decoded<N>>
    ensures frame { option_copied result ≡ option_map (λ f. arc_value f) frame.now }
{
    match frame {
        Some(frame) => Some(&**frame),
        None => None,
    }
}

impl<N: Work, L: Ledger, S: Scans> Loader<N, L, S> {
    /// A loader that has loaded nothing. Takes no memory.
    pub fn new(alloc: Global, scan: S, units: Units<L>) -> Loader<N, L, S>
        ensures scan { result.scan ≡ scan }
        ensures units { result.units ≡ units }
        ensures none { result.loads ≡ 0 }
    {
        Loader {
            alloc,
            scan,
            rooms: Rooms::new(alloc),
            units,
            loads: 0,
        }
    }

    /// The scan, the units and how many loads were made. Takes no memory.
    pub fn into_parts(self) -> (S, Units<L>, u64)
        ensures scan { result.0 ≡ self.scan }
        ensures units { result.1 ≡ self.units }
        ensures loads { result.2 ≡ self.loads }
    {
        let Loader {
            alloc: _,
            scan,
            rooms: _,
            units,
            loads,
        } = self;
        (scan, units, loads)
    }

    /// The source frame of a key: the shared one where it is there, else by one load, which is counted, and then it is put
    /// there.
    fn frame_of<P: Shares<N, L>>(
        &mut self,
        job: &Job,
        share: &mut P,
        key: Key,
        info: FrameInfo,
    ) -> Result<Arc<Decoded<N>>, RunEnd>
        requires ready { CanLoad S.state N.job N.files job.now 1 self.old }
        requires known { info_at N.job.infos key ≡ Some info }
        ensures key { IfOk result (λ frame. (arc_value frame).key ≡ key) }
        ensures stop { IfErr result (IsUnrendered N.job N.files) }
        ensures asked { OnOk result (WereAsked (key ∷ []) (P.log share.old) (P.log share.new)) }
        ensures tried { OnErr result (WereTried (key ∷ []) (P.log share.old) (P.log share.new)) }
        ensures loaded { HasLoadedFor S.state 1 result self.old self.new }
    {
        let ticket = match share.ask(key, &mut self.units) {
            Ask::Hit(frame) => return Ok(frame),
            Ask::NoMemory => return Err(RunEnd::NoMemory),
            Ask::Miss(ticket) => ticket,
        };
        self.loads += 1;
        let frame = match fetch::<N, S>(
            self.alloc,
            job,
            &mut self.scan,
            key,
            info,
            &mut self.rooms,
        ) {
            Ok(frame) => frame,
            Err(end) => return Err(end),
        };
        match share.put(&ticket, &frame, &mut self.units, &mut self.rooms.spare) {
            Placed::Kept | Placed::Left => Ok(frame),
            Placed::NoMemory => Err(RunEnd::NoMemory),
        }
    }

    /// The source frame of a side, where it needs one, in this worker's turn at it.
    fn side_of<P: Shares<N, L>>(
        &mut self,
        job: &Job,
        share: &mut P,
        need: Option<(Key, FrameInfo)>,
    ) -> Result<Option<Arc<Decoded<N>>>, RunEnd>
        requires ready { CanLoad S.state N.job N.files job.now 1 self.old }
        requires known { IfSome need (λ n. info_at N.job.infos n.0 ≡ Some n.1) }
        ensures key { IfOk result (λ frame. HasKeyOf need (option_map (λ f. arc_value f) frame)) }
        ensures stop { IfErr result (IsUnrendered N.job N.files) }
        ensures asked { OnOk result (WereAsked (key_of_side need) (P.log share.old) (P.log share.new)) }
        ensures tried { OnErr result (WereTried (key_of_side need) (P.log share.old) (P.log share.new)) }
        ensures needed { self.new.loads ≤ self.old.loads + length (key_of_side need) }
        ensures loaded { HasLoadedFor S.state 1 result self.old self.new }
    {
        let Some((key, info)) = need else {
            return Ok(None);
        };
        share.begin(key);
        let frame = self.frame_of(job, share, key, info);
        share.end();
        match frame {
            Ok(frame) => Ok(Some(frame)),
            Err(end) => Err(end),
        }
    }

    /// The source frames that record frame `i` needs, the old side's before the new side's.
    fn sides_of<P: Shares<N, L>>(
        &mut self,
        job: &Job,
        share: &mut P,
        i: u32,
    ) -> Result<Sides<N>, RunEnd>
        requires ready { CanLoad S.state N.job N.files job.now 2 self.old }
        requires index { i < frame_count N.job.parts.timeline.events }
        ensures sides { IfOk result (λ sides.
            AreSidesOf N.job i (option_map (λ f. arc_value f) sides.old) (option_map (λ f. arc_value f) sides.new)) }
        ensures stop { IfErr result (IsUnrendered N.job N.files) }
        ensures asked { OnOk result (WereAsked (keys_of_need (need_at N.job i)) (P.log share.old) (P.log share.new)) }
        ensures tried { OnErr result (WereTried (keys_of_need (need_at N.job i)) (P.log share.old) (P.log share.new)) }
        ensures needed { self.new.loads ≤ self.old.loads + needs_of N.job i }
        ensures loaded { HasLoadedFor S.state 2 result self.old self.new }
    {
        let need = job.need(i);
        let old = match self.side_of(job, share, need.old) {
            Ok(old) => old,
            Err(end) => return Err(end),
        };
        let new = match self.side_of(job, share, need.new) {
            Ok(new) => new,
            Err(end) => return Err(end),
        };
        Ok(Sides { old, new })
    }

    /// Keeps the room of source frames that nobody else holds. Takes no memory.
    fn keep(&mut self, sides: Sides<N>)
        ensures scan { self.new.scan ≡ self.old.scan }
        ensures units { self.new.units ≡ self.old.units }
        ensures loads { self.new.loads ≡ self.old.loads }
    {
        let Sides { old, new } = sides;
        self.rooms.spare.keep(old);
        self.rooms.spare.keep(new);
    }

    /// Renders record frame `i` in this room, from the source frames that it needs.
    pub fn make<P: Shares<N, L>>(
        &mut self,
        job: &Job,
        share: &mut P,
        i: u32,
        room: FrameBuf,
    ) -> Result<Rendered<N>, RunEnd>
        requires ready { CanLoad S.state N.job N.files job.now 2 self.old }
        requires index { i < frame_count N.job.parts.timeline.events }
        requires room { length room ≡ frame_size N.job }
        ensures index { IfOk result (λ frame. frame.index ≡ i) }
        ensures stop { IfErr result (IsUnrendered N.job N.files) }
        ensures asked { OnOk result (WereAsked (keys_of_need (need_at N.job i)) (P.log share.old) (P.log share.new)) }
        ensures tried { OnErr result (WereTried (keys_of_need (need_at N.job i)) (P.log share.old) (P.log share.new)) }
        ensures needed { self.new.loads ≤ self.old.loads + needs_of N.job i }
        ensures loaded { HasLoadedFor S.state 2 result self.old self.new }
    {
        let sides = self.sides_of(job, share, i)?;
        let frame = render(job, i, lent(&sides.old), lent(&sides.new), room);
        self.keep(sides);
        Ok(frame)
    }

    /// The same in so many threads.
    pub fn make_forked<P: Shares<N, L>, R: Threads + Sync>(
        &mut self,
        rt: &R,
        job: &Job,
        share: &mut P,
        i: u32,
        room: FrameBuf,
        threads: u32,
    ) -> Result<Rendered<N>, RunEnd>
        requires ready { CanLoad S.state N.job N.files job.now 2 self.old }
        requires index { i < frame_count N.job.parts.timeline.events }
        requires room { length room ≡ frame_size N.job }
        ensures index { IfOk result (λ frame. frame.index ≡ i) }
        ensures stop { IfErr result (IsUnrendered N.job N.files) }
        ensures needed { self.new.loads ≤ self.old.loads + needs_of N.job i }
        ensures loaded { HasLoadedFor S.state 2 result self.old self.new }
    {
        let sides = self.sides_of(job, share, i)?;
        let frame = render_forked(
            rt,
            job,
            i,
            lent(&sides.old),
            lent(&sides.new),
            room,
            threads,
        );
        self.keep(sides);
        Ok(frame)
    }
}
