//! The table of the source reels.
ghost use Rattle.std.specs.Prelude.{◌≡◌, ◌≤◌, ◌<◌, length, slice_get, Some, None, IfOk, IfSome};
ghost use Rattle.std.specs.Option.{option_map};
ghost use Rattle.cf_base.specs.Fail.{Gives};
ghost use Rattle.cf_base.specs.declared.reel.ReelEntry.{ReelEntry};
ghost use Rattle.source_reels.specs.inside.Places.{ArePlaced, HasPlaces, IsKindAfter};
ghost use Rattle.source_reels.specs.Reels.{reel_place, reels_fault, is_past_end, path_at, key_in, IsTabled, table_of};

use crate::path::{key_of, path_of};
use cf_base::{Fail, Key, Name, PathText, ReelEntry, ReelRows};
use std::alloc::Global;
use std::collections::BTreeMap;
use std::marker::Model;

/// Why a table of reels is refused: the first reel that is, from 1, and why.
#[derive(Clone, Copy, Debug, PartialEq, Eq)]
pub struct ReelFault {
    pub reel: u32,
    pub kind: ReelKind,
}

/// What is wrong with a reel.
#[derive(Clone, Copy, Debug, PartialEq, Eq)]
pub enum ReelKind {
    /// 13.1: an earlier reel has its name.
    TwoNames,
    /// 13.2: its frames go past the end of its day, or its file numbers past seven digits.
    Range,
}

/// Source reels with different names, none of which goes past its end. Contracts see the list of them.
#[derive(Drop)]
pub struct ReelTable {
    rows: ReelRows,
    /// The place of each reel, by its name.
    places: BTreeMap<Name, u16>,
}

impl Model for ReelTable {
    ghost use Rattle.std.specs.Prelude.{◌≡◌, List, None};
    ghost use Rattle.cf_base.specs.declared.reel.ReelEntry.{ReelEntry};
    ghost use Rattle.source_reels.specs.inside.Places.{HasPlaces};
    ghost use Rattle.source_reels.specs.Reels.{IsTabled, reels_fault};

    ghost Value = { List ReelEntry };

    ghost view = { λ t. t.rows };

    ghost invariant = { λ t. IsTabled t.rows × (reels_fault t.rows ≡ None) × HasPlaces t.rows t.places };
}

impl ReelTable {
    /// The table of these reels, at most 1024, with prefixes of at most 200 bytes. 13.1 and 13.2 in the order of the reels,
    /// exactly where their rules say; of one reel 13.1 comes first.
    pub fn of(alloc: Global, entries: ReelRows) -> Result<ReelTable, Fail<ReelFault>>
        requires { IsTabled entries }
        ensures table { Gives result (table_of entries) }
        ensures entries { IfOk result (λ table. table ≡ entries) }
    {
        match places_of(alloc, entries.items()) {
            Ok(places) => Ok(ReelTable {
                rows: entries,
                places,
            }),
            Err(fail) => Err(fail),
        }
    }

    /// The reels, in order. Takes no memory.
    pub fn entries(&self) -> &[ReelEntry]
        ensures entries { result.now ≡ self.now }
        ensures tabled { IsTabled self.now }
        ensures accepted { reels_fault self.now ≡ None }
    {
        self.rows.items()
    }

    /// The place of the reel of that name, None exactly where no reel has it. Takes no memory.
    pub fn find(&self, name: &Name) -> Option<u16>
        ensures place { result ≡ reel_place self.now name.now }
        ensures within { IfSome result (λ reel. reel < length self.now) }
    {
        self.places.get(name).copied()
    }

    /// The name of the reel at a place of the table. Takes no memory.
    pub fn name_of(&self, reel: u16) -> &Name
        requires { reel < length self.now }
        ensures { option_map (λ (e : ReelEntry). e.name) (slice_get self.now reel) ≡ Some result.now }
    {
        &self.rows.items()[usize::from(reel)].name
    }

    /// The path of a source frame's file, None exactly where the reel at that place of the table doesn't have the frame.
    /// Takes no memory.
    pub fn path_of(&self, reel: u16, source: i64) -> Option<PathText>
        requires { reel < length self.now }
        ensures { result ≡ path_at self.now reel source }
    {
        path_in(self.rows.items(), reel, source)
    }

    /// The key of a source frame, None exactly where the reel at that place of the table doesn't have the frame. Takes no
    /// memory.
    pub fn key_of(&self, reel: u16, source: i64) -> Option<Key>
        requires { reel < length self.now }
        ensures { result ≡ key_in self.now source reel }
    {
        key_in(self.rows.items(), reel, source)
    }
}

/// The path of a source frame of the reel at a place.
fn path_in(entries: &[ReelEntry], reel: u16, source: i64) -> Option<PathText>
    requires reel { reel < length entries.now }
    requires tabled { IsTabled entries.now }
    requires accepted { reels_fault entries.now ≡ None }
    ensures { result ≡ path_at entries.now reel source }
{
    path_of(&entries[usize::from(reel)], source)
}

/// The key of a source frame of the reel at a place.
fn key_in(entries: &[ReelEntry], reel: u16, source: i64) -> Option<Key>
    requires reel { reel < length entries.now }
    requires accepted { reels_fault entries.now ≡ None }
    ensures { result ≡ key_in entries.now source reel }
{
    let e = entries[usize::from(reel)];
    key_of(&e, reel, source)
}

fn is_past_end(e: &ReelEntry) -> bool
    ensures { result ≡ is_past_end e.now }
{
    u64::from(e.start) + u64::from(e.frames) > u64::from(e.day)
        || u64::from(e.file) + u64::from(e.frames) > 10_000_000
}

/// What is wrong with a reel behind those that have these places.
fn kind_after(places: &BTreeMap<Name, u16>, e: &ReelEntry) -> Option<ReelKind>
    ensures { IsKindAfter places.now e.now result }
{
    if places.contains_key(&e.name) {
        return Some(ReelKind::TwoNames);
    }
    if is_past_end(e) {
        return Some(ReelKind::Range);
    }
    None
}

/// The place of each reel by its name, or the first reel that is refused.
fn places_of(alloc: Global, entries: &[ReelEntry]) -> Result<BTreeMap<Name, u16>, Fail<ReelFault>>
    requires { length entries.now ≤ 1024 }
    ensures { ArePlaced entries.now result }
{
    let mut places = BTreeMap::new(alloc);
    for i in 0..entries.len() {
        let e = &entries[i];
        if let Some(kind) = kind_after(&places, e) {
            return Err(Fail::Fault(ReelFault {
                reel: i as u32 + 1,
                kind,
            }));
        }
        let Ok(_) = places.insert(e.name, i as u16) else {
            return Err(Fail::NoMemory);
        };
    }
    Ok(places)
}
