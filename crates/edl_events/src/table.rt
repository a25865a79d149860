//! The table of open lines: the last run of event lines with one number, by their reels.
//!
//! A motion line asks for one reel alone, so that a list is read in time that grows with its length, whatever its runs.
ghost use Rattle.std.specs.Prelude.{◌≡◌, OnOk, Some};
ghost use Rattle.edl_events.specs.inside.Table.{count_of, place_of, HasCounts, HasPlaces, line_counts, line_places, more_counts, more_places, run_counts, run_places, with_motion};

use cf_base::Name;
use std::alloc::AllocError;
use std::collections::BTreeMap;

/// How many event lines, and how many motion lines, of a reel stand in the run.
#[derive(Clone, Copy)]
pub struct Count {
    /// Event lines of the run.
    pub lines: u32,
    /// Motion lines since the run's first line.
    pub moved: u32,
}

/// The last run of event lines with one number.
#[derive(Drop)]
pub struct Table {
    /// Their number, once an event line has come.
    pub number: Option<u32>,
    /// How often each reel stands in the run, and has moved since the run's first line.
    pub counts: BTreeMap<Name, Count>,
    /// The place of each line of the run, by its reel and by how many lines of that reel stand before it in the run.
    pub places: BTreeMap<(Name, u32), u32>,
}

impl Table {
    /// What the run has of a reel.
    fn count_of(&self, reel: &Name) -> Count
        ensures count { result ≡ count_of self.now.counts reel.now }
    {
        self.counts
            .get(reel)
            .copied()
            .unwrap_or(Count { lines: 0, moved: 0 })
    }

    /// The place of the line to which a motion line of the reel belongs: that of the reel's first line without one.
    pub fn owner(&self, reel: &Name) -> Option<u32>
        ensures owner { result ≡ place_of self.now.places reel.now (count_of self.now.counts reel.now).moved }
    {
        let moved = self.count_of(reel).moved;
        self.places.get(&(*reel, moved)).copied()
    }

    /// A motion line of the reel stands behind the run.
    pub fn take_motion(&mut self, reel: &Name) -> Result<(), AllocError>
        ensures number { OnOk result (self.new.number ≡ self.old.number) }
        ensures counts { OnOk result (HasCounts self.new (with_motion (count_of self.old.counts) reel.now)) }
        ensures places { OnOk result (HasPlaces self.new (place_of self.old.places)) }
    {
        let Count { lines, moved } = self.count_of(reel);
        // A text has far too few lines for the count to stop.
        let count = Count {
            lines,
            moved: moved.saturating_add(1),
        };
        self.counts.insert(*reel, count)?;
        Ok(())
    }

    /// An event line goes on with the run of its number, or begins one.
    pub fn add(&mut self, number: u32, place: u32, reel: &Name) -> Result<(), AllocError>
        ensures number { OnOk result (self.new.number ≡ Some number) }
        ensures counts { OnOk result (HasCounts self.new (line_counts self.old number reel.now)) }
        ensures places { OnOk result (HasPlaces self.new (line_places self.old number place reel.now)) }
    {
        self.begin(number);
        self.put(place, reel)?;
        Ok(())
    }

    /// The run of a number: the one that is open, or a new one.
    fn begin(&mut self, number: u32)
        ensures number { self.new.number ≡ Some number }
        ensures counts { HasCounts self.new (run_counts self.old number) }
        ensures places { HasPlaces self.new (run_places self.old number) }
    {
        if self.number != Some(number) {
            self.counts.clear();
            self.places.clear();
        }
        self.number = Some(number);
    }

    /// An event line stands at the run's end.
    fn put(&mut self, place: u32, reel: &Name) -> Result<(), AllocError>
        ensures number { OnOk result (self.new.number ≡ self.old.number) }
        ensures counts { OnOk result (HasCounts self.new (more_counts self.old reel.now)) }
        ensures places { OnOk result (HasPlaces self.new (more_places self.old place reel.now)) }
    {
        let Count { lines, moved } = self.count_of(reel);
        self.places.insert((*reel, lines), place)?;
        // A text has far too few lines for the count to stop.
        let count = Count {
            lines: lines.saturating_add(1),
            moved,
        };
        self.counts.insert(*reel, count)?;
        Ok(())
    }
}
