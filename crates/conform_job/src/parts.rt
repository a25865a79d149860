//! The parts of a job, and why it is refused.
use cf_base::Name;
use dpx_header::DpxFault;
use project_file::Project;
use record_timeline::Timeline;
use source_reels::ReelTable;
use tetra_look::Look;

/// What a job is made of.
#[derive(Drop)]
pub struct JobParts {
    /// The digest of the texts that the other parts were read from, as `job_digest` makes it.
    pub digest: [u8; 32],
    /// The project.
    pub project: Project,
    /// The table of the project's reels.
    pub reels: ReelTable,
    /// The timeline of the project's list, at the project's rate.
    pub timeline: Timeline,
    /// The look of the project's cube.
    pub look: Look,
}

/// Why a job is refused. `line` is that of the event in the list, from 1, `reel` the event's reel, and `source` a frame
/// number of that reel, which may be negative or past the day.
#[derive(Clone, Copy, Debug, PartialEq, Eq)]
pub enum JobFault {
    /// 15.5: the text of a cut, counted from 1, is no label of the record (SMPTE ST 12-1), or its frame isn't above the cut
    /// before it and the record's first frame, or isn't below the record's end.
    BadCut {
        cut: u32,
    },
    /// 15.1: the event's reel is neither `BL` nor in the table.
    UnknownReel {
        line: u32,
    },
    /// 15.2: the reel doesn't have the frame, or there is no file at the frame's path.
    MissingFrame {
        line: u32,
        reel: Name,
        source: i64,
    },
    /// 15.3: the header of the frame's file is refused, for one of 8.1 to 8.13.
    BadFrame {
        line: u32,
        reel: Name,
        source: i64,
        fault: DpxFault,
    },
    /// 15.4: the frame hasn't the project's size.
    Geometry {
        line: u32,
        reel: Name,
        source: i64,
    },
    /// The scan failed, which it counts as a fault.
    SourceFault,
    /// Memory ran out.
    NoMemory,
}
