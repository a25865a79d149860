//! What a command comes to: outcomes, their statuses, and the numbers of refusals.
#![tactic(auto)]

ghost use Rattle.std.specs.Prelude.{◌≡◌};
ghost use Rattle.outcome.specs.Status.{status_of, header_number, label_number, line_number, list_number, reels_number, project_number, cube_number};

use cf_base::{Key, Name};
use cf_timecode::TcFault;
use conform_job::JobFault;
use cube_reader::{CubeFault, CubeKind};
use dpx_header::{DpxFault, FrameInfo};
use edl_events::{ListKind, ListRefusal};
use edl_lines::LineFault;
use project_file::{ProjectFault, ProjectKind};
use record_timeline::TimelineFault;
use source_reels::{ReelFault, ReelKind, Seen};

/// What a command comes to.
#[derive(Clone, Copy, Debug, PartialEq, Eq)]
pub enum Outcome {
    /// The command was carried out, and all its output was put.
    Done,
    /// The words are no command.
    Usage,
    /// The inputs have a refusal: it is the first one.
    Refused(Refused),
    /// 20.1: the reel folder is another job's: the digest there, and that of this job.
    OtherJob {
        kept: [u8; 32],
        wanted: [u8; 32],
    },
    /// 20.2: the reel folder has a bad ledger; `len` is the length of its body in bytes, 0 where it is absent.
    BadLedger {
        len: u64,
    },
    /// Of the two projects of an adoption the old one's inputs have a refusal: it is the first one.
    OldRefused(Refused),
    /// 20.1 of the folder of the old reel: the digest there, and that of the old project's job.
    OldOtherJob {
        kept: [u8; 32],
        wanted: [u8; 32],
    },
    /// 20.2 of the folder of the old reel; `len` as above.
    OldBadLedger {
        len: u64,
    },
    /// A frame's file has another SHA-256 than the ledger keeps of it: the first such frame, from 0, the record, and what was
    /// found.
    Damaged {
        frame: u32,
        kept: [u8; 32],
        found: [u8; 32],
    },
    /// A source file isn't what the plan found: its reel's name, its key, what the plan found, and what is there now.
    Changed {
        reel: Name,
        key: Key,
        was: FrameInfo,
        now: Seen,
    },
    /// A scan failed.
    SourceFault,
    /// The disk failed.
    DiskFault,
    /// The sink failed while it took the output of the outcome whose status is `instead`.
    SinkFault {
        instead: u8,
    },
    /// Memory ran out.
    NoMemory,
}

/// Why the inputs are refused.
#[derive(Clone, Copy, Debug, PartialEq, Eq)]
pub enum Refused {
    /// 0.1: there is no such file.
    NoFile(Which),
    /// 14.1 to 14.5: the project's text has a fault.
    Project(ProjectFault),
    /// 13.1 and 13.2: the project's reels have a fault.
    Reels(ReelFault),
    /// 2.1 to 4.8: the edit list is none.
    List(ListRefusal),
    /// 7.1 and 7.2: the list has no timeline.
    Timeline(TimelineFault),
    /// 10.1 to 10.8: the cube's text has a fault.
    Cube(CubeFault),
    /// 15.1 to 15.5: a source frame can't be had, or a cut is none.
    Job(JobFault),
    /// 8.1 to 8.13: the frame's file has a header that isn't taken.
    Frame(DpxFault),
}

/// A file that a command reads.
#[derive(Clone, Copy, Debug, PartialEq, Eq)]
pub enum Which {
    Frame,
    Project,
    List,
    Cube,
}

impl Outcome {
    /// The status that the program ends with: 0 Done, 1 Usage, 2 Refused, 3 OtherJob, 4 BadLedger,
    /// 5 Damaged, 6 Changed, 7 SourceFault, 8 DiskFault, 9 SinkFault, 10 NoMemory. What is said of an old project or its
    /// folder has the status of the same outcome.
    pub fn status(&self) -> u8
        ensures { result ≡ status_of self.now }
    {
        match self {
            Outcome::Done => 0,
            Outcome::Usage => 1,
            Outcome::Refused(_) | Outcome::OldRefused(_) => 2,
            Outcome::OtherJob { .. } | Outcome::OldOtherJob { .. } => 3,
            Outcome::BadLedger { .. } | Outcome::OldBadLedger { .. } => 4,
            Outcome::Damaged { .. } => 5,
            Outcome::Changed { .. } => 6,
            Outcome::SourceFault => 7,
            Outcome::DiskFault => 8,
            Outcome::SinkFault { .. } => 9,
            Outcome::NoMemory => 10,
        }
    }
}

/// The number of a header's fault.
pub fn header_number(fault: DpxFault) -> &'static str
    ensures { result.now ≡ header_number fault }
{
    match fault {
        DpxFault::Magic => "8.1",
        DpxFault::Elements => "8.2",
        DpxFault::Descriptor => "8.3",
        DpxFault::Depth => "8.4",
        DpxFault::Packing => "8.5",
        DpxFault::Encoding => "8.6",
        DpxFault::Orientation => "8.7",
        DpxFault::Sign => "8.8",
        DpxFault::Encrypted => "8.9",
        DpxFault::Offset => "8.10",
        DpxFault::Padding => "8.11",
        DpxFault::Size => "8.12",
        DpxFault::Short => "8.13",
    }
}

/// The number of a label's fault.
fn label_number(fault: TcFault) -> &'static str
    ensures { result.now ≡ label_number fault }
{
    match fault {
        TcFault::Shape => "2.1",
        TcFault::Range => "2.2",
        TcFault::Dropped => "2.3",
        TcFault::DropMark => "2.4",
    }
}

/// The number of a line's fault.
fn line_number(fault: LineFault) -> &'static str
    ensures { result.now ≡ line_number fault }
{
    match fault {
        LineFault::BadEvent => "3.1",
        LineFault::BadChannel => "3.2",
        LineFault::Key => "3.3",
        LineFault::BadMotion => "3.4",
        LineFault::BadFcm => "3.5",
        LineFault::BadTransition => "3.6",
    }
}

/// The number of a list's refusal.
pub fn list_number(kind: ListKind) -> &'static str
    ensures { result.now ≡ list_number kind }
{
    match kind {
        ListKind::Line(fault) => line_number(fault),
        ListKind::TooLong => "3.7",
        ListKind::Label(fault) => label_number(fault),
        ListKind::Lengths => "4.1",
        ListKind::Backwards => "4.2",
        ListKind::NoFrom => "4.3",
        ListKind::Duration => "4.4",
        ListKind::UnknownWipe => "4.5",
        ListKind::StrayMotion => "4.6",
        ListKind::TooMany => "4.7",
        ListKind::NoEvents => "4.8",
    }
}

/// The number of the reels' fault.
pub fn reels_number(kind: ReelKind) -> &'static str
    ensures { result.now ≡ reels_number kind }
{
    match kind {
        ReelKind::TwoNames => "13.1",
        ReelKind::Range => "13.2",
    }
}

/// The number of a project's fault.
pub fn project_number(kind: ProjectKind) -> &'static str
    ensures { result.now ≡ project_number kind }
{
    match kind {
        ProjectKind::Text => "14.1",
        ProjectKind::MissingKey => "14.2",
        ProjectKind::WrongType => "14.3",
        ProjectKind::OutOfRange => "14.4",
        ProjectKind::UnknownKey => "14.5",
    }
}

/// The number of a cube's fault.
pub fn cube_number(kind: CubeKind) -> &'static str
    ensures { result.now ≡ cube_number kind }
{
    match kind {
        CubeKind::Keyword => "10.1",
        CubeKind::Size => "10.2",
        CubeKind::Number => "10.3",
        CubeKind::Count => "10.4",
        CubeKind::Domain => "10.5",
        CubeKind::Both => "10.6",
        CubeKind::NoSize => "10.7",
        CubeKind::TooLong => "10.8",
    }
}
