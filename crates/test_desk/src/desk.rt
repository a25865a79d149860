//! The desk job in memory: a project of two reels, its list, and its 96 scans of 2 by 2 pixels.
ghost use Rattle.std.specs.Prelude.{◌≤◌};

use cf_base::{FileId, PathText, last_digits};
use conform_job::Job;
use project_job::planned;
use reel_disk::{Disk, Got, MemoryDisk};
use run_crew::{Report, RunEnd, Task, run_alone};
use scan_source::MemoryScans;
use std::alloc::Global;
use std::marker::Brand;

const PROJECT: &[u8] = b"title = \"DESK\"
rate = 24
width = 2
height = 2
black = [0, 0, 0]
edl = \"desk.edl\"

[[reel]]
name = \"A001\"
prefix = \"a001/a001.\"
start = \"01:00:00:00\"
frames = 48

[[reel]]
name = \"B002\"
prefix = \"b002/b002.\"
start = \"02:00:00:00\"
frames = 48
";

/// The line that cuts the record in two, at frame 86412.
const CUT: &[u8] = b"cuts = [\"01:00:00:12\"]
";

/// Ten frames of A001, a gap of two, and a dissolve of four frames from A001 into twelve of B002.
pub const LIST: &[u8] = b"TITLE: DESK\r
FCM: NON-DROP FRAME\r
\r
001  A001     V     C        01:00:00:00 01:00:00:10 01:00:00:00 01:00:00:10\r
* FROM CLIP NAME: SEA\r
002  A001     AA    C        01:00:00:00 01:00:00:10 01:00:00:00 01:00:00:10\r
003  A001     V     C        01:00:00:10 01:00:00:10 01:00:00:12 01:00:00:12\r
003  B002     V     D    004 02:00:00:00 02:00:00:12 01:00:00:12 01:00:01:00\r
";

/// One source frame of each reel: each alone, and then a dissolve of two frames from the second into the first.
pub const TWO: &[u8] = b"001 A001 V C 01:00:00:00 01:00:00:01 01:00:00:00 01:00:00:01
M2 A001 000.0 01:00:00:00
002 B002 V C 02:00:00:00 02:00:00:01 01:00:00:01 01:00:00:02
M2 B002 000.0 02:00:00:00
003 A001 V D 002 01:00:00:00 01:00:00:02 01:00:00:02 01:00:00:04
M2 A001 000.0 01:00:00:00
";

/// The four bytes of a pixel with this code in all channels.
fn word(code: u32) -> [u8; 4] {
    let code = code % 1024;
    (code << 22 | code << 12 | code << 2).to_be_bytes()
}

/// A file of 2 by 2 pixels with this code in all channels.
fn picture(alloc: Global, code: u32) -> Option<Vec<u8>> {
    lined_picture(alloc, code, 0)
}

/// The same with so many bytes of padding behind each line.
pub fn lined_picture(alloc: Global, code: u32, pad: u8) -> Option<Vec<u8>> {
    let zeros = [0; 255];
    let padding = &zeros[..usize::from(pad)];
    let mut file = Vec::new(alloc);
    for part in [
        b"SDPX".as_slice(),
        &[0; 766],
        b"\0\x01\0\0\0\x02\0\0\0\x02",
        &[0; 20],
        b"\x32\0\0\x0A\0\x01\0\0\0\0\x08\0",
        &[0, 0, 0, pad],
        &[0; 1232],
        &word(code),
        &word(code),
        padding,
        &word(code),
        &word(code),
        padding,
    ] {
        file.extend_from_slice(part).ok()?;
    }
    Some(file)
}

pub fn put_file(files: &mut Vec<(PathText, Vec<u8>)>, path: &[u8], bytes: Vec<u8>) -> Option<()> {
    files.push((PathText::of(path)?, bytes)).ok()
}

/// The 48 scans of a reel whose first is of this number, with this code in all channels.
fn put_reel(
    alloc: Global,
    files: &mut Vec<(PathText, Vec<u8>)>,
    prefix: &[u8],
    first: u32,
    code: u32,
) -> Option<()> {
    for n in 0..48 {
        let digits: [u8; 7] = last_digits(first.wrapping_add(n));
        let mut path = Vec::from_slice(alloc, prefix).ok()?;
        path.extend_from_slice(&digits).ok()?;
        path.extend_from_slice(b".dpx").ok()?;
        put_file(files, &path, picture(alloc, code)?)?;
    }
    Some(())
}

/// The desk job's files. The calls with these numbers fail.
pub fn desk_scans(alloc: Global, fails: &[u64]) -> Option<MemoryScans> {
    scans_of(alloc, LIST, fails)
}

/// The desk job's files with this list. The calls with these numbers fail.
pub fn scans_of(alloc: Global, list: &[u8], fails: &[u64]) -> Option<MemoryScans> {
    scans_with(alloc, b"", list, fails)
}

/// The same with this text before that of the project.
fn scans_with(alloc: Global, keys: &[u8], list: &[u8], fails: &[u64]) -> Option<MemoryScans> {
    let files = files_with(alloc, keys, list)?;
    Some(MemoryScans::new(files, fails.to_vec(alloc).ok()?))
}

/// The project, the list, and the scans of A001 and of B002.
pub fn files_of(alloc: Global, list: &[u8]) -> Option<Vec<(PathText, Vec<u8>)>> {
    files_with(alloc, b"", list)
}

/// The same with this text before that of the project.
fn files_with(alloc: Global, keys: &[u8], list: &[u8]) -> Option<Vec<(PathText, Vec<u8>)>> {
    let mut files = Vec::new(alloc);
    let mut project = Vec::from_slice(alloc, keys).ok()?;
    project.extend_from_slice(PROJECT).ok()?;
    put_file(&mut files, b"desk.toml", project)?;
    put_file(&mut files, b"desk.edl", Vec::from_slice(alloc, list).ok()?)?;
    put_reel(alloc, &mut files, b"a001/a001.", 86_400, 100)?;
    put_reel(alloc, &mut files, b"b002/b002.", 172_800, 200)?;
    Some(files)
}

/// Whether the folder has the desk's whole reel: 24 frames of four pixels each.
pub fn is_whole(disk: &mut MemoryDisk) -> bool {
    has_reels(disk, 86_424)
}

/// The same where record reel 2 begins with this frame.
pub fn has_reels(disk: &mut MemoryDisk, second: u32) -> bool {
    let codes = [
        100, 100, 100, 100, 100, 100, 100, 100, 100, 100, 0, 0, 113, 138, 163, 188, 200, 200, 200,
        200, 200, 200, 200, 200,
    ];
    for (frame, code) in (86_400..86_424).zip(codes) {
        let reel = if frame < second { 1 } else { 2 };
        if !has_frame(disk, FileId::Frame { reel, frame }, code) {
            return false;
        }
    }
    true
}

/// Whether the frame's file has four pixels with this code in all channels, and no byte behind them.
fn has_frame(disk: &mut MemoryDisk, file: FileId, code: u32) -> bool {
    let mut pixels = [0; 17];
    disk.read(file, 2048, &mut pixels) == Got::Bytes(16)
        && pixels
            .chunks(4)
            .take(4)
            .all(|pixel| pixel == word(code).as_slice())
}

/// The desk's job and the scans that it was planned with. It is handed out in a box, so that a function that holds one drops it by
/// one call: a job that falls out of scope is dropped part by part, in each proof too.
#[derive(Drop)]
pub struct Desk {
    alloc: Global,
    scans: MemoryScans,
    pub job: Job,
}

impl Desk {
    /// The plan makes 28 calls on the scans: it loads two texts and asks for 26 heads. The calls with these numbers fail.
    pub fn new(alloc: Global, fails: &[u64]) -> Option<Box<Desk>> {
        Desk::with_list(alloc, LIST, fails)
    }

    /// The same project with this list.
    pub fn with_list(alloc: Global, list: &[u8], fails: &[u64]) -> Option<Box<Desk>> {
        Desk::over(alloc, scans_of(alloc, list, fails)?)
    }

    /// The desk's project with a record of two reels, of twelve frames each.
    pub fn cut(alloc: Global) -> Option<Box<Desk>> {
        Desk::over(alloc, scans_with(alloc, CUT, LIST, &[])?)
    }

    fn over(alloc: Global, mut scans: MemoryScans) -> Option<Box<Desk>> {
        let path = PathText::of(b"desk.toml")?;
        let job = planned(alloc, &path, &mut scans).ok()?;
        Box::new(alloc, Desk { alloc, scans, job }).ok()
    }

    /// A run of the job.
    pub fn run<D: Disk>(&mut self, disk: &mut D) -> (RunEnd, Report) {
        run(self.alloc, &self.job, &mut self.scans, disk, 8)
    }

    /// How many files a run of the job loads over an empty disk, where it shares so many source frames.
    pub fn loads(&mut self, share_cap: u32) -> Option<u64>
        requires { (1 ≤ share_cap) × (share_cap ≤ 16) }
    {
        let mut disk = MemoryDisk::new(self.alloc).ok()?;
        let (end, report) = run(self.alloc, &self.job, &mut self.scans, &mut disk, share_cap);
        (end == RunEnd::Done).then_some(report.loads)
    }

    /// A run of the job over no file at all.
    pub fn run_without_files<D: Disk>(&self, disk: &mut D) -> (RunEnd, Report) {
        let mut none = MemoryScans::new(Vec::new(self.alloc), Vec::new(self.alloc));
        run(self.alloc, &self.job, &mut none, disk, 8)
    }
}

/// A run of the job, whose name tells no files.
fn run<D: Disk>(
    alloc: Global,
    job: &Job,
    scans: &mut MemoryScans,
    disk: &mut D,
    share_cap: u32,
) -> (RunEnd, Report)
    requires { (1 ≤ share_cap) × (share_cap ≤ 16) }
{
    job.recall();
    let task = Task::whole(job, share_cap);
    let (end, report, _) = run_alone::<Brand, MemoryScans, D>(alloc, &task, scans, disk);
    (end, report)
}

/// A report of a run that loaded so often.
pub fn report(kept: u32, rendered: u32, loads: u64) -> Report {
    Report {
        frames: 24,
        kept,
        rendered,
        loads,
        misses: loads,
    }
}
