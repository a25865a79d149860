//! Values that no command shows: sizes of a demonstration, digests of texts, and the part and the options of a run.
use cf_base::PathText;
use command_words::{Command, command_laws, command_of};
use conform_job::job_digest;
use demo::{record_count, source_count};
use frame_range::Extent;
use std::alloc::Global;

/// How many frames the source reels and the record reel of a demonstration have.
#[test]
fn reels_grow_with_the_events(rt: HostRuntime) {
    for (events, source, record) in [
        (1, 12, 6),
        (4, 12, 24),
        (5, 18, 32),
        (8, 18, 50),
        (1000, 1506, 6498),
    ] {
        assert!(rt; 1 <= events && events <= 1000);
        assert!(rt; source_count(events) == source && record_count(events) == record);
    }
}

/// The first bytes of digests by an outside program.
#[test]
fn the_digest_keeps_texts_apart(rt: HostRuntime) {
    let rows: [(&[u8], &[u8], Option<&[u8]>, [u8; 4]); 5] = [
        (b"", b"", None, [0x0f, 0xba, 0x00, 0x3e]),
        (b"ab", b"c", None, [0xb8, 0x3c, 0x81, 0x33]),
        (b"a", b"bc", None, [0x03, 0x50, 0x19, 0x6d]),
        (b"ab", b"c", Some(b""), [0x52, 0x8e, 0x93, 0x14]),
        (b"ab", b"c", Some(b"d"), [0x40, 0x70, 0xbb, 0xa1]),
    ];
    for (project, edl, cube, front) in rows {
        assert!(rt; job_digest(project, edl, cube).starts_with(&front));
    }
}

/// The command of a line, whose words have one blank between them; none, too, where there is no memory.
fn spelled(alloc: Global, line: &str) -> Option<Command> {
    let mut words = Vec::new(alloc);
    for word in line.split(' ') {
        words.push(word).ok()?;
    }
    command_of(alloc, &words).ok()?
}

/// Options stand anywhere before `--`, in either order, with `=` or as two words; their numbers may have a plus and zeros.
#[test]
fn a_run_takes_its_options(rt: HostRuntime) {
    let alloc = rt.alloc();
    let project = PathText::of(b"desk.toml").expect(&rt, "a path");
    for (line, workers, share) in [
        ("run desk.toml", 4, 8),
        ("run desk.toml --workers 3", 3, 8),
        ("run desk.toml --share 2", 4, 2),
        ("run desk.toml --workers 3 --share 2", 3, 2),
        ("run desk.toml --workers=3 --share=2", 3, 2),
        ("run desk.toml --share=2 --workers=3", 3, 2),
        ("--workers 3 run desk.toml", 3, 8),
        ("run --share 2 desk.toml", 4, 2),
        ("--share=16 --workers=1 -- run desk.toml", 1, 16),
        ("run desk.toml --workers 16 --share 1", 16, 1),
        ("run desk.toml --workers +3", 3, 8),
        ("run desk.toml --workers 003", 3, 8),
    ] {
        let want = Command::Run {
            project,
            extent: Extent::Whole,
            workers,
            share,
        };
        assert!(rt; spelled(alloc, line) == Some(want), "{line}");
    }
    command_laws();
}

/// The command `part` is a run over a part.
#[test]
fn a_part_is_a_run(rt: HostRuntime) {
    let alloc = rt.alloc();
    let project = PathText::of(b"desk.toml").expect(&rt, "a path");
    for (line, part, parts, workers) in [
        ("part desk.toml 3/8", 3, 8, 4),
        ("part desk.toml 1/1 --workers 2", 1, 1, 2),
        ("--workers=16 part desk.toml 999/999", 999, 999, 16),
    ] {
        let want = Command::Run {
            project,
            extent: Extent::Part { part, parts },
            workers,
            share: 8,
        };
        assert!(rt; spelled(alloc, line) == Some(want), "{line}");
    }
}
