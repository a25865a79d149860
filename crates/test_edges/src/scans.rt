//! Scans over files in memory, whose calls fail by their numbers.
use cf_base::PathText;
use scan_source::{Head, Loaded, MemoryScans, SameScans, Scans, TurningScans};
use std::alloc::Global;

/// A file of 3 bytes, a later one at the same path, and an empty one.
fn three_files(alloc: Global, fails: &[u64]) -> Option<MemoryScans> {
    let mut files = Vec::new(alloc);
    for (path, bytes) in [("a.dpx", "abc"), ("a.dpx", "later"), ("b.dpx", "")] {
        let path = PathText::of(path.as_bytes())?;
        files
            .push((path, bytes.as_bytes().to_vec(alloc).ok()?))
            .ok()?;
    }
    Some(MemoryScans::new(files, fails.to_vec(alloc).ok()?))
}

/// Loads through the trait alone, as callers do.
fn loaded<S: Scans>(scan: &mut S, path: &str, into: &mut Vec<u8>) -> Option<Loaded> {
    Some(scan.load(&PathText::of(path.as_bytes())?, 2, into))
}

/// Looks at a head in the same way.
fn found<S: Scans>(scan: &mut S, path: &str, into: &mut [u8; 2048]) -> Option<Head> {
    Some(scan.head(&PathText::of(path.as_bytes())?, into))
}

/// Whether a load of a file, a look at its head and a load of no file answer so, and each load puts down what it got.
fn answers(
    scan: &mut MemoryScans,
    bytes: &mut Vec<u8>,
    head: &mut [u8; 2048],
    wanted: (Loaded, Head, Loaded),
) -> bool {
    let (first, second, third) = wanted;
    let front = if first == Loaded::Failed { "" } else { "ab" };
    loaded(&mut &mut *scan, "a.dpx", bytes) == Some(first)
        && bytes.as_slice() == front.as_bytes()
        && found(scan, "a.dpx", head) == Some(second)
        && loaded(scan, "none.dpx", bytes) == Some(third)
        && bytes.is_empty()
}

#[test]
fn calls_fail_by_their_numbers(rt: HostRuntime) {
    let alloc = rt.alloc();
    let mut bytes = Vec::from_slice(alloc, b"before").ok().expect(&rt, "bytes");
    let mut head = [7; 2048];
    for (fails, wanted) in [
        (
            [0, 0],
            (
                Loaded::Got { len: 3 },
                Head::Found { len: 3 },
                Loaded::Absent,
            ),
        ),
        (
            [1, 9],
            (Loaded::Failed, Head::Found { len: 3 }, Loaded::Absent),
        ),
        (
            [3, 2],
            (Loaded::Got { len: 3 }, Head::Failed, Loaded::Failed),
        ),
    ] {
        let mut scan = three_files(alloc, &fails).expect(&rt, "files");
        assert!(rt; answers(&mut scan, &mut bytes, &mut head, wanted));
    }
    assert!(rt; head.starts_with(b"abc\0"));
}

/// The first two calls go to three files, and the later ones, of which the first fails, to no file.
fn turning(alloc: Global) -> Option<TurningScans> {
    let fails = [1].as_slice().to_vec(alloc).ok()?;
    let none = MemoryScans::new(Vec::new(alloc), fails);
    Some(TurningScans::new(three_files(alloc, &[])?, none, 3))
}

#[test]
fn calls_turn_from_one_scan_to_another(rt: HostRuntime) {
    let alloc = rt.alloc();
    let mut bytes = Vec::new(alloc);
    let mut head = [7; 2048];
    let mut scan = turning(alloc).expect(&rt, "scans");
    let got = Some(Loaded::Got { len: 3 });
    assert!(rt; loaded(&mut scan, "a.dpx", &mut bytes) == got);
    assert!(rt; found(&mut scan, "b.dpx", &mut head) == Some(Head::Found { len: 0 }));
    assert!(rt; loaded(&mut scan, "a.dpx", &mut bytes) == Some(Loaded::Failed));
    assert!(rt; found(&mut scan, "a.dpx", &mut head) == Some(Head::Absent));
}

/// Calls on the paths of the texts are numbered, and no others.
#[test]
fn all_files_but_the_texts_have_one_head(rt: HostRuntime) {
    let alloc = rt.alloc();
    let mut bytes = Vec::from_slice(alloc, b"before").ok().expect(&rt, "bytes");
    let mut head = [7; 2048];
    let texts = three_files(alloc, &[2]).expect(&rt, "files");
    let mut scan = SameScans::new(texts, [5; 2048], 9000);
    assert!(rt; found(&mut scan, "c.dpx", &mut head) == Some(Head::Found { len: 9000 }));
    assert!(rt; head == [5; 2048]);
    assert!(rt; loaded(&mut scan, "c.dpx", &mut bytes) == Some(Loaded::Absent));
    assert!(rt; found(&mut scan, "a.dpx", &mut head) == Some(Head::Found { len: 3 }));
    assert!(rt; head.starts_with(b"abc\0"));
    assert!(rt; loaded(&mut scan, "b.dpx", &mut bytes) == Some(Loaded::Failed));
    assert!(rt; bytes.is_empty());
}
