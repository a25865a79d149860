//! Lines of pixel words against the plain loop over pixels, for every length from 0 to 67 words.
ghost use Rattle.std.specs.Prelude.{◌<◌, ◌≤◌, IsTrue};
ghost use Rattle.cf_base.specs.Events.{is_known_wipe};

use band_kernels::{WipeFrame, blend_band, copy_band, fill_band, look_band, wipe_band};
use cf_base::Rgb;
use cube_reader::read_cube;
use dpx_header::FrameInfo;
use dpx_pack::{pack, rgb_of, unpack, word_of};
use std::alloc::Global;
use std::test::Fail;
use tetra_look::Look;
use trans_mix::{incoming_columns, known_wipe, mix, shows_incoming};

/// The greatest length.
const MOST: usize = 67;

/// Words of all kinds, also with filler bits set.
fn words(seed: u32) -> [u32; 67] {
    let mut words = [0; 67];
    let mut state = seed;
    for word in words.iter_mut() {
        state = state.wrapping_mul(1_664_525).wrapping_add(1_013_904_223);
        *word = state ^ state >> 15;
    }
    words
}

/// A pixel of a dissolve.
fn mixed(old: u32, new: u32, k: u32, d: u32) -> u32
    requires frame { k < d }
    requires duration { d ≤ 2592000 }
{
    let (a, b) = (rgb_of(old), rgb_of(new));
    word_of(Rgb {
        r: mix(a.r, b.r, k, d),
        g: mix(a.g, b.g, k, d),
        b: mix(a.b, b.b, k, d),
    })
}

#[test]
fn dissolves_are_the_plain_loop(rt: HostRuntime) {
    let (a, b) = (words(1), words(2));
    // At the borders of what weights can do, and beyond.
    for (k, d) in [
        (0, 1),
        (0, 2),
        (3, 24),
        (0, 2047),
        (1023, 2048),
        (2047, 2048),
        (0, 2049),
        (50_000, 99_999),
        (2_591_999, 2_592_000),
    ] {
        for n in 0..MOST + 1 {
            let mut out = [7; MOST];
            blend_band(&a[..n], &b[..n], k, d, &mut out[..n]);
            for (i, word) in out.iter().enumerate() {
                let wanted = if i < n { mixed(a[i], b[i], k, d) } else { 7 };
                assert_eq!(rt; *word, wanted, "word {i} of {n}, frame {k} of {d}");
            }
        }
    }
}

/// Lines of `w` words from line `y` on are as the plain loop has them.
fn is_wiped(code: u16, y: u32, w: u32, h: u32, n: usize) -> bool
    requires known { IsTrue (is_known_wipe code) }
    requires some { 0 < w }
    requires most { w ≤ 67 }
    requires height { h ≤ 4096 }
{
    let (a, b) = (words(3), words(4));
    let width = w as usize;
    if n > MOST || n % width != 0 || y as usize + n / width > h as usize {
        return false;
    }
    let mut out = [7; MOST];
    let wipe = WipeFrame {
        code,
        width: w,
        height: h,
        k: 3,
        d: 8,
    };
    wipe_band(wipe, y, &a[..n], &b[..n], &mut out[..n]);
    for i in 0..n {
        let (x, line) = ((i % width) as u32, y + (i / width) as u32);
        if x >= w || line >= h {
            return false;
        }
        let shown = shows_incoming(code, x, line, w, h, 3, 8);
        if out[i] != if shown { b[i] } else { a[i] } {
            return false;
        }
    }
    out[n..].iter().all(|word| *word == 7)
}

/// The columns of a line are as the plain loop has them.
fn are_columns(code: u16, y: u32, w: u32, h: u32, k: u32, d: u32) -> bool
    requires known { IsTrue (is_known_wipe code) }
    requires line { y < h }
    requires width { w ≤ 4096 }
    requires height { h ≤ 4096 }
    requires frame { k < d }
    requires duration { d ≤ 2592000 }
{
    let columns = incoming_columns(code, y, w, h, k, d);
    for x in 0..w {
        let inside = columns.from <= x && x < columns.to;
        if inside != shows_incoming(code, x, y, w, h, k, d) {
            return false;
        }
    }
    true
}

#[test]
fn wipes_are_the_plain_loop(rt: HostRuntime) {
    for code in [1, 2, 3, 4, 5, 6, 21, 22, 41, 101, 102] {
        assert!(rt; known_wipe(code));
        for n in 0..MOST + 1 {
            // One line of so many columns, and so many lines of one, of two and of three.
            if 0 < n {
                assert!(rt;
                    is_wiped(code, 2, n as u32, 5, n),
                    "wipe {code}, {n} columns"
                );
            }
            assert!(rt; is_wiped(code, 1, 1, 90, n), "wipe {code}, {n} lines");
            assert!(rt;
                is_wiped(code, 3, 2, 90, n / 2 * 2),
                "wipe {code}, {n} of two"
            );
            assert!(rt;
                is_wiped(code, 0, 3, 22, n / 3 * 3),
                "wipe {code}, {n} of three"
            );
        }
        for (y, w, h, k, d) in [
            (0, 1, 1, 0, 1),
            (0, 4096, 1, 1, 2),
            (4095, 1, 4096, 700, 1024),
            (2047, 4096, 4096, 511, 1024),
            (0, 4096, 4096, 2_591_999, 2_592_000),
        ] {
            assert!(rt; are_columns(code, y, w, h, k, d), "wipe {code}, {w} by {h}");
        }
    }
}

/// The look of a cube's text.
fn look_of(alloc: Global, text: &[u8]) -> Result<Look, Fail> {
    match read_cube(alloc, text) {
        Ok(cube) => match Look::of(alloc, cube) {
            Ok(look) => Ok(look),
            Err(_) => Err(Fail::from("no memory")),
        },
        Err(_) => Err(Fail::from("the text is refused")),
    }
}

/// In one dimension, and in three of size 3, where blue depends on red.
const TEXTS: [&[u8]; 2] = [
    b"LUT_1D_SIZE 3\nDOMAIN_MIN -1 0 0.25\nDOMAIN_MAX 1 2 0.5\n0 1 0.25\n0.5 0.5 0.5\n1 0 0.75\n",
    b"LUT_3D_SIZE 3\n\
0 0 0\n0.5 0 0.05\n1 0 0.1\n0 0.25 0\n0.5 0.25 0.05\n1 0.25 0.1\n0 1 0\n0.5 1 0.05\n1 1 0.1\n\
0 0 0.1\n0.5 0 0.15\n1 0 0.2\n0 0.25 0.1\n0.5 0.25 0.15\n1 0.25 0.2\n0 1 0.1\n0.5 1 0.15\n1 1 0.2\n\
0 0 0.2\n0.5 0 0.25\n1 0 0.3\n0 0.25 0.2\n0.5 0.25 0.25\n1 0.25 0.3\n0 1 0.2\n0.5 1 0.25\n1 1 0.3\n",
];

/// Each length under a look is as the plain loop has it.
fn is_seen(look: &Look) -> bool {
    let a = words(5);
    for n in 0..MOST + 1 {
        let mut out = a;
        look_band(look, &mut out[..n]);
        for (i, word) in out.iter().enumerate() {
            let wanted = if i < n {
                word_of(look.at(rgb_of(a[i])))
            } else {
                a[i]
            };
            if *word != wanted {
                return false;
            }
        }
    }
    true
}

#[test]
fn looks_are_the_plain_loop(rt: HostRuntime) -> Result<(), Fail> {
    assert!(rt; is_seen(&Look::none()), "no look");
    for text in TEXTS {
        assert!(rt; is_seen(&look_of(rt.alloc(), text)?));
    }
    Ok(())
}

#[test]
fn words_are_filled_and_copied(rt: HostRuntime) {
    let a = words(6);
    for n in 0..MOST + 1 {
        let mut out = [7; MOST];
        copy_band(&a[..n], &mut out[..n]);
        assert!(rt;
            out[..n] == a[..n] && out[n..].iter().all(|word| *word == 7),
            "{n} words"
        );
        fill_band(9, &mut out[..n]);
        assert!(rt; out[..n].iter().all(|word| *word == 9), "{n} words");
    }
}

#[test]
fn words_of_bytes_and_bytes_of_words(rt: HostRuntime) {
    let a = words(7);
    for n in 1..MOST + 1 {
        let mut bytes = [0; 4 * MOST];
        pack(&a[..n], &mut bytes[..4 * n]);
        for (i, word) in a[..n].iter().enumerate() {
            assert_eq!(rt;
                bytes[4 * i..4 * i + 4],
                word.to_be_bytes()[..],
                "word {i} of {n}"
            );
        }
        let info = FrameInfo {
            little: false,
            width: n as u32,
            height: 1,
            start: 0,
            pad: 0,
        };
        let mut back = [7; MOST];
        unpack(&info, &bytes, &mut back[..n]);
        for (i, word) in back.iter().enumerate() {
            let wanted = if i < n { a[i] & !3 } else { 7 };
            assert_eq!(rt; *word, wanted, "word {i} of {n}");
        }
    }
}
