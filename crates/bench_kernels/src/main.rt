//! What the pixel kernels take, for `bench/kernels`, which sets them beside the same rules as loops in C. For each kernel it
//! prints a line: its name, and the picoseconds of the processor that it takes for a pixel, as the least of so many times.
//!
//! The words are those of two small pictures with ramps and noise, or of noise alone; the lines are made one after another.
#![tactic(auto)]

use band_kernels::{blend_band, copy_band, seen_band};
use cube_reader::read_cube;
use dpx_pack::pack;
use std::alloc::Global;
use std::env;
use std::fmt::Write;
use std::time::CpuClock;
use tetra_look::Look;

/// Pixels in a line.
const WIDTH: usize = 2048;

/// Pixels in all.
const PIXELS: usize = 64 * WIDTH;

/// How long the dissolve is.
const DURATION: u32 = 24;

/// What a kernel is measured on.
#[derive(Drop)]
struct Desk {
    /// The words of two pictures.
    old: Vec<u32>,
    new: Vec<u32>,
    /// A line, and what a kernel makes of all of them: words, and bytes.
    line: Vec<u32>,
    words: Vec<u32>,
    bytes: Vec<u8>,
    /// No look, and one of each kind.
    none: Look,
    curve: Look,
    cube: Look,
    /// The frame of the dissolve.
    frame: u32,
}

#[derive(Clone, Copy)]
enum Kernel {
    Copy,
    Cut,
    Dissolve,
    Curve,
    Cube,
}

const KERNELS: [(Kernel, &str); 5] = [
    (Kernel::Copy, "copy"),
    (Kernel::Cut, "cut"),
    (Kernel::Dissolve, "dissolve"),
    (Kernel::Curve, "1D"),
    (Kernel::Cube, "3D"),
];

/// A picture. Each word's noise comes from the one before it by a fixed rule, and of a smooth picture it is five bits.
fn picture(alloc: Global, seed: u32, smooth: bool) -> anyhow::Result<Vec<u32>> {
    let mut words = Vec::with_capacity(alloc, PIXELS)?;
    let mut state = seed;
    for i in 0..PIXELS as u32 {
        state = state.wrapping_mul(1_664_525).wrapping_add(1_013_904_223);
        words.push(if smooth { ramp(i, state) } else { state & !3 })?;
    }
    Ok(words)
}

/// A word of the ramps.
fn ramp(i: u32, noise: u32) -> u32 {
    let (x, y) = (i % WIDTH as u32, i / WIDTH as u32);
    let r = (x / 2).wrapping_add(4 * y).wrapping_add(noise >> 27) & 1023;
    let g = (x / 4).wrapping_add(noise >> 22 & 31) & 1023;
    let b = (x / 2)
        .wrapping_add(4 * y)
        .wrapping_add(300 + (noise >> 17 & 31))
        & 1023;
    r << 22 | g << 12 | b << 2
}

/// A look of 1,024 places.
fn curve(alloc: Global) -> anyhow::Result<Look> {
    let mut text = String::new(alloc);
    writeln!(text, "LUT_1D_SIZE 1024")?;
    for i in 0..1024u32 {
        let value = 960 * i;
        writeln!(text, "0.{value:06} 0.{value:06} 0.{value:06}")?;
    }
    look_of(alloc, &text)
}

/// A look of 33 places a channel.
fn cube(alloc: Global) -> anyhow::Result<Look> {
    let mut text = String::new(alloc);
    writeln!(text, "LUT_3D_SIZE 33")?;
    for b in 0..33u32 {
        for g in 0..33u32 {
            for r in 0..33u32 {
                let (red, green, blue) = (30_000 * r + 100 * g, 30_000 * g, 29_000 * b + 900 * r);
                writeln!(text, "0.{red:06} 0.{green:06} 0.{blue:06}")?;
            }
        }
    }
    look_of(alloc, &text)
}

fn look_of(alloc: Global, text: &str) -> anyhow::Result<Look> {
    match read_cube(alloc, text.as_bytes()) {
        Ok(cube) => match Look::of(alloc, cube) {
            Ok(look) => Ok(look),
            Err(_) => anyhow::bail!("no memory"),
        },
        Err(_) => anyhow::bail!("the table is refused"),
    }
}

/// A desk with pictures of a kind.
fn desk_of(alloc: Global, smooth: bool, frame: u32) -> anyhow::Result<Desk> {
    Ok(Desk {
        old: picture(alloc, 1, smooth)?,
        new: picture(alloc, 77, smooth)?,
        line: vec![in alloc; 0; WIDTH]?,
        words: vec![in alloc; 0; PIXELS]?,
        bytes: vec![in alloc; 0; 4 * PIXELS]?,
        none: Look::none(),
        curve: curve(alloc)?,
        cube: cube(alloc)?,
        frame,
    })
}

/// Does a kernel's work on line `y`.
fn make_line(kernel: Kernel, desk: &mut Desk, y: usize) {
    if y >= PIXELS / WIDTH || desk.old.len() != PIXELS || desk.new.len() != PIXELS {
        return;
    }
    if desk.words.len() != PIXELS || desk.bytes.len() != 4 * PIXELS || desk.line.len() != WIDTH {
        return;
    }
    let (start, end) = (y * WIDTH, (y + 1) * WIDTH);
    let (old, new) = (&desk.old[start..end], &desk.new[start..end]);
    let out = &mut desk.words[start..end];
    match kernel {
        Kernel::Copy => copy_band(old, out),
        Kernel::Cut => {
            seen_band(&desk.none, old, &mut desk.line);
            pack(&desk.line, &mut desk.bytes[4 * start..4 * end]);
        }
        Kernel::Dissolve => blend_band(old, new, desk.frame % DURATION, DURATION, out),
        Kernel::Curve => seen_band(&desk.curve, old, out),
        Kernel::Cube => seen_band(&desk.cube, old, out),
    }
}

/// Does it on each line.
fn work(kernel: Kernel, desk: &mut Desk) {
    for y in 0..PIXELS / WIDTH {
        make_line(kernel, desk, y);
    }
}

/// The processor's time so far, in nanoseconds.
fn now(rt: &HostRuntime) -> anyhow::Result<u64> {
    let time = rt.thread_cpu_time()?;
    Ok(
        time.as_secs()
            .wrapping_mul(1_000_000_000)
            .wrapping_add(u64::from(time.subsec_nanos())),
    )
}

/// The least time of a kernel, in picoseconds a pixel.
fn least(rt: &HostRuntime, kernel: Kernel, times: u32, desk: &mut Desk) -> anyhow::Result<u64> {
    let mut best = u64::MAX;
    for _ in 0..times {
        let start = now(rt)?;
        work(kernel, desk);
        best = best.min(now(rt)?.wrapping_sub(start));
    }
    Ok(best.saturating_mul(1000) / PIXELS as u64)
}

fn main(rt: HostRuntime) -> anyhow::Result<()> {
    let mut words = env::args(&rt)?;
    let (Some(kind), Some(count)) = (words.nth(1), words.next()) else {
        println!(rt; "usage: bench_kernels smooth|noise TIMES")?;
        return Ok(());
    };
    let frame = rt.thread_cpu_time()?.subsec_nanos();
    let mut desk = desk_of(rt.alloc(), kind.as_str() == "smooth", frame)?;
    let times: u32 = count.as_str().parse()?;
    for (kernel, name) in KERNELS {
        println!(rt; "{name} {}", least(&rt, kernel, times, &mut desk)?)?;
    }
    Ok(())
}
