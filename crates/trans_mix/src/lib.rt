//! Dissolves and wipes: what a transition makes of one pixel of each side, and what is made once for many pixels: the
//! weights of a dissolve's frame, and the columns of a wipe's line.
//!
//! A transition of `d` frames has its frames numbered by `k` from 0. A channel's code is a number from 0 to 1023. Columns
//! and lines are counted from 0 at the top left corner. The weights and the shapes are this project's own; CMX 3600 has
//! the codes. Nothing here takes memory.
#![tactic(auto)]

ghost use Rattle.std.specs.Prelude.{◌≡◌, ◌^◌, ◌<◌, ◌≤◌, IsTrue};
ghost use Rattle.cf_base.specs.Events.{is_known_wipe};
ghost use Rattle.trans_mix.specs.Laws.{LiesBetween, GoesToNew, IsSameBack, IsNearest, KeepsNegatives};
ghost use Rattle.trans_mix.specs.Laws.{KeepsShowing, BeginsAndEnds, BeginsEmpty, EndsFull, ReachesAll, Turns, Flips};
ghost use Rattle.trans_mix.specs.Mix.{mixed_code};
ghost use Rattle.trans_mix.specs.Wipe.{has_passed, is_incoming, HaveShapes};

mod columns;
mod weights;

use cf_base::{LARGEST, LONGEST};
pub use columns::{Columns, incoming_columns};
pub use weights::{LONGEST_WEIGHTED, Weights};

/// The code of a dissolve's frame `k` of `d`, between the old side's code `a` and the new side's `b`: at the frame's
/// centre the new side has the weight (2k + 1) / 2d, and the code is rounded to the nearest.
pub fn mix(a: u16, b: u16, k: u32, d: u32) -> u16
    requires old { a ≤ 1023 }
    requires new { b ≤ 1023 }
    requires frame { k < d }
    requires duration { d ≤ LONGEST }
    ensures mixed { result ≡ mixed_code a b k d }
    ensures code { result ≤ 1023 }
{
    let (d, k) = (u64::from(d), u64::from(k));
    let sum = u64::from(a) * (2 * d - 2 * k - 1) + u64::from(b) * (2 * k + 1) + d;
    (sum / (2 * d)) as u16
}

/// Whether the three digits of a wipe are one of the eleven codes that have a shape.
pub fn known_wipe(code: u16) -> bool
    ensures known { result ≡ is_known_wipe code }
    ensures shapes { HaveShapes code }
{
    matches!(code, 1..=6 | 21 | 22 | 41 | 101 | 102)
}

/// Whether a wipe's frame `k` of `d` shows the incoming side at column `x` and line `y` of a picture of `w` by `h` pixels.
pub fn shows_incoming(code: u16, x: u32, y: u32, w: u32, h: u32, k: u32, d: u32) -> bool
    requires known { IsTrue (is_known_wipe code) }
    requires column { x < w }
    requires line { y < h }
    requires width { w ≤ LARGEST }
    requires height { h ≤ LARGEST }
    requires frame { k < d }
    requires duration { d ≤ LONGEST }
    ensures incoming { result ≡ is_incoming code x y w h k d }
{
    let (across, along) = (u64::from(2 * x + 1), u64::from(2 * y + 1));
    let (w, h) = (u64::from(w), u64::from(h));
    let (from_middle, from_centre) = (across.abs_diff(w), along.abs_diff(h));
    match code {
        1 => passed(k, d, across, w),
        2 => passed(k, d, along, h),
        3 => passed(k, d, across, w) && passed(k, d, along, h),
        4 => passed(k, d, 2 * w - across, w) && passed(k, d, along, h),
        5 => passed(k, d, 2 * w - across, w) && passed(k, d, 2 * h - along, h),
        6 => passed(k, d, across, w) && passed(k, d, 2 * h - along, h),
        21 => passed(k, d, from_middle * 2, w),
        22 => passed(k, d, from_centre * 2, h),
        41 => passed(k, d, across * h + along * w, 2 * w * h),
        101 => passed(k, d, from_middle * 2, w) && passed(k, d, from_centre * 2, h),
        102 => passed(k, d, from_middle * h + from_centre * w, w * h),
        _ => false,
    }
}

/// Whether the shape has passed what lies at a distance of its whole way.
fn passed(k: u32, d: u32, distance: u64, reach: u64) -> bool
    requires frame { k < d }
    requires duration { d ≤ LONGEST }
    requires distance { distance ≤ 2 ^ 27 }
    requires reach { reach ≤ 2 ^ 25 }
    ensures { result ≡ has_passed k d distance reach }
{
    distance * u64::from(d) < (2 * u64::from(k) + 1) * reach
}

/// What a dissolve comes to. It lies between its codes, goes to the new one, and back again has the same codes. Each code is the
/// nearest one. The negatives of two codes give the negative of their code, or one more.
pub fn mix_laws()
    ensures between { LiesBetween }
    ensures toward { GoesToNew }
    ensures back { IsSameBack }
    ensures nearest { IsNearest }
    ensures negative { KeepsNegatives }
{}

/// What a wipe comes to. A pixel that shows the incoming side keeps showing it. Each shape has a pixel that shows first and one
/// that shows last. Tables say when the first frame shows nothing, and when the last shows all. In a long wipe it shows all.
/// The shapes agree if columns and lines are exchanged, or left and right.
pub fn wipe_laws()
    ensures keeps { KeepsShowing }
    ensures way { BeginsAndEnds }
    ensures empty { BeginsEmpty }
    ensures full { EndsFull }
    ensures all { ReachesAll }
    ensures turned { Turns }
    ensures flipped { Flips }
{}
