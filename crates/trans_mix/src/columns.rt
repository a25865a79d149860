//! Wipes of whole lines: the columns that show the incoming side lie side by side, so no pixel needs a test.
ghost use Rattle.std.specs.Prelude.{◌≡◌, ℕ, ◌+◌, ◌*◌, ◌<◌, ◌≤◌, ◌^◌, true, false, IsTrue};
ghost use Rattle.cf_base.specs.Events.{is_known_wipe};
ghost use Rattle.trans_mix.specs.Wipe.{is_incoming};
ghost use Rattle.trans_mix.specs.Columns.{AreColumns};
ghost use Rattle.trans_mix.specs.inside.Columns.{from_left, from_right, from_middle};

use crate::passed;
use cf_base::{LARGEST, LONGEST};

/// Columns of a line, side by side: those from `from` up to `to`, the last excluded.
#[derive(Clone, Copy)]
pub struct Columns {
    /// The first.
    pub from: u32,
    /// The one behind the last.
    pub to: u32,
}

/// No columns.
const NONE: Columns = Columns { from: 0, to: 0 };

/// The columns at which a wipe's frame `k` of `d` shows the incoming side on line `y` of a picture of `w` by `h` pixels:
/// those of `shows_incoming`.
pub fn incoming_columns(code: u16, y: u32, w: u32, h: u32, k: u32, d: u32) -> Columns
    requires known { IsTrue (is_known_wipe code) }
    requires line { y < h }
    requires width { w ≤ LARGEST }
    requires height { h ≤ LARGEST }
    requires frame { k < d }
    requires duration { d ≤ LONGEST }
    ensures incoming { AreColumns (λ x. is_incoming code x y w h k d) w result.from result.to }
{
    let (across, along) = (u64::from(w), u64::from(h));
    let (share, whole) = (2 * u64::from(k) + 1, u64::from(d));
    let line = 2 * u64::from(y) + 1;
    let from_centre = line.abs_diff(along);
    let top = passed(k, d, line, along);
    let bottom = passed(k, d, 2 * along - line, along);
    let centre = passed(k, d, from_centre * 2, along);
    match code {
        1 => columns_left(whole, share * across, w),
        2 => whole_line(top, w),
        3 => on_line(top, columns_left(whole, share * across, w)),
        4 => on_line(top, columns_right(whole, share * across, w)),
        5 => on_line(bottom, columns_right(whole, share * across, w)),
        6 => on_line(bottom, columns_left(whole, share * across, w)),
        21 => columns_middle(2 * whole, share * across, w),
        22 => whole_line(centre, w),
        41 => {
            let reach = share * (2 * across * along);
            let left = reach.saturating_sub(line * across * whole);
            columns_left(along * whole, left, w)
        }
        101 => on_line(centre, columns_middle(2 * whole, share * across, w)),
        102 => {
            let reach = share * (across * along);
            let left = reach.saturating_sub(from_centre * across * whole);
            columns_middle(along * whole, left, w)
        }
        _ => NONE,
    }
}

/// All columns of a line that shows the incoming side, else none.
fn whole_line(shows: bool, w: u32) -> Columns
    ensures { AreColumns (λ x. shows) w result.from result.to }
{
    Columns {
        from: 0,
        to: if shows { w } else { 0 },
    }
}

/// The same columns on a line that shows the incoming side, else none.
fn on_line(shows: bool, columns: Columns) -> Columns
    ensures same { shows ≡ true → result ≡ columns }
    ensures none { shows ≡ false → result ≡ record { from = 0; to = 0 } }
{
    if shows { columns } else { NONE }
}

/// The columns whose centre, from the left, is below `reach` when it is taken `by` times.
fn columns_left(by: u64, reach: u64, w: u32) -> Columns
    requires some { 0 < by }
    ensures { AreColumns (from_left by reach) w result.from result.to }
{
    let count = u64::min(odd_multiples_below(by, reach), u64::from(w));
    Columns {
        from: 0,
        to: count as u32,
    }
}

/// The columns whose centre, from the right, is below `reach` when it is taken `by` times.
fn columns_right(by: u64, reach: u64, w: u32) -> Columns
    requires some { 0 < by }
    requires width { w ≤ LARGEST }
    ensures { AreColumns (from_right by reach w) w result.from result.to }
{
    let count = u64::min(odd_multiples_below(by, reach), u64::from(w)) as u32;
    Columns {
        from: w - count,
        to: w,
    }
}

/// The columns whose centre, from the middle, is below `reach` when it is taken `by` times.
fn columns_middle(by: u64, reach: u64, w: u32) -> Columns
    requires some { 0 < by }
    requires width { w ≤ LARGEST }
    requires reach { reach < 2 ^ 60 }
    ensures { AreColumns (from_middle by reach w) w result.from result.to }
{
    if reach == 0 {
        return NONE;
    }
    let most = (reach - 1) / by;
    let across = u64::from(w);
    Columns {
        from: (across.saturating_sub(most) / 2) as u32,
        to: u64::min((across + most + 1) / 2, across) as u32,
    }
}

/// How many odd multiples of `by` are below `reach`: those of the first odd numbers, and no others.
fn odd_multiples_below(by: u64, reach: u64) -> u64
    requires { 0 < by }
    ensures { (x : ℕ) → ((2 * x + 1) * by < reach → x < result) × (x < result → (2 * x + 1) * by < reach) }
{
    if reach == 0 {
        return 0;
    }
    ((reach - 1) / by + 1) / 2
}
