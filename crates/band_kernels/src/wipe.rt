//! Wipes, line by line: the columns that show the incoming side lie side by side.
ghost use Rattle.std.specs.Prelude.{◌≡◌, ℕ, ◌+◌, ◌*◌, ◌/◌, ◌%◌, ◌<◌, ◌≤◌, length, slice_index, IsTrue};
ghost use Rattle.cf_base.specs.Events.{is_known_wipe};
ghost use Rattle.cf_base.specs.declared.limits.TheConstants.{LARGEST, LONGEST};
ghost use Rattle.trans_mix.specs.Columns.{AreColumns};
ghost use Rattle.trans_mix.specs.Wipe.{is_incoming};
ghost use Rattle.band_kernels.specs.Words.{HasChosen};

use cf_base::{LARGEST, LONGEST};
use trans_mix::{Columns, incoming_columns};

/// Frame `k`, from 0, of a wipe of `d` frames, over a picture of so many pixels.
#[derive(Clone, Copy)]
pub struct WipeFrame {
    /// The three digits of the wipe, one of the eleven codes that have a shape.
    pub code: u16,
    /// Pixels in a line.
    pub width: u32,
    /// Lines.
    pub height: u32,
    /// The frame, from 0.
    pub k: u32,
    /// How many frames the wipe has.
    pub d: u32,
    ghost known: { IsTrue (is_known_wipe code) },
    ghost some: { 0 < width },
    ghost wide: { width ≤ LARGEST },
    ghost high: { height ≤ LARGEST },
    ghost frame: { k < d },
    ghost day: { d ≤ LONGEST },
}

/// Makes each word that of its pixel in a wipe's frame, from the old side's word and the new side's: the lines of the picture
/// from line `y` on, one behind the other.
pub fn wipe_band(wipe: WipeFrame, y: u32, old: &[u32], new: &[u32], out: &mut [u32])
    requires old { length old.now ≡ length out.old }
    requires new { length new.now ≡ length out.old }
    requires whole { length out.old % wipe.width ≡ 0 }
    requires lines { y + length out.old / wipe.width ≤ wipe.height }
    ensures { HasChosen (λ x n. is_incoming wipe.code x (y + n) wipe.width wipe.height wipe.k wipe.d) wipe.width
        old.now new.now out.new }
{
    let width = wipe.width as usize;
    for n in 0..out.len() / width {
        let columns = columns_of(wipe, y + n as u32);
        let start = n * width;
        let end = start + width;
        choose(
            &old[start..end],
            &new[start..end],
            columns,
            &mut out[start..end],
        );
    }
}

/// The columns of line `y` that show the incoming side.
fn columns_of(wipe: WipeFrame, y: u32) -> Columns
    requires line { y < wipe.height }
    ensures incoming { AreColumns (λ x. is_incoming wipe.code x y wipe.width wipe.height wipe.k wipe.d) wipe.width
        result.from result.to }
{
    incoming_columns(wipe.code, y, wipe.width, wipe.height, wipe.k, wipe.d)
}

/// The old words, and over them the new ones at some columns.
fn choose(old: &[u32], new: &[u32], columns: Columns, out: &mut [u32])
    requires old { length old.now ≡ length out.old }
    requires new { length new.now ≡ length out.old }
    requires order { columns.from ≤ columns.to }
    requires within { columns.to ≤ length out.old }
    ensures inside { (x : ℕ) → columns.from ≤ x → x < columns.to
        → slice_index out.new x ≡ slice_index new.now x }
    ensures before { (x : ℕ) → x < columns.from → slice_index out.new x ≡ slice_index old.now x }
    ensures behind { (x : ℕ) → columns.to ≤ x → slice_index out.new x ≡ slice_index old.now x }
{
    out.copy_from_slice(old);
    for x in columns.from as usize..columns.to as usize {
        out[x] = new[x];
    }
}
