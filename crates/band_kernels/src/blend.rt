//! Dissolves, word by word.
ghost use Rattle.std.specs.Prelude.{◌≡◌, ◌<◌, ◌≤◌, length, slice_index, EachIndex};
ghost use Rattle.band_kernels.specs.Words.{mixed_word};

use cf_base::{LONGEST, Rgb};
use dpx_pack::{rgb_of, word_of};
use trans_mix::{LONGEST_WEIGHTED, Weights, mix};

/// Makes each word that of frame `k`, from 0, of a dissolve of `d` frames, from the old side's word and the new side's.
pub fn blend_band(old: &[u32], new: &[u32], k: u32, d: u32, out: &mut [u32])
    requires old { length old.now ≡ length out.old }
    requires new { length new.now ≡ length out.old }
    requires frame { k < d }
    requires duration { d ≤ LONGEST }
    ensures { EachIndex out.new (λ i.
        slice_index out.new i ≡ mixed_word k d (slice_index old.now i) (slice_index new.now i)) }
{
    if d <= LONGEST_WEIGHTED {
        blend_by_weights(old, new, Weights::of(k, d), out);
    } else {
        blend_by_division(old, new, k, d, out);
    }
}

/// The same by the weights of a frame.
fn blend_by_weights(old: &[u32], new: &[u32], weights: Weights, out: &mut [u32])
    requires old { length old.now ≡ length out.old }
    requires new { length new.now ≡ length out.old }
    ensures { EachIndex out.new (λ i.
        slice_index out.new i
        ≡ mixed_word weights.k weights.d (slice_index old.now i) (slice_index new.now i)) }
{
    for i in 0..out.len() {
        out[i] = weighted_word(old[i], new[i], weights);
    }
}

/// The same by a division for each code.
fn blend_by_division(old: &[u32], new: &[u32], k: u32, d: u32, out: &mut [u32])
    requires old { length old.now ≡ length out.old }
    requires new { length new.now ≡ length out.old }
    requires frame { k < d }
    requires duration { d ≤ LONGEST }
    ensures { EachIndex out.new (λ i.
        slice_index out.new i ≡ mixed_word k d (slice_index old.now i) (slice_index new.now i)) }
{
    for i in 0..out.len() {
        out[i] = divided_word(old[i], new[i], k, d);
    }
}

/// One word by weights.
fn weighted_word(old: u32, new: u32, weights: Weights) -> u32
    ensures { result ≡ mixed_word weights.k weights.d old new }
{
    let (a, b) = (rgb_of(old), rgb_of(new));
    word_of(Rgb {
        r: weights.code(a.r, b.r),
        g: weights.code(a.g, b.g),
        b: weights.code(a.b, b.b),
    })
}

/// One word by divisions.
fn divided_word(old: u32, new: u32, k: u32, d: u32) -> u32
    requires frame { k < d }
    requires duration { d ≤ LONGEST }
    ensures { result ≡ mixed_word k d old new }
{
    let (a, b) = (rgb_of(old), rgb_of(new));
    word_of(Rgb {
        r: mix(a.r, b.r, k, d),
        g: mix(a.g, b.g, k, d),
        b: mix(a.b, b.b, k, d),
    })
}
