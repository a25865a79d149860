//! Looks, word by word.
ghost use Rattle.std.specs.Prelude.{◌≡◌, length, slice_index, EachIndex};
ghost use Rattle.tetra_look.specs.Words.{look_word};

use tetra_look::Look;

/// Makes each word that of its pixel under a look. The two lowest bits become 0.
pub fn look_band(look: &Look, words: &mut [u32])
    ensures { EachIndex words.new (λ i.
        slice_index words.new i ≡ look_word look.now (slice_index words.old i)) }
{
    look.shade(words);
}

/// The same from words that stay: makes each word of `out` that of its pixel in `src`, under the look.
pub fn seen_band(look: &Look, src: &[u32], out: &mut [u32])
    requires { length src.now ≡ length out.old }
    ensures { EachIndex out.new (λ i.
        slice_index out.new i ≡ look_word look.now (slice_index src.now i)) }
{
    look.shade_into(src, out);
}
