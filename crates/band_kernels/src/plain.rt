//! One word everywhere, and words as they are.
ghost use Rattle.std.specs.Prelude.{◌≡◌, length, replicate};

/// Sets all words.
pub fn fill_band(word: u32, out: &mut [u32])
    ensures { out.new ≡ replicate (length out.old) word }
{
    out.fill(word);
}

/// Copies all words.
pub fn copy_band(src: &[u32], out: &mut [u32])
    requires { length src.now ≡ length out.old }
    ensures { out.new ≡ src.now }
{
    out.copy_from_slice(src);
}
