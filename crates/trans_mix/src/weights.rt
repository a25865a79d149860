//! Dissolves of many pixels: the weights of the two sides are made once a frame, so that no code needs a division.
ghost use Rattle.std.specs.Prelude.{◌≡◌, ◌+◌, ◌*◌, ◌/◌, ◌<◌, ◌≤◌};
ghost use Rattle.trans_mix.specs.Mix.{mixed_code};
ghost use Rattle.trans_mix.specs.declared.weights.TheConstants.{LONGEST_WEIGHTED, WHOLE};

/// The longest dissolve whose codes these weights give exactly, in frames.
pub const LONGEST_WEIGHTED: u32 = 2048;

/// All weight: 2^22, the most whose products with a code fit 32 bits.
const WHOLE: u32 = 4_194_304;

/// What rounds a weighted sum: half of all weight, and the 512 by which rounded weights can fall short of it.
const ROUND: u32 = 2_097_664;

/// The weights of the two sides at frame `k`, from 0, of a dissolve of `d` frames, of 2^22 together.
#[derive(Clone, Copy)]
pub struct Weights {
    /// The frame, from 0.
    pub k: u32,
    /// How many frames the dissolve has.
    pub d: u32,
    /// The old side's weight.
    pub by_old: u32,
    /// The new side's weight: (2k + 1) / 2d of the whole, to the nearest.
    pub by_new: u32,
    ghost frame: { k < d },
    ghost short: { d ≤ LONGEST_WEIGHTED },
    ghost nearest: { by_new ≡ ((2 * k + 1) * WHOLE + d) / (2 * d) },
    ghost whole: { by_old + by_new ≡ WHOLE },
}

impl Weights {
    /// Those of frame `k` of `d`.
    pub fn of(k: u32, d: u32) -> Self
        requires frame { k < d }
        requires short { d ≤ LONGEST_WEIGHTED }
        ensures frame { result.k ≡ k }
        ensures duration { result.d ≡ d }
    {
        let by_new = weight_of_new(k, d);
        Weights {
            k,
            d,
            by_old: WHOLE - by_new,
            by_new,
        }
    }

    /// The code between the old side's code `a` and the new side's `b`: that of `mix`.
    pub fn code(self, a: u16, b: u16) -> u16
        requires old { a ≤ 1023 }
        requires new { b ≤ 1023 }
        ensures mixed { result ≡ mixed_code a b self.k self.d }
        ensures code { result ≤ 1023 }
    {
        let sum = u32::from(a) * self.by_old + u32::from(b) * self.by_new + ROUND;
        (sum >> 22) as u16
    }
}

/// The new side's weight, to the nearest.
fn weight_of_new(k: u32, d: u32) -> u32
    requires frame { k < d }
    requires short { d ≤ LONGEST_WEIGHTED }
    ensures nearest { result ≡ ((2 * k + 1) * WHOLE + d) / (2 * d) }
    ensures most { result ≤ WHOLE }
{
    let (k, d) = (u64::from(k), u64::from(d));
    (((2 * k + 1) * u64::from(WHOLE) + d) / (2 * d)) as u32
}
