//! Counting bases and modes of timecode (SMPTE ST 12-1).
ghost use Rattle.std.specs.Prelude.{◌≡◌, IsTrue};
ghost use Rattle.cf_base.specs.Timing.{CanCount, can_count, frames_in_day};

/// A counting base: 24, 25 or 30 frames of timecode in a second. 24 and 30 serve 24/1.001 and 30/1.001 too.
#[derive(Clone, Copy, Debug, PartialEq, Eq)]
pub enum Rate {
    R24,
    R25,
    R30,
}

/// How labels are counted (SMPTE ST 12-1): in drop-frame mode two labels of each minute are passed over, but for each
/// tenth minute. Drop-frame counting is defined at base 30 alone.
#[derive(Clone, Copy, Debug, PartialEq, Eq)]
pub enum Mode {
    NonDrop,
    Drop,
}

/// The number of a frame in its day.
#[derive(Clone, Copy, Debug, PartialEq, Eq)]
pub struct FrameNo(pub u32);

/// Whether labels are counted so at the base: drop-frame counting is defined at 30 alone.
pub fn can_count(rate: Rate, mode: Mode) -> bool
    ensures test { result ≡ can_count rate mode }
    ensures fact { IsTrue result → CanCount rate mode }
{
    match (rate, mode) {
        (_, Mode::NonDrop) => true,
        (Rate::R30, Mode::Drop) => true,
        (_, Mode::Drop) => false,
    }
}

/// How many frames a day has: 2,073,600, 2,160,000 or 2,592,000, and 2,589,408 in drop-frame mode.
pub fn day(rate: Rate, mode: Mode) -> u32
    requires { CanCount rate mode }
    ensures { result ≡ frames_in_day rate mode }
{
    match (rate, mode) {
        (Rate::R24, _) => 2_073_600,
        (Rate::R25, _) => 2_160_000,
        (Rate::R30, Mode::NonDrop) => 2_592_000,
        (Rate::R30, Mode::Drop) => 2_589_408,
    }
}
