//! Speeds: how far a source has come after a number of record frames. The rule is this project's own.
#![tactic(auto)]

ghost use Rattle.std.specs.Prelude.{◌≡◌, ◌≤◌, nat_abs};
ghost use Rattle.speed_map.specs.Speeds.{source_offset_of, RoundsDown, OneFloor};

use cf_base::{LONGEST, Rate};

/// How many source frames on from its source in an event is after `j` record frames: `j * speed / (100 * rate)`, rounded
/// toward minus infinity. The speed is in hundredths of a frame per second, negative where the source runs backwards; the
/// rate is its counting base. Takes no memory.
pub fn source_offset(rate: Rate, speed: i32, j: u32) -> i64
    requires speed { nat_abs speed ≤ 999999 }
    requires frames { j ≤ LONGEST }
    ensures { result ≡ source_offset_of rate speed j }
{
    let per_frame = match rate {
        Rate::R24 => 2400,
        Rate::R25 => 2500,
        Rate::R30 => 3000,
    };
    (i64::from(j) * i64::from(speed)).div_euclid(per_frame)
}

/// The rounding goes toward minus infinity, and one number alone does.
pub fn floor_laws()
    ensures floor { RoundsDown }
    ensures one { OneFloor }
{}
