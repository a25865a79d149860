//! Values of calls that no command shows: numbers of a cube, source offsets, and pixels of words.
ghost use Rattle.std.specs.Prelude.{◌≡◌};

use cf_base::{Fixed, FixedFault, Rate, Rgb, read_fixed};
use dpx_pack::{rgb_of, word_of};
use speed_map::source_offset;

/// Numbers of units of 10^-9.
#[test]
fn numbers_have_these_units(rt: HostRuntime) {
    let rows: [(&[u8], Result<Fixed, FixedFault>); 7] = [
        (b"-.5", Ok(Fixed(-500_000_000))),
        (b"+2.", Ok(Fixed(2_000_000_000))),
        (b"1e-05", Ok(Fixed(10_000))),
        (b"1e9", Ok(Fixed(1_000_000_000_000))),
        (b".", Err(FixedFault::NotNumber)),
        (b"1e", Err(FixedFault::NotNumber)),
        (b"1e100", Err(FixedFault::Exponent)),
    ];
    for (token, number) in rows {
        assert!(rt; read_fixed(token) == number);
    }
}

/// No reel of a project is so long.
#[test]
fn an_offset_reaches_the_end_of_a_day(rt: HostRuntime) {
    assert!(rt; source_offset(Rate::R25, 2500, 2_592_000) == 2_592_000);
}

/// A pixel comes back from its word, as the contracts of the two calls let any caller show.
fn returned(p: Rgb) -> Rgb
    ensures { result ≡ p }
{
    rgb_of(word_of(p))
}
