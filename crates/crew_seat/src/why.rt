//! Why a worker stops where a frame could not be made.
ghost use Rattle.std.specs.Prelude.{◌≡◌, ◌↔◌, true, Err};
ghost use Rattle.frame_fetch.specs.Ends.{IsUnrendered};
ghost use Rattle.station.specs.StationSteps.{MayStop, why_by};

use conform_job::Work;
use frame_fetch::RunEnd;
use frame_render::Rendered;
use render_board::Why;

/// Whether a load failed.
pub fn is_source_fault<N: Work>(made: &Result<Rendered<N>, RunEnd>) -> bool
    ensures { result ≡ true ↔ made.now ≡ Err RunEnd.SourceFault }
{
    matches!(*made, Err(RunEnd::SourceFault))
}

/// Why a worker stops where a frame could not be made.
pub fn why_of<N: Work>(end: RunEnd) -> Why
    requires stop { IsUnrendered N.job N.files end }
    ensures why { result ≡ why_by end }
    ensures may { MayStop N.job N.files result }
{
    match end {
        RunEnd::Changed { key, was, now } => Why::Changed { key, was, now },
        RunEnd::SourceFault => Why::Source,
        RunEnd::NoMemory => Why::Memory,
        RunEnd::Done | RunEnd::OtherJob { .. } | RunEnd::BadLedger { .. } | RunEnd::DiskFault =>
            unreachable!(),
    }
}
