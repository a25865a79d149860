//! The front of a file as headers are read from it.
ghost use Rattle.std.specs.Prelude.{◌≡◌};
ghost use Rattle.scan_source.specs.Answers.{first_bytes};

use cf_base::HEADER;

/// The first 2048 bytes, with zeros behind them where there are fewer.
pub fn head_of(bytes: &[u8]) -> [u8; HEADER]
    ensures { result ≡ first_bytes HEADER bytes.now }
{
    let mut head = [0; HEADER];
    let len = bytes.len().min(head.len());
    head[..len].copy_from_slice(&bytes[..len]);
    head
}
