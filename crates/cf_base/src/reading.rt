//! Reading as many bytes as there are.
ghost use Rattle.std.specs.Prelude.{◌≡◌, ◌<◌, ◌≤◌, length, take, IfOk};
ghost use Rattle.std.specs.Io.KnownBytes.{Consumes, IsAtEnd};

use std::io::{self, ErrorKind, Read};

/// Reads until the buffer is full or no more bytes come, and tells how many came: they are the next ones of the file, in their
/// order. A read that is interrupted is tried again; any other error of the system is passed on.
pub fn fill<F: Read>(file: &mut F, into: &mut [u8]) -> io::Result<usize>
    ensures size { length into.new ≡ length into.old }
    ensures bound { IfOk result (λ n. n ≤ length into.new) }
    ensures bytes { IfOk result (λ n. Consumes (F.remaining file.old) (F.remaining file.new) (take n into.new)) }
    ensures end { IfOk result (λ n. n < length into.new → IsAtEnd (F.remaining file.new)) }
{
    let mut filled = 0;
    while filled < into.len() {
        let count = read_some(file, &mut into[filled..])?;
        if count == 0 {
            break;
        }
        filled += count;
    }
    Ok(filled)
}

/// One read, which is tried again where it is interrupted.
fn read_some<F: Read>(file: &mut F, into: &mut [u8]) -> io::Result<usize>
    ensures size { length into.new ≡ length into.old }
    ensures bound { IfOk result (λ n. n ≤ length into.new) }
    ensures bytes { IfOk result (λ n. Consumes (F.remaining file.old) (F.remaining file.new) (take n into.new)) }
    ensures end { IfOk result (λ n. n ≡ 0 → 0 < length into.new → IsAtEnd (F.remaining file.new)) }
{
    for _ in 0..u64::MAX {
        match file.read(into) {
            Err(error) if error.kind() == ErrorKind::Interrupted => {}
            answer => return answer,
        }
    }
    Err(io::Error::from(ErrorKind::Interrupted))
}
