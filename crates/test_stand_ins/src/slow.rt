//! A writer that takes one byte at a time.
use std::io::{self, Write};

/// Takes one byte at a call until its room is used up, then nothing.
#[derive(Drop)]
pub struct Slow {
    pub bytes: Vec<u8>,
    pub room: usize,
}

impl Write for Slow {
    fn write(&mut self, buf: &[u8]) -> io::Result<usize> {
        let count = buf.len().min(self.room).min(1);
        self.bytes.extend_from_slice(&buf[..count])?;
        self.room -= count;
        Ok(count)
    }

    fn flush(&mut self) -> io::Result<()> {
        Ok(())
    }
}
