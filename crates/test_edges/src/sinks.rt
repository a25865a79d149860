//! Sinks in memory, and over a writer that takes one byte at a time.
use cf_base::{MemorySink, Put, Sink, StreamSink};
use std::alloc::Global;
use test_stand_ins::Slow;

/// So many bytes, of which byte k is k mod 251.
pub fn counted(alloc: Global, len: u32) -> Option<Vec<u8>> {
    let mut bytes = Vec::new(alloc);
    for k in 0..len {
        bytes.push((k % 251) as u8).ok()?;
    }
    Some(bytes)
}

/// Whether a sink over a writer of one byte at a time takes a long piece whole.
fn takes_all(alloc: Global, piece: &[u8]) -> bool {
    let mut sink = StreamSink::new(Slow {
        bytes: Vec::new(alloc),
        room: 200_000,
    });
    sink.put(piece) == Put::All && sink.into_writer().bytes.as_slice() == piece
}

#[test]
fn a_slow_writer_takes_a_long_piece(rt: HostRuntime) {
    let alloc = rt.alloc();
    let piece = counted(alloc, 100_000).expect(&rt, "memory");
    assert!(rt; takes_all(alloc, &piece));
}

#[test]
fn a_sink_takes_a_piece_byte_by_byte_and_keeps_the_prefix_of_one_that_fails(rt: HostRuntime) {
    let alloc = rt.alloc();
    let mut sink = StreamSink::new(Slow {
        bytes: Vec::new(alloc),
        room: 8,
    });
    assert!(rt; sink.put(b"frames") == Put::All);
    assert!(rt; sink.put(b" 24\n") == Put::Failed);
    assert!(rt; sink.put(b"kept") == Put::Failed);
    assert!(rt; sink.into_writer().bytes.as_slice() == b"frames 2".as_slice());
    let mut memory = MemorySink::new(alloc);
    assert!(rt; memory.put(b"frames") == Put::All);
    assert!(rt; memory.put(b"") == Put::All);
    assert!(rt; memory.put(b" 24\n") == Put::All);
    assert!(rt; memory.bytes() == b"frames 24\n".as_slice());
}
