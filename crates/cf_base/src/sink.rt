//! Where the output of a command goes.
ghost use Rattle.std.specs.Prelude.{◌≡◌, true, [], ◌++◌, take, Some, IfOk};
ghost use Rattle.cf_base.specs.Count.{CountsOneFault, IsKept, kept};
ghost use Rattle.std.specs.Io.{WritesAtMost};
ghost use Rattle.std.specs.Io.KnownBytes.{Appends, WriteAppends};
ghost use Rattle.cf_base.specs.MemorySink.{plan_of, written_in, faults_in, next_put, fails_next, after_put, IsPut};
ghost use Rattle.cf_base.specs.Sink.{AppendsPrefix, SinkState};
ghost use Rattle.cf_base.specs.declared.sink.Put.TheVariants.{All, Failed};

use crate::{Fail, Never};
use std::alloc::Global;
use std::io::{self, ErrorKind, Write};

/// What a put did.
#[derive(Clone, Copy, Debug, PartialEq, Eq)]
pub enum Put {
    /// The whole piece was appended.
    All,
    /// The sink failed: a prefix of the piece was appended.
    Failed,
}

/// Takes output, piece by piece.
pub trait Sink {
    /// The bytes put so far, where the sink tells them: a sink that tells them goes on to tell. And how often it has failed.
    ghost state: { Self → SinkState };

    /// Appends the piece, or a prefix of it where the sink fails. The count rises by one in a call that fails, and in no other.
    fn put(&mut self, piece: &[u8]) -> Put
        ensures all { result ≡ Put.All → Appends (state self.old).written (state self.new).written piece.now }
        ensures prefix { AppendsPrefix (state self.old).written (state self.new).written piece.now }
        ensures fault { CountsOneFault (result ≡ Put.Failed) (state self.old).faults (state self.new).faults };

    /// The count is never past 2^64 - 1.
    ghost bounded: { (sink : Self) → IsKept (state sink).faults };
}

/// A sink in memory, which tells its bytes. A growth that finds no memory is a fault, and so is each put that fails by its
/// number.
#[derive(Drop)]
pub struct MemorySink {
    bytes: Vec<u8>,
    fails: Vec<u64>,
    keep: u64,
    puts: u64,
    faults: u64,
}

impl MemorySink {
    /// An empty sink, of which no put fails by its number.
    pub fn new(alloc: Global) -> Self
        ensures written { (⟦<MemorySink as Sink>⟧.state result).written ≡ Some [] }
        ensures faults { (⟦<MemorySink as Sink>⟧.state result).faults ≡ 0 }
        ensures plan { plan_of result ≡ record { puts = 0; fails = []; keep = 0 } }
    {
        empty_sink(alloc, Vec::new(alloc), 0)
    }

    /// An empty sink. A put whose number, from 1, is in the list appends the first `keep` bytes of its piece, or the whole
    /// piece if it is shorter, and fails.
    pub fn failing(alloc: Global, puts: Vec<u64>, keep: u64) -> Result<MemorySink, Fail<Never>>
        ensures written { IfOk result (λ sink. (⟦<MemorySink as Sink>⟧.state sink).written ≡ Some []) }
        ensures faults { IfOk result (λ sink. (⟦<MemorySink as Sink>⟧.state sink).faults ≡ 0) }
        ensures plan { IfOk result (λ sink. plan_of sink ≡ record { puts = 0; fails = puts.items; keep = keep }) }
    {
        Ok(empty_sink(alloc, puts, keep))
    }

    /// All that was put.
    pub fn bytes(&self) -> &[u8]
        ensures { Some result.now ≡ (⟦<MemorySink as Sink>⟧.state self.now).written }
    {
        &self.bytes
    }

    /// Whether this put is one that fails. It counts the put, and the fault.
    fn fails_now(&mut self) -> bool
        ensures planned { result ≡ fails_next (plan_of self.old) }
        ensures changed { self.new ≡ record self.old { puts = next_put (plan_of self.old); faults = self.new.faults } }
        ensures fault { CountsOneFault (result ≡ true) self.old.faults self.new.faults }
    {
        self.puts = self.puts.saturating_add(1);
        let fails = self.fails.contains(&self.puts);
        if fails {
            self.faults = self.faults.saturating_add(1);
        }
        fails
    }
}

fn empty_sink(alloc: Global, fails: Vec<u64>, keep: u64) -> MemorySink
    ensures written { written_in result ≡ [] }
    ensures faults { (⟦<MemorySink as Sink>⟧.state result).faults ≡ 0 }
    ensures plan { plan_of result ≡ record { puts = 0; fails = fails.items; keep = keep } }
{
    MemorySink {
        bytes: Vec::new(alloc),
        fails,
        keep,
        puts: 0,
        faults: 0,
    }
}

/// The first bytes of a piece, that many, or all where it has fewer.
fn front_of(piece: &[u8], keep: u64) -> &[u8]
    ensures { result.now ≡ take keep piece.now }
{
    let len = piece.len() as u64;
    &piece[..keep.min(len) as usize]
}

impl Sink for MemorySink {
    ghost use Rattle.std.proofs.Common.{arith};

    ghost state = { λ sink. record { written = Some (written_in sink); faults = faults_in sink } };

    ghost bounded = { λ sink. Prim.omega arith };

    fn put(&mut self, piece: &[u8]) -> Put
        ensures answer { IsPut (plan_of self.old) (written_in self.old) (written_in self.new) piece.now result }
        ensures next { plan_of self.new ≡ after_put (plan_of self.old) }
        ensures all { result ≡ Put.All → written_in self.new ≡ written_in self.old ++ piece.now }
        ensures prefix { AppendsPrefix (Some (written_in self.old)) (Some (written_in self.new)) piece.now }
        ensures fault { CountsOneFault (result ≡ Put.Failed) (faults_in self.old) (faults_in self.new) }
    {
        if self.fails_now() {
            let _ = self.bytes.extend_from_slice(front_of(piece, self.keep));
            return Put::Failed;
        }
        match self.bytes.extend_from_slice(piece) {
            Ok(()) => Put::All,
            Err(_) => {
                self.faults = self.faults.saturating_add(1);
                Put::Failed
            }
        }
    }
}

/// A sink over a writer. It tells what its writer tells, and counts a write that takes nothing as a fault. A write that is
/// interrupted is tried again.
#[derive(Drop)]
pub struct StreamSink<W: Write> {
    writer: W,
    faults: u64,
    /// Why the first write failed that did.
    trouble: Option<io::Error>,
}

impl<W: Write> StreamSink<W> {
    /// A sink over this writer.
    pub fn new(writer: W) -> Self
        ensures written { (⟦<StreamSink<W> as Sink>⟧.state result).written ≡ W.contents writer }
        ensures faults { (⟦<StreamSink<W> as Sink>⟧.state result).faults ≡ 0 }
    {
        StreamSink {
            writer,
            faults: 0,
            trouble: None,
        }
    }

    /// The writer, with what was put into it.
    pub fn into_writer(self) -> W
        ensures { W.contents result ≡ (⟦<StreamSink<W> as Sink>⟧.state self).written }
    {
        self.writer
    }

    /// Why the first write failed that did; none, if all were done.
    pub fn trouble(&self) -> Option<io::Error> {
        self.trouble
    }
}

/// One write, which is tried again if it is interrupted.
fn write_some<W: Write>(writer: &mut W, piece: &[u8]) -> io::Result<usize>
    ensures bound { WritesAtMost result piece.now }
    ensures bytes { WriteAppends (W.contents writer.old) (W.contents writer.new) result piece.now }
{
    for _ in 0..u64::MAX {
        match writer.write(piece) {
            Err(error) if error.kind() == ErrorKind::Interrupted => {}
            answer => return answer,
        }
    }
    Err(io::Error::from(ErrorKind::Interrupted))
}

/// Why a write didn't go on: it failed, or took nothing.
fn why_ended(outcome: io::Result<usize>) -> io::Error {
    match outcome {
        Ok(_) => io::Error::from(ErrorKind::WriteZero),
        Err(error) => error,
    }
}

impl<W: Write> Sink for StreamSink<W> {
    ghost use Rattle.std.proofs.Common.{arith};

    ghost state = { λ sink. record { written = W.contents sink.writer; faults = kept sink.faults } };

    ghost bounded = { λ sink. Prim.omega arith };

    fn put(&mut self, piece: &[u8]) -> Put {
        let mut taken = 0;
        while taken < piece.len() {
            match write_some(&mut self.writer, &piece[taken..]) {
                Ok(more) if more > 0 => taken += more,
                outcome => {
                    self.faults = self.faults.saturating_add(1);
                    self.trouble = self.trouble.or(Some(why_ended(outcome)));
                    return Put::Failed;
                }
            }
        }
        Put::All
    }
}
