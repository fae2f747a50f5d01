// A source and a sink over memory, of whose calls some fail.

ghost use Rattle.std.specs.Prelude.{◌≡◌, ◌≤◌, ◌-◌, ◌↔◌, ◌⊎◌, [], Contains, IsErr, IfOk, OnErr, OnOk, length, min, take as front, vec_capacity};
ghost use Rattle.nv_base.specs.Streams.{Fails, PutsText, Takes};

use crate::memory::NoMemory;
use crate::streams::{Sink, SinkFailed, Source, SourceFailed};
use std::alloc::Global;

/// A source over bytes in memory.
#[derive(Debug, Drop)]
pub struct MemSource {
    bytes: Vec<u8>,
    // how many bytes were taken
    at: usize,
    // which calls fail, counted from 1
    fails: Vec<u32>,
    calls: u32,
    count: u64,
    ghost inside: { at ≤ length bytes.items },
}

impl MemSource {
    ghost use Rattle.nv_base.specs.Memory.{source_calls, source_faults, source_fails, source_left};

    /// A source that gives these bytes. The calls of `take` that `fails` lists, counted from 1,
    /// fail. `NoMemory` where the bytes or the list could not be copied.
    pub fn new(alloc: Global, bytes: &[u8], fails: &[u32]) -> Result<MemSource, NoMemory>
        ensures left { IfOk result (λ s. source_left s ≡ bytes.now) }
        ensures fails { IfOk result (λ s. source_fails s ≡ fails.now) }
        ensures calls { IfOk result (λ s. source_calls s ≡ 0) }
        ensures faults { IfOk result (λ s. source_faults s ≡ 0) }
    {
        let mut copy = Vec::new(alloc);
        copy.extend_from_slice(bytes)?;
        let mut failing = Vec::new(alloc);
        failing.extend_from_slice(fails)?;
        Ok(MemSource {
            bytes: copy,
            at: 0,
            fails: failing,
            calls: 0,
            count: 0,
        })
    }
}

impl Source for MemSource {
    ghost use Rattle.nv_base.specs.Memory.{next_call, source_calls, source_fails, source_left, source_seen};

    ghost seen = { λ s. source_seen s };

    /// Fails exactly at a call that is listed, and otherwise takes as many bytes as are left and
    /// the buffer has room for.
    fn take(&mut self, buf: &mut [u8]) -> Result<usize, SourceFailed>
        ensures took { IfOk result
            (λ n. Takes n buf.new (source_seen self.old) (source_seen self.new)) }
        ensures failed { OnErr result (Fails (source_seen self.old) (source_seen self.new)) }
        ensures errs { IsErr result ↔ Contains (source_fails self.old) (source_calls self.new) }
        ensures count { IfOk result (λ n. n
            ≡ min (length (source_left self.old)) (length buf.new)) }
        ensures calls { source_calls self.new ≡ next_call (source_calls self.old) }
        ensures fails { source_fails self.new ≡ source_fails self.old }
    {
        self.calls = self.calls.saturating_add(1);
        if self.fails.contains(&self.calls) {
            self.count = self.count.saturating_add(1);
            return Err(SourceFailed);
        }
        let rest = &self.bytes[self.at..];
        let n = rest.len().min(buf.len());
        buf[..n].copy_from_slice(&rest[..n]);
        self.at += n;
        Ok(n)
    }
}

/// A sink over memory, with room for so many bytes.
#[derive(Debug, Drop)]
pub struct MemSink {
    bytes: Vec<u8>,
    room: usize,
    // which calls fail, counted from 1
    fails: Vec<u32>,
    calls: u32,
    count: u64,
    ghost inside: { length bytes.items ≤ room },
    ghost reserved: { room ≤ vec_capacity bytes },
}

impl MemSink {
    ghost use Rattle.nv_base.specs.Memory.{room_of, sink_bytes, sink_calls, sink_fails, sink_faults};

    /// An empty sink with room for this many bytes. The calls of `put` that `fails` lists, counted
    /// from 1, fail, and so does each call on a full sink. `NoMemory` where the room or the list
    /// could not be made.
    pub fn new(alloc: Global, room: usize, fails: &[u32]) -> Result<MemSink, NoMemory>
        ensures room { IfOk result (λ s. room_of s ≡ room) }
        ensures bytes { IfOk result (λ s. sink_bytes s ≡ []) }
        ensures fails { IfOk result (λ s. sink_fails s ≡ fails.now) }
        ensures calls { IfOk result (λ s. sink_calls s ≡ 0) }
        ensures faults { IfOk result (λ s. sink_faults s ≡ 0) }
    {
        let bytes = Vec::with_capacity(alloc, room)?;
        let mut failing = Vec::new(alloc);
        failing.extend_from_slice(fails)?;
        Ok(MemSink {
            bytes,
            room,
            fails: failing,
            calls: 0,
            count: 0,
        })
    }

    /// All bytes that the sink took.
    pub fn bytes(&self) -> &[u8]
        ensures { result.now ≡ sink_bytes self.now }
    {
        self.bytes.as_slice()
    }
}

impl Sink for MemSink {
    ghost use Rattle.nv_base.specs.Memory.{next_call, room_of, sink_bytes, sink_calls, sink_fails, sink_seen};

    ghost seen = { λ s. sink_seen s };

    /// Fails exactly at a call that is listed or where the sink is full, and otherwise takes as
    /// many bytes as the piece has and the sink has room for.
    fn put(&mut self, piece: &[u8]) -> Result<usize, SinkFailed>
        ensures put { IfOk result
            (λ n. PutsText (front n piece.now) (sink_seen self.old) (sink_seen self.new)) }
        ensures failed { OnErr result (Fails (sink_seen self.old) (sink_seen self.new)) }
        ensures errs { IsErr result ↔ ((room_of self.old ≡ length (sink_bytes self.old))
            ⊎ Contains (sink_fails self.old) (sink_calls self.new)) }
        ensures count { IfOk result (λ n. n
            ≡ min (length piece.now) (room_of self.old - length (sink_bytes self.old))) }
        ensures calls { sink_calls self.new ≡ next_call (sink_calls self.old) }
        ensures fails { sink_fails self.new ≡ sink_fails self.old }
        ensures room { room_of self.new ≡ room_of self.old }
    {
        self.calls = self.calls.saturating_add(1);
        let free = self.room - self.bytes.len();
        if free == 0 || self.fails.contains(&self.calls) {
            self.count = self.count.saturating_add(1);
            return Err(SinkFailed);
        }
        let n = piece.len().min(free);
        // the room was reserved, so this takes no memory and does not fail
        let _ = self.bytes.extend_from_slice(&piece[..n]);
        Ok(n)
    }
}
