// Whole inputs and whole outputs.

ghost use Rattle.std.specs.Prelude.{◌≤◌, length, IfErr, IfOk, OnErr, OnOk};
ghost use Rattle.nv_base.specs.Streams.{PutsFront, PutsText, ReadsAll};
ghost use Rattle.nv_base.specs.WholeInputs.{Stops};

use crate::streams::{Sink, Source};
use std::alloc::Global;

/// Why not all bytes were read.
#[derive(Clone, Copy, PartialEq, Eq, Debug)]
pub enum ReadRefusal {
    /// The source failed.
    ReadFault,
    /// There are more bytes than were asked for.
    TooLong,
    /// The bytes found no memory.
    NoMemory,
}

/// The sink failed before it took all bytes.
#[derive(Clone, Copy, PartialEq, Eq, Debug)]
pub struct WriteFault;

// how many bytes a turn of `read_all` asks for at most
const CHUNK: usize = 4096;

/// Reads all bytes to the end of the input. `ReadFault` only where the source failed; `TooLong`
/// exactly where `max + 1` bytes were taken; `NoMemory` where the bytes found none. Each turn takes
/// a byte or ends.
pub fn read_all<S: Source>(alloc: Global, src: &mut S, max: usize) -> Result<Vec<u8>, ReadRefusal>
    ensures all { IfOk result (λ v. ReadsAll v.items (S.seen src.old) (S.seen src.new)) }
    ensures within { IfOk result (λ v. length v.items ≤ max) }
    ensures stops { IfErr result (Stops max (S.seen src.old) (S.seen src.new)) }
{
    let mut bytes = Vec::new(alloc);
    let mut buf = [0u8; CHUNK];
    loop {
        let room = (max - bytes.len()).min(CHUNK - 1) + 1;
        match src.take(&mut buf[..room]) {
            Err(_) => return Err(ReadRefusal::ReadFault),
            Ok(0) => return Ok(bytes),
            Ok(n) => {
                if n > max - bytes.len() {
                    return Err(ReadRefusal::TooLong);
                }
                if bytes.extend_from_slice(&buf[..n]).is_err() {
                    return Err(ReadRefusal::NoMemory);
                }
            }
        }
    }
}

/// Puts all bytes. `WriteFault` only where the sink failed; a front of the bytes was put then, and
/// not all of them.
/// Takes no memory.
pub fn put_all<K: Sink>(out: &mut K, bytes: &[u8]) -> Result<(), WriteFault>
    ensures all { OnOk result (PutsText bytes.now (K.seen out.old) (K.seen out.new)) }
    ensures front { OnErr result (PutsFront bytes.now (K.seen out.old) (K.seen out.new)) }
{
    let mut at = 0;
    while at < bytes.len() {
        match out.put(&bytes[at..]) {
            Err(_) => return Err(WriteFault),
            Ok(n) => at += n,
        }
    }
    Ok(())
}
