//! What a call over memory puts, and the sets that the tables run.

use fram_dev::{Fram, MemFram};
use nv_base::{MemSink, MemSource, NoMemory, Source};
use sim_run::{Status, simulate};
use std::rc::RcStr;
use std::test::Fail;

/// How many words the devices of most tables have.
pub(crate) const WORDS: usize = 400;

/// How a call ended, and what it put.
#[derive(Drop)]
pub(crate) struct Ended {
    pub(crate) status: Status,
    pub(crate) put: Vec<u8>,
}

impl Ended {
    /// Whether it ended so and put that.
    pub(crate) fn is(&self, status: Status, put: &[u8]) -> bool {
        self.status == status && self.put.as_slice() == put
    }
}

/// A set of format 1 or 2, whose one program adds its argument to its one object, and these lines behind it. Of format 1
/// it needs 50 words: 22 before the index, 13 for each copy of it, and two slots.
pub(crate) fn adding(rt: &HostRuntime, format: u32, lines: &str) -> Result<String, NoMemory> {
    let text = format!(in rt.alloc();
        "nvk {format}\ncores 1\nmemory 1024\nrecords 1\nobject x 1 2 5\ncode add 100\n00050413 00000513 20000593 00100893\n00000073 20002283 008282b3 20502023\n00200893 00000073 00400893 00000073\nend\n{lines}"
    )?;
    Ok(text)
}

/// A call of one word on any source and sink.
pub(crate) fn call_on<S: Source, F: Fram>(
    rt: &HostRuntime,
    word: &str,
    src: &mut S,
    out: &mut MemSink,
    dev: &mut F,
) -> Result<Ended, Fail> {
    let mut words = Vec::new(rt.alloc());
    words.push(RcStr::from_str(rt.alloc(), word)?)?;
    let status = simulate(rt.alloc(), words.as_slice(), src, out, dev);
    let put = Vec::from_slice(rt.alloc(), out.bytes())?;
    Ok(Ended { status, put })
}

/// A call of one word, where neither source nor sink fails.
pub(crate) fn call<F: Fram>(
    rt: &HostRuntime,
    word: &str,
    input: &[u8],
    dev: &mut F,
) -> Result<Ended, Fail> {
    let mut src = MemSource::new(rt.alloc(), input, &[])?;
    let mut out = MemSink::new(rt.alloc(), 8192, &[])?;
    call_on(rt, word, &mut src, &mut out, dev)
}

/// A device with these words, the first 65,536 of them.
pub(crate) fn device(rt: &HostRuntime, words: &[u32]) -> Result<MemFram, NoMemory> {
    let most = words.len().min(65_536);
    MemFram::new(rt.alloc(), &words[..most], 4096)
}

/// The same, which passes so many writes and loses the next one, made or not.
pub(crate) fn fused(
    rt: &HostRuntime,
    words: &[u32],
    passes: u32,
    made: bool,
) -> Result<MemFram, NoMemory> {
    let most = words.len().min(65_536);
    MemFram::fused(rt.alloc(), &words[..most], passes, made)
}

/// So many words, all 0.
pub(crate) fn zeros(rt: &HostRuntime, len: usize) -> Result<Vec<u32>, Fail> {
    let words = vec![in rt.alloc(); 0u32; len]?;
    Ok(words)
}

/// What a `run` of the adding set with these lines leaves on a device of zeros.
pub(crate) fn left_by(rt: &HostRuntime, format: u32, lines: &str) -> Result<Vec<u32>, Fail> {
    let text = adding(rt, format, lines)?;
    let words = zeros(rt, WORDS)?;
    let mut dev = device(rt, words.as_slice())?;
    let _ = call(rt, "run", text.as_str().as_bytes(), &mut dev)?;
    Ok(Vec::from_slice(rt.alloc(), dev.words())?)
}
