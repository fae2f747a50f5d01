//! A source or a sink that fails at each call, and texts that are cut.

use super::calling::{WORDS, adding, call, call_on, device, zeros};
use super::resumes::ENOUGH;
use nv_base::{MemSink, MemSource, Source, SourceFailed};
use sim_run::Status;
use std::test::Fail;

/// A source of one byte a call.
#[derive(Drop)]
struct OneByte {
    memory: MemSource,
}

impl Source for OneByte {
    ghost use Rattle.nv_base.specs.Memory.{source_seen};

    ghost seen = { λ s. source_seen s.memory };

    fn take(&mut self, buf: &mut [u8]) -> Result<usize, SourceFailed> {
        if buf.is_empty() {
            return self.memory.take(buf);
        }
        self.memory.take(&mut buf[..1])
    }
}

// how a run ends whose source of one byte a call fails at this one
fn failing_source(rt: &HostRuntime, input: &[u8], call: u32) -> Result<bool, Fail> {
    let memory = MemSource::new(rt.alloc(), input, &[call])?;
    let mut src = OneByte { memory };
    let mut out = MemSink::new(rt.alloc(), 4096, &[])?;
    let words = zeros(rt, 64)?;
    let mut dev = device(rt, words.as_slice())?;
    let ended = call_on(rt, "run", &mut src, &mut out, &mut dev)?;
    let is_read = call as usize <= input.len().saturating_add(1);
    let fault = ended.is(Status::ReadFault, b"error read\n".as_slice())
        && dev.words() == words.as_slice();
    Ok(if is_read {
        fault
    } else {
        ended.status == Status::Done
    })
}

#[test]
fn a_source_may_fail_at_each_call(rt: HostRuntime) -> Result<(), Fail> {
    let text = adding(&rt, 1, ENOUGH)?;
    let input = text.as_str().as_bytes();
    for call in 1..=400u32 {
        assert!(rt; failing_source(&rt, input, call)?);
    }
    Ok(())
}

// how a run ends whose sink fails at this call, and what it has put
fn failing_sink(rt: &HostRuntime, input: &[u8], call: u32, whole: &[u8]) -> Result<bool, Fail> {
    let mut src = MemSource::new(rt.alloc(), input, &[])?;
    let mut out = MemSink::new(rt.alloc(), 4096, &[call])?;
    let words = zeros(rt, 64)?;
    let mut dev = device(rt, words.as_slice())?;
    let ended = call_on(rt, "run", &mut src, &mut out, &mut dev)?;
    Ok(match ended.status {
        Status::WriteFault => {
            ended.put.len() < whole.len() && whole.starts_with(ended.put.as_slice())
        }
        Status::Done => call >= 4 && ended.put.as_slice() == whole,
        _ => false,
    })
}

#[test]
fn a_sink_may_fail_at_each_put(rt: HostRuntime) -> Result<(), Fail> {
    let text = adding(&rt, 1, ENOUGH)?;
    let input = text.as_str().as_bytes();
    let words = zeros(&rt, 64)?;
    let mut dev = device(&rt, words.as_slice())?;
    let whole = call(&rt, "run", input, &mut dev)?;
    assert!(rt; whole.status == Status::Done);
    for call in 1..=8u32 {
        assert!(rt; failing_sink(&rt, input, call, whole.put.as_slice())?);
    }
    Ok(())
}

// whether the first so many bytes of a script are refused, and nothing is written
fn is_refused(rt: &HostRuntime, input: &[u8], word: &str, line: &[u8]) -> Result<bool, Fail> {
    let words = zeros(rt, WORDS)?;
    let mut dev = device(rt, words.as_slice())?;
    let ended = call(rt, word, input, &mut dev)?;
    let refused = match ended.status {
        Status::Script(_) | Status::Packed(_) => ended.put.as_slice().starts_with(line),
        _ => false,
    };
    Ok(refused && dev.words() == words.as_slice())
}

#[test]
fn each_front_of_a_script_is_refused(rt: HostRuntime) -> Result<(), Fail> {
    let text = adding(&rt, 1, ENOUGH)?;
    let input = text.as_str().as_bytes();
    let line = b"error script ".as_slice();
    // but for its last line feed
    let most = input.len().saturating_sub(1);
    for len in 0..most {
        if len <= input.len() {
            assert!(rt; is_refused(&rt, &input[..len], "run", line)?);
            assert!(rt; is_refused(&rt, &input[..len], "resume", line)?);
        }
    }
    Ok(())
}

#[test]
fn each_front_of_a_packed_set_is_refused(rt: HostRuntime) -> Result<(), Fail> {
    let text = adding(&rt, 1, ENOUGH)?;
    let words = zeros(&rt, WORDS)?;
    let mut dev = device(&rt, words.as_slice())?;
    let packed = call(&rt, "pack", text.as_str().as_bytes(), &mut dev)?;
    assert!(rt; packed.status == Status::Done);
    let bytes = packed.put.as_slice();
    for len in 0..bytes.len() {
        assert!(rt; is_refused(&rt, &bytes[..len], "dis", b"error packed ".as_slice())?);
    }
    Ok(())
}
