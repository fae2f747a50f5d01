// The call over memory: each answer, with the bytes that it puts. `tables/` has many more texts, which the program answers.

mod serial;

use crate::{Status, simulate};
use fram_dev::{Fram, Lost, MemFram};
use nv_base::{MemSink, MemSource, NoMemory};
use std::rc::RcStr;
use std::test::Fail;

/// A set of one program, which adds its argument to its one object.
const ADDING_SET: &str =
    "nvk 1\ncores 1\nmemory 1024\nrecords 1\nobject x 1 2 5\ncode add 100\n00050413 00000513 20000593 00100893\n00000073 20002283 008282b3 20502023\n00200893 00000073 00400893 00000073\nend\n";

/// How a call on this input and this device ends, and what it puts.
fn ends_on<F: Fram>(
    rt: &HostRuntime,
    words: &[&str],
    input: &[u8],
    fails: (&[u32], &[u32]),
    dev: &mut F,
) -> Result<(Status, Vec<u8>), Fail> {
    let mut all = Vec::new(rt.alloc());
    for word in words {
        all.push(RcStr::from_str(rt.alloc(), word)?)?;
    }
    let mut src = MemSource::new(rt.alloc(), input, fails.0)?;
    let mut out = MemSink::new(rt.alloc(), 4096, fails.1)?;
    let status = simulate(rt.alloc(), all.as_slice(), &mut src, &mut out, dev);
    Ok((status, Vec::from_slice(rt.alloc(), out.bytes())?))
}

/// A device of so many words, all 0.
fn zeros(rt: &HostRuntime, words: u32) -> Result<MemFram, NoMemory> {
    let zeros = vec![in rt.alloc(); 0u32; (words % 4096) as usize]?;
    MemFram::new(rt.alloc(), zeros.as_slice(), 4096)
}

/// How a call on this input ends on a device of 1,024 words, and what it puts.
fn ends(
    rt: &HostRuntime,
    words: &[&str],
    input: &[u8],
    fails: (&[u32], &[u32]),
) -> Result<(Status, Vec<u8>), Fail> {
    let mut dev = zeros(rt, 1024)?;
    ends_on(rt, words, input, fails, &mut dev)
}

/// Whether a command on this text ends with that exit status, and puts that.
fn answers(
    rt: &HostRuntime,
    words: &[&str],
    input: &str,
    exit: u8,
    expected: &str,
) -> Result<bool, Fail> {
    let (status, put) = ends(rt, words, input.as_bytes(), (&[], &[]))?;
    Ok(status.code() == exit && put.as_slice() == expected.as_bytes())
}

/// What the smallest run puts, between its first line and its finish's kind, and behind.
const START: &str = "start core 0 task 1 at 0\n";

const FINISH: &str =
    " 1 task 1 point 1 exit 0 first 2\nend clock 1 number 1 next 2 boots 0\nobject x 12\ndone\n";

const OPEN: &str = "end clock 0 number 0 next 2 boots 0\nobject x 5\nopen 1 add 7\ndone\n";

#[test]
fn smallest_runs_are_done(rt: HostRuntime) -> Result<(), Fail> {
    for (steps, word, end) in [
        (40, "finish", FINISH),
        (30, "found", FINISH),
        (29, "", OPEN),
    ] {
        let text = format!(in rt.alloc(); "{ADDING_SET}task add 7\nsteps 0*{steps}\nrun\n")?;
        let expected = format!(in rt.alloc(); "{START}{word}{end}")?;
        assert!(rt; answers(&rt, &["run"], text.as_str(), 0, expected.as_str())?);
    }
    Ok(())
}

/// Two cores.
const TWO: &str = "nvk 1\ncores 2\nmemory 1024\nrecords 1\nobject x 1 2\nprogram p 1\nend\nrun\n";

#[test]
fn other_inputs_and_words_are_named(rt: HostRuntime) -> Result<(), Fail> {
    let report = "end clock 0 number 0 next 1 boots 0\nobject x 0\ndone\n";
    assert!(rt; answers(&rt, &["run"], TWO, 0, report)?);
    assert!(rt; answers(&rt, &["run"], "", 3, "error script 1 end\n")?);
    assert!(rt; answers(&rt, &["pack"], "nvk 3\n", 3, "error script 1 range\n")?);
    assert!(rt;
        answers(
            &rt,
            &["asm"],
            "foo a0\n",
            3,
            "error script 1 code mnemonic\n"
        )?
    );
    assert!(rt;
        answers(
            &rt,
            &["asm"],
            "li a0, 0x7FFFF800\n",
            0,
            "80000537\n80050513\n"
        )?
    );
    assert!(rt; answers(&rt, &["dis"], "NVK", 3, "error packed 0\n")?);
    assert!(rt; answers(&rt, &[], "", 2, "error usage\n")?);
    assert!(rt; answers(&rt, &["run", "now"], "", 2, "error usage\n")?);
    Ok(())
}

#[test]
fn sets_are_packed_and_unpacked(rt: HostRuntime) -> Result<(), Fail> {
    let (status, packed) = ends(&rt, &["pack"], TWO.as_bytes(), (&[], &[]))?;
    assert!(rt; status == Status::Done && packed.len() == 36);
    let (status, text) = ends(&rt, &["dis"], packed.as_slice(), (&[], &[]))?;
    let expected =
        b"nvk 1\ncores 2\nmemory 1024\nrecords 1\nobject x 1 2 0\nprogram p 1\nend\nrun\n";
    assert!(rt; status == Status::Done && text.as_slice() == expected.as_slice());
    Ok(())
}

#[test]
fn faults_are_named(rt: HostRuntime) -> Result<(), Fail> {
    let text = format!(in rt.alloc(); "{ADDING_SET}task add 7\nsteps 0*40\nrun\n")?;
    let input = text.as_str().as_bytes();
    let (status, put) = ends(&rt, &["run"], input, (&[1], &[]))?;
    assert!(rt; status == Status::ReadFault);
    assert!(rt; put.as_slice() == b"error read\n".as_slice());
    let (status, put) = ends(&rt, &["run"], input, (&[], &[1]))?;
    assert!(rt; status == Status::WriteFault);
    assert!(rt; put.as_slice() == b"".as_slice());
    let (status, put) = ends(&rt, &["run"], input, (&[], &[2]))?;
    assert!(rt; status == Status::WriteFault);
    assert!(rt; put.as_slice() == b"start core 0 task 1 at 0\n".as_slice());
    // A sink that fails on the name of an answer does not change the answer.
    let (status, put) = ends(&rt, &[], b"", (&[], &[1]))?;
    assert!(rt; status == Status::Usage);
    assert!(rt; put.as_slice() == b"".as_slice());
    Ok(())
}

/// Two tasks on two cores: one reads two objects and tells their sum, the other writes both.
const SUM_AND_BOTH: &str =
    "nvk 1\ncores 2\nmemory 1024\nrecords 4\nobject x 1 2 5\nobject y 1 2 8\nprogram sum 100\nli a0, 0\nli a1, 512\nli a7, 1\necall\nli a0, 1\nli a1, 516\necall\nlw a0, 512(zero)\nlw t0, 516(zero)\nadd a0, a0, t0\nli a7, 4\necall\nend\nprogram both 100\nsw a0, 512(zero)\nli a0, 0\nli a1, 512\nli a7, 2\necall\nli a0, 1\necall\nli a7, 4\necall\nend\ntask sum 0\ntask both 100\n";

/// What they put where the sum's second read comes behind the finish that writes both: it is that of an older version.
const OLDER: &str =
    "start core 0 task 1 at 0\nstart core 1 task 2 at 0\nfinish 1 task 2 point 1 exit 1 first 3\nfinish 2 task 1 point 0 exit 13 first 3\nend clock 1 number 2 next 3 boots 0\nobject x 100\nobject y 100\ndone\n";

/// A device that counts its reads.
#[derive(Drop)]
struct Counted {
    memory: MemFram,
    reads: u64,
}

impl Fram for Counted {
    ghost start = { λ c. c.memory.start.items };

    ghost log = { λ c. c.memory.log.items };

    ghost lost = { λ c. c.memory.lost };

    fn len(&self) -> u32 {
        self.memory.len()
    }

    fn read(&mut self, at: u32) -> Result<u32, Lost> {
        self.reads = self.reads.saturating_add(1);
        self.memory.read(at)
    }

    fn write(&mut self, at: u32, word: u32) -> Result<(), Lost> {
        self.memory.write(at, word)
    }

    fn losses(&self) -> u64 {
        self.memory.losses()
    }
}

/// What a run of these steps puts, and how often it reads its device.
fn put_with_reads(rt: &HostRuntime, steps: &str) -> Result<(Status, Vec<u8>, u64), Fail> {
    let text = format!(in rt.alloc(); "{SUM_AND_BOTH}{steps}run\n")?;
    let mut dev = Counted {
        memory: zeros(rt, 1024)?,
        reads: 0,
    };
    let (status, put) = ends_on(rt, &["run"], text.as_str().as_bytes(), (&[], &[]), &mut dev)?;
    Ok((status, put, dev.reads))
}

#[test]
fn each_copied_word_is_read_from_the_device(rt: HostRuntime) -> Result<(), Fail> {
    let (done, _, none) = put_with_reads(&rt, "")?;
    let (status, put, reads) = put_with_reads(&rt, "steps 0*6 1*38 0*35\n")?;
    assert!(rt; done == Status::Done && status == Status::Done);
    assert!(rt; put.as_slice() == OLDER.as_bytes());
    // two words were copied, in a turn each
    assert!(rt; reads.saturating_sub(none) >= 2);
    Ok(())
}

#[test]
fn a_small_device_is_told(rt: HostRuntime) -> Result<(), Fail> {
    let text = format!(in rt.alloc(); "{ADDING_SET}run\n")?;
    let input = text.as_str().as_bytes();
    let mut dev = zeros(&rt, 49)?;
    let (status, put) = ends_on(&rt, &["run"], input, (&[], &[]), &mut dev)?;
    assert!(rt; status == Status::Small { need: 50, len: 49 });
    assert!(rt; put.as_slice() == b"error small 50 49\n".as_slice());
    Ok(())
}

/// How a run of one task ends where the device passes so many writes, and makes the lost one or not, and what it puts.
fn put_before_loss(rt: &HostRuntime, writes: u32, made: bool) -> Result<(Status, Vec<u8>), Fail> {
    let text = format!(in rt.alloc(); "{ADDING_SET}task add 7\nsteps 0*40\nrun\n")?;
    let words = [0u32; 64];
    let mut dev = MemFram::fused(rt.alloc(), words.as_slice(), writes, made)?;
    ends_on(rt, &["run"], text.as_str().as_bytes(), (&[], &[]), &mut dev)
}

#[test]
fn a_lost_call_is_told_behind_the_lines_before(rt: HostRuntime) -> Result<(), Fail> {
    for made in [false, true] {
        // within the format
        let (status, put) = put_before_loss(&rt, 9, made)?;
        assert!(rt; status == Status::DeviceLost && put.as_slice() == b"error device\n".as_slice());
        // the last write of the finish
        let (status, put) = put_before_loss(&rt, 65, made)?;
        assert!(rt;
            status == Status::DeviceLost
                && put.as_slice() == b"start core 0 task 1 at 0\nerror device\n".as_slice()
        );
    }
    Ok(())
}

/// The seven lines of these counts.
fn seven_lines(
    rt: &HostRuntime,
    seed: &str,
    finishes: u32,
    refused: u32,
) -> Result<String, NoMemory> {
    Ok(format!(in rt.alloc();
        "made {seed}\nfinishes {finishes}\nstale 0\nrefused {refused}\nfails 40\nboots 39\nagreed {finishes}\n"
    )?)
}

#[test]
fn made_scripts_are_summed_up(rt: HostRuntime) -> Result<(), Fail> {
    // counted from the reports of a plain C machine
    for (seed, finishes, refused) in [
        ("0", 51, 12),
        ("7", 51, 13),
        ("18", 51, 12),
        ("4294967295", 50, 13),
    ] {
        let expected = seven_lines(&rt, seed, finishes, refused)?;
        assert!(rt; answers(&rt, &["make", seed], "not read", 0, expected.as_str())?);
    }
    assert!(rt; answers(&rt, &["make", "4294967296"], "", 2, "error usage\n")?);
    assert!(rt; answers(&rt, &["make"], "", 2, "error usage\n")?);
    assert!(rt; answers(&rt, &["make", "-1"], "", 2, "error usage\n")?);
    Ok(())
}
