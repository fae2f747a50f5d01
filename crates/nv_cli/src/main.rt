//! The program: its words, standard input, standard output and a device are handed to the simulator, and the answer is
//! its exit status. The device is new, or stands in a file.
//! What std says of the process is taken on trust: its words, what is read and written, files, and the status that it ends
//! with.
#![tactic(auto)]

ghost use Rattle.std.specs.Prelude.{◌≡◌, ◌↔◌, ◌≤◌, [], IfErr, IfOk, IsErr, OnErr, OnOk, drop, length, map, string_bytes};
ghost use Rattle.std.specs.IoError.{error_kind};
ghost use Rattle.std.specs.declared.io.ErrorKind.TheVariants.{OutOfMemory};
ghost use Rattle.std.specs.Process.{exit_status};
ghost use Rattle.std.specs.Rc.{rc_str_bytes};
ghost use Rattle.std.specs.Vec.Iter.{into_iter_items};
ghost use Rattle.answers.specs.Exits.{exit_of};
ghost use Rattle.blank_fram.specs.Device.{Passes};
ghost use Rattle.simulation.specs.Stores.{store};
ghost use Rattle.sim_run.specs.Answers.{exchange};
ghost use Rattle.sim_run.specs.Commands.{command_of};
ghost use Rattle.nv_cli.specs.Calls.{EndsAs, IsZeros};
ghost use Rattle.nv_cli.specs.Images.{command_part, exit_unready, unwritten};

mod image;

use answers::Status;
use blank_fram::BlankFram;
use fram_dev::Fram;
use image::{Unready, command_part, image_path};
use image_file::ImageFile;
use nv_base::{NoMemory, Sink, SinkFailed, Source, StdSink, StdSource};
use sim_run::simulate;
use std::alloc::Global;
use std::env::Args;
use std::io::BufWriter;
use std::process::ExitCode;
use std::rc::RcStr;
use std::{env, io};

/// How many words the device of a call has.
const DEVICE_WORDS: u32 = 65_536;

/// How many writes it passes: a format makes one for each word at most, and an event one.
const DEVICE_WRITES: u32 = 1_100_000;

/// How many bytes of the output wait in the program at most: a system call for each line takes longer than the run.
const OUTPUT_BYTES: usize = 65_536;

/// The words of a call: the arguments behind the program's name.
fn command_words(alloc: Global, mut arguments: Args) -> Result<Vec<RcStr>, NoMemory>
    ensures { let given = drop 1 (map string_bytes (into_iter_items arguments)) in
        IfOk result (λ words. map rc_str_bytes words.items ≡ given) }
{
    let _name = arguments.next();
    let mut words = Vec::new(alloc);
    for argument in arguments {
        words.push(RcStr::from_string(argument)?)?;
    }
    Ok(words)
}

/// The words that the program was called with, by what std answers. Words that are not all text are
/// no command, as no words are.
fn given_words(alloc: Global, given: io::Result<Args>) -> Result<Vec<RcStr>, NoMemory>
    ensures words { IfOk given (λ all. IfOk result (λ words. map rc_str_bytes words.items
        ≡ drop 1 (map string_bytes (into_iter_items all)))) }
    ensures none { IfErr given (λ e. IfOk result (λ words. words.items ≡ [])) }
    ensures memory { IfErr given (λ e. IsErr result ↔ (error_kind e ≡ OutOfMemory)) }
{
    match given {
        Ok(arguments) => command_words(alloc, arguments),
        Err(error) if error.kind() == io::ErrorKind::OutOfMemory => Err(NoMemory),
        Err(_) => Ok(Vec::new(alloc)),
    }
}

/// The answer to a call with these words, or to one whose words found no memory, and then nothing is read or put.
fn call<S: Source, K: Sink, F: Fram>(
    alloc: Global,
    words: &Result<Vec<RcStr>, NoMemory>,
    src: &mut S,
    out: &mut K,
    dev: &mut F,
) -> Status
    ensures answered { let seen = store F.start F.log F.lost in
        let x = exchange S.seen K.seen seen src.old src.new out.old out.new dev.old dev.new in
        IfOk words.now (λ ws. let part = command_part (map rc_str_bytes ws.items) in
        EndsAs (command_of part) x result) }
    ensures no_memory { OnErr words.now (result ≡ Status.NoMemory) }
    ensures nothing_read { OnErr words.now (S.seen src.new ≡ S.seen src.old) }
    ensures nothing_put { OnErr words.now (K.seen out.new ≡ K.seen out.old) }
{
    match words {
        Ok(words) => simulate(alloc, command_part(words.as_slice()), src, out, dev),
        Err(_) => Status::NoMemory,
    }
}

/// The answer at the end, where the bytes that waited were handed on or not.
fn at_end(status: Status, flushed: Result<(), SinkFailed>) -> Status
    ensures written { OnOk flushed (result ≡ status) }
    ensures unwritten { OnErr flushed (result ≡ unwritten status) }
{
    match (flushed, status) {
        (Err(SinkFailed), Status::Done) => Status::WriteFault,
        _ => status,
    }
}

/// The exit status that stands for how a call ended.
fn exit_code(ended: Result<Status, Unready>) -> ExitCode
    ensures answer { IfOk ended (λ status. exit_status result ≡ exit_of status) }
    ensures unready { IfErr ended (λ why. exit_status result ≡ exit_unready why) }
{
    match ended {
        Ok(status) => ExitCode::from(status.code()),
        Err(why) => why.exit_code(),
    }
}

/// A new device of so many words, all 0, that passes so many writes.
#[tactic(auto, unfolding(crate::specs::Calls::IsZeros))]
fn new_device(alloc: Global, words: u32, writes: u32) -> Result<BlankFram, NoMemory>
    ensures zeros { IfOk result (IsZeros words) }
    ensures writes { IfOk result (Passes writes) }
{
    BlankFram::zeros(alloc, words, writes)
}

/// A device that has the words of a file, and passes so many writes.
fn device_in(
    rt: &HostRuntime,
    file: &ImageFile,
    words: u32,
    writes: u32,
) -> Result<BlankFram, Unready>
    requires { words ≤ 65536 }
    ensures length { IfOk result (λ device. length (⟦<BlankFram as Fram>⟧.start device) ≡ words) }
    ensures writes { IfOk result (Passes writes) }
{
    let start = file.load(rt, rt.alloc(), words)?;
    match BlankFram::given(rt.alloc(), start.as_slice(), writes) {
        Ok(device) => Ok(device),
        Err(NoMemory) => Err(Unready::NoMemory),
    }
}

/// The answer to a call on this device, with the process's streams.
fn answer(
    rt: &HostRuntime,
    words: &Result<Vec<RcStr>, NoMemory>,
    device: &mut BlankFram,
) -> Result<Status, Unready>
    ensures { IfErr result (λ why. why ≡ Unready.NoMemory) }
{
    let Ok(output) = BufWriter::with_capacity(rt.alloc(), OUTPUT_BYTES, rt.stdout()) else {
        return Err(Unready::NoMemory);
    };
    let mut source = StdSource::new(rt.stdin());
    let mut sink = StdSink::new(output);
    let status = call(rt.alloc(), words, &mut source, &mut sink, device);
    let flushed = sink.flush();
    Ok(at_end(status, flushed))
}

/// A call on a new device.
fn on_new_device(rt: &HostRuntime, words: &Result<Vec<RcStr>, NoMemory>) -> Result<Status, Unready>
    ensures { IfErr result (λ why. why ≡ Unready.NoMemory) }
{
    let mut device = new_device(rt.alloc(), DEVICE_WORDS, DEVICE_WRITES)?;
    answer(rt, words, &mut device)
}

/// A call on the device in a file, which is written back whatever the answer.
fn on_file(
    rt: &HostRuntime,
    path: &str,
    words: &Result<Vec<RcStr>, NoMemory>,
) -> Result<Status, Unready> {
    let mut file = ImageFile::at(rt, rt.alloc(), path, DEVICE_WORDS)?;
    let mut device = device_in(rt, &file, DEVICE_WORDS, DEVICE_WRITES)?;
    let status = answer(rt, words, &mut device)?;
    file.store(rt, device.into_words().as_slice())?;
    Ok(status)
}

/// A call on the device that its words name.
fn on_device(rt: &HostRuntime, words: &Result<Vec<RcStr>, NoMemory>) -> Result<Status, Unready> {
    let path = match words {
        Ok(words) => image_path(words.as_slice()),
        Err(_) => None,
    };
    match path {
        None => on_new_device(rt, words),
        Some(path) => on_file(rt, path, words),
    }
}

/// Tells why there was no device, or none is kept. A failure to say so changes no status.
fn tell(rt: &HostRuntime, why: Unready) {
    let _ = rt.eprintln(why.line());
}

fn main(rt: HostRuntime) -> ExitCode {
    let words = given_words(rt.alloc(), env::args(&rt));
    if words.is_err() {
        tell(&rt, Unready::NoMemory);
    }
    let ended = on_device(&rt, &words);
    if let Err(why) = ended {
        tell(&rt, why);
    }
    exit_code(ended)
}
