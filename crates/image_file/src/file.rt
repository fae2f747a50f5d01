//! A device in a file: it is read whole, and written whole to a new file that takes its place.
//! What std says of the files is taken on trust. Contracts speak of any reader and writer.

ghost use Rattle.std.specs.Prelude.{◌≡◌, ◌≢◌, ◌*◌, IfErr, IfOk, OnErr, OnOk, length, vec_len};
ghost use Rattle.std.specs.IoError.{error_kind};
ghost use Rattle.std.specs.declared.io.ErrorKind.TheVariants.{NotFound};
ghost use Rattle.nv_base.specs.Streams.{PutsFront, PutsText, ReadsAll, Stream};
ghost use Rattle.image_file.specs.Images.{AreZeros, GivesNone, image_of};

use crate::words::{LoadFault, put_image, words_of, zeros};
use nv_base::{NoMemory, ReadRefusal, Sink, Source, StdSink, StdSource, put_all, read_all};
use std::alloc::Global;
use std::fs::{OpenFile, OpenOptions};
use std::io::{ErrorKind, Write};
use std::rt::Files;
use std::{fs, io};

/// The device could not be written back.
#[derive(Clone, Copy, Debug, PartialEq, Eq)]
pub struct Unstored;

/// The so many words that a source has, to its end. `Size` exactly where it gives another number of bytes than four for
/// each word; `Read` only where it fails.
pub fn read_image<S: Source>(alloc: Global, src: &mut S, count: u32) -> Result<Vec<u32>, LoadFault>
    ensures words { IfOk result
        (λ words. ReadsAll (image_of words.items) (S.seen src.old) (S.seen src.new)) }
    ensures number { IfOk result (λ words. length words.items ≡ count) }
    ensures none { IfErr result (GivesNone count (S.seen src.old) (S.seen src.new)) }
{
    match read_all(alloc, src, 4 * count as usize) {
        Ok(bytes) => words_of(alloc, bytes.as_slice(), count),
        Err(ReadRefusal::ReadFault) => Err(LoadFault::Read),
        Err(ReadRefusal::TooLong) => Err(LoadFault::Size),
        Err(ReadRefusal::NoMemory) => Err(LoadFault::NoMemory),
    }
}

// the device where there is no file
#[tactic(auto, unfolding(crate::specs::Images::AreZeros))]
fn no_file(alloc: Global, count: u32) -> Result<Vec<u32>, LoadFault>
    ensures zeros { IfOk result (λ words. AreZeros count words.items) }
    ensures number { IfOk result (λ words. length words.items ≡ count) }
    ensures memory { IfErr result (λ fault. fault ≡ LoadFault.NoMemory) }
{
    match zeros(alloc, count) {
        Ok(words) => Ok(words),
        Err(NoMemory) => Err(LoadFault::NoMemory),
    }
}

/// The words of a file that was opened so: those that it has, or zeros where there is no file.
pub fn loaded<S: Source + Drop>(
    alloc: Global,
    opened: io::Result<S>,
    count: u32,
) -> Result<Vec<u32>, LoadFault>
    ensures missing { IfErr opened (λ e. error_kind e ≡ NotFound
        → IfOk result (λ words. AreZeros count words.items)) }
    ensures made { IfErr opened (λ e. error_kind e ≡ NotFound
        → IfErr result (λ fault. fault ≡ LoadFault.NoMemory)) }
    ensures closed { IfErr opened (λ e. error_kind e ≢ NotFound → result ≡ Err LoadFault.Read) }
    ensures words { IfOk opened (λ src. IfOk result
        (λ words. (new : Stream) × ReadsAll (image_of words.items) (S.seen src) new)) }
    ensures none { IfOk opened (λ src. IfErr result
        (λ fault. (new : Stream) × GivesNone count (S.seen src) new fault)) }
    ensures number { IfOk result (λ words. length words.items ≡ count) }
{
    match opened {
        Ok(mut src) => read_image(alloc, &mut src, count),
        Err(error) if error.kind() == ErrorKind::NotFound => no_file(alloc, count),
        Err(_) => Err(LoadFault::Read),
    }
}

/// Puts these words, with a buffer for their bytes. `Unstored` only where the sink fails.
pub fn write_image<K: Sink>(out: &mut K, words: &[u32], bytes: &mut [u8]) -> Result<(), Unstored>
    requires { length bytes.old ≡ 4 * length words.now }
    ensures all { OnOk result (PutsText (image_of words.now) (K.seen out.old) (K.seen out.new)) }
    ensures front { OnErr result
        (PutsFront (image_of words.now) (K.seen out.old) (K.seen out.new)) }
{
    put_image(words, bytes);
    match put_all(out, bytes) {
        Ok(()) => Ok(()),
        Err(_) => Err(Unstored),
    }
}

/// A file for the words of a device, with all memory that reading and writing its name and its bytes take.
#[derive(Drop)]
pub struct ImageFile {
    path: String,
    beside: String,
    bytes: Vec<u8>,
}

// where a path leads, behind all links, or itself where that is not known
fn real_path<R: Files>(files: &R, alloc: Global, path: &str) -> Result<String, NoMemory> {
    match files.canonicalize(alloc, path) {
        Ok(real) => Ok(String::from_str(alloc, real.as_str())?),
        Err(_) => Ok(String::from_str(alloc, path)?),
    }
}

// whether these words were written to a file and have reached its disk
fn is_written<F: Write + OpenFile>(file: &mut F, words: &[u32], bytes: &mut [u8]) -> bool
    requires { length bytes.old ≡ 4 * length words.now }
{
    let mut sink = StdSink::new(&mut *file);
    if write_image(&mut sink, words, bytes).is_err() {
        return false;
    }
    file.sync_all().is_ok()
}

impl ImageFile {
    /// The file at a path, for a device of so many words.
    pub fn at<R: Files>(
        files: &R,
        alloc: Global,
        path: &str,
        count: u32,
    ) -> Result<ImageFile, NoMemory> {
        let path = real_path(files, alloc, path)?;
        let beside = format!(in alloc; "{}.nvk-new", path.as_str())?;
        Ok(ImageFile {
            path,
            beside,
            bytes: vec![in alloc; 0u8; 4 * count as usize]?,
        })
    }

    /// The so many words in it, or zeros where there is no such file.
    pub fn load<R: Files>(
        &self,
        files: &R,
        alloc: Global,
        count: u32,
    ) -> Result<Vec<u32>, LoadFault>
        ensures { IfOk result (λ words. length words.items ≡ count) }
    {
        let opened = match fs::open(files, self.path.as_str()) {
            Ok(file) => Ok(StdSource::new(file)),
            Err(error) => Err(error),
        };
        loaded(alloc, opened, count)
    }

    // The words in a new file that takes the place of the old one. False where no file can be made there.
    fn replaces<R: Files>(
        &mut self,
        files: &R,
        old: &io::Result<R::File>,
        words: &[u32],
    ) -> Result<bool, Unstored>
        requires { vec_len self.old.bytes ≡ 4 * length words.now }
        ensures { vec_len self.new.bytes ≡ vec_len self.old.bytes }
    {
        let Ok(mut file) = fs::create(files, self.beside.as_str()) else {
            return Ok(false);
        };
        keep_permissions(old, &file);
        if is_written(&mut file, words, self.bytes.as_mut_slice())
            && fs::rename(files, self.beside.as_str(), self.path.as_str()).is_ok()
        {
            return Ok(true);
        }
        let _ = fs::remove_file(files, self.beside.as_str());
        Err(Unstored)
    }

    /// Writes these words back: to a new file that takes the place of the old one, so that a host that fails leaves the
    /// one or the other whole; where its folder takes no new file, into the old one. `Unstored` where that fails, where
    /// the old file may not be written, and where there are not as many words as the device has.
    pub fn store<R: Files>(&mut self, files: &R, words: &[u32]) -> Result<(), Unstored> {
        if self.bytes.len() != 4 * words.len() {
            return Err(Unstored);
        }
        let old = OpenOptions::new()
            .write(true)
            .open(files, self.path.as_str());
        if !may_replace(&old) {
            return Err(Unstored);
        }
        if self.replaces(files, &old, words)? {
            return Ok(());
        }
        let Ok(mut file) = old else {
            return Err(Unstored);
        };
        if !is_written(&mut file, words, self.bytes.as_mut_slice()) {
            return Err(Unstored);
        }
        Ok(())
    }
}

// who may use the new file: those who may use the old one
fn keep_permissions<F: OpenFile>(old: &io::Result<F>, new: &F) {
    if let Ok(old) = old
        && let Ok(known) = old.metadata()
    {
        let _ = new.set_permissions(known.permissions());
    }
}

// whether a file that was opened so is there to be written, or is not there
fn may_replace<F>(opened: &io::Result<F>) -> bool {
    match opened {
        Ok(_) => true,
        Err(error) => error.kind() == ErrorKind::NotFound,
    }
}
