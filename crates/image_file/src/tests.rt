//! Two words as bytes worked out by hand, both ways, and files that are missing, closed or of another length.

use crate::{LoadFault, loaded, read_image, write_image};
use nv_base::{MemSink, MemSource, NoMemory};
use std::alloc::Global;
use std::io::{Error, ErrorKind};
use std::test::Fail;

const WORDS: [u32; 2] = [7, 0x0403_0201];

const BYTES: [u8; 8] = [7, 0, 0, 0, 1, 2, 3, 4];

// what bytes give as two words, where the calls with these numbers fail
fn read(alloc: Global, bytes: &[u8], fails: &[u32]) -> Result<Vec<u32>, LoadFault> {
    match MemSource::new(alloc, bytes, fails) {
        Ok(mut src) => read_image(alloc, &mut src, 2),
        Err(NoMemory) => Err(LoadFault::NoMemory),
    }
}

// what a file gives that is opened with this error
fn opened(alloc: Global, kind: ErrorKind) -> Result<Vec<u32>, LoadFault> {
    loaded::<MemSource>(alloc, Err(Error::from(kind)), 2)
}

// whether these words were read
fn has(read: Result<Vec<u32>, LoadFault>, words: &[u32]) -> bool {
    match read {
        Ok(read) => read.as_slice() == words,
        Err(_) => false,
    }
}

// whether there was this fault
fn fails(read: Result<Vec<u32>, LoadFault>, fault: LoadFault) -> bool {
    match read {
        Ok(_) => false,
        Err(other) => other == fault,
    }
}

#[test]
fn words_are_read_and_written_lowest_byte_first(rt: HostRuntime) -> Result<(), Fail> {
    let alloc = rt.alloc();
    assert!(rt; has(read(alloc, &BYTES, &[]), &WORDS));
    assert!(rt; fails(read(alloc, &BYTES[..7], &[]), LoadFault::Size));
    assert!(rt; fails(read(alloc, &[0; 9], &[]), LoadFault::Size));
    assert!(rt; fails(read(alloc, &BYTES, &[2]), LoadFault::Read));
    assert!(rt; has(opened(alloc, ErrorKind::NotFound), &[0, 0]));
    assert!(rt; fails(opened(alloc, ErrorKind::PermissionDenied), LoadFault::Read));
    let mut buffer = [0; 8];
    let mut out = MemSink::new(alloc, 8, &[])?;
    assert!(rt; write_image(&mut out, &WORDS, &mut buffer).is_ok());
    assert!(rt; out.bytes() == BYTES.as_slice());
    assert!(rt; write_image(&mut out, &WORDS, &mut buffer).is_err());
    Ok(())
}
