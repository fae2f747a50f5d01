// Each public function once, and the streams failing in mid-stream.

use super::*;
use std::test::Fail;

#[test]
fn causes_stand_in_the_order_of_their_numbers(rt: HostRuntime) -> Result<(), Fail> {
    let table = [
        (1, TrapCause::Illegal, "illegal"),
        (2, TrapCause::Jump, "jump"),
        (3, TrapCause::Fetch, "fetch"),
        (4, TrapCause::LoadAlign, "loadalign"),
        (5, TrapCause::Load, "load"),
        (6, TrapCause::StoreAlign, "storealign"),
        (7, TrapCause::Store, "store"),
        (8, TrapCause::Break, "break"),
        (9, TrapCause::Call, "call"),
        (10, TrapCause::Object, "object"),
        (11, TrapCause::CallAlign, "callalign"),
        (12, TrapCause::CallRange, "callrange"),
        (13, TrapCause::Program, "program"),
        (14, TrapCause::Spawns, "spawns"),
        (15, TrapCause::Fuel, "fuel"),
    ];
    for (number, cause, word) in table {
        assert_eq!(rt; cause.number(), number);
        assert!(rt; TrapCause::from_number(number) == Some(cause));
        assert_eq!(rt; cause.word(), word);
    }
    assert!(rt; TrapCause::from_number(0) == None);
    assert!(rt; TrapCause::from_number(16) == None);
    Ok(())
}

#[test]
fn a_set_has_what_was_added(rt: HostRuntime) -> Result<(), Fail> {
    let mut set = ObjSet::empty();
    for object in [127, 63, 5, 64, 0, 5] {
        set.add(ObjId(object));
    }
    for object in 0..128u8 {
        let wanted = [0, 5, 63, 64, 127].contains(&object);
        assert!(rt; set.has(ObjId(object)) == wanted);
    }
    let copy = set;
    assert!(rt; copy == set);
    assert!(rt; copy != ObjSet::empty());
    Ok(())
}

#[test]
fn the_least_object_is_taken_out(rt: HostRuntime) -> Result<(), Fail> {
    let mut set = ObjSet::empty();
    for object in [127, 64, 0] {
        set.add(ObjId(object));
    }
    for object in [0, 64, 127] {
        assert!(rt; set.take_least() == Some(ObjId(object)));
    }
    assert!(rt; set.take_least() == None);
    assert!(rt; set == ObjSet::empty());
    Ok(())
}

#[test]
fn a_whole_input_is_read_up_to_the_limit(rt: HostRuntime) -> Result<(), Fail> {
    let bytes = [7u8; 5000];
    let mut source = MemSource::new(rt.alloc(), &bytes, &[])?;
    match read_all(rt.alloc(), &mut source, 5000) {
        Ok(read) => assert!(rt; read.as_slice() == bytes.as_slice()),
        Err(_) => assert!(rt; false),
    }
    let mut source = MemSource::new(rt.alloc(), &bytes, &[])?;
    assert!(rt;
        matches!(
            read_all(rt.alloc(), &mut source, 4999),
            Err(ReadRefusal::TooLong)
        )
    );
    // one byte more than the limit is gone, and no others
    let mut source = MemSource::new(rt.alloc(), b"abcdef", &[])?;
    assert!(rt;
        matches!(
            read_all(rt.alloc(), &mut source, 2),
            Err(ReadRefusal::TooLong)
        )
    );
    let mut rest = [0u8; 8];
    assert!(rt; matches!(source.take(&mut rest), Ok(3)));
    assert!(rt; &rest[..3] == b"def".as_slice());
    Ok(())
}

#[test]
fn a_source_fails_at_the_second_call(rt: HostRuntime) -> Result<(), Fail> {
    let bytes = [7u8; 10000];
    let mut source = MemSource::new(rt.alloc(), &bytes, &[2])?;
    assert!(rt;
        matches!(
            read_all(rt.alloc(), &mut source, 20000),
            Err(ReadRefusal::ReadFault)
        )
    );
    // the third call goes on where the first one ended
    match read_all(rt.alloc(), &mut source, 20000) {
        Ok(read) => assert_eq!(rt; read.len(), 10000 - 4096),
        Err(_) => assert!(rt; false),
    }
    Ok(())
}

#[test]
fn a_sink_takes_all_until_it_is_full_or_fails(rt: HostRuntime) -> Result<(), Fail> {
    let mut sink = MemSink::new(rt.alloc(), 5, &[2])?;
    assert!(rt; put_all(&mut sink, b"abc").is_ok());
    assert!(rt; put_all(&mut sink, b"d").is_err());
    // two more bytes fit, and then the sink is full
    assert!(rt; put_all(&mut sink, b"def").is_err());
    assert!(rt; sink.bytes() == b"abcde".as_slice());
    assert!(rt; matches!(sink.put(b"f"), Err(SinkFailed)));
    Ok(())
}

#[test]
fn std_readers_and_writers_pass_bytes_on(rt: HostRuntime) -> Result<(), Fail> {
    let input: &[u8] = b"one line\n";
    let mut source = StdSource::new(input);
    match read_all(rt.alloc(), &mut source, 100) {
        Ok(read) => assert!(rt; read.as_slice() == input),
        Err(_) => assert!(rt; false),
    }
    let mut written = Vec::new(rt.alloc());
    let mut sink = StdSink::new(&mut written);
    assert!(rt; put_all(&mut sink, input).is_ok());
    assert!(rt; sink.flush().is_ok());
    assert!(rt; written.as_slice() == input);
    // a writer that has no room left takes nothing, and that is a fault
    let mut room = [0u8; 4];
    let mut short = StdSink::new(room.as_mut_slice());
    assert!(rt; put_all(&mut short, input).is_err());
    Ok(())
}
