// One run from the first instruction to the exit, and words put into memory and read back.

use super::*;
use nv_base::TrapCause;

// The words of the worked example, which exits by its argument and 21.
const CODE: [u32; 12] = [
    0x00500293, 0x00700313, 0x006283b3, 0x20702023, 0x20002403, 0x008404b3, 0xffd48493, 0xfe912e23,
    0xffc12e03, 0x00ae0533, 0x00400893, 0x00000073,
];

#[test]
fn runs_to_the_exit(rt: HostRuntime) {
    let Ok(mut machine) = Machine::new(rt.alloc(), 1024) else {
        panic!(rt; "no memory");
    };
    machine.load(&CODE, 100, 12);
    for _ in 0..11 {
        assert!(rt; machine.step() == Step::Went);
    }
    assert!(rt; machine.step() == Step::Call(Service::Finish { code: 121 }));
    assert!(rt; machine.step() == Step::Trap(TrapCause::Fuel));
}

#[test]
fn reads_back_what_was_put(rt: HostRuntime) {
    let Ok(mut machine) = Machine::new(rt.alloc(), 1024) else {
        panic!(rt; "no memory");
    };
    let mut words = [0; 2];
    match machine.fits(1016, 2) {
        Ok(()) => machine.copy_out(1016, &mut words),
        Err(_) => panic!(rt; "two words do not fit"),
    }
    match machine.fits(1020, 1) {
        Ok(()) => machine.copy_in(1020, 0x01020304),
        Err(_) => panic!(rt; "one word does not fit"),
    }
    machine.copy_out(1016, &mut words);
    assert_eq!(rt; words[1], 0x01020304);
    assert!(rt; machine.fits(1018, 1) == Err(TrapCause::CallAlign));
    assert!(rt; machine.fits(1020, 2) == Err(TrapCause::CallRange));
}
