// Each public call once, and the calls that are lost.

use super::*;
use std::test::Fail;

#[test]
fn a_device_keeps_its_words(rt: HostRuntime) -> Result<(), Fail> {
    let mut device = MemFram::new(rt.alloc(), &[7, 8, 9], 2)?;
    assert_eq!(rt; device.len(), 3);
    assert!(rt; matches!(device.write(1, 5), Ok(())));
    assert!(rt; matches!(device.read(1), Ok(5)));
    assert!(rt; matches!(device.write(2, 6), Ok(())));
    assert_eq!(rt; device.losses(), 0);
    assert!(rt; device.write(0, 1).is_err());
    assert!(rt; device.read(0).is_err());
    assert_eq!(rt; device.losses(), 2);
    assert!(rt; device.words() == [7, 5, 6].as_slice());
    let mut restored = device.restore(rt.alloc(), 1)?;
    assert_eq!(rt; restored.losses(), 0);
    assert!(rt; matches!(restored.read(2), Ok(6)));
    restored.poke(0, 4);
    assert!(rt; restored.words() == [4, 5, 6].as_slice());
    Ok(())
}

#[test]
fn a_fused_device_loses_one_write_old_or_new(rt: HostRuntime) -> Result<(), Fail> {
    for new in [false, true] {
        let mut device = MemFram::fused(rt.alloc(), &[7, 8], 1, new)?;
        assert!(rt; matches!(device.write(0, 1), Ok(())));
        assert!(rt; matches!(device.read(1), Ok(8)));
        assert!(rt; device.write(1, 2).is_err());
        assert!(rt; device.read(1).is_err());
        assert!(rt; device.write(1, 3).is_err());
        assert_eq!(rt; device.losses(), 3);
        let last = if new { 2 } else { 8 };
        assert!(rt; device.words() == [1, last].as_slice());
    }
    Ok(())
}

#[test]
fn a_device_of_zeros_begins_anew_at_a_poke(rt: HostRuntime) -> Result<(), Fail> {
    let mut device = MemFram::zeros(rt.alloc(), 3, 2)?;
    assert_eq!(rt; device.len(), 3);
    assert!(rt; matches!(device.read(2), Ok(0)));
    assert!(rt; matches!(device.write(1, 5), Ok(())));
    device.poke(2, 7);
    assert!(rt; device.words() == [0, 5, 7].as_slice());
    assert!(rt; matches!(device.write(0, 6), Ok(())));
    assert!(rt; device.write(0, 1).is_err());
    assert!(rt; device.words() == [6, 5, 7].as_slice());
    Ok(())
}
