//! Where the words of the sets of the tables stand, counted by hand from the page on the device.

use super::reader::Shape;

/// The words of the adding set from 3 on: an object, a record, a program, and 1,024 bytes; one word in two slots; 100
/// instructions of fuel, and 12 words of code; and these.
const ADDING: [u32; 19] = [
    1, 1, 1, 1024, 0x201, 100, 12, 0x00050413, 0x00000513, 0x20000593, 0x00100893, 0x00000073,
    0x20002283, 0x008282B3, 0x20502023, 0x00200893, 0x00000073, 0x00400893, 0x00000073,
];

/// The words of two tasks on two cores from 3 on: two objects, four records, two programs, and 1,024 bytes; each object of
/// one word in two slots; each program with 100 instructions of fuel, and 13 or 8 words of code; and these.
const PAIR: [u32; 31] = [
    2, 4, 2, 1024, 0x201, 0x201, 100, 13, 100, 8, 0x00455313, 0x00F57513, 0x20000593, 0x00100893,
    0x00000073, 0x00030513, 0x20002283, 0x00128293, 0x20502023, 0x00200893, 0x00000073, 0x00400893,
    0x00000073, 0x00455293, 0x00F57513, 0x20502023, 0x20000593, 0x00200893, 0x00000073, 0x00400893,
    0x00000073,
];

/// The word 0 of a device that was moved from format 1.
pub(crate) const MOVED: u32 = 0x4D4B564E;

// the adding set in format 1
fn adding_first() -> Shape<'static> {
    Shape {
        magic: 0x314B564E,
        header: ADDING.as_slice(),
        root: 1,
        roots: [1, 2],
        copies: [22, 35],
        words: 13,
        slots: 48,
        objects: 1,
        records: 1,
        programs: 1,
    }
}

// in format 2, with the root at a place
fn adding_paged(magic: u32, root: usize) -> Shape<'static> {
    Shape {
        magic,
        header: ADDING.as_slice(),
        root,
        roots: [0x8000_0000, 0x8000_0001],
        copies: [root.saturating_add(1), root.saturating_add(33)],
        words: 32,
        slots: root.saturating_add(65),
        objects: 1,
        records: 1,
        programs: 1,
    }
}

/// The adding set in format 1 or 2.
pub(crate) fn adding_shape(format: u32) -> Shape<'static> {
    if format == 1 {
        adding_first()
    } else {
        adding_paged(0x324B564E, 22)
    }
}

/// The adding set in format 2, behind the 50 words of format 1.
pub(crate) fn adding_moved() -> Shape<'static> {
    adding_paged(MOVED, 50)
}

/// The two tasks, in format 1.
pub(crate) fn pair_shape() -> Shape<'static> {
    Shape {
        magic: 0x314B564E,
        header: PAIR.as_slice(),
        root: 1,
        roots: [1, 2],
        copies: [34, 57],
        words: 23,
        slots: 80,
        objects: 2,
        records: 4,
        programs: 2,
    }
}
