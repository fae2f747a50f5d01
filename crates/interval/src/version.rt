// How a version is named outside the table of versions.

use nv_base::{ObjId, Point};

/// A version of an object: the slot that has its words, and the first point of its life.
#[derive(Clone, Copy, PartialEq, Eq, Debug)]
pub struct Version {
    /// Of which object.
    pub object: ObjId,
    /// In which of the object's slots, from 0.
    pub slot: u8,
    /// Its writer's point.
    pub begin: Point,
}

/// A slot whose words an attempt is copying.
#[derive(Clone, Copy, PartialEq, Eq, Debug)]
pub struct Pin {
    /// Of which object.
    pub object: ObjId,
    /// Which of the object's slots, from 0.
    pub slot: u8,
}
