//! The worked calls on intervals.

use super::*;
use nv_base::{ObjId, Point};
use std::test::Fail;

#[test]
fn cut_at_its_raised_begin_it_is_empty(rt: HostRuntime) -> Result<(), Fail> {
    let mut interval = Interval::from(Point(0));
    interval.raise(Point(1));
    interval.cut(Point(1));
    assert!(rt; interval.is_empty());
    assert!(rt; interval.pick(Point(1), true).is_none());
    Ok(())
}

#[test]
fn a_finish_that_writes_stands_before_the_end(rt: HostRuntime) -> Result<(), Fail> {
    let mut interval = Interval::from(Point(0));
    assert!(rt; interval.pick(Point(5), true) == Some(Point(6)));
    interval.cut(Point(3));
    assert!(rt; interval.pick(Point(5), true) == Some(Point(2)));
    assert!(rt; interval.pick(Point(5), false) == Some(Point(0)));
    Ok(())
}

#[test]
fn ranges_meet_where_they_have_a_common_point(rt: HostRuntime) -> Result<(), Fail> {
    let mut interval = Interval::from(Point(3));
    assert!(rt; interval.meets(Point(7), None));
    assert!(rt; !interval.meets(Point(0), Some(Point(3))));
    interval.cut(Point(5));
    assert!(rt; interval.meets(Point(4), Some(Point(9))));
    assert!(rt; !interval.meets(Point(5), None));
    Ok(())
}

#[test]
fn names_tell_object_slot_and_begin(rt: HostRuntime) -> Result<(), Fail> {
    let version = Version {
        object: ObjId(1),
        slot: 2,
        begin: Point(3),
    };
    let pin = Pin {
        object: version.object,
        slot: version.slot,
    };
    assert!(rt;
        pin == Pin {
            object: ObjId(1),
            slot: 2
        }
    );
    assert!(rt; version.begin == Point(3));
    Ok(())
}
