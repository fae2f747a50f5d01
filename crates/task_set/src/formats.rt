//! The limits that go by the format of a set.

ghost use Rattle.std.specs.Prelude.{◌≡◌, ◌≤◌};
ghost use Rattle.set_model.specs.Limits.{max_objects, max_records};

use nv_base::limits::{MAX_OBJECTS, MAX_OBJECTS_1, MAX_RECORDS, MAX_RECORDS_1};

/// The most objects of a set of this format: 64 in format 1, 128 in format 2.
pub fn max_objects(format: u8) -> u8
    ensures exact { result ≡ max_objects format }
    ensures few { result ≤ MAX_OBJECTS }
{
    if format == 1 {
        MAX_OBJECTS_1
    } else {
        MAX_OBJECTS
    }
}

/// The most task records of a set of this format: 256 in format 1, 1,024 in format 2.
pub fn max_records(format: u8) -> u16
    ensures exact { result ≡ max_records format }
    ensures few { result ≤ MAX_RECORDS }
{
    if format == 1 {
        MAX_RECORDS_1
    } else {
        MAX_RECORDS
    }
}
