//! The kinds of device.

ghost use Rattle.std.specs.Prelude.{◌≡◌, ◌≤◌, ◌+◌, if◌then◌else◌};
ghost use Rattle.shadow_index.specs.Views.{first_kind, heads, kind_of};
ghost use Rattle.device_model.specs.Layouts.{magic_of};

use crate::bounds::{MAX_FIRST_INDEX, MAX_HEAD_READS};

/// The kinds of device.
#[derive(Clone, Copy, PartialEq, Eq, Debug)]
pub enum DeviceKind {
    /// Format 1: the index as one page.
    Plain,
    /// Format 2: the index in pages, with the root behind the code.
    Paged,
    /// Format 2 behind all words of format 1.
    Migrated,
}

impl DeviceKind {
    /// The word 0 of a device of this kind.
    pub fn magic(self) -> u32
        ensures { result ≡ magic_of (kind_of self) }
    {
        match self {
            DeviceKind::Plain => 0x314B_564E,
            DeviceKind::Paged => 0x324B_564E,
            DeviceKind::Migrated => 0x4D4B_564E,
        }
    }

    /// The kind of a device that no migration wrote, by the format of its set.
    pub(crate) fn of_format(format: u8) -> DeviceKind
        ensures { kind_of result ≡ first_kind format }
    {
        if format == 1 {
            DeviceKind::Plain
        } else {
            DeviceKind::Paged
        }
    }

    /// How many words are read before the pages: the root stands behind the header but in format 1.
    pub(crate) fn head_reads(self, first_index: u32) -> u32
        requires { first_index ≤ MAX_FIRST_INDEX }
        ensures exact { result ≡ heads (kind_of self) first_index }
        ensures small { result ≤ MAX_HEAD_READS }
    {
        match self {
            DeviceKind::Plain => first_index,
            DeviceKind::Paged | DeviceKind::Migrated => first_index + 1,
        }
    }
}
