//! The kind of a device by its first word, and how far the words of a kind were moved.

ghost use Rattle.std.specs.Prelude.{◌≡◌};
ghost use Rattle.std.specs.Option.{option_map};
ghost use Rattle.device_model.specs.Layouts.{kind_named};
ghost use Rattle.device_model.specs.Devices.{Device};
ghost use Rattle.shadow_index.specs.Tells.{IsLayoutOf};
ghost use Rattle.shadow_index.specs.Views.{kind_of};
ghost use Rattle.recovery.specs.Images.{shift_on};

use shadow_index::{DeviceKind, Layout};

/// The kind that word 0 names, on a device of a format.
pub(crate) fn kind_named(format: u8, word: u32) -> Option<DeviceKind>
    ensures { option_map kind_of result ≡ kind_named format word }
{
    if word == DeviceKind::Plain.magic() {
        return Some(DeviceKind::Plain);
    }
    if format == 1 {
        return None;
    }
    if word == DeviceKind::Paged.magic() {
        return Some(DeviceKind::Paged);
    }
    if word == DeviceKind::Migrated.magic() {
        return Some(DeviceKind::Migrated);
    }
    None
}

/// How far a migration moved the words of a device: 0 where there was none.
pub(crate) fn shift_of(layout: &Layout) -> u32
    requires { (d : Device) × IsLayoutOf d layout.now }
    ensures { (d : Device) → IsLayoutOf d layout.now → result ≡ shift_on d }
{
    match layout.kind() {
        DeviceKind::Plain | DeviceKind::Paged => 0,
        DeviceKind::Migrated => layout.root_at() - (layout.head_reads() - 1),
    }
}
