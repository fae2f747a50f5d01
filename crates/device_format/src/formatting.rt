//! A format: the words of a set's first state, in order of place, and the magic last.

ghost use Rattle.std.specs.Prelude.{ℕ, ◌≡◌, ◌≢◌, ◌-◌, ◌<◌, ◌≤◌, ◌^◌, ◌++◌, OnOk, OnErr, IsErrOf, length};
ghost use Rattle.nv_base.specs.Streams.{FaultCounted};
ghost use Rattle.set_model.specs.Limits.{IsTaskSet};
ghost use Rattle.set_model.specs.Numbers.{first_index};
ghost use Rattle.device_model.specs.Layouts.{Migrated};
ghost use Rattle.device_model.specs.Formats.{format_word};
ghost use Rattle.device_model.specs.Devices.{format_on, layout_on, need_on};
ghost use Rattle.shadow_index.specs.Tells.{device_of};
ghost use Rattle.shadow_index.specs.Views.{kind_of};
ghost use Rattle.device_format.specs.Puts.{HasFront, HasPut, HasPutFront};
ghost use Rattle.device_format.specs.Shown.{IsTable, device_in};

use crate::pages::put_pages;
use crate::slots::put_first_objects;
use fram_dev::{Fram, Lost};
use shadow_index::{Layout, need};
use task_set::TaskSet;

/// Why a device was not formatted.
#[derive(Clone, Copy, PartialEq, Eq, Debug)]
pub enum FormatRefusal {
    /// The device has fewer words than the set needs. Nothing was written.
    Small {
        /// How many words the set needs.
        need: u32,
        /// How many words the device has.
        len: u32,
    },
    /// The device lost a write.
    Lost,
}

/// Makes a device one of a set, in its first state. `Small` where the device has too few words; `Lost` where it loses
/// a write: then the first writes of the format are made, and no others.
pub fn format<F: Fram>(dev: &mut F, set: &TaskSet) -> Result<(), FormatRefusal>
    ensures small { let need = need_on (device_of set.now 0) in
        let len = length (F.start dev.old) in
        len < need → (result ≡ Err (FormatRefusal.Small need len))
        × (F.log dev.new ≡ F.log dev.old) × (F.lost dev.new ≡ F.lost dev.old) }
    ensures large { need_on (device_of set.now 0) ≤ length (F.start dev.old)
        → OnErr result (IsErrOf result FormatRefusal.Lost) }
    ensures whole { OnOk result
        (F.log dev.new ≡ F.log dev.old ++ format_on (device_of set.now 0)) }
    ensures front { IsErrOf result FormatRefusal.Lost
        → HasFront (format_on (device_of set.now 0)) (F.log dev.old) (F.log dev.new) }
    ensures failed { IsErrOf result FormatRefusal.Lost
        → FaultCounted (F.lost dev.old) (F.lost dev.new) }
    ensures same { F.start dev.new ≡ F.start dev.old }
    ensures never_falls { F.lost dev.old ≤ F.lost dev.new }
{
    let need = need(set);
    let len = dev.len();
    if len < need {
        return Err(FormatRefusal::Small { need, len });
    }
    match write_format(dev, set) {
        Ok(()) => Ok(()),
        Err(_) => Err(FormatRefusal::Lost),
    }
}

/// All writes of a format.
fn write_format<F: Fram>(dev: &mut F, set: &TaskSet) -> Result<(), Lost>
    requires room { need_on (device_of set.now 0) ≤ length (F.start dev.old) }
    requires small { need_on (device_of set.now 0) < 2 ^ 32 }
    ensures whole { OnOk result
        (F.log dev.new ≡ F.log dev.old ++ format_on (device_of set.now 0)) }
    ensures front { OnErr result
        (HasFront (format_on (device_of set.now 0)) (F.log dev.old) (F.log dev.new)) }
    ensures same { F.start dev.new ≡ F.start dev.old }
    ensures failed { OnErr result (FaultCounted (F.lost dev.old) (F.lost dev.new)) }
    ensures never_falls { F.lost dev.old ≤ F.lost dev.new }
{
    // that the set keeps its limits
    let _ = set.format();
    let places = Layout::of(set, 0);
    dev.write(0, 0)?;
    put_formatted(dev, set, &places)?;
    dev.write(0, places.kind().magic())
}

/// Each word but word 0.
fn put_formatted<F: Fram>(dev: &mut F, set: &TaskSet, places: &Layout) -> Result<(), Lost>
    requires set { IsTaskSet set.now }
    requires table { IsTable set.now places.now }
    requires kind { kind_of places.now.kind ≢ Migrated }
    requires room { need_on (device_in set.now places.now) ≤ length (F.start dev.old) }
    requires small { need_on (device_in set.now places.now) < 2 ^ 32 }
    ensures put { let d = device_in set.now places.now in OnOk result
        (HasPut (format_word (layout_on d) set.now) 1 (need_on d - 1)
        (F.log dev.old) (F.log dev.new)) }
    ensures front { let d = device_in set.now places.now in OnErr result
        (HasPutFront (format_word (layout_on d) set.now) 1 (need_on d - 1)
        (F.log dev.old) (F.log dev.new)) }
    ensures same { F.start dev.new ≡ F.start dev.old }
    ensures failed { OnErr result (FaultCounted (F.lost dev.old) (F.lost dev.new)) }
    ensures never_falls { F.lost dev.old ≤ F.lost dev.new }
{
    put_head(dev, set, places)?;
    put_pages(dev, set, places, set)?;
    put_first_objects(dev, set, places)
}

/// Each word before the pages but word 0.
fn put_head<F: Fram>(dev: &mut F, set: &TaskSet, places: &Layout) -> Result<(), Lost>
    requires table { IsTable set.now places.now }
    requires kind { kind_of places.now.kind ≢ Migrated }
    requires room { need_on (device_in set.now places.now) ≤ length (F.start dev.old) }
    ensures put { let l = layout_on (device_in set.now places.now) in OnOk result
        (HasPut (format_word l set.now) 1 (l.pages_at - 1) (F.log dev.old) (F.log dev.new)) }
    ensures front { let l = layout_on (device_in set.now places.now) in OnErr result
        (HasPutFront (format_word l set.now) 1 (l.pages_at - 1) (F.log dev.old) (F.log dev.new)) }
    ensures same { F.start dev.new ≡ F.start dev.old }
    ensures failed { OnErr result (FaultCounted (F.lost dev.old) (F.lost dev.new)) }
    ensures never_falls { F.lost dev.old ≤ F.lost dev.new }
{
    let root = places.root_at();
    if root == 1 {
        return put_header(dev, set, places, places.head_reads());
    }
    put_header(dev, set, places, root)?;
    dev.write(root, places.first_root())
}

/// The words of the header behind word 0, before a place.
fn put_header<F: Fram>(dev: &mut F, set: &TaskSet, places: &Layout, end: u32) -> Result<(), Lost>
    requires table { IsTable set.now places.now }
    requires end { end ≡ first_index set.now }
    requires room { need_on (device_in set.now places.now) ≤ length (F.start dev.old) }
    ensures put { let l = layout_on (device_in set.now places.now) in OnOk result
        (HasPut (format_word l set.now) 1 (end - 1) (F.log dev.old) (F.log dev.new)) }
    ensures front { let l = layout_on (device_in set.now places.now) in OnErr result
        (HasPutFront (format_word l set.now) 1 (end - 1) (F.log dev.old) (F.log dev.new)) }
    ensures same { F.start dev.new ≡ F.start dev.old }
    ensures failed { OnErr result (FaultCounted (F.lost dev.old) (F.lost dev.new)) }
    ensures never_falls { F.lost dev.old ≤ F.lost dev.new }
{
    for at in 1..end {
        dev.write(at, places.header_word(set, at))?;
    }
    Ok(())
}
