//! Of which device words are that hold a state, and that they hold one alone.

ghost use Rattle.std.specs.Prelude.{◌≡◌};
ghost use Rattle.set_model.specs.Sets.{TaskSet};
ghost use Rattle.set_model.specs.Limits.{IsTaskSet};
ghost use Rattle.device_model.specs.Words.{Words};
ghost use Rattle.device_model.specs.Layouts.{Migrated, magic_of, reads};
ghost use Rattle.device_model.specs.Decoding.{Held};
ghost use Rattle.device_model.specs.Devices.{Device, HoldsOn, held_on, layout_on, migrated};
ghost use Rattle.shadow_index.specs.Tells.{IsShift, device_of};
ghost use Rattle.shadow_index.specs.declared.state.State.{State};
ghost use Rattle.recovery.specs.declared.reader.Reader.{Reader};
ghost use Rattle.recovery.specs.Images.{IsOwn, IsStateOn, IsUnmoved, device_at, shift_on};
ghost use Rattle.recovery.specs.Reading.{HasRead};

/// Words that hold a state are of the device that word 0 names, and they hold no other state.
pub fn words_hold_one_state()
    ensures device { (d : Device) (h : Held) (words : Words)
        → HoldsOn d h words → device_at d.set words ≡ d }
    ensures once { (d : Device) (g h : Held) (words : Words)
        → HoldsOn d g words → HoldsOn d h words → g ≡ h }
{}

/// Once all words were read, they are those of a state, and this is what was taken.
pub fn words_read_are_state()
    ensures { (d : Device) (words : Words) (reader : Reader) (into : State)
        → HasRead d words reader into → reader.count ≡ reads (layout_on d)
        → HoldsOn d (held_on d words) words × IsStateOn d (held_on d words) into }
{}

/// How far the words were moved tells the device, but where those of format 1 stand for a set of format 2.
pub fn shift_tells_device()
    ensures moved { (d : Device) (h : Held) (words : Words)
        → IsTaskSet d.set → IsOwn d.set words → HoldsOn d h words → IsShift d.set (shift_on d) }
    ensures device { (d : Device) (h : Held) (words : Words)
        → IsTaskSet d.set → IsOwn d.set words → HoldsOn d h words
        → device_of d.set (shift_on d) ≡ d }
{}

/// Where word 0 names no kind, or the one that a format writes, the device is the first one of its set.
pub fn unmoved_words_are_first_device()
    ensures { (set : TaskSet) (words : Words) → IsTaskSet set
        → IsUnmoved set words → device_at set words ≡ device_of set 0 }
{}

/// Words that a migration leaves are those of a device of format 2 behind the words of format 1.
pub fn moved_words_are_migrated_device()
    ensures own { (set : TaskSet) (words : Words) → words 0 ≡ magic_of Migrated → IsOwn set words }
    ensures device { (set : TaskSet) (words : Words) → set.format ≡ 2
        → words 0 ≡ magic_of Migrated → device_at set words ≡ migrated set }
{}
