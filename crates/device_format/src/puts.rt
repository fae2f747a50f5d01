//! Words that are put at places one behind another.

ghost use Rattle.std.specs.Prelude.{ℕ, ◌≡◌, ◌+◌, ◌<◌, ◌≤◌, ◌^◌, OnOk, OnErr, length, slice_index};
ghost use Rattle.nv_base.specs.Streams.{FaultCounted};
ghost use Rattle.fram_dev.specs.Device.{made_in};
ghost use Rattle.device_model.specs.Words.{Words};
ghost use Rattle.device_format.specs.Puts.{HasPut, HasPutFront};

use fram_dev::{Fram, Lost};

/// Puts 0 at so many places. `Lost` where the device loses a write.
pub(crate) fn put_zeros<F: Fram>(dev: &mut F, at: u32, count: u32) -> Result<(), Lost>
    requires room { at + count ≤ length (F.start dev.old) }
    requires small { at + count < 2 ^ 32 }
    ensures put { (w : Words) → ((i : ℕ) → i < count → w (at + i) ≡ 0)
        → OnOk result (HasPut w at count (F.log dev.old) (F.log dev.new)) }
    ensures front { (w : Words) → ((i : ℕ) → i < count → w (at + i) ≡ 0)
        → OnErr result (HasPutFront w at count (F.log dev.old) (F.log dev.new)) }
    ensures same { F.start dev.new ≡ F.start dev.old }
    ensures failed { OnErr result (FaultCounted (F.lost dev.old) (F.lost dev.new)) }
    ensures never_falls { F.lost dev.old ≤ F.lost dev.new }
{
    for i in 0..count {
        dev.write(at + i, 0)?;
    }
    Ok(())
}

/// Puts words from a place on. `Lost` where the device loses a write.
pub(crate) fn put_words<F: Fram>(dev: &mut F, at: u32, words: &[u32]) -> Result<(), Lost>
    requires room { at + length words.now ≤ length (F.start dev.old) }
    requires small { at + length words.now < 2 ^ 32 }
    ensures put { (w : Words)
        → ((i : ℕ) → i < length words.now → w (at + i) ≡ slice_index words.now i)
        → OnOk result (HasPut w at (length words.now) (F.log dev.old) (F.log dev.new)) }
    ensures front { (w : Words)
        → ((i : ℕ) → i < length words.now → w (at + i) ≡ slice_index words.now i)
        → OnErr result (HasPutFront w at (length words.now) (F.log dev.old) (F.log dev.new)) }
    ensures same { F.start dev.new ≡ F.start dev.old }
    ensures failed { OnErr result (FaultCounted (F.lost dev.old) (F.lost dev.new)) }
    ensures never_falls { F.lost dev.old ≤ F.lost dev.new }
{
    for i in 0..words.len() {
        dev.write(at + i as u32, words[i])?;
    }
    Ok(())
}

/// Puts the words that stand from a place on at other places, all behind them. `Lost` where the device loses a call.
pub(crate) fn copy_words<F: Fram>(dev: &mut F, from: u32, at: u32, count: u32) -> Result<(), Lost>
    requires apart { from + count ≤ at }
    requires room { at + count ≤ length (F.start dev.old) }
    requires small { at + count < 2 ^ 32 }
    ensures put { (w : Words)
        → ((i : ℕ) → i < count
        → w (at + i) ≡ slice_index (made_in (F.log dev.old) (F.start dev.old)) (from + i))
        → OnOk result (HasPut w at count (F.log dev.old) (F.log dev.new)) }
    ensures front { (w : Words)
        → ((i : ℕ) → i < count
        → w (at + i) ≡ slice_index (made_in (F.log dev.old) (F.start dev.old)) (from + i))
        → OnErr result (HasPutFront w at count (F.log dev.old) (F.log dev.new)) }
    ensures same { F.start dev.new ≡ F.start dev.old }
    ensures failed { OnErr result (FaultCounted (F.lost dev.old) (F.lost dev.new)) }
    ensures never_falls { F.lost dev.old ≤ F.lost dev.new }
{
    for i in 0..count {
        let word = dev.read(from + i)?;
        dev.write(at + i, word)?;
    }
    Ok(())
}
