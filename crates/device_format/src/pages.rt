//! The pages of a state that is written anew: its index in copy 0 of each, and 0 in copy 1.

ghost use Rattle.std.specs.Prelude.{ℕ, ◌≡◌, ◌+◌, ◌*◌, ◌<◌, ◌≤◌, ◌^◌, OnOk, OnErr, length};
ghost use Rattle.nv_base.specs.Streams.{FaultCounted};
ghost use Rattle.device_model.specs.Words.{Words};
ghost use Rattle.device_model.specs.Layouts.{copy_place, index_reads};
ghost use Rattle.device_model.specs.IndexWords.{index_word};
ghost use Rattle.device_model.specs.Devices.{layout_on, need_on};
ghost use Rattle.device_format.specs.Puts.{HasPut, HasPutFront};
ghost use Rattle.device_format.specs.Fresh.{HasPage, HasPages};
ghost use Rattle.device_format.specs.Shown.{IsTable, device_in};

use crate::fresh::Fresh;
use crate::puts::put_zeros;
use fram_dev::{Fram, Lost};
use shadow_index::Layout;
use task_set::TaskSet;

/// Puts all pages. `Lost` where the device loses a write.
pub(crate) fn put_pages<F: Fram, S: Fresh>(
    dev: &mut F,
    set: &TaskSet,
    places: &Layout,
    state: &S,
) -> Result<(), Lost>
    requires table { IsTable set.now places.now }
    requires fits { S.fits state.now set.now }
    requires room { need_on (device_in set.now places.now) ≤ length (F.start dev.old) }
    requires small { need_on (device_in set.now places.now) < 2 ^ 32 }
    ensures put { (w : Words) → let l = layout_on (device_in set.now places.now) in
        HasPages l (S.index state.now set.now) w
        → OnOk result (HasPut w l.pages_at (2 * index_reads l) (F.log dev.old) (F.log dev.new)) }
    ensures front { (w : Words) → let l = layout_on (device_in set.now places.now) in
        HasPages l (S.index state.now set.now) w → OnErr result
        (HasPutFront w l.pages_at (2 * index_reads l) (F.log dev.old) (F.log dev.new)) }
    ensures same { F.start dev.new ≡ F.start dev.old }
    ensures failed { OnErr result (FaultCounted (F.lost dev.old) (F.lost dev.new)) }
    ensures never_falls { F.lost dev.old ≤ F.lost dev.new }
{
    for page in 0..places.pages() {
        put_page(dev, set, places, state, page)?;
    }
    Ok(())
}

/// Puts both copies of a page.
fn put_page<F: Fram, S: Fresh>(
    dev: &mut F,
    set: &TaskSet,
    places: &Layout,
    state: &S,
    page: u8,
) -> Result<(), Lost>
    requires table { IsTable set.now places.now }
    requires fits { S.fits state.now set.now }
    requires room { need_on (device_in set.now places.now) ≤ length (F.start dev.old) }
    requires small { need_on (device_in set.now places.now) < 2 ^ 32 }
    requires page { page < (layout_on (device_in set.now places.now)).pages }
    ensures put { (w : Words) → let l = layout_on (device_in set.now places.now) in
        HasPage l (S.index state.now set.now) page w → OnOk result
        (HasPut w (copy_place l page 0 0) (2 * l.page_words) (F.log dev.old) (F.log dev.new)) }
    ensures front { (w : Words) → let l = layout_on (device_in set.now places.now) in
        HasPage l (S.index state.now set.now) page w → OnErr result
        (HasPutFront w (copy_place l page 0 0) (2 * l.page_words) (F.log dev.old) (F.log dev.new)) }
    ensures same { F.start dev.new ≡ F.start dev.old }
    ensures failed { OnErr result (FaultCounted (F.lost dev.old) (F.lost dev.new)) }
    ensures never_falls { F.lost dev.old ≤ F.lost dev.new }
{
    let words = places.page_words();
    put_index(
        dev,
        set,
        state,
        places.page_at(page, 0),
        u32::from(page) * words,
        words,
    )?;
    put_zeros(dev, places.page_at(page, 1), words)
}

/// Puts so many index words from one on.
fn put_index<F: Fram, S: Fresh>(
    dev: &mut F,
    set: &TaskSet,
    state: &S,
    at: u32,
    first: u32,
    count: u32,
) -> Result<(), Lost>
    requires fits { S.fits state.now set.now }
    requires room { at + count ≤ length (F.start dev.old) }
    requires small { at + count < 2 ^ 32 }
    requires words { first + count < 2 ^ 32 }
    ensures put { (w : Words)
        → ((i : ℕ) → i < count → w (at + i) ≡ index_word (S.index state.now set.now) (first + i))
        → OnOk result (HasPut w at count (F.log dev.old) (F.log dev.new)) }
    ensures front { (w : Words)
        → ((i : ℕ) → i < count → w (at + i) ≡ index_word (S.index state.now set.now) (first + i))
        → OnErr result (HasPutFront w at count (F.log dev.old) (F.log dev.new)) }
    ensures same { F.start dev.new ≡ F.start dev.old }
    ensures failed { OnErr result (FaultCounted (F.lost dev.old) (F.lost dev.new)) }
    ensures never_falls { F.lost dev.old ≤ F.lost dev.new }
{
    for i in 0..count {
        let word = state.fresh_word(set, first + i);
        dev.write(at + i, word)?;
    }
    Ok(())
}
