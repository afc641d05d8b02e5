//! The slots of components, in the order of the components.
ghost use Rattle.std.specs.Prelude.{◌≡◌, ℕ, ◌+◌, ◌<◌, ◌≤◌, ◌^◌, IfOk, OnOk, length, remove, slice_index_or, vec_capacity, vec_len};
ghost use Rattle.cls_live.specs.Slots.{AreRising, component_of, first_slots};

use cls_base::OutOfMemory;
use std::alloc::Global;

/// The first slots, one for each component of a library that didn't change yet.
pub(crate) fn slots_of(alloc: Global, count: u32) -> Result<Vec<u32>, OutOfMemory>
    ensures { IfOk result (λ live. live.items ≡ first_slots count) }
{
    let mut live = Vec::with_capacity(alloc, count as usize)?;
    for slot in 0..count {
        live.push(slot)?;
    }
    Ok(live)
}

/// Makes room for one slot more. The only error is out of memory, also where no number is left for a later slot.
pub(crate) fn make_room(live: &mut Vec<u32>, next: u32) -> Result<(), OutOfMemory>
    ensures same { live.new.items ≡ live.old.items }
    ensures room { OnOk result (vec_len live.new < vec_capacity live.new) }
    ensures next { OnOk result (next + 1 < 2 ^ 32) }
{
    if next >= u32::MAX {
        return Err(OutOfMemory);
    }
    live.reserve(1)?;
    Ok(())
}

/// Takes out the slot of a component, if there is one. It takes no memory.
pub(crate) fn remove_slot(live: &mut Vec<u32>, x: u32)
    ensures { x < length live.old.items → live.new.items ≡ remove live.old.items x }
{
    if (x as usize) < live.len() {
        live.remove(x as usize);
    }
}

/// How many slots are below this one.
pub(crate) fn count_below(live: &[u32], slot: u32) -> usize
    requires { AreRising 0 live.now }
    ensures within { result ≤ length live.now }
    ensures before { (k : ℕ) → k < result → slice_index_or live.now k 0 < slot }
    ensures here { (k : ℕ) → result ≤ k → k < length live.now → slot ≤ slice_index_or live.now k 0 }
{
    match live.binary_search(&slot) {
        Ok(place) => place,
        Err(place) => place,
    }
}

/// The component with the slot, if there is one.
pub(crate) fn component_with(live: &[u32], slot: u32) -> Option<u32>
    requires rising { AreRising 0 live.now }
    requires few { length live.now < 2 ^ 32 }
    ensures { result ≡ component_of live.now slot }
{
    let place = count_below(live, slot);
    if place >= live.len() {
        return None;
    }
    if live[place] != slot {
        return None;
    }
    Some(place as u32)
}
