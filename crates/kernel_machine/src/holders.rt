//! Slots by what holds them: the boot CNode, the interrupt table, CNodes and threads.

ghost use Rattle.std.specs.Prelude.{ℕ, ◌≡◌, ◌+◌, ◌^◌, ◌<◌, ◌≤◌, IfSome, option_map};
ghost use Rattle.kernel_machine.specs.Setups.{IsPlace, entry_of, number_of, seen_entry, slot_in, slots_of_holder};
ghost use Rattle.model.specs.Kernel.Soundness.{HasSlot, IsSound};
ghost use Rattle.objects.specs.Lives.{state_in};

use cnode_ops::Kernel;
use model::{Cap, Slot};
use slots::SlotStore;

/// How many interrupt lines there are, each with a slot after those of the boot CNode.
pub(crate) const LINES: u32 = 64;

/// How many slots the boot CNode has.
#[tactic(auto, unfolding(objects::specs::Tables::state_of))]
pub(crate) fn boot_slots<S: SlotStore>(kernel: &Kernel<S>) -> u32
    ensures value { result ≡ 2 ^ (state_in S.slots S.memory kernel.now).boot_radix }
    ensures most { result ≤ 2 ^ 14 }
{
    1 << kernel.live.boot_radix()
}

/// How many slots a holder has: none, if there is no such holder.
fn count_slots<S: SlotStore>(kernel: &Kernel<S>, holder: u32) -> u32
    ensures { result ≡ slots_of_holder (state_in S.slots S.memory kernel.now) holder }
{
    let count = boot_slots(kernel);
    if holder == 0 {
        count
    } else if holder == 16 * count {
        LINES
    } else {
        kernel.live.slots_of(holder)
    }
}

/// What the slot so many after another holds, and the slot that it was derived from.
fn entry_behind<S: SlotStore>(store: &S, first: u32, index: u32) -> Option<(Cap, Option<Slot>)>
    ensures { option_map entry_of result ≡ S.slots store.now (first + index) }
{
    let count = store.count();
    if first >= count || index >= count - first {
        return None;
    }
    let slot = Slot::new(first + index);
    if !store.is_open(slot) {
        return None;
    }
    Some(store.get(slot))
}

/// The holder of a slot, and which of its slots it is.
fn place_of<S: SlotStore>(kernel: &Kernel<S>, slot: Slot) -> (u32, u32)
    requires sound { IsSound (state_in S.slots S.memory kernel.now) }
    requires held { HasSlot (state_in S.slots S.memory kernel.now) slot }
    ensures number { number_of result ≡ slot }
    ensures inside { IsPlace (state_in S.slots S.memory kernel.now) result }
{
    let number = slot.number();
    'slots: for index in 0..number {
        let holder = 16 * (number - index);
        if index < count_slots(kernel, holder) {
            return (holder, index);
        }
    }
    (0, number)
}

/// What a slot of a holder holds, and the holder and number of the slot that it was derived from.
pub(crate) fn look_at<S: SlotStore>(
    kernel: &Kernel<S>,
    holder: u32,
    index: u32,
) -> Option<(Cap, Option<(u32, u32)>)>
    ensures held { option_map seen_entry result ≡ slot_in (state_in S.slots S.memory kernel.now) holder index }
    ensures parent { IfSome result (λ seen. IfSome seen.1 (IsPlace (state_in S.slots S.memory kernel.now))) }
{
    if index >= count_slots(kernel, holder) {
        return None;
    }
    let live = &kernel.live;
    let Some((capability, parent)) = entry_behind(&live.store, holder / 16, index) else {
        return None;
    };
    match parent {
        Some(slot) => Some((capability, Some(place_of(kernel, slot)))),
        None => Some((capability, None)),
    }
}
