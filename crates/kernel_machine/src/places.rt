//! Where untyped memory may lie.

ghost use Rattle.std.specs.Prelude.{ℕ, ◌≡◌, ◌/◌, ◌^◌, ◌≤◌, ◌&&◌, length, nat_le, nat_lt, not};
ghost use Rattle.kernel_machine.specs.Setups.{is_piece, reaches_behind};
ghost use Rattle.model.specs.Capabilities.CapabilityWords.{IsCapability};
ghost use Rattle.model.specs.Capabilities.Slots.{is_full};
ghost use Rattle.model.specs.Kernel.Setup.{memory_end};

use model::{Cap, Slot};
use slots::{SlotStore, is_taken};

/// Whether 2^`bits` bytes may be untyped memory at an offset of memory of this size: 2^4 to 2^24, and
/// aligned.
fn is_piece(size: u32, offset: u32, bits: u8) -> bool
    requires { size ≤ 2 ^ 24 }
    ensures { result ≡ is_piece size offset bits }
{
    4 <= bits
        && bits <= 24
        && offset % (1 << bits) == 0
        && u64::from(offset) + (1 << bits) <= u64::from(size)
}

/// Where the memory ends that a capability names, untyped or an object's: 0, if it names none.
fn memory_end(capability: Cap) -> u32
    requires { IsCapability capability }
    ensures { result ≡ memory_end capability }
{
    match capability {
        Cap::Untyped { offset, bits, .. } => offset + (1 << bits),
        Cap::Endpoint { offset, .. } | Cap::Notification { offset, .. } => offset + 16,
        Cap::CNode { offset, radix, .. } => offset + (1 << (radix + 4)),
        Cap::Tcb { offset } => offset + 512,
        Cap::Frame { offset, .. } | Cap::PageTable { offset, .. } | Cap::RootTable { offset } => {
            offset + 4096
        }
        Cap::Empty | Cap::InterruptControl | Cap::InterruptHandler { .. } => 0,
    }
}

/// Whether some memory that a capability names ends after an offset.
fn reaches_behind<S: SlotStore>(store: &S, offset: u32) -> bool
    ensures { result ≡ reaches_behind (S.slots store.now) (length (S.memory store.now) / 16) offset }
{
    let mut at = None;
    'slots: loop {
        let Some(slot) = store.next_full(at) else {
            return false;
        };
        prove!(slot.number() < store.count());
        if offset < memory_end(store.capability(slot)) {
            return true;
        }
        at = Some(slot);
    }
}

/// Whether untyped memory may lie at an offset, from `first` on and after all that is there.
pub(crate) fn may_be_untyped<S: SlotStore>(store: &S, first: u32, offset: u32, bits: u8) -> bool
    ensures { result ≡ (is_piece (length (S.memory store.now)) offset bits && nat_le first offset
        && not (reaches_behind (S.slots store.now) (length (S.memory store.now) / 16) offset)) }
{
    is_piece(store.mem().len(), offset, bits) && first <= offset && !reaches_behind(store, offset)
}

/// Whether a slot is empty, and one of the first `count`.
pub(crate) fn is_free<S: SlotStore>(store: &S, count: u32, index: u32) -> bool
    requires { count ≤ 2 ^ 14 }
    ensures { result ≡ (nat_lt index count && not (is_full (S.slots store.now) index)) }
{
    index < count && !is_taken(store, Slot::new(index))
}
