//! Bytes that a frame starts with. seL4 Reference Manual, "System Bootstrapping".

ghost use Rattle.std.specs.Prelude.{◌≡◌, ◌&&◌, None, Some, false, if◌then◌else◌, length, nat_le};
ghost use Rattle.model.specs.Kernel.AddressSpaces.{page_size};
ghost use Rattle.model.specs.Kernel.Setup.{fill, is_frame_object};
ghost use Rattle.objects.specs.Lives.{state_in};
ghost use Rattle.user_memory.specs.Fills.{AreWritten, IsBesideSlots};

use cnode_ops::Kernel;
use slots::SlotStore;

/// How many bytes a frame has.
const PAGE_SIZE: usize = 4096;

/// Writes bytes into memory from an offset on, where no slot is open.
pub(crate) fn write_bytes<S: SlotStore>(store: &mut S, offset: u32, bytes: &[u8])
    requires { IsBesideSlots (S.slots store.old) (S.memory store.old) offset (length bytes.now) }
    ensures slots { S.slots store.new ≡ S.slots store.old }
    ensures bytes { AreWritten (S.memory store.old) (S.memory store.new) offset (length bytes.now) bytes.now }
{
    let count = bytes.len() as u32;
    'bytes: for index in 0..count {
        store.write8(offset + index, bytes[index as usize]);
    }
}

/// Whether a frame starts at an offset, and is no smaller than the bytes.
fn may_fill<S: SlotStore>(kernel: &Kernel<S>, offset: u32, bytes: &[u8]) -> bool
    ensures { result ≡ (is_frame_object ((state_in S.slots S.memory kernel.now).objects offset)
        && nat_le (length bytes.now) page_size) }
{
    kernel.live.is_frame(offset) && bytes.len() <= PAGE_SIZE
}

/// Writes at most a page of bytes from the beginning of a frame on. Where no frame starts at the offset, or
/// there are more bytes, the answer is false, and nothing changes.
pub fn fill<S: SlotStore>(kernel: &mut Kernel<S>, offset: u32, bytes: &[u8]) -> bool
    ensures outcome { fill (state_in S.slots S.memory kernel.old) offset bytes.now
        ≡ (if result then Some (state_in S.slots S.memory kernel.new) else None) }
    ensures unchanged { result ≡ false → kernel.new ≡ kernel.old }
    ensures tables { kernel.new.tables ≡ kernel.old.tables }
{
    if !may_fill(kernel, offset, bytes) {
        return false;
    }
    let live = &mut kernel.live;
    write_bytes(&mut live.store, offset, bytes);
    true
}
