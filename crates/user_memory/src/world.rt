//! Words of frames that the world outside stores and looks at.

ghost use Rattle.std.specs.Prelude.{◌≡◌, ◌+◌, ◌^◌, ◌<◌};
ghost use Rattle.model.specs.Kernel.Steps.{place_of};
ghost use Rattle.model.specs.Kernel.World.{byte_seen, is_word_of_frame, word_seen, world_writes};
ghost use Rattle.objects.specs.Lives.{state_in};

use crate::filling::write_bytes;
use crate::plain_runs::MEMORY_BASE;
use cnode_ops::Kernel;
use slots::SlotStore;

/// How many bytes a frame has.
const PAGE_SIZE: u32 = 4096;

/// Where a physical address is in memory; at those below it is no frame.
fn place_of(address: u32) -> u32
    ensures place { result ≡ place_of address }
    ensures room { result + 3 < 2 ^ 32 }
{
    address.saturating_sub(MEMORY_BASE)
}

/// Whether the four bytes from a place on are all in one frame.
fn is_word_of_frame<S: SlotStore>(kernel: &Kernel<S>, place: u32) -> bool
    ensures { result ≡ is_word_of_frame (state_in S.slots S.memory kernel.now) place }
{
    kernel.live.is_frame(place - place % PAGE_SIZE) && place % PAGE_SIZE + 4 <= PAGE_SIZE
}

/// Stores a word from a place on, where all four bytes are in one frame. Elsewhere nothing changes.
#[tactic(auto, unfolding(model::specs::Kernel::World::world_writes))]
fn put_word<S: SlotStore>(kernel: &mut Kernel<S>, place: u32, word: u32)
    ensures state { state_in S.slots S.memory kernel.new ≡ world_writes (state_in S.slots S.memory kernel.old) place word }
    ensures tables { kernel.new.tables ≡ kernel.old.tables }
{
    if !is_word_of_frame(kernel, place) {
        return;
    }
    let live = &mut kernel.live;
    write_bytes(&mut live.store, place, &word.to_le_bytes());
}

/// Stores a word from a physical address on, where all four bytes are in one frame. Elsewhere nothing changes.
pub fn write_word<S: SlotStore>(kernel: &mut Kernel<S>, address: u32, word: u32)
    ensures state { state_in S.slots S.memory kernel.new ≡ world_writes (state_in S.slots S.memory kernel.old) (place_of address) word }
    ensures tables { kernel.new.tables ≡ kernel.old.tables }
{
    put_word(kernel, place_of(address), word);
}

/// The byte of a frame at a place, or 0.
fn byte_seen<S: SlotStore>(kernel: &Kernel<S>, place: u32) -> u8
    ensures { result ≡ byte_seen (state_in S.slots S.memory kernel.now) place }
{
    kernel.live.byte(place).unwrap_or(0)
}

/// The word from a physical address on, of which bytes that are in no frame are 0.
#[tactic(auto, unfolding(model::specs::Kernel::World::word_seen))]
pub fn read_word<S: SlotStore>(kernel: &Kernel<S>, address: u32) -> u32
    ensures { result ≡ word_seen (state_in S.slots S.memory kernel.now) (place_of address) }
{
    let place = place_of(address);
    u32::from_le_bytes([
        byte_seen(kernel, place),
        byte_seen(kernel, place + 1),
        byte_seen(kernel, place + 2),
        byte_seen(kernel, place + 3),
    ])
}
