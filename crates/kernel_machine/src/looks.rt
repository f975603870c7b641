//! Registers, bytes and memory, as they are looked at.

ghost use Rattle.std.specs.Prelude.{ℕ, ◌≡◌, ◌^◌, ◌≤◌, None, option_and_then};
ghost use Rattle.kernel_machine.specs.Setups.{register_in};
ghost use Rattle.objects.specs.Lives.{state_in};
ghost use Rattle.model.specs.Kernel.State.{ThreadState, as_thread};

use cnode_ops::Kernel;
use model::Register;
use rv32_exec::Regs;
use slots::SlotStore;

/// The program counter by index 0, and else the register of this index, 1 to 31.
fn register_in(registers: &Regs, index: u8) -> Option<u32>
    ensures { (t : ThreadState) → t.registers ≡ registers.now → result ≡ register_in t index }
{
    if index == 0 {
        Some(registers.pc())
    } else if index <= 31 {
        Some(registers.read(Register(index)))
    } else {
        None
    }
}

/// A register of the thread at an offset: its program counter by index 0, and else that of this index, 1 to 31.
pub(crate) fn register_of<S: SlotStore>(kernel: &Kernel<S>, thread: u32, index: u8) -> Option<u32>
    ensures { result ≡ option_and_then (λ t. register_in t index) (as_thread ((state_in S.slots S.memory kernel.now).objects thread)) }
{
    if !kernel.live.is_thread(thread) {
        return None;
    }
    register_in(&kernel.registers(thread), index)
}

/// The byte at an offset of memory, if it is one of a frame.
pub(crate) fn byte_at<S: SlotStore>(kernel: &Kernel<S>, offset: u32) -> Option<u8>
    ensures { result ≡ (state_in S.slots S.memory kernel.now).bytes offset }
{
    kernel.live.byte(offset)
}

/// How many bytes of memory there are. No object lies beyond them.
pub(crate) fn memory_size<S: SlotStore>(kernel: &Kernel<S>) -> u32
    ensures value { result ≡ 2 ^ (state_in S.slots S.memory kernel.now).memory_bits }
    ensures inside { (place : ℕ) → result ≤ place → (state_in S.slots S.memory kernel.now).objects place ≡ None }
{
    let live = &kernel.live;
    live.store.mem().len()
}
