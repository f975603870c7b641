//! What a system is seen to be.

ghost use Rattle.std.specs.Prelude.{◌≡◌, option_and_then};
ghost use Rattle.kernel_machine.specs.Setups.{state_in};
ghost use Rattle.kernel_machine.specs.Stores.{bytes_of};
ghost use Rattle.model.specs.Kernel.AddressSpaces.{vspace_of};
ghost use Rattle.model.specs.Kernel.Scheduling.{current};
ghost use Rattle.model.specs.Kernel.State.{thread_at};
ghost use Rattle.model.specs.Kernel.Steps.{registers_of};
ghost use Rattle.model.specs.Machine.Sv32.{walk};
ghost use Rattle.objects.specs.thread_records.Threads.{status_of};

use kernel::System;
use model::Access;
use objects::Status;
use slots::SlotStore;
use sv32::walk;
use user_memory::root_of;

/// The thread that runs next, by the offset of its TCB.
pub fn current(system: &System) -> Option<u32>
    ensures { result ≡ current (state_in system.now) }
{
    let machine = system.machine();
    let kernel = &machine.kernel;
    kernel.live.current()
}

/// The program counter of a thread.
pub(crate) fn pc_of(system: &System, thread: u32) -> u32
    ensures { result ≡ (registers_of (state_in system.now) thread).pc }
{
    let machine = system.machine();
    machine.kernel.pc(thread)
}

/// Whether a thread runs, and else what it waits for.
pub fn status(system: &System, thread: u32) -> Status
    ensures { status_of result ≡ (thread_at (state_in system.now) thread).status }
{
    let machine = system.machine();
    let kernel = &machine.kernel;
    kernel.live.status(thread)
}

/// The place in memory that an address names for an access of a thread: what the walk through its page tables finds.
pub fn place_seen(system: &System, thread: u32, address: u32, access: Access) -> Option<u32>
    ensures { result ≡ option_and_then (λ root. walk (bytes_of system.now.store) root address access) (vspace_of (state_in system.now) thread) }
{
    let machine = system.machine();
    let kernel = &machine.kernel;
    let root = root_of(kernel, thread)?;
    let live = &kernel.live;
    walk(live.store.mem(), root, address, access).ok()
}

/// The byte that an address names for an access of a thread.
pub fn byte_seen(system: &System, thread: u32, address: u32, access: Access) -> Option<u8>
    ensures { result ≡ option_and_then (λ place. (state_in system.now).bytes place)
        (option_and_then (λ root. walk (bytes_of system.now.store) root address access) (vspace_of (state_in system.now) thread)) }
{
    let place = place_seen(system, thread, address, access)?;
    system.byte(place)
}
