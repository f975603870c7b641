//! Priorities and registers of threads, and threads that stop and go on.

ghost use Rattle.std.specs.Prelude.{ℕ, ◌≡◌, ◌==◌, ◌≤◌, OnErr, if◌then◌else◌};
ghost use Rattle.model.specs.Kernel.Outcomes.{GivesState};
ghost use Rattle.model.specs.Kernel.Messages.{register};
ghost use Rattle.model.specs.Kernel.ThreadCalls.{resume, set_priority, set_register, suspend};
ghost use Rattle.model.specs.Machine.ProgramMemory.{write};
ghost use Rattle.objects.specs.Lives.{SameBeside, state_in};
ghost use Rattle.vspace.specs.Tables.{Holds};

use cnode_ops::Kernel;
use model::{Cap, KError, Register};
use objects::Status;
use rv32_exec::Regs;
use slots::SlotStore;

/// Sets the priority of a thread: one that runs goes to the tail of its new priority, with the slice that it has.
///
/// seL4 Reference Manual, seL4_TCB_SetPriority.
///
/// # Errors
///
/// The priority is above 255 (`RangeError`). Nothing changes then.
pub fn set_priority<S: SlotStore>(
    kernel: &mut Kernel<S>,
    thread: u32,
    priority: u32,
) -> Result<(), KError>
    requires held { Holds (S.slots kernel.old.store) (Cap.Tcb thread) }
    ensures outcome { GivesState (set_priority (state_in S.slots S.memory kernel.old) thread priority) result (state_in S.slots S.memory kernel.new) }
    ensures unchanged { OnErr result (kernel.new ≡ kernel.old) }
    ensures beside { SameBeside S.slots S.memory S.order kernel.old kernel.new }
{
    if priority > 255 {
        return Err(KError::RangeError);
    }
    kernel.live.set_priority(thread, priority as u8);
    Ok(())
}

/// The registers with one of them set. Register 0 means the pc.
fn with_register(registers: Regs, index: u32, value: u32) -> Regs
    requires { index ≤ 31 }
    ensures { result ≡ (if index == 0 then record registers { pc = value } else write registers (register index) value) }
{
    let mut now = registers;
    if index == 0 {
        now.set_pc(value);
    } else {
        now.write(Register(index as u8), value);
    }
    now
}

/// Sets register 1 to 31 of a thread, or its pc by the number 0.
///
/// seL4 Reference Manual, seL4_TCB_WriteRegisters.
///
/// # Errors
///
/// A thread sets a register of its own (`IllegalOperation`), there is no such register (`RangeError`), or the pc would be no
/// multiple of 4 (`AlignmentError`). Nothing changes then.
pub fn set_register<S: SlotStore>(
    kernel: &mut Kernel<S>,
    caller: Option<u32>,
    thread: u32,
    index: u32,
    value: u32,
) -> Result<(), KError>
    requires held { Holds (S.slots kernel.old.store) (Cap.Tcb thread) }
    ensures outcome { GivesState (set_register (state_in S.slots S.memory kernel.old) caller thread index value) result (state_in S.slots S.memory kernel.new) }
    ensures unchanged { OnErr result (kernel.new ≡ kernel.old) }
    ensures beside { SameBeside S.slots S.memory S.order kernel.old kernel.new }
{
    if caller == Some(thread) {
        return Err(KError::IllegalOperation);
    }
    if index > 31 {
        return Err(KError::RangeError);
    }
    if index == 0 && value % 4 != 0 {
        return Err(KError::AlignmentError);
    }
    let registers = kernel.live.registers(thread);
    kernel
        .live
        .set_registers(thread, with_register(registers, index, value));
    Ok(())
}

/// A thread that does not run leaves what it waits for, and runs again from its pc.
///
/// seL4 Reference Manual, seL4_TCB_Resume.
pub fn resume<S: SlotStore>(kernel: &mut Kernel<S>, thread: u32)
    requires held { Holds (S.slots kernel.old.store) (Cap.Tcb thread) }
    ensures state { state_in S.slots S.memory kernel.new
        ≡ resume (state_in S.slots S.memory kernel.old) thread }
    ensures beside { SameBeside S.slots S.memory S.order kernel.old kernel.new }
{
    match kernel.live.status(thread) {
        Status::Runnable => {}
        Status::Inactive | Status::Blocked { .. } | Status::AwaitsReply | Status::AwaitsHandler => {
            kernel.live.leave(thread);
            kernel.live.wake(thread);
        }
    }
}

/// A thread leaves what it waits for, and runs no more until it is resumed.
///
/// seL4 Reference Manual, seL4_TCB_Suspend.
pub fn suspend<S: SlotStore>(kernel: &mut Kernel<S>, thread: u32)
    requires held { Holds (S.slots kernel.old.store) (Cap.Tcb thread) }
    ensures state { state_in S.slots S.memory kernel.new
        ≡ suspend (state_in S.slots S.memory kernel.old) thread }
    ensures beside { SameBeside S.slots S.memory S.order kernel.old kernel.new }
{
    kernel.live.leave(thread);
    kernel.live.block(thread, Status::Inactive);
}
