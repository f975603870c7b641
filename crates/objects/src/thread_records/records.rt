//! What the kernel keeps of a thread.

ghost use Rattle.std.specs.Prelude.{◌≡◌};
ghost use Rattle.model.specs.Kernel.State.{new_thread};
ghost use Rattle.objects.specs.thread_records.Threads.{thread_state};

use model::{Cause, LookupFailure, MemoryFault};
use rv32_exec::Regs;

/// Whether a thread runs, and else what it waits for.
#[derive(Clone, Copy)]
pub enum Status {
    /// It runs again once it is resumed.
    Inactive,
    /// It is in the ready list.
    Runnable,
    /// It is in the queue of the endpoint or notification at this offset.
    Blocked { queue: u32 },
    /// Its Call was received, and it waits for the reply.
    AwaitsReply,
    /// Its fault was received, and it waits for what its handler replies.
    AwaitsHandler,
}

/// What a thread reports to its handler.
#[derive(Clone, Copy)]
pub enum Fault {
    /// A system call named no capability, or one that is not fit for it; whether it was a receive.
    Capability {
        pc: u32,
        address: u32,
        in_receive: bool,
        failure: LookupFailure,
    },
    /// A system call has a number that no call has.
    UnknownCall {
        pc: u32,
        number: u32,
    },
    /// A word is no instruction, or a jump is misaligned.
    Instruction {
        pc: u32,
        cause: Cause,
    },
    /// An access reaches a byte without the right.
    Memory {
        pc: u32,
        fault: MemoryFault,
    },
}

/// What a thread that waits at an endpoint sends.
#[derive(Clone, Copy)]
pub enum Sent {
    /// The message in its registers; it passes once that is received.
    Send,
    /// The message in its registers; it waits for a reply once that is received.
    Call,
    /// A fault; it waits for the handler's reply once that is received.
    Fault(Fault),
}

/// What a thread waits to send, with the badge and the right to get a reply of the capability that it
/// sends by.
#[derive(Clone, Copy)]
pub struct Sending {
    pub sent: Sent,
    pub badge: u32,
    pub grant_reply: bool,
}

/// A thread: its registers, and what the kernel keeps of it.
#[derive(Clone, Copy)]
pub struct Thread {
    pub registers: Regs,
    /// 0 to 255; the thread of the greatest priority runs.
    pub priority: u8,
    /// How many ticks it runs on before it goes to the tail of its priority.
    pub slice: u8,
    /// The capability address of the endpoint that takes its faults, or 0.
    pub fault_address: u32,
    pub status: Status,
    /// The thread that it has the right to reply to, by its offset.
    pub caller: Option<u32>,
    /// What it sends, while it waits as a sender.
    pub sending: Option<Sending>,
}

impl Thread {
    /// A new thread: all zero, and inactive.
    pub fn new() -> Self
        ensures { thread_state result ≡ new_thread }
    {
        Thread {
            registers: Regs::new(),
            priority: 0,
            slice: 0,
            fault_address: 0,
            status: Status::Inactive,
            caller: None,
            sending: None,
        }
    }
}
