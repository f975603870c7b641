//! The system calls, and the numbers by which a thread makes them. seL4 Reference Manual, "System Calls"; the numbers and
//! PutChar are this project's own.

ghost use Rattle.std.specs.Prelude.{◌≡◌};
ghost use Rattle.model.specs.Kernel.Steps.{call_of};

/// How a message is sent, or a capability called.
#[derive(Clone, Copy, Debug, PartialEq, Eq)]
pub enum SendCall {
    /// Call: the sender waits for a receiver, and then for the reply.
    Calling,
    /// Send: the sender waits for a receiver.
    Sending,
    /// NBSend: the message is dropped where nobody receives.
    Trying,
}

/// How a message or a signal is received.
#[derive(Clone, Copy, Debug, PartialEq, Eq)]
pub enum ReceiveCall {
    /// Recv: the receiver waits for a sender.
    Receiving,
    /// NBRecv: with nothing there `a0` becomes 0.
    Polling,
}

/// A system call.
#[derive(Clone, Copy, Debug, PartialEq, Eq)]
pub enum SystemCall {
    Sends(SendCall),
    Receives(ReceiveCall),
    /// ReplyRecv: the fault of its receive comes after the reply.
    RepliesAndReceives,
    Replies,
    /// The thread goes to the tail of its priority, with a full slice.
    Yields,
    /// Puts the low byte of `a0` into the trace.
    PutsCharacter,
}

impl SystemCall {
    /// The system call of a number, as `a7` holds it: 1 to 9.
    pub fn of_number(number: u32) -> Option<Self>
        ensures { result ≡ call_of number }
    {
        match number {
            1 => Some(SystemCall::Sends(SendCall::Calling)),
            2 => Some(SystemCall::RepliesAndReceives),
            3 => Some(SystemCall::Sends(SendCall::Sending)),
            4 => Some(SystemCall::Sends(SendCall::Trying)),
            5 => Some(SystemCall::Receives(ReceiveCall::Receiving)),
            6 => Some(SystemCall::Replies),
            7 => Some(SystemCall::Yields),
            8 => Some(SystemCall::Receives(ReceiveCall::Polling)),
            9 => Some(SystemCall::PutsCharacter),
            _ => None,
        }
    }
}
