//! Why a thread cannot go on.

ghost use Rattle.std.specs.Prelude.{◌≡◌};
ghost use Rattle.model.specs.Shared.Labels.{fault_number};

/// Why a thread cannot go on. The numbers are the labels of the fault messages.
#[derive(Clone, Copy, Debug, PartialEq, Eq)]
pub enum FaultKind {
    /// A system call named a capability that is not there, or not fit for it.
    Capability = 1,
    /// A system call has a number that no call has.
    UnknownCall = 2,
    /// An instruction does not decode, or jumps to a misaligned target.
    Instruction = 3,
    /// A fetch, load or store reaches a byte without the right.
    Memory = 4,
}

impl FaultKind {
    /// The fault's number, 1 to 4.
    pub fn number(self) -> u8
        ensures { result ≡ fault_number self }
    {
        self as u8
    }
}
