//! Why a capability address names no slot. seL4 Reference Manual, "Lookup Failure Description".

ghost use Rattle.std.specs.Prelude.{◌≡◌};
ghost use Rattle.model.specs.Capabilities.LookupNumbers.{bits_left_of, failure_number};

/// Why a lookup fails, with the number of bits that were left where it failed.
#[derive(Clone, Copy, Debug, PartialEq, Eq)]
pub enum LookupFailure {
    /// The root is no capability to a CNode.
    InvalidRoot,
    /// The slot is empty, or its capability is not fit for the call.
    MissingCapability,
    /// A CNode resolves more bits than are left.
    DepthMismatch(u32),
    /// The address does not have the guard of a CNode, or has too few bits left for it.
    GuardMismatch(u32),
}

impl LookupFailure {
    /// The failure's number, 1 to 4, as a fault message has it.
    pub fn number(self) -> u32
        ensures { result ≡ failure_number self }
    {
        match self {
            LookupFailure::InvalidRoot => 1,
            LookupFailure::MissingCapability => 2,
            LookupFailure::DepthMismatch(_) => 3,
            LookupFailure::GuardMismatch(_) => 4,
        }
    }

    /// How many bits were left. Of an invalid root all 32 are.
    pub fn bits_left(self) -> u32
        ensures { result ≡ bits_left_of self }
    {
        match self {
            LookupFailure::InvalidRoot => 32,
            LookupFailure::MissingCapability => 0,
            LookupFailure::DepthMismatch(left) | LookupFailure::GuardMismatch(left) => left,
        }
    }
}
