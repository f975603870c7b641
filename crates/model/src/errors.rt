//! Why the kernel refuses an invocation.

ghost use Rattle.std.specs.Prelude.{◌≡◌};
ghost use Rattle.model.specs.Shared.Labels.{error_number};

/// Why an invocation is refused. The numbers are those that a thread reads in its message
/// information word; 0 there means that there was no error.
#[derive(Clone, Copy, Debug, PartialEq, Eq)]
pub enum KError {
    /// A word of the message has a value that the call does not know.
    InvalidArgument = 1,
    /// A capability is of the wrong kind, or lacks a right that the call needs.
    InvalidCapability = 2,
    /// The capability does not have the call, or the derivation tree would grow too deep.
    IllegalOperation = 3,
    /// A word of the message lies outside its range.
    RangeError = 4,
    /// An address is not a multiple of what it has to be a multiple of.
    AlignmentError = 5,
    /// An argument slot could not be looked up, or is empty where a capability is needed.
    FailedLookup = 6,
    /// The message is too short, or carries capabilities.
    TruncatedMessage = 7,
    /// A slot or a place that has to be empty is occupied.
    DeleteFirst = 8,
    /// Something else has to be revoked or deleted before.
    RevokeFirst = 9,
    /// The untyped memory has no room.
    NotEnoughMemory = 10,
}

impl KError {
    /// The error's number, 1 to 10.
    pub fn number(self) -> u8
        ensures { result ≡ error_number self }
    {
        self as u8
    }
}
