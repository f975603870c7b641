//! What a capability or a mapping lets its holder do.
//! seL4 Reference Manual, "Capability Derivation Tree" and "Capability Rights".

ghost use Rattle.std.specs.Prelude.{⊤, ◌≡◌, [], ◌∷◌, bit_and, codes};
ghost use Rattle.model.specs.Capabilities.Rights.{may_grant_reply, may_read, may_write};

use bitflags::{Flag, Flags, bitflag_items};

/// A set of rights, as the rights word of a call has them.
#[derive(Clone, Copy, Debug, PartialEq, Eq)]
pub struct Rights(pub u8);

bitflag_items! {
    impl Rights: u8 {
        const WRITE = 1;
        const READ = 2;
        const EXECUTE = 4;
        const GRANT_REPLY = 8;
    }
}

impl Flags for Rights {
    type Bits = u8;

    ghost exact = { ⊤ };

    ghost table = { (codes "WRITE", 1) ∷ (codes "READ", 2) ∷ (codes "EXECUTE", 4)
        ∷ (codes "GRANT_REPLY", 8) ∷ [] };

    ghost set_of = { λ rights. rights.0 };

    fn flags<'a>() -> &'a [Flag<Rights>] {
        Rights::FLAGS
    }

    fn bits(&self) -> u8 {
        self.0
    }

    fn from_bits_retain(bits: u8) -> Rights {
        Rights(bits)
    }
}

impl Rights {
    /// What a capability to an endpoint or a notification may have: write, read and grant-reply.
    pub const OF_ENDPOINT: Rights = Rights(11);

    /// What a capability to a frame may have: write and read.
    pub const OF_FRAME: Rights = Rights(3);

    /// What a mapping may have: write, read and execute.
    pub const OF_MAPPING: Rights = Rights(7);

    /// The rights that both have.
    pub fn cut(self, other: Rights) -> Rights
        ensures { result.0 ≡ bit_and self.0 other.0 }
    {
        Rights(self.0 & other.0)
    }

    /// Those of a rights word that `self` has. The other bits of the word are ignored.
    pub fn of_word(self, word: u32) -> Rights
        ensures { result.0 ≡ bit_and self.0 word }
    {
        Rights((u32::from(self.0) & word) as u8)
    }

    /// Whether messages may be sent, signals given, and frames written.
    pub fn may_write(self) -> bool
        ensures { result ≡ may_write self }
    {
        self.0 & 1 != 0
    }

    /// Whether messages and signals may be received, and frames read.
    pub fn may_read(self) -> bool
        ensures { result ≡ may_read self }
    {
        self.0 & 2 != 0
    }

    /// Whether a call may get a reply.
    pub fn may_grant_reply(self) -> bool
        ensures { result ≡ may_grant_reply self }
    {
        self.0 & 8 != 0
    }
}
