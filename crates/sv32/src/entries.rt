//! Page table entries.

ghost use Rattle.std.specs.Prelude.{⊤, ◌≡◌, ◌+◌, ◌*◌, ◌/◌, ◌^◌, ◌<◌, [], ◌∷◌, codes};
ghost use Rattle.model.specs.Capabilities.CapabilityWords.{IsPlace};
ghost use Rattle.model.specs.Machine.Sv32.{has_bit, is_leaf, is_valid, leaf_word, page_address, permits, table_word};

use crate::sizes::{FIRST_PAGE, PAGE_NUMBER, PAGE_SIZE};
use bitflags::{Flag, Flags, bitflag_items};
use model::{Access, Rights};

/// A page table entry: flags in its low 8 bits, two bits for software, and the number of a physical
/// page in bits 10 to 31. The flags' names are the manual's.
#[derive(Clone, Copy, Debug, PartialEq, Eq)]
pub struct Pte(pub u32);

bitflag_items! {
    impl Pte: u32 {
        const V = 1;
        const R = 2;
        const W = 4;
        const X = 8;
        const U = 16;
        const G = 32;
        const A = 64;
        const D = 128;
    }
}

impl Flags for Pte {
    type Bits = u32;

    ghost exact = { ⊤ };

    ghost table = { (codes "V", 1) ∷ (codes "R", 2) ∷ (codes "W", 4) ∷ (codes "X", 8)
        ∷ (codes "U", 16) ∷ (codes "G", 32) ∷ (codes "A", 64) ∷ (codes "D", 128) ∷ [] };

    ghost set_of = { λ entry. entry.0 };

    fn flags<'a>() -> &'a [Flag<Pte>] {
        Pte::FLAGS
    }

    fn bits(&self) -> u32 {
        self.0
    }

    fn from_bits_retain(bits: u32) -> Pte {
        Pte(bits)
    }
}

impl Pte {
    /// The pointer that the kernel writes to the table at an offset in memory: V alone.
    pub fn table(offset: u32) -> Self
        requires { IsPlace offset 12 }
        ensures { result.0 ≡ table_word offset }
    {
        Pte((FIRST_PAGE + offset / PAGE_SIZE) * PAGE_NUMBER + Pte::V.0)
    }

    /// The leaf that the kernel writes of the page at an offset in memory, with the mapping's rights:
    /// V, U, A, D, and R, W and X where the rights have them.
    pub fn leaf(offset: u32, rights: Rights) -> Self
        requires { IsPlace offset 12 }
        ensures { result.0 ≡ leaf_word offset rights.0 }
    {
        let rights = u32::from(rights.0);
        let allowed = rights / 4 % 2 * Pte::X.0 + rights % 2 * Pte::W.0 + rights / 2 % 2 * Pte::R.0;
        let flags = Pte::D.0 + Pte::A.0 + Pte::U.0 + allowed + Pte::V.0;
        Pte((FIRST_PAGE + offset / PAGE_SIZE) * PAGE_NUMBER + flags)
    }

    #[tactic(auto, using(crate::proofs::Bits::v_bit))]
    fn has_v(self) -> bool
        ensures { result ≡ has_bit self.0 0 }
    {
        self.contains(Pte::V)
    }

    #[tactic(auto, using(crate::proofs::Bits::r_bit))]
    fn has_r(self) -> bool
        ensures { result ≡ has_bit self.0 1 }
    {
        self.contains(Pte::R)
    }

    #[tactic(auto, using(crate::proofs::Bits::w_bit))]
    fn has_w(self) -> bool
        ensures { result ≡ has_bit self.0 2 }
    {
        self.contains(Pte::W)
    }

    #[tactic(auto, using(crate::proofs::Bits::x_bit))]
    fn has_x(self) -> bool
        ensures { result ≡ has_bit self.0 3 }
    {
        self.contains(Pte::X)
    }

    #[tactic(auto, using(crate::proofs::Bits::u_bit))]
    fn has_u(self) -> bool
        ensures { result ≡ has_bit self.0 4 }
    {
        self.contains(Pte::U)
    }

    #[tactic(auto, using(crate::proofs::Bits::a_bit))]
    fn has_a(self) -> bool
        ensures { result ≡ has_bit self.0 6 }
    {
        self.contains(Pte::A)
    }

    #[tactic(auto, using(crate::proofs::Bits::d_bit))]
    fn has_d(self) -> bool
        ensures { result ≡ has_bit self.0 7 }
    {
        self.contains(Pte::D)
    }

    /// Whether a walk takes the entry: it is valid, and readable if it is writable.
    pub fn is_valid(self) -> bool
        ensures { result ≡ is_valid self.0 }
    {
        self.has_v() && (self.has_r() || !self.has_w())
    }

    /// Whether the entry names a page of memory, and not another table.
    pub fn is_leaf(self) -> bool
        ensures { result ≡ is_leaf self.0 }
    {
        self.has_r() || self.has_x()
    }

    /// Whether a leaf lets a user's access pass.
    pub fn permits(self, access: Access) -> bool
        ensures { result ≡ permits self.0 access }
    {
        let right = match access {
            Access::Load => self.has_r(),
            Access::Store => self.has_w() && self.has_d(),
            Access::Fetch => self.has_x(),
        };
        self.has_u() && self.has_a() && right
    }

    /// The physical address of the page or the table that the entry names, of 34 bits.
    pub fn page_address(self) -> u64
        ensures value { result ≡ page_address self.0 }
        ensures range { result < 2 ^ 34 }
    {
        u64::from(self.0 / PAGE_NUMBER) * u64::from(PAGE_SIZE)
    }
}
