//! Pages of an address space.
//! RISC-V Privileged ISA, "Sv32: Page-Based 32-bit Virtual-Memory Systems".

ghost use Rattle.std.specs.Prelude.{◌≡◌, ◌<◌, ◌/◌, ◌^◌};

/// How many bytes a page has.
pub(crate) const PAGE: u32 = 4096;

/// A page, by its number from the lowest address on.
#[derive(Clone, Copy)]
pub(crate) struct Page {
    pub(crate) number: u32,
    ghost inside: { number < 2 ^ 20 },
}

impl Page {
    /// The page that a byte lies in.
    pub(crate) fn of(address: u32) -> Self
        ensures { result.number ≡ address / 4096 }
    {
        Page {
            number: address / PAGE,
        }
    }
}
