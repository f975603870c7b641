//! A page whose place in memory is known.

ghost use Rattle.std.specs.Prelude.{◌<◌, ◌^◌};

/// A page of an address space, by its number, and the place of its first byte.
#[derive(Clone, Copy)]
pub(crate) struct Page {
    pub(crate) number: u32,
    pub(crate) base: u32,
    ghost near: { base < 2 ^ 24 },
}
