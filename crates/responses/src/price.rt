//! What it costs a level that something comes to an object.

/// What it costs, in instructions, that something comes to the notification or endpoint at an offset.
#[derive(Clone, Copy, Debug)]
pub(crate) struct Price {
    pub(crate) object: u32,
    pub(crate) price: u64,
}
