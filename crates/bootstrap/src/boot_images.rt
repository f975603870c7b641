//! An image as it is loaded.

ghost use Rattle.std.proofs.Props.{props};
ghost use Rattle.bootstrap.specs.Limits.{IsLimited};
ghost use Rattle.bootstrap.specs.Propositions.{contents-prop, threads-prop};

use image_reading::ImageRef;

/// An image that is being loaded. What is read keeps to the limits of its format, so that slots and calls can be counted.
#[derive(Clone, Copy)]
pub(crate) struct BootImage<'i, 'a> {
    pub(crate) read: &'i ImageRef<'a>,
    ghost limits: { IsLimited read.now } by { Prim.hlevel (props, contents-prop, threads-prop) },
}
