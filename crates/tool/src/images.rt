//! The commands on images: those of `microsys`, with its lines and statuses.

use runner::command;
use sinks::Sink;
use std::rt::Files;

/// Says whether an image is accepted, and returns the exit status.
pub(crate) fn verify_image<R: Files + Input + AllocGlobal, W: Sink, E: Sink>(
    rt: &R,
    image: &str,
    output: &mut W,
    errors: &mut E,
) -> u8 {
    command(rt, &["verify", image], output, errors)
}

/// Builds the image of a text, and returns the exit status.
pub(crate) fn build_image<R: Files + Input + AllocGlobal, W: Sink, E: Sink>(
    rt: &R,
    source: &str,
    image: &str,
    output: &mut W,
    errors: &mut E,
) -> u8 {
    command(rt, &["build", source, image], output, errors)
}
