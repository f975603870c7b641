//! Packets as they are sent.

ghost use Rattle.std.specs.Prelude.{◌≡◌, ◌++◌, ◌∷◌, [], OnOk};
ghost use Rattle.remote_packets.specs.Frames.{frame, sum_of};

use crate::hexadecimal::push_byte;
use std::alloc::AllocError;

/// The sum of a payload's bytes, of which the lowest eight bits are sent.
pub fn checksum(payload: &[u8]) -> u8
    ensures { result ≡ sum_of payload.now }
{
    let mut sum = 0u8;
    'bytes: for byte in payload {
        sum = sum.wrapping_add(*byte);
    }
    sum
}

/// Appends the packet of a payload, which has no `$`, `#`, `*` or `}`.
///
/// # Errors
///
/// Memory is refused.
pub fn push_frame(to: &mut Vec<u8>, payload: &[u8]) -> Result<(), AllocError>
    ensures { OnOk result (to.new.items ≡ to.old.items ++ frame payload.now) }
{
    to.push(b'$')?;
    to.extend_from_slice(payload)?;
    to.push(b'#')?;
    push_byte(to, checksum(payload))
}
