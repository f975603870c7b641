//! Registers, as a debugger counts them.

ghost use Rattle.std.specs.Prelude.{◌≡◌};
ghost use Rattle.debugging.specs.Looks.{register_seen};
ghost use Rattle.kernel_machine.specs.Setups.{state_in};

use kernel::System;

/// The number of the program counter: it comes after x31.
const PC: u32 = 32;

/// A register of a thread: x0 to x31 by their numbers, and the program counter after them.
pub fn register_seen(system: &System, thread: u32, number: u32) -> Option<u32>
    ensures { result ≡ register_seen (state_in system.now) thread number }
{
    match number {
        0 => match system.reg(thread, 0) {
            Some(_) => Some(0),
            None => None,
        },
        PC => system.reg(thread, 0),
        1..=31 => system.reg(thread, number as u8),
        _ => None,
    }
}
