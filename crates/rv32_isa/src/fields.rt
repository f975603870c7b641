//! The fields of a word (RISC-V Unprivileged ISA, 2.2 and 2.3).

ghost use Rattle.std.specs.Prelude.{◌≡◌, ◌+◌, ◌*◌, ◌^◌, ◌<◌, ◌≤◌};
ghost use Rattle.model.specs.Machine.Instructions.{bits};
ghost use Rattle.model.specs.Machine.Decoding.{register_at, sign_extended};

use model::Register;

/// `count` bits of the word from bit `low` up.
pub fn field(word: u32, low: u32, count: u32) -> u32
    requires within { low + count ≤ 32 }
    requires begins { low < 32 }
    requires short { count < 32 }
    ensures { result ≡ bits word low count }
{
    (word >> low) % (1 << count)
}

/// The register whose five bits begin at bit `low`.
pub fn register(word: u32, low: u32) -> Register
    requires { low + 5 ≤ 32 }
    ensures { result ≡ register_at word low }
{
    Register(field(word, low, 5) as u8)
}

/// A number in two's complement whose highest bit is worth `sign`.
pub fn signed(value: u32, sign: u32) -> i32
    requires small { sign ≤ 2 ^ 20 }
    requires within { value < 2 * sign }
    ensures { result ≡ sign_extended value sign }
{
    if value < sign {
        value as i32
    } else {
        value as i32 - 2 * sign as i32
    }
}
