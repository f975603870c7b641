//! The line of each label.

ghost use Rattle.std.specs.Prelude.{◌≡◌, ◌+◌, ◌≤◌, ◌++◌, ◌∷◌, []};
ghost use Rattle.arrayvec.specs.ArrayVec.{array_vec_len};
ghost use Rattle.model.specs.Shared.Trace.{hex_word, line_of, text_of_outcome};

use crate::digits::{Line, hex_word, push_decimal, push_hex_byte, push_text};
use arrayvec::ArrayVec;
use model::{Label, Outcome};

/// Appends what came of an instruction.
fn push_outcome(to: &mut Line, outcome: Outcome)
    requires { array_vec_len to.old + 9 ≤ 32 }
    ensures { to.new.items ≡ to.old.items ++ text_of_outcome outcome }
{
    match outcome {
        Outcome::Faulted(kind) => {
            push_text(to, b"fault ");
            push_decimal(to, kind.number());
        }
        Outcome::Refused(error) => {
            push_text(to, b"error ");
            push_decimal(to, error.number());
        }
        Outcome::Completed => push_text(to, b"ok"),
        Outcome::Put(byte) => {
            push_text(to, b"byte ");
            push_hex_byte(to, byte);
        }
        Outcome::Waited => push_text(to, b"wait"),
        Outcome::Plain => push_text(to, b"plain"),
    }
}

/// What the line of an instruction begins with: the thread that ran it, and where.
fn front(thread: u32, pc: u32) -> [u8; 18]
    ensures { result ≡ hex_word thread ++ 0x20 ∷ (hex_word pc ++ 0x20 ∷ []) }
{
    let who = hex_word(thread);
    let at = hex_word(pc);
    [
        who[0], who[1], who[2], who[3], who[4], who[5], who[6], who[7], b' ', at[0], at[1], at[2],
        at[3], at[4], at[5], at[6], at[7], b' ',
    ]
}

/// The line that a trace has for `label`, without a line feed.
pub fn line(label: Label) -> ArrayVec<u8, 32>
    ensures { result.items ≡ line_of label }
{
    let mut text = ArrayVec::new();
    match label {
        Label::Idle => push_text(&mut text, b"idle"),
        Label::Ticked => push_text(&mut text, b"tick"),
        Label::Raised(irq_line) => {
            push_text(&mut text, b"irq ");
            push_decimal(&mut text, irq_line);
        }
        Label::Wrote { address, word } => {
            push_text(&mut text, b"write ");
            push_text(&mut text, &hex_word(address));
            push_text(&mut text, b" ");
            push_text(&mut text, &hex_word(word));
        }
        Label::Showed { address, word } => {
            push_text(&mut text, b"read ");
            push_text(&mut text, &hex_word(address));
            push_text(&mut text, b" ");
            push_text(&mut text, &hex_word(word));
        }
        Label::Ran {
            thread,
            pc,
            outcome,
        } => {
            push_text(&mut text, &front(thread, pc));
            push_outcome(&mut text, outcome);
        }
    }
    text
}
