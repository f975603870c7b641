//! From the registers of a message to the call that it makes on a capability.
//! seL4 Reference Manual, "System Calls".

ghost use Rattle.std.specs.Prelude.{Bool, ◌≡◌, ◌<◌, ◌≤◌, IfOk, List, length, slice_index_or, take};
ghost use Rattle.model.specs.Acceptance.CallRules.{all_known, invocation};
ghost use Rattle.model.specs.Acceptance.Measures.{Measure};
ghost use Rattle.model.specs.Acceptance.NotedStates.{NotedSlot};
ghost use Rattle.model.specs.Images.Image.{Image, Thread};
ghost use Rattle.model.specs.Kernel.Arguments.{Call};
ghost use Rattle.model.specs.Kernel.CallForms.{form_called};
ghost use Rattle.model.specs.Kernel.Messages.{a0, extra_capabilities_of, label_of, length_of, word_registers};
ghost use Rattle.model.specs.Machine.Instructions.{IsRegister};
ghost use Rattle.typestate.specs.Calls.{known_with};
ghost use Rattle.typestate.specs.Invocations.{IsCallOn};
ghost use Rattle.typestate.specs.Messages.{are_words, called_with, count_of};

use crate::system_calls::known;
use invoke::{decode_call, listed_words};
use model::{Cap, Invocation, KError, Point, Refusal, Register};
use ranges::Bounds;

/// How many words the call lists that an info word makes on a capability: it carries no capabilities
/// (`TruncatedMessage`), the capability has such a call (`IllegalOperation`), and no word is missing (`TruncatedMessage`).
fn words_listed(capability: Cap, info: u32) -> Result<usize, KError>
    ensures count { result ≡ count_of (form_called capability (label_of info) (extra_capabilities_of info) (length_of info)) }
    ensures few { IfOk result (λ count. count ≤ 8) }
{
    if info / 0x80 % 4 != 0 {
        return Err(KError::TruncatedMessage);
    }
    let Some(count) = listed_words(capability, info / 0x1000) else {
        return Err(KError::IllegalOperation);
    };
    let words = (info % 0x80).min(8);
    if count <= words as usize {
        Ok(count)
    } else {
        Err(KError::TruncatedMessage)
    }
}

/// The register of a message's word.
#[tactic(auto, unfolding(model::specs::Kernel::Messages::word_registers))]
pub(crate) fn word_register(index: usize) -> Register
    requires { index < 8 }
    ensures value { result ≡ slice_index_or word_registers index a0 }
    ensures valid { IsRegister result }
{
    match index {
        0 => Register(12),
        1 => Register(13),
        2 => Register(14),
        3 => Register(15),
        4 => Register(18),
        5 => Register(19),
        6 => Register(20),
        _ => Register(21),
    }
}

/// The values of the registers of so many words, each of which has to have one.
fn known_words(at: Point, bounds: &Bounds, count: usize) -> Result<[u32; 8], Refusal>
    requires { count ≤ 8 }
    ensures words { (slots : List NotedSlot) (measure : Measure)
        → all_known at (known_with bounds.now slots measure) (take count word_registers) ≡ are_words count result }
    ensures long { IfOk result (λ words. length words ≡ 8) }
{
    let mut words = [0; 8];
    for index in 0..count {
        match known(at, bounds, word_register(index)) {
            Ok(value) => words[index] = value,
            Err(refusal) => return Err(refusal),
        }
    }
    Ok(words)
}

/// The call that the message in the registers makes on a capability. What of it has to be known is asked in its order: the
/// info word, the checks that the kernel makes of it, and then the words.
///
/// # Errors
///
/// What is not known of the message, or the kernel's error, as a refusal of the image at this point.
pub fn message_call(at: Point, bounds: &Bounds, capability: Cap) -> Result<Invocation, Refusal>
    ensures value { (image : Image) (t : Thread) (slots : List NotedSlot) (measure : Measure) (call : Call) (answers : Bool) → call.capability ≡ capability
        → invocation image t at (known_with bounds.now slots measure) call answers
        ≡ called_with image t at (known_with bounds.now slots measure) call answers result }
    ensures fits { IfOk result (IsCallOn capability) }
{
    let info = match known(at, bounds, Register::A1) {
        Ok(info) => info,
        Err(refusal) => return Err(refusal),
    };
    let count = match words_listed(capability, info) {
        Ok(count) => count,
        Err(error) => return Err(Refusal::CallRefused(at, error)),
    };
    let words = match known_words(at, bounds, count) {
        Ok(words) => words,
        Err(refusal) => return Err(refusal),
    };
    match decode_call(capability, info / 0x1000, 0, &words[..count]) {
        Ok(call) => Ok(call),
        Err(error) => Err(Refusal::CallRefused(at, error)),
    }
}
