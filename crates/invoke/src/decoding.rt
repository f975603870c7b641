//! From a message to the call that it makes.

ghost use Rattle.std.specs.Prelude.{◌≡◌, option_map};
ghost use Rattle.model.specs.Kernel.CallForms.{decode, form_of};

use crate::calls::call_of;
use crate::methods::Method;
use model::{Cap, Invocation, KError};

/// The call that a message makes on a capability: its label names the call, `extra_capabilities` are those that it carries,
/// and `words` are those within its length. Further words are ignored.
///
/// # Errors
///
/// The first check that fails gives the error: the message carries capabilities (`TruncatedMessage`), the capability has no
/// call of this label (`IllegalOperation`), or fewer words than the call lists (`TruncatedMessage`).
pub fn decode_call(
    capability: Cap,
    label: u32,
    extra_capabilities: u32,
    words: &[u32],
) -> Result<Invocation, KError>
    ensures { result ≡ decode capability label extra_capabilities words.now }
{
    if extra_capabilities != 0 {
        return Err(KError::TruncatedMessage);
    }
    let Some(method) = Method::of_label(label) else {
        return Err(KError::IllegalOperation);
    };
    let Some(call) = call_of(capability, method, words) else {
        return Err(KError::IllegalOperation);
    };
    if words.len() < method.words() {
        return Err(KError::TruncatedMessage);
    }
    Ok(call)
}

/// How many words the call of a label on a capability lists, if there is one.
pub fn listed_words(capability: Cap, label: u32) -> Option<usize>
    ensures { result ≡ option_map (λ form. form.count) (form_of capability label) }
{
    let method = Method::of_label(label)?;
    call_of(capability, method, &[])?;
    Some(method.words())
}
