//! The calls that each kind of capability has. A call has 0 in the place of each word that the message lacks.

ghost use Rattle.std.specs.Prelude.{◌≡◌};
ghost use Rattle.invoke.specs.Listed.{listed_call};
ghost use Rattle.invoke.specs.Methods.{label_of};
ghost use Rattle.model.specs.Kernel.CallForms.{cnode_form, control_form, form_of, frame_form, handler_form, table_form, thread_form, untyped_form};

use crate::methods::Method;
use crate::words::{slot_name, word};
use model::{
    CNodeCall, Cap, FrameCall, HandlerCall, Invocation, RetypeCall, Rights, TableCall, ThreadCall,
    UntypedMemory,
};

/// The call on untyped memory.
fn untyped_call(memory: UntypedMemory, method: Method, words: &[u32]) -> Option<Invocation>
    ensures { result ≡ listed_call words.now (untyped_form memory (label_of method)) }
{
    let Method::Retype = method else {
        return None;
    };
    let call = RetypeCall {
        kind: word(words, 0),
        size: word(words, 1),
        node: slot_name(words, 2),
        index: word(words, 4),
        count: word(words, 5),
    };
    Some(Invocation::OnUntyped { memory, call })
}

/// The call on a thread.
fn thread_call(thread: u32, method: Method, words: &[u32]) -> Option<Invocation>
    ensures { result ≡ listed_call words.now (thread_form thread (label_of method)) }
{
    let call = match method {
        Method::Configure => ThreadCall::Configure {
            fault_address: word(words, 0),
            cspace: slot_name(words, 1),
            vspace: slot_name(words, 3),
        },
        Method::SetPriority => ThreadCall::SetPriority {
            priority: word(words, 0),
        },
        Method::SetRegister => ThreadCall::SetRegister {
            index: word(words, 0),
            value: word(words, 1),
        },
        Method::Resume => ThreadCall::Resume,
        Method::Suspend => ThreadCall::Suspend,
        Method::SetBuffer => ThreadCall::SetBuffer {
            frame: slot_name(words, 0),
        },
        _ => return None,
    };
    Some(Invocation::OnThread { thread, call })
}

/// The call on a CNode. The destination comes first.
fn cnode_call(method: Method, words: &[u32]) -> Option<Invocation>
    ensures { result ≡ listed_call words.now (cnode_form (label_of method)) }
{
    let destination = slot_name(words, 0);
    let source = slot_name(words, 2);
    let call = match method {
        Method::Copy => CNodeCall::Copy {
            destination,
            source,
            rights: word(words, 4),
        },
        Method::Mint => CNodeCall::Mint {
            destination,
            source,
            rights: word(words, 4),
            payload: word(words, 5),
        },
        Method::Move => CNodeCall::Move {
            destination,
            source,
        },
        Method::Mutate => CNodeCall::Mutate {
            destination,
            source,
            payload: word(words, 4),
        },
        Method::Delete => CNodeCall::Delete { slot: destination },
        Method::Revoke => CNodeCall::Revoke { slot: destination },
        _ => return None,
    };
    Some(Invocation::OnCNode { call })
}

/// The call on a frame.
fn frame_call(held: Rights, method: Method, words: &[u32]) -> Option<Invocation>
    ensures { result ≡ listed_call words.now (frame_form held (label_of method)) }
{
    let call = match method {
        Method::MapFrame => FrameCall::MapFrame {
            root: slot_name(words, 0),
            address: word(words, 2),
            rights: word(words, 3),
        },
        Method::UnmapFrame => FrameCall::UnmapFrame,
        _ => return None,
    };
    Some(Invocation::OnFrame { held, call })
}

/// The call on a page table.
fn table_call(method: Method, words: &[u32]) -> Option<Invocation>
    ensures { result ≡ listed_call words.now (table_form (label_of method)) }
{
    let call = match method {
        Method::MapTable => TableCall::MapTable {
            root: slot_name(words, 0),
            address: word(words, 2),
        },
        Method::UnmapTable => TableCall::UnmapTable,
        _ => return None,
    };
    Some(Invocation::OnTable { call })
}

/// The call on interrupt control.
fn control_call(method: Method, words: &[u32]) -> Option<Invocation>
    ensures { result ≡ listed_call words.now (control_form (label_of method)) }
{
    let Method::GetHandler = method else {
        return None;
    };
    Some(Invocation::OnControl {
        line: word(words, 0),
        destination: slot_name(words, 1),
    })
}

/// The call on the handler of a line.
fn handler_call(line: u8, method: Method, words: &[u32]) -> Option<Invocation>
    ensures { result ≡ listed_call words.now (handler_form line (label_of method)) }
{
    let call = match method {
        Method::Acknowledge => HandlerCall::Acknowledge,
        Method::SetNotification => HandlerCall::SetNotification {
            notification: slot_name(words, 0),
        },
        Method::Clear => HandlerCall::Clear,
        _ => return None,
    };
    Some(Invocation::OnHandler { line, call })
}

/// The call on a capability, if it is one that the capability has. Endpoints, notifications, root tables and empty slots
/// have none.
pub(crate) fn call_of(capability: Cap, method: Method, words: &[u32]) -> Option<Invocation>
    ensures { result ≡ listed_call words.now (form_of capability (label_of method)) }
{
    match capability {
        Cap::Untyped {
            offset,
            bits,
            watermark,
        } => {
            let memory = UntypedMemory {
                offset,
                bits,
                watermark,
            };
            untyped_call(memory, method, words)
        }
        Cap::Tcb { offset } => thread_call(offset, method, words),
        Cap::CNode { .. } => cnode_call(method, words),
        Cap::Frame { rights, .. } => frame_call(rights, method, words),
        Cap::PageTable { .. } => table_call(method, words),
        Cap::InterruptControl => control_call(method, words),
        Cap::InterruptHandler { line } => handler_call(line, method, words),
        _ => None,
    }
}
