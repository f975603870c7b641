//! From the words of a message to a call: which labels each kind of capability has, how many words each
//! of them lists, and where these are in the call.

use crate::store::rows::{capability, words};
use invoke::decode_call;
use model::{
    CNodeCall, Cap, FrameCall, HandlerCall, Invocation, KError, SlotName, TableCall, ThreadCall,
};
use std::process::Abort;

/// The words of each message.
const WORDS: [u32; 8] = [0xa0, 0xa1, 0xa2, 0xa3, 0xa4, 0xa5, 0xa6, 0xa7];

/// `of` names the capability of the rows after it, and `only` the first and the last of its labels, and one more. A `label` lists so
/// many words, which are in the call in this order; `says` has what the capability says in its calls.
const ROWS: &str = "of = untyped 20000 10 40
label 1 6 = retype a0 a1 a2 a3 a4 a5
only 1 1 = labels
says 1 = memory 20000 10 40
of = thread 600
label 2 5 = configure a0 a1 a2 a3 a4
label 3 1 = priority a0
label 4 2 = register a0 a1
label 5 0 = resume
label 6 0 = suspend
label 15 2 = buffer a0 a1
only 2 6 15 = labels
says 3 = thread 600
of = cnode 4000 4 1c
label 7 5 = copy a0 a1 a2 a3 a4
label 8 6 = mint a0 a1 a2 a3 a4 a5
label 9 4 = move a0 a1 a2 a3
label a 5 = mutate a0 a1 a2 a3 a4
label b 2 = delete a0 a1
label c 2 = revoke a0 a1
only 7 c = labels
of = frame 5000 2 0
label d 4 = map a0 a1 a2 a3
label e 0 = unmap
only d e = labels
says d = rights 2
of = table 6000
label f 3 = map_table a0 a1 a2
label 10 0 = unmap_table
only f 10 = labels
of = control
label 11 3 = handler a0 a1 a2
only 11 11 = labels
of = handler 7
label 12 0 = acknowledge
label 13 2 = notify a0 a1
label 14 0 = clear
only 12 14 = labels
says 12 = line 7
of = endpoint 20 b 0
only 18 18 = labels
of = notification 30 b 0
only 18 18 = labels
of = root 9000
only 18 18 = labels
of = empty
only 18 18 = labels";

/// The name of a call, and its words in their order, with zeros after them.
type Listed = (&'static str, [u32; 6]);

fn of_thread(call: ThreadCall) -> Listed {
    match call {
        ThreadCall::Configure {
            fault_address,
            cspace,
            vspace,
        } => {
            let SlotName { address, depth } = cspace;
            let words = [
                fault_address,
                address,
                depth,
                vspace.address,
                vspace.depth,
                0,
            ];
            ("configure", words)
        }
        ThreadCall::SetPriority { priority } => ("priority", [priority, 0, 0, 0, 0, 0]),
        ThreadCall::SetRegister { index, value } => ("register", [index, value, 0, 0, 0, 0]),
        ThreadCall::Resume => ("resume", [0; 6]),
        ThreadCall::Suspend => ("suspend", [0; 6]),
        ThreadCall::SetBuffer { frame } => ("buffer", [frame.address, frame.depth, 0, 0, 0, 0]),
    }
}

/// The names of two slots, and two words after them.
fn slots_named(first: SlotName, second: SlotName, third: u32, fourth: u32) -> [u32; 6] {
    [
        first.address,
        first.depth,
        second.address,
        second.depth,
        third,
        fourth,
    ]
}

fn of_node(call: CNodeCall) -> Listed {
    let none = SlotName {
        address: 0,
        depth: 0,
    };
    match call {
        CNodeCall::Copy {
            destination,
            source,
            rights,
        } => ("copy", slots_named(destination, source, rights, 0)),
        CNodeCall::Mint {
            destination,
            source,
            rights,
            payload,
        } => ("mint", slots_named(destination, source, rights, payload)),
        CNodeCall::Move {
            destination,
            source,
        } => ("move", slots_named(destination, source, 0, 0)),
        CNodeCall::Mutate {
            destination,
            source,
            payload,
        } => ("mutate", slots_named(destination, source, payload, 0)),
        CNodeCall::Delete { slot } => ("delete", slots_named(slot, none, 0, 0)),
        CNodeCall::Revoke { slot } => ("revoke", slots_named(slot, none, 0, 0)),
    }
}

fn of_mapping_or_line(call: Invocation) -> Listed {
    match call {
        Invocation::OnFrame {
            call: FrameCall::MapFrame {
                root,
                address,
                rights,
            },
            ..
        } => ("map", [root.address, root.depth, address, rights, 0, 0]),
        Invocation::OnTable {
            call: TableCall::MapTable { root, address },
        } => ("map_table", [root.address, root.depth, address, 0, 0, 0]),
        Invocation::OnControl { line, destination } => (
            "handler",
            [line, destination.address, destination.depth, 0, 0, 0],
        ),
        Invocation::OnHandler {
            call: HandlerCall::SetNotification { notification },
            ..
        } => (
            "notify",
            [notification.address, notification.depth, 0, 0, 0, 0],
        ),
        Invocation::OnFrame { .. } => ("unmap", [0; 6]),
        Invocation::OnTable { .. } => ("unmap_table", [0; 6]),
        Invocation::OnHandler {
            call: HandlerCall::Clear,
            ..
        } => ("clear", [0; 6]),
        Invocation::OnHandler { .. } => ("acknowledge", [0; 6]),
        _ => ("?", [0; 6]),
    }
}

fn listed(call: Invocation) -> Listed {
    match call {
        Invocation::OnUntyped { call, .. } => (
            "retype",
            [
                call.kind,
                call.size,
                call.node.address,
                call.node.depth,
                call.index,
                call.count,
            ],
        ),
        Invocation::OnThread { call, .. } => of_thread(call),
        Invocation::OnCNode { call } => of_node(call),
        _ => of_mapping_or_line(call),
    }
}

/// What the capability says in a call, beside the words of the message.
fn said(call: Invocation) -> Listed {
    match call {
        Invocation::OnUntyped { memory, .. } => (
            "memory",
            [
                memory.offset,
                u32::from(memory.bits),
                memory.watermark,
                0,
                0,
                0,
            ],
        ),
        Invocation::OnThread { thread, .. } => ("thread", [thread, 0, 0, 0, 0, 0]),
        Invocation::OnFrame { held, .. } => ("rights", [u32::from(held.0), 0, 0, 0, 0, 0]),
        Invocation::OnHandler { line, .. } => ("line", [u32::from(line), 0, 0, 0, 0, 0]),
        _ => ("?", [0; 6]),
    }
}

/// Whether a message with so many words makes this call.
fn makes(rt: &impl Abort, held: Cap, label: u32, count: usize, wanted: &str) -> bool {
    let (name, parts) = words(rt, wanted);
    match decode_call(held, label, 0, WORDS.get(..count).unwrap_or(&[])) {
        Ok(call) => {
            let (found, found_parts) = listed(call);
            found == name && found_parts == parts
        }
        Err(_) => false,
    }
}

/// Whether a message with so many words, and so many capabilities that come along, is refused so.
fn fails(held: Cap, label: u32, extra: u32, count: usize, error: KError) -> bool {
    match decode_call(held, label, extra, WORDS.get(..count).unwrap_or(&[])) {
        Ok(_) => false,
        Err(found) => found == error,
    }
}

/// The label names a call that lists so many words: these are in their places, more of them are ignored,
/// and without one of them, or with a capability that comes along, the message is truncated.
fn lists(rt: &impl Abort, held: Cap, label: u32, count: usize, wanted: &str) -> bool {
    let truncated = KError::TruncatedMessage;
    makes(rt, held, label, count, wanted)
        && makes(rt, held, label, 8, wanted)
        && fails(held, label, 1, 8, truncated)
        && (count == 0 || fails(held, label, 0, count.saturating_sub(1), truncated))
}

/// No other labels than these name a call, whatever the words, and capabilities that come along are
/// looked at first.
fn has_only(held: Cap, first: u32, last: u32, other: u32) -> bool {
    for label in 0..24 {
        let is_named = label >= first && label <= last || label != 0 && label == other;
        if !is_named
            && !(fails(held, label, 0, 0, KError::IllegalOperation)
                && fails(held, label, 0, 8, KError::IllegalOperation)
                && fails(held, label, 1, 0, KError::TruncatedMessage))
        {
            return false;
        }
    }
    true
}

fn says(rt: &impl Abort, held: Cap, label: u32, wanted: &str) -> bool {
    let (name, parts) = words(rt, wanted);
    match decode_call(held, label, 0, &WORDS) {
        Ok(call) => {
            let (found, found_parts) = said(call);
            found == name && found_parts == parts
        }
        Err(_) => false,
    }
}

#[test]
fn messages_make_calls(rt: HostRuntime) {
    let mut held = Cap::Empty;
    for row in ROWS.lines() {
        let (asked, wanted) = row.split_once(" = ").unwrap_or((row, "?"));
        let (verb, [first, second, third, ..]) = words(&rt, asked);
        let holds = match verb {
            "of" => {
                let (kind, fields) = words(&rt, wanted);
                held = capability(&rt, kind, fields);
                true
            }
            "label" => lists(&rt, held, first, second as usize, wanted),
            "only" => has_only(held, first, second, third),
            "says" => says(&rt, held, first, wanted),
            _ => false,
        };
        assert!(rt; holds, "{row}");
    }
}
