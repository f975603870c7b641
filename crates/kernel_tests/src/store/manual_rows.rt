//! The calls as the table of docs/MANUAL.md has them: what they are on, their names, and the message information words
//! that make them, which are the labels by 4096 and how many words the calls list. `tools/manual_rows.py` prints the rows.

use crate::store::rows::capability;
use invoke::{Method, listed_words};
use model::Cap;

const ROWS: [(&str, &str, u32); 21] = [
    ("untyped", "Retype", 0x1006),
    ("thread", "Configure", 0x2005),
    ("thread", "SetPriority", 0x3001),
    ("thread", "SetRegister", 0x4002),
    ("thread", "Resume", 0x5000),
    ("thread", "Suspend", 0x6000),
    ("cnode", "Copy", 0x7005),
    ("cnode", "Mint", 0x8006),
    ("cnode", "Move", 0x9004),
    ("cnode", "Mutate", 0xA005),
    ("cnode", "Delete", 0xB002),
    ("cnode", "Revoke", 0xC002),
    ("frame", "Map", 0xD004),
    ("frame", "Unmap", 0xE000),
    ("table", "Map", 0xF003),
    ("table", "Unmap", 0x10000),
    ("control", "Get", 0x11003),
    ("handler", "Ack", 0x12000),
    ("handler", "SetNotification", 0x13002),
    ("handler", "Clear", 0x14000),
    ("thread", "SetBuffer", 0x15002),
];

/// The call of a label, which is on a capability and lists so many words.
fn is_call(held: Cap, label: u32, name: &str, words: usize) -> bool {
    let Some(method) = Method::of_label(label) else {
        return false;
    };
    method.label() == label
        && method.name() == name
        && method.words() == words
        && listed_words(held, label) == Some(words)
}

#[test]
fn calls_are_as_in_the_manual(rt: HostRuntime) {
    for &(kind, name, info) in &ROWS {
        let held = capability(&rt, kind, [0; 6]);
        let words = (info % 0x1000) as usize;
        assert!(rt; is_call(held, info / 0x1000, name, words), "{name}");
    }
}
