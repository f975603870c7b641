//! Systems as texts: a line a call, a look or an event, with what it answers. `words` has the names of numbers.
//!
//! Before the threads run a line is one of these. After ` = ` is what it answers, if that is not `ok`: `no`, or an
//! error.
//!
//!     untyped SLOT OFFSET BITS
//!     control SLOT
//!     code WORD ..
//!     fill OFFSET BYTE ..
//!     call SLOT LABEL WORD ..
//!     set SLOT REGISTER VALUE ..
//!
//! While they run a line is one of the trace, as docs/MANUAL.md has it: `tick` and `irq 3` come of these events, and
//! all others of a step.
//!
//! At any time a line looks at something:
//!
//!     slot HOLDER INDEX = KIND and three words of the capability, and the holder and index that it was derived from
//!     reg THREAD REGISTER .. = VALUE ..
//!     byte OFFSET = BYTE

use crate::kernel_calls::words::numbers;
use kernel::{Machine, Setup, System};
use model::{Cap, Event};
use std::alloc::{AllocError, Global};
use std::process::Abort;
use std::test::Fail;

/// Asserts that an answer is what was wanted.
fn answers<R: Abort + AllocGlobal>(
    rt: &R,
    line: &str,
    answer: &[u32],
    wanted: &str,
    title: &str,
) -> Result<(), Fail> {
    let wanted = numbers(rt.alloc(), wanted)?;
    assert_eq!(rt; answer, wanted.as_slice(), "{line} {title}");
    Ok(())
}

/// Where the code is in physical memory.
const CODE: u32 = 0x10000;

/// So many bytes of each word, the low ones first.
fn bytes_of(alloc: Global, words: &[u32], count: usize) -> Result<Vec<u8>, AllocError> {
    let mut bytes = Vec::new(alloc);
    for word in words {
        for byte in word.to_le_bytes().into_iter().take(count) {
            bytes.push(byte)?;
        }
    }
    Ok(bytes)
}

/// The kind of a capability, and three words of it.
fn words_of(capability: Cap) -> Option<[u32; 4]> {
    match capability {
        Cap::Empty => Some([0, 0, 0, 0]),
        Cap::Untyped {
            offset,
            bits,
            watermark,
        } => Some([1, offset, u32::from(bits), watermark]),
        Cap::Endpoint {
            offset,
            rights,
            badge,
        } => Some([3, offset, u32::from(rights.0), badge]),
        Cap::CNode {
            offset,
            radix,
            guard,
        } => Some([5, offset, u32::from(radix), guard]),
        Cap::Frame {
            offset,
            rights,
            mapping: None,
        } => Some([6, offset, u32::from(rights.0), 0]),
        Cap::InterruptControl => Some([9, 0, 0, 0]),
        _ => None,
    }
}

/// What a look finds.
fn found(alloc: Global, machine: &Machine, verb: &str, words: &[u32]) -> Result<Vec<u32>, Fail> {
    let mut found = Vec::new(alloc);
    match (verb, words) {
        ("slot", &[holder, index]) => {
            if let Some((capability, parent)) = machine.slot(holder, index) {
                let words = words_of(capability).ok_or("a capability without words")?;
                found.extend_from_slice(words.as_slice())?;
                if let Some((holder, index)) = parent {
                    found.extend_from_slice([holder, index].as_slice())?;
                }
            }
        }
        ("reg", &[thread, ref registers @ ..]) => {
            for index in registers {
                if let Some(value) = machine.reg(thread, u8::try_from(*index)?) {
                    found.push(value)?;
                }
            }
        }
        ("byte", &[offset]) => {
            if let Some(byte) = machine.byte(offset) {
                found.push(u32::from(byte))?;
            }
        }
        _ => return Err("no such line")?,
    }
    Ok(found)
}

/// Sets registers of a thread that has not begun, each by a call: pairs of index and value.
fn sets(setup: &mut Setup, slot: u32, pairs: &[u32]) -> bool {
    for pair in pairs.chunks(2) {
        if setup.call(slot, 4, pair).is_err() {
            return false;
        }
    }
    true
}

/// What a line of the setting up answers.
fn answer(alloc: Global, setup: &mut Setup, verb: &str, words: &[u32]) -> Result<Vec<u32>, Fail> {
    let number = match (verb, words) {
        ("untyped", &[slot, offset, bits]) => {
            u32::from(!setup.untyped(slot, offset, u8::try_from(bits)?))
        }
        ("control", &[slot]) => u32::from(!setup.control(slot)),
        ("code", words) => u32::from(!setup.fill(CODE, bytes_of(alloc, words, 4)?.as_slice())),
        ("fill", &[offset, ref words @ ..]) => {
            u32::from(!setup.fill(offset, bytes_of(alloc, words, 1)?.as_slice()))
        }
        ("set", &[slot, ref pairs @ ..]) => u32::from(!sets(setup, slot, pairs)),
        ("call", &[slot, label, ref words @ ..]) => match setup.call(slot, label, words) {
            Ok(()) => 0,
            Err(error) => u32::from(error.number()),
        },
        _ => return found(alloc, setup.machine(), verb, words),
    };
    Ok(vec![in alloc; number]?)
}

/// Makes the calls and looks of a text.
pub(crate) fn sets_up<R: Abort + AllocGlobal>(
    rt: &R,
    setup: &mut Setup,
    text: &str,
) -> Result<(), Fail> {
    let alloc = rt.alloc();
    for line in text.lines() {
        let (told, wanted) = line.split_once(" = ").unwrap_or((line, "ok"));
        if let Some((verb, words)) = told.trim().split_once(' ') {
            let words = numbers(alloc, words)?;
            let answer = answer(alloc, setup, verb, words.as_slice())?;
            answers(rt, line, answer.as_slice(), wanted, "")?;
        } else {
            assert_eq!(rt; line.trim(), "");
        }
    }
    Ok(())
}

/// Looks at something, and asserts what it finds.
fn looks<R: Abort + AllocGlobal>(
    rt: &R,
    machine: &Machine,
    told: &str,
    wanted: &str,
    title: &str,
) -> Result<(), Fail> {
    let (verb, words) = told.split_once(' ').unwrap_or((told, ""));
    let words = numbers(rt.alloc(), words)?;
    let found = found(rt.alloc(), machine, verb, words.as_slice())?;
    answers(rt, told, found.as_slice(), wanted, title)
}

/// The event that gives a line of the trace.
fn event_of(line: &str) -> Event {
    match line {
        "tick" => Event::Tick,
        "irq 3" => Event::Irq(3),
        _ => Event::Step,
    }
}

/// Asserts what comes of an event.
fn goes_on(rt: &impl Abort, system: &mut System, line: &str, title: &str) {
    let label = trace::line(system.step(event_of(line)));
    assert_eq!(rt; label.as_slice(), line.as_bytes(), "{line} {title}");
}

/// Goes through the events and looks of a text; a failure prints the title.
pub(crate) fn runs<R: Abort + AllocGlobal>(
    rt: &R,
    system: &mut System,
    text: &str,
    title: &str,
) -> Result<(), Fail> {
    for line in text.lines() {
        for line in line.split(';') {
            let line = line.trim();
            if let Some((told, wanted)) = line.split_once(" = ") {
                looks(rt, system.machine(), told, wanted, title)?;
            } else if !line.is_empty() {
                goes_on(rt, system, line, title);
            }
        }
    }
    Ok(())
}
