//! What the words of a record say.

ghost use Rattle.std.specs.Prelude.{◌≡◌};
ghost use Rattle.objects.specs.thread_records.Records.{access_from, caller_from, caller_words, cause_from, failure_from, failure_left, fault_from};
ghost use Rattle.objects.specs.thread_records.Records.{sending_from, sending_words, sent_from, sent_words, status_from, status_words};
ghost use Rattle.objects.specs.declared.thread_records.records.Sent.TheVariants as Sent;

use crate::thread_records::records::{Fault, Sending, Sent, Status};
use model::{Access, Cause, LookupFailure, MemoryFault};

/// How many words hold what a thread sends.
pub(crate) const SENDING_WORDS: usize = 9;

/// The status with this code, and the queue that it may name.
pub(crate) fn status_from(code: u32, queue: u32) -> Status
    ensures { result ≡ status_from code queue }
{
    match code {
        1 => Status::Runnable,
        2 => Status::Blocked { queue },
        3 => Status::AwaitsReply,
        4 => Status::AwaitsHandler,
        _ => Status::Inactive,
    }
}

/// A status's code, and the queue that it names.
pub(crate) fn status_words(status: Status) -> [u32; 2]
    ensures { result ≡ status_words status }
{
    match status {
        Status::Inactive => [0, 0],
        Status::Runnable => [1, 0],
        Status::Blocked { queue } => [2, queue],
        Status::AwaitsReply => [3, 0],
        Status::AwaitsHandler => [4, 0],
    }
}

/// To whom a thread has the right to reply, if it has it.
pub(crate) fn caller_from(has: u32, caller: u32) -> Option<u32>
    ensures { result ≡ caller_from has caller }
{
    if has == 0 { None } else { Some(caller) }
}

/// Whether a thread has the right to reply, and to whom.
pub(crate) fn caller_words(caller: Option<u32>) -> [u32; 2]
    ensures { result ≡ caller_words caller }
{
    match caller {
        Some(thread) => [1, thread],
        None => [0, 0],
    }
}

/// The failure of this number, and what it names.
fn failure_from(number: u32, left: u32) -> LookupFailure
    ensures { result ≡ failure_from number left }
{
    match number {
        2 => LookupFailure::MissingCapability,
        3 => LookupFailure::DepthMismatch(left),
        4 => LookupFailure::GuardMismatch(left),
        _ => LookupFailure::InvalidRoot,
    }
}

/// What a failure names.
fn failure_left(failure: LookupFailure) -> u32
    ensures { result ≡ failure_left failure }
{
    match failure {
        LookupFailure::DepthMismatch(left) | LookupFailure::GuardMismatch(left) => left,
        LookupFailure::InvalidRoot | LookupFailure::MissingCapability => 0,
    }
}

/// The cause of this number.
fn cause_from(number: u32) -> Cause
    ensures { result ≡ cause_from number }
{
    if number == 2 {
        Cause::Misaligned
    } else {
        Cause::Illegal
    }
}

/// The access of this number.
fn access_from(number: u32) -> Access
    ensures { result ≡ access_from number }
{
    match number {
        2 => Access::Store,
        3 => Access::Fetch,
        _ => Access::Load,
    }
}

/// The fault with this code, that these five words hold: none, where no fault has the code.
fn fault_from(code: u32, pc: u32, second: u32, third: u32, fourth: u32, fifth: u32) -> Option<Fault>
    ensures { result ≡ fault_from code pc second third fourth fifth }
{
    match code {
        3 => Some(Fault::Capability {
            pc,
            address: second,
            in_receive: third != 0,
            failure: failure_from(fourth, fifth),
        }),
        4 => Some(Fault::UnknownCall { pc, number: second }),
        5 => Some(Fault::Instruction {
            pc,
            cause: cause_from(second),
        }),
        6 => Some(Fault::Memory {
            pc,
            fault: MemoryFault {
                address: second,
                access: access_from(third),
            },
        }),
        _ => None,
    }
}

/// What is sent by this code, or the fault that is.
fn sent_from(code: u32, fault: Option<Fault>) -> Option<Sent>
    ensures { result ≡ sent_from code fault }
{
    match code {
        1 => Some(Sent::Send),
        2 => Some(Sent::Call),
        _ => match fault {
            Some(fault) => Some(Sent::Fault(fault)),
            None => None,
        },
    }
}

/// What a thread sends, if it sends anything.
pub(crate) fn sending_from(words: &[u32; SENDING_WORDS]) -> Option<Sending>
    ensures { result ≡ sending_from words.now }
{
    let code = words[0];
    let fault = fault_from(code, words[3], words[4], words[5], words[6], words[7]);
    match sent_from(code, fault) {
        Some(sent) => Some(Sending {
            sent,
            badge: words[1],
            grant_reply: words[2] != 0,
        }),
        None => None,
    }
}

/// The words of what is sent.
fn sent_words(badge: u32, reply: u32, sent: Sent) -> [u32; SENDING_WORDS]
    ensures { result ≡ sent_words badge reply sent }
{
    match sent {
        Sent::Send => [1, badge, reply, 0, 0, 0, 0, 0, 0],
        Sent::Call => [2, badge, reply, 0, 0, 0, 0, 0, 0],
        Sent::Fault(fault) => fault_words(badge, reply, fault),
    }
}

/// The words of a fault that is sent.
fn fault_words(badge: u32, reply: u32, fault: Fault) -> [u32; SENDING_WORDS]
    ensures { result ≡ sent_words badge reply (Sent.Fault fault) }
{
    match fault {
        Fault::Capability {
            pc,
            address,
            in_receive,
            failure,
        } => [
            3,
            badge,
            reply,
            pc,
            address,
            u32::from(in_receive),
            failure.number(),
            failure_left(failure),
            0,
        ],
        Fault::UnknownCall { pc, number } => [4, badge, reply, pc, number, 0, 0, 0, 0],
        Fault::Instruction { pc, cause } => {
            [5, badge, reply, pc, u32::from(cause.number()), 0, 0, 0, 0]
        }
        Fault::Memory { pc, fault } => [
            6,
            badge,
            reply,
            pc,
            fault.address,
            u32::from(fault.access.number()),
            0,
            0,
            0,
        ],
    }
}

/// The words of what a thread sends: all zero, if that is nothing.
pub(crate) fn sending_words(sending: Option<Sending>) -> [u32; SENDING_WORDS]
    ensures { result ≡ sending_words sending }
{
    match sending {
        Some(sending) => sent_words(sending.badge, u32::from(sending.grant_reply), sending.sent),
        None => [0; SENDING_WORDS],
    }
}
