//! Changes of what a thread's bytes say of it. Each leaves slots, their order, and all other bytes as they are.

ghost use Rattle.std.specs.Prelude.{◌≡◌, ◌+◌, ◌*◌, length, slice_index};
ghost use Rattle.model.specs.Machine.ProgramMemory.{write};
ghost use Rattle.pmem.specs.Words.{words_at};
ghost use Rattle.objects.specs.thread_records.Records.{IsPartAt, IsRecordAt, IsRegisterAt, SameBeside, SameBesideRecord, blank_thread, thread_at};

use crate::thread_records::codes::{caller_words, sending_words, status_words};
use crate::thread_records::places::{
    CALLER, FAULT_ADDRESS, FIRST, LENGTH, PC, PRIORITY, REGISTERS, SENDING, SLICE, STATUS,
};
use crate::thread_records::records::{Sending, Status};
use model::Register;
use rv32_exec::Regs;
use slots::SlotStore;

/// Writes words of a thread's record, one after the other.
fn put_words<S: SlotStore>(store: &mut S, thread: u32, place: u32, words: &[u32])
    requires { IsPartAt (S.slots store.old) (length (S.memory store.old)) thread place (4 * length words.now) }
    ensures others { SameBeside (thread + place) (thread + (place + 4 * length words.now)) (S.memory store.old) (S.memory store.new) }
    ensures read { words_at (S.memory store.new) (thread + place) (length words.now) ≡ words.now }
    ensures slots { S.slots store.new ≡ S.slots store.old }
    ensures order { S.order store.new ≡ S.order store.old }
    ensures there { IsRecordAt (S.slots store.new) (length (S.memory store.new)) thread }
{
    store.write_words(thread + place, words);
}

/// Writes a byte of a thread's record.
fn put_byte<S: SlotStore>(store: &mut S, thread: u32, place: u32, byte: u8)
    requires { IsPartAt (S.slots store.old) (length (S.memory store.old)) thread place 1 }
    ensures others { SameBeside (thread + place) (thread + (place + 1)) (S.memory store.old) (S.memory store.new) }
    ensures read { slice_index (S.memory store.new) (thread + place) ≡ byte }
    ensures slots { S.slots store.new ≡ S.slots store.old }
    ensures order { S.order store.new ≡ S.order store.old }
{
    store.write8(thread + place, byte);
}

/// Begins the record of a new thread: all zero, and inactive.
pub fn begin_thread<S: SlotStore>(store: &mut S, thread: u32)
    requires there { IsRecordAt (S.slots store.old) (length (S.memory store.old)) thread }
    ensures record { thread_at (S.memory store.new) thread ≡ blank_thread }
    ensures bytes { SameBesideRecord thread (S.memory store.old) (S.memory store.new) }
    ensures slots { S.slots store.new ≡ S.slots store.old }
    ensures order { S.order store.new ≡ S.order store.old }
{
    store.zero(thread + FIRST, LENGTH);
}

/// Changes the registers of a thread.
pub fn set_registers<S: SlotStore>(store: &mut S, thread: u32, registers: Regs)
    requires there { IsRecordAt (S.slots store.old) (length (S.memory store.old)) thread }
    ensures record { thread_at (S.memory store.new) thread
        ≡ record (thread_at (S.memory store.old) thread) { registers = registers } }
    ensures bytes { SameBesideRecord thread (S.memory store.old) (S.memory store.new) }
    ensures slots { S.slots store.new ≡ S.slots store.old }
    ensures order { S.order store.new ≡ S.order store.old }
{
    put_words(store, thread, PC, &[registers.pc()]);
    put_words(store, thread, REGISTERS, registers.words());
}

/// Changes one register of a thread. Register 0 stays zero.
pub fn set_register<S: SlotStore>(store: &mut S, thread: u32, register: Register, value: u32)
    requires { IsRegisterAt (S.slots store.old) (length (S.memory store.old)) thread register }
    ensures record { thread_at (S.memory store.new) thread
        ≡ record (thread_at (S.memory store.old) thread) { registers = write (thread_at (S.memory store.old) thread).registers register value } }
    ensures bytes { SameBesideRecord thread (S.memory store.old) (S.memory store.new) }
    ensures slots { S.slots store.new ≡ S.slots store.old }
    ensures order { S.order store.new ≡ S.order store.old }
{
    if register.0 != 0 {
        put_words(
            store,
            thread,
            REGISTERS + 4 * u32::from(register.0),
            &[value],
        );
    }
}

/// Changes the address of the instruction that a thread runs next.
pub fn set_pc<S: SlotStore>(store: &mut S, thread: u32, pc: u32)
    requires there { IsRecordAt (S.slots store.old) (length (S.memory store.old)) thread }
    ensures record { thread_at (S.memory store.new) thread
        ≡ record (thread_at (S.memory store.old) thread) { registers = record (thread_at (S.memory store.old) thread).registers { pc = pc } } }
    ensures bytes { SameBesideRecord thread (S.memory store.old) (S.memory store.new) }
    ensures slots { S.slots store.new ≡ S.slots store.old }
    ensures order { S.order store.new ≡ S.order store.old }
{
    put_words(store, thread, PC, &[pc]);
}

/// Changes the priority of a thread.
pub fn set_priority<S: SlotStore>(store: &mut S, thread: u32, priority: u8)
    requires there { IsRecordAt (S.slots store.old) (length (S.memory store.old)) thread }
    ensures record { thread_at (S.memory store.new) thread
        ≡ record (thread_at (S.memory store.old) thread) { priority = priority } }
    ensures bytes { SameBesideRecord thread (S.memory store.old) (S.memory store.new) }
    ensures slots { S.slots store.new ≡ S.slots store.old }
    ensures order { S.order store.new ≡ S.order store.old }
{
    put_byte(store, thread, PRIORITY, priority);
}

/// Changes how many ticks a thread runs on.
pub fn set_slice<S: SlotStore>(store: &mut S, thread: u32, slice: u8)
    requires there { IsRecordAt (S.slots store.old) (length (S.memory store.old)) thread }
    ensures record { thread_at (S.memory store.new) thread
        ≡ record (thread_at (S.memory store.old) thread) { slice = slice } }
    ensures bytes { SameBesideRecord thread (S.memory store.old) (S.memory store.new) }
    ensures slots { S.slots store.new ≡ S.slots store.old }
    ensures order { S.order store.new ≡ S.order store.old }
{
    put_byte(store, thread, SLICE, slice);
}

/// Changes where a thread's faults go: a capability address, or 0.
pub fn set_fault_address<S: SlotStore>(store: &mut S, thread: u32, fault_address: u32)
    requires there { IsRecordAt (S.slots store.old) (length (S.memory store.old)) thread }
    ensures record { thread_at (S.memory store.new) thread
        ≡ record (thread_at (S.memory store.old) thread) { fault_address = fault_address } }
    ensures bytes { SameBesideRecord thread (S.memory store.old) (S.memory store.new) }
    ensures slots { S.slots store.new ≡ S.slots store.old }
    ensures order { S.order store.new ≡ S.order store.old }
{
    put_words(store, thread, FAULT_ADDRESS, &[fault_address]);
}

/// Changes whether a thread runs, and else what it waits for.
pub fn set_status<S: SlotStore>(store: &mut S, thread: u32, status: Status)
    requires there { IsRecordAt (S.slots store.old) (length (S.memory store.old)) thread }
    ensures record { thread_at (S.memory store.new) thread
        ≡ record (thread_at (S.memory store.old) thread) { status = status } }
    ensures bytes { SameBesideRecord thread (S.memory store.old) (S.memory store.new) }
    ensures slots { S.slots store.new ≡ S.slots store.old }
    ensures order { S.order store.new ≡ S.order store.old }
{
    put_words(store, thread, STATUS, &status_words(status));
}

/// Changes whom a thread has the right to reply to.
pub fn set_caller<S: SlotStore>(store: &mut S, thread: u32, caller: Option<u32>)
    requires there { IsRecordAt (S.slots store.old) (length (S.memory store.old)) thread }
    ensures record { thread_at (S.memory store.new) thread
        ≡ record (thread_at (S.memory store.old) thread) { caller = caller } }
    ensures bytes { SameBesideRecord thread (S.memory store.old) (S.memory store.new) }
    ensures slots { S.slots store.new ≡ S.slots store.old }
    ensures order { S.order store.new ≡ S.order store.old }
{
    put_words(store, thread, CALLER, &caller_words(caller));
}

/// Changes what a thread sends.
pub fn set_sending<S: SlotStore>(store: &mut S, thread: u32, sending: Option<Sending>)
    requires there { IsRecordAt (S.slots store.old) (length (S.memory store.old)) thread }
    ensures record { thread_at (S.memory store.new) thread
        ≡ record (thread_at (S.memory store.old) thread) { sending = sending } }
    ensures bytes { SameBesideRecord thread (S.memory store.old) (S.memory store.new) }
    ensures slots { S.slots store.new ≡ S.slots store.old }
    ensures order { S.order store.new ≡ S.order store.old }
{
    put_words(store, thread, SENDING, &sending_words(sending));
}
