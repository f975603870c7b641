//! A system that is set up: its untyped memory, interrupt control, Delete and Revoke.
//! Memory of 2^16 bytes with a boot CNode of 16 slots: the boot area ends at 0x500.

use crate::kernel_calls::systems::{builds, builds_small};
use std::test::Fail;

// Untyped memory is aligned, after the boot area and all objects, and its slot is free.
#[test]
fn untyped_memory_finds_its_place(rt: HostRuntime) -> Result<(), Fail> {
    let calls = "
        untyped 1 0x400 4 = no
        untyped 1 0x1000 3 = no
        untyped 1 0x1800 12 = no
        untyped 1 0x1000 12
        untyped 1 0x2000 12 = no
        untyped 2 0x1000 8 = no
        untyped 2 0x2000 12
        untyped 16 0x4000 12 = no
        untyped 3 0x10000 4 = no
        slot 0 1 = Untyped 0x1000 12 0
    ";
    builds_small(&rt, calls)
}

// A frame at 0x10000 is left when the untyped memory around it goes. New untyped memory is put after the frame,
// and not over it.
#[test]
fn untyped_memory_is_put_behind_a_frame(rt: HostRuntime) -> Result<(), Fail> {
    let calls = "
        call memory retype Frame 0 0 0 2 1
        call boot delete memory 32
        untyped memory 0x10000 12 = no
        untyped memory 0x10000 16 = no
        untyped memory 0x11000 12
    ";
    builds(&rt, &[calls])
}

// A slot is emptied once, and then there is nothing to empty; Revoke takes what is derived, and nothing is.
#[test]
fn a_slot_is_emptied(rt: HostRuntime) -> Result<(), Fail> {
    let calls = "
        untyped 1 0x1000 12
        control 2
        control 2 = no
        call boot revoke 2 32
        slot 0 2 = InterruptControl 0 0 0
        call boot delete 2 32
        call boot delete 2 32
        slot 0 2 = Empty 0 0 0
    ";
    builds_small(&rt, calls)
}

// The boot CNode has 16 slots, and the interrupt table after it 64.
#[test]
fn each_holder_has_its_slots(rt: HostRuntime) -> Result<(), Fail> {
    let looks = "
        slot 0 15 = Empty 0 0 0
        slot 0 16 = none
        slot 0x100 63 = Empty 0 0 0
        slot 0x100 64 = none
        slot 0x500 0 = none
    ";
    builds_small(&rt, looks)
}
