//! Retype, Delete and Revoke in memory of 2^17 bytes: a boot CNode of 64 slots, and 64 KiB of untyped memory at
//! 0x10000 in its slot 1.

use crate::kernel_calls::systems::builds;
use std::test::Fail;

#[test]
fn frames_lie_behind_the_watermark(rt: HostRuntime) -> Result<(), Fail> {
    let calls = "
        call memory retype Endpoint 0 0 0 2 1
        slot 0 memory = Untyped 0x10000 16 0x10
        call memory retype Frame 0 0 0 3 16 = NotEnoughMemory
        slot 0 memory = Untyped 0x10000 16 0x10
        slot 0 3 = Empty 0 0 0
        call memory retype Frame 0 0 0 3 2
        slot 0 memory = Untyped 0x10000 16 0x3000
        slot 0 2 = Endpoint 0x10000 all 0 0 memory
        slot 0 3 = Frame 0x11000 3 0 0 memory
        slot 0 4 = Frame 0x12000 3 0 0 memory
        call memory retype Frame 0 0 0 5 13
        slot 0 17 = Frame 0x1f000 3 0 0 memory
    ";
    builds(&rt, &[calls])
}

#[test]
fn revoked_memory_is_used_again(rt: HostRuntime) -> Result<(), Fail> {
    let calls = "
        call memory retype Endpoint 0 0 0 2 1
        call memory retype Frame 0 0 0 3 15
        call boot revoke memory 32
        slot 0 memory = Untyped 0x10000 16 0
        slot 0 2 = Empty 0 0 0
        slot 0 17 = Empty 0 0 0
        call memory retype Frame 0 0 0 2 16
        slot 0 memory = Untyped 0x10000 16 0x10000
        slot 0 2 = Frame 0x10000 3 0 0 memory
    ";
    builds(&rt, &[calls])
}

#[test]
fn a_full_window_is_refused(rt: HostRuntime) -> Result<(), Fail> {
    let calls = "
        call memory retype Endpoint 0 0 0 5 1
        call memory retype Endpoint 0 0 0 4 3 = DeleteFirst
        slot 0 4 = Empty 0 0 0
        slot 0 6 = Empty 0 0 0
        slot 0 memory = Untyped 0x10000 16 0x10
    ";
    builds(&rt, &[calls])
}

// A (slot 2) has the child B (3), B has the child C (4), and D (5) is beside A.
const TREE: &str = "
    call memory retype Endpoint 0 0 0 2 1
    call boot copy 3 32 2 32 all
    call boot copy 4 32 3 32 all
    call memory retype Endpoint 0 0 0 5 1
";

#[test]
fn revoke_takes_all_that_descends(rt: HostRuntime) -> Result<(), Fail> {
    let calls = "
        call boot revoke 2 32
        slot 0 2 = Endpoint 0x10000 all 0 0 memory
        slot 0 3 = Empty 0 0 0
        slot 0 4 = Empty 0 0 0
        slot 0 5 = Endpoint 0x10010 all 0 0 memory
    ";
    builds(&rt, &[TREE, calls])
}

#[test]
fn delete_gives_children_their_grandparent(rt: HostRuntime) -> Result<(), Fail> {
    let calls = "
        call boot delete 3 32
        slot 0 4 = Endpoint 0x10000 all 0 0 2
        call boot revoke 2 32
        slot 0 4 = Empty 0 0 0
    ";
    builds(&rt, &[TREE, calls])
}

// A CNode of 16 slots at 0x10100 holds a copy of the endpoint; its own capability is its only one.
#[test]
fn a_filled_cnode_is_revoked_first(rt: HostRuntime) -> Result<(), Fail> {
    let calls = "
        call memory retype Endpoint 0 0 0 2 1
        call memory retype CNode 4 0 0 3 1
        call 3 copy 7 4 2 32 all
        call boot delete 3 32 = RevokeFirst
        slot 0 3 = CNode 0x10100 4 0 0 memory
        slot 0 2 = Endpoint 0x10000 all 0 0 memory
        call boot revoke 2 32
        call boot delete 3 32
        slot 0 3 = Empty 0 0 0
    ";
    builds(&rt, &[calls])
}

// Each check of Retype in its order: with a mistake in all that come later, the first one answers.
#[test]
fn retype_checks_in_order(rt: HostRuntime) -> Result<(), Fail> {
    let calls = "
        call memory retype Endpoint 0 0 0 5 1
        call 5 retype 9 0 5 33 64 0 = IllegalOperation
        call memory retype 9 0 5 33 64 0 = InvalidArgument
        call memory retype CNode 0 5 33 64 0 = InvalidArgument
        call memory retype CNode 15 5 33 64 0 = RangeError
        call memory retype CNode 14 5 33 64 0 = RangeError
        call memory retype CNode 14 5 32 64 0 = FailedLookup
        call memory retype CNode 14 0 0 64 0 = RangeError
        call memory retype CNode 14 0 0 64 1 = RangeError
        call memory retype CNode 14 0 0 5 1 = DeleteFirst
        call memory retype CNode 14 0 0 6 1 = NotEnoughMemory
        slot 0 6 = Empty 0 0 0
        slot 0 memory = Untyped 0x10000 16 0x10
    ";
    builds(&rt, &[calls])
}
