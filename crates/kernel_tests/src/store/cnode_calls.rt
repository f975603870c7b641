//! Copy, Mint, Move and Mutate, from the words of a message on.

ghost use Rattle.cnode_ops.specs.Nodes.{CNodesAreOpen, HasOpenSlots};

use crate::store::asking::slot;
use crate::store::nodes::{has_open_slots, nodes_are_open};
use crate::store::rows::check_tables;
use cnode_ops::{NodeCall, copy, mint, move_cap, mutate};
use invoke::decode_call;
use model::{CNodeCall, Invocation, KError};
use slots::SlotStore;
use std::process::Abort;
use std::test::Fail;

fn perform<S: SlotStore>(
    rt: &impl Abort,
    store: &mut S,
    on: NodeCall,
    call: CNodeCall,
) -> Result<(), KError>
    requires there { HasOpenSlots (S.slots store.old) on.node }
    requires nodes { CNodesAreOpen (S.slots store.old) }
{
    match call {
        CNodeCall::Copy {
            destination,
            source,
            rights,
        } => copy(store, on, destination, source, rights),
        CNodeCall::Mint {
            destination,
            source,
            rights,
            payload,
        } => mint(store, on, destination, source, rights, payload),
        CNodeCall::Move {
            destination,
            source,
        } => move_cap(store, on, destination, source),
        CNodeCall::Mutate {
            destination,
            source,
            payload,
        } => mutate(store, on, destination, source, payload),
        CNodeCall::Delete { .. } | CNodeCall::Revoke { .. } => panic!(rt; "a removal"),
    }
}

/// What the message of these words answers on the CNode in slot 0x400.
pub(crate) fn call<S: SlotStore>(
    rt: &impl Abort,
    store: &mut S,
    label: u32,
    words: [u32; 6],
) -> Result<u32, KError> {
    let node = store.capability(slot(rt, 0x400));
    assert!(rt; nodes_are_open(store) && has_open_slots(store, node));
    let on = NodeCall { root: node, node };
    match decode_call(node, label, 0, &words)? {
        Invocation::OnCNode { call } => perform(rt, store, on, call)?,
        _ => panic!(rt; "no call on a CNode"),
    }
    Ok(1)
}

/// Each of so many slots after the first one gets a copy of the slot before it.
pub(crate) fn line_of_copies<S: SlotStore>(
    rt: &impl Abort,
    store: &mut S,
    first: u32,
    count: u32,
) -> Result<u32, KError> {
    for index in first..first.saturating_add(count) {
        call(
            rt,
            store,
            7,
            [index.saturating_add(1), 32, index, 32, 0xf, 0],
        )?;
    }
    Ok(1)
}

/// A CNode of 512 slots holds itself in its slot 0, which is slot 0x400. Its guard has 23 bits, all 0, so that a name of
/// 32 (0x20) bits is the number of a slot in it. After it is a capability of each kind.
const FRONT: &str = "open 400 200 = 1
put 400 = cnode 4000 9 17
put 401 = endpoint 20 b 0
put 402 = endpoint 40 b 5
put 403 = notification 30 3 0
put 404 = frame 7000 3 0 9000 401 3
put 405 = untyped 8000 c 40
put 406 = table a000
put 407 = control
put 408 = root 9000";

/// A call has the name of its destination, the name of its source, and up to two more words: the rights and the badge or
/// guard of Copy and Mint, and the guard of Mutate.
const TABLES: [&str; 9] = [
    // Names are looked at before all else, the destination's before the source's.
    "copy 14 0 7 0 0 0 = RangeError
copy 14 21 7 0 0 0 = RangeError
copy 200 20 7 0 0 0 = FailedLookup
copy 14 1f 7 0 0 0 = FailedLookup
copy 8 20 7 0 0 0 = DeleteFirst
copy 14 20 7 0 0 0 = RangeError
copy 14 20 7 21 0 0 = RangeError
copy 14 20 200 20 0 0 = FailedLookup
copy 14 20 14 20 0 0 = FailedLookup
mint 14 0 7 0 0 0 = RangeError
mint 14 21 7 0 0 0 = RangeError
mint 200 20 7 0 0 0 = FailedLookup
mint 14 1f 7 0 0 0 = FailedLookup
mint 8 20 7 0 0 0 = DeleteFirst
mint 14 20 7 0 0 0 = RangeError
mint 14 20 7 21 0 0 = RangeError
mint 14 20 200 20 0 0 = FailedLookup
mint 14 20 14 20 0 0 = FailedLookup
move 14 0 7 0 0 0 = RangeError
move 14 21 7 0 0 0 = RangeError
move 200 20 7 0 0 0 = FailedLookup
move 14 1f 7 0 0 0 = FailedLookup
move 8 20 7 0 0 0 = DeleteFirst
move 14 20 7 0 0 0 = RangeError
move 14 20 7 21 0 0 = RangeError
move 14 20 200 20 0 0 = FailedLookup
move 14 20 14 20 0 0 = FailedLookup
mutate 14 0 7 0 0 0 = RangeError
mutate 14 21 7 0 0 0 = RangeError
mutate 200 20 7 0 0 0 = FailedLookup
mutate 14 1f 7 0 0 0 = FailedLookup
mutate 8 20 7 0 0 0 = DeleteFirst
mutate 14 20 7 0 0 0 = RangeError
mutate 14 20 7 21 0 0 = RangeError
mutate 14 20 200 20 0 0 = FailedLookup
mutate 14 20 14 20 0 0 = FailedLookup
held 414 = empty",
    // Some capabilities are not copied.
    "copy 14 20 5 20 3 0 = IllegalOperation
copy 14 20 6 20 3 0 = IllegalOperation
copy 14 20 7 20 3 0 = IllegalOperation
mint 14 20 5 20 3 0 = IllegalOperation
mint 14 20 6 20 3 0 = IllegalOperation
mint 14 20 7 20 3 0 = IllegalOperation
held 414 = empty",
    // A badge is given once and has 28 bits.
    "mint 14 20 2 20 3 7 = IllegalOperation
mint 14 20 2 20 3 10000000 = IllegalOperation
mint 14 20 1 20 3 10000000 = RangeError
mint 14 20 3 20 3 ffffffff = RangeError
held 414 = empty
mint 14 20 1 20 3 fffffff = 1
held 414 = endpoint 20 3 fffffff
parent 414 = 401",
    // A guard word fits its CNode: a3 is the guard 5 of 3 bits.
    "mint 14 20 0 20 3 18 = IllegalOperation
mint 14 20 0 20 3 103 = IllegalOperation
mint 14 20 0 20 3 800017 = IllegalOperation
mutate 14 20 0 20 18 0 = IllegalOperation
mutate 14 20 0 20 103 0 = IllegalOperation
held 414 = empty
mint 14 20 0 20 3 a3 = 1
held 414 = cnode 4000 9 a3
parent 414 = 400",
    // What carries messages is not mutated.
    "mutate 14 20 1 20 0 0 = IllegalOperation
mutate 14 20 2 20 5 0 = IllegalOperation
mutate 14 20 3 20 0 0 = IllegalOperation
held 414 = empty",
    // A copy has common rights and no mapping.
    "copy 14 20 4 20 fffffff6 0 = 1
held 414 = frame 7000 2 0
parent 414 = 404
held 404 = frame 7000 3 0 9000 401 3
parent 404 = none
copy 15 20 2 20 6 0 = 1
held 415 = endpoint 40 2 5
parent 415 = 402
copy 16 20 15 20 f 0 = 1
held 416 = endpoint 40 2 5
parent 416 = 415
mint 17 20 8 20 0 ffffffff = 1
held 417 = root 9000
parent 417 = 408",
    // A move takes parent, children and mapping along.
    "mint 14 20 1 20 3 7 = 1
copy 15 20 14 20 1 0 = 1
move 1e 20 14 20 0 0 = 1
held 414 = empty
parent 414 = none
held 41e = endpoint 20 3 7
parent 41e = 401
held 415 = endpoint 20 1 7
parent 415 = 41e
move 1f 20 4 20 0 0 = 1
held 41f = frame 7000 3 0 9000 401 3
parent 41f = none",
    // A mutation changes the guard alone.
    "copy 14 20 0 20 0 0 = 1
copy 15 20 14 20 0 0 = 1
mutate 1e 20 14 20 a3 0 = 1
held 414 = empty
parent 414 = none
held 41e = cnode 4000 9 a3
parent 41e = 400
held 415 = cnode 4000 9 17
parent 415 = 41e
mutate 1f 20 5 20 ffffffff 0 = 1
held 41f = untyped 8000 c 40
parent 41f = none",
    // No copy is deeper than 255. From the slot of depth 2 on there are 253 (0xfd) more.
    "copy 64 20 1 20 f 0 = 1
copy 65 20 64 20 f 0 = 1
copies 65 fd = 1
held 562 = endpoint 20 b 0
parent 562 = 561
copy 163 20 162 20 f 0 = IllegalOperation
mint 163 20 162 20 f 1 = IllegalOperation
mint 163 20 162 20 f 10000000 = RangeError
held 563 = empty
parent 563 = none
move 163 20 162 20 0 0 = 1
held 563 = endpoint 20 b 0
parent 563 = 561",
];

#[test]
fn copies_and_moves(rt: HostRuntime) -> Result<(), Fail> {
    check_tables(&rt, FRONT, &TABLES)
}
