//! Capability lookup, and the slots that the words of a call name.

use crate::store::rows::{check_rows, told, words};
use cspace::{LookupFailure, SlotName, argument_slot, destination_slot, lookup, source_slot};
use model::{Cap, Slot};
use slots::PlainSlots;
use std::alloc::Global;
use std::process::Abort;
use std::test::Fail;

/// A CNode of 256 slots with the guard 0 of 4 bits.
const NODE: Cap = Cap::CNode {
    offset: 0x1_0000,
    radix: 8,
    guard: 4,
};

/// The CNode is open. Its slot 0x60 holds an endpoint, and 0x61 the CNode itself.
const FRONT: &str = "open 1000 100 = 1
put 1060 = endpoint 20 b 0
put 1061 = cnode 10000 8 4";

/// An address and its bits. `lookup` answers the slot and how many bits are left, these as a decimal number.
const ROWS: &str = "lookup 6000000 20 = 1060 20
lookup 6012345 20 = 1060 20
lookup 60 c = 1060 0
lookup 61060 18 = 1060 0
lookup 61070 18 = 1070 0
lookup 61060 17 = 10c2 11
lookup 16000000 20 = GuardMismatch(32)
lookup 60 b = DepthMismatch(11)
lookup 61160 18 = GuardMismatch(12)
lookup 0 3 = GuardMismatch(3)
argument 60 c = 1060
argument 60 0 = RangeError
argument 60 21 = RangeError
argument 6000000 20 = FailedLookup
argument 160 c = FailedLookup
source 60 c = 1060
source 62 c = FailedLookup
source 60 0 = RangeError
destination 62 c = 1062
destination 60 c = DeleteFirst
destination 160 c = FailedLookup";

/// A slot and the bits that are left as rows have them.
fn place(alloc: Global, slot: Slot, left: u32) -> Result<String, Fail> {
    Ok(format!(in alloc; "{:x} {left}", slot.number())?)
}

/// A failure as rows have it.
fn failure(alloc: Global, failure: LookupFailure) -> Result<String, Fail> {
    Ok(format!(in alloc; "{failure:?}")?)
}

/// What a lookup finds.
fn looked_up(
    rt: &(impl AllocGlobal + Abort),
    store: &PlainSlots,
    address: u32,
    depth: u32,
) -> Result<String, Fail> {
    assert!(rt; depth <= 32);
    match lookup(store, NODE, address, depth) {
        Ok((slot, left)) => place(rt.alloc(), slot, left),
        Err(fault) => failure(rt.alloc(), fault),
    }
}

/// What an address of so many bits names under the CNode.
fn found(
    rt: &(impl AllocGlobal + Abort),
    store: &PlainSlots,
    verb: &str,
    name: SlotName,
) -> Result<String, Fail> {
    let found = match verb {
        "argument" => argument_slot(store, NODE, name),
        "source" => source_slot(store, NODE, name),
        "destination" => destination_slot(store, NODE, name),
        "lookup" => return looked_up(rt, store, name.address, name.depth),
        _ => panic!(rt; "no such lookup: {verb}"),
    };
    match found {
        Ok(slot) => told(rt.alloc(), Ok(slot.number())),
        Err(error) => told(rt.alloc(), Err(error)),
    }
}

/// Goes through rows, one a line.
fn check_found(
    rt: &(impl AllocGlobal + Abort),
    store: &PlainSlots,
    rows: &str,
) -> Result<(), Fail> {
    for row in rows.lines() {
        let (asked, wanted) = row.split_once(" = ").unwrap_or((row, "?"));
        let (verb, [address, depth, ..]) = words(rt, asked);
        let answer = found(rt, store, verb, SlotName { address, depth })?;
        assert_eq!(rt; answer.as_str(), wanted, "{row}");
    }
    Ok(())
}

#[test]
fn addresses_name_slots(rt: HostRuntime) -> Result<(), Fail> {
    let mut store = PlainSlots::new(rt.alloc(), 17)?;
    check_rows(&rt, &mut store, FRONT)?;
    check_found(&rt, &store, ROWS)?;
    // A lookup may end at a slot that is not open.
    let small = PlainSlots::new(rt.alloc(), 16)?;
    check_found(&rt, &small, "lookup 60 c = 1060 0")
}
