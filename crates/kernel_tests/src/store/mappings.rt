//! Calls on mappings in a memory of 2^17 bytes.

ghost use Rattle.std.specs.Prelude.{◌≡◌};
ghost use Rattle.model.specs.Capabilities.Slots.{capability_at};
ghost use Rattle.slots.specs.Table.{table_slots};
ghost use Rattle.vspace.specs.Tables.{TablesAgree};

use crate::store::asking::{NONE, slot, word};
use crate::store::fresh::is_fresh;
use crate::store::rows::{check_rows, told, words};
use model::{Access, Cap, KError, Slot, SlotName};
use slots::{PlainSlots, SlotMap, SlotStore};
use std::process::Abort;
use std::test::Fail;
use vspace::{
    FrameCap, PageTableCap, end_tables, map_frame, map_table, place_under, unmap_cap, unmap_frame,
    unmap_table,
};

/// A CNode of 16 slots holds itself in its slot 0, which is slot 0x400, and after it a root table, a page table and two
/// frames. Its guard has 28 bits, all 0, so that a name of 32 bits is the number of a slot in it.
const FRONT: &str = "open 400 10 = 1
put 400 = cnode 4000 4 1c
put 401 = root 9000
put 402 = table a000
put 403 = frame 11000 3 0
put 404 = frame 12000 3 0";

/// Frames are named by their slots. An address is looked up to `load`, to `store` and to `fetch`. Before most tables a
/// frame is mapped at 0x00401000, and may be read and written.
const TABLES: [&str; 10] = [
    // A frame is mapped at a page of the lower half.
    "map 403 80000000 3 = InvalidArgument
map 403 1001 3 = AlignmentError
map 403 1000 3 = FailedLookup",
    // A frame is mapped once at a free page.
    "map_table 400000 = 1
map 403 401000 3 = 1
map 403 402000 3 = InvalidCapability
map 404 401000 3 = DeleteFirst
map 404 401000 1 = DeleteFirst
map 404 402000 1 = InvalidArgument
map 404 402000 3 = 1",
    // A page table is mapped once for a region.
    "map_table 80000000 = InvalidArgument
map_table 401000 = AlignmentError
map_table 400000 = 1
word 9004 = 20002801
map_table 800000 = InvalidCapability",
    // A page has its rights.
    "map_table 400000 = 1
map 403 401000 3 = 1
word a004 = 200044d7
load 401004 = 11004
store 401004 = 11004
fetch 401004 = none
load 402000 = none",
    // An unmapped frame is not found.
    "map_table 400000 = 1
map 403 401000 3 = 1
unmap_frame 403 = 1
load 401004 = none
store 401004 = none
word a004 = 0
is_mapped 403 = 0
map 404 401000 3 = 1
load 401004 = 12004",
    // Frames go with their page table.
    "map_table 400000 = 1
map 403 401000 3 = 1
unmap_table = 1
load 401004 = none
store 401004 = none
word a004 = 0
is_mapped 403 = 0
word 9004 = 0
map 403 401000 3 = FailedLookup",
    // A capability loses its mapping.
    "map_table 400000 = 1
map 403 401000 3 = 1
unmap_cap 403 = 1
load 401004 = none
store 401004 = none
word a004 = 0
is_mapped 403 = 0",
    // Nothing is mapped in a root table that ends.
    "map_table 400000 = 1
map 403 401000 3 = 1
end 9000 = 1
load 401004 = none
store 401004 = none
word a004 = 0
is_mapped 403 = 0
word 9004 = 0
is_mapped 402 = 0",
    // A frame goes with a page table that ends.
    "map_table 400000 = 1
map 403 401000 3 = 1
end a000 = 1
load 401004 = none
store 401004 = none
word a004 = 0
is_mapped 403 = 0
map_table 800000 = 1
map 403 801000 2 = 1
load 801004 = 11004
store 801004 = none",
    // A page stays when another table ends.
    "map_table 400000 = 1
map 403 401000 3 = 1
end b000 = 1
load 401004 = 11004",
];

fn frame_at(rt: &impl Abort, store: &PlainSlots, number: u32) -> FrameCap
    ensures { capability_at (table_slots store.now.1) result.slot
        ≡ Cap.Frame result.offset result.rights result.mapping }
{
    let at = slot(rt, number);
    match store.capability(at) {
        Cap::Frame {
            offset,
            rights,
            mapping,
        } => FrameCap {
            slot: at,
            offset,
            rights,
            mapping,
        },
        _ => panic!(rt; "no frame"),
    }
}

fn table_at(rt: &impl Abort, store: &PlainSlots) -> PageTableCap
    ensures { capability_at (table_slots store.now.1) result.slot
        ≡ Cap.PageTable result.offset result.mapping }
{
    let at = slot(rt, 0x402);
    match store.capability(at) {
        Cap::PageTable { offset, mapping } => PageTableCap {
            slot: at,
            offset,
            mapping,
        },
        _ => panic!(rt; "no page table"),
    }
}

/// Maps a frame at an address under the root table, or the page table where there is no frame.
fn map(
    rt: &impl Abort,
    store: &mut PlainSlots,
    frame: Option<u32>,
    address: u32,
    rights: u32,
) -> Result<(), KError>
    requires { TablesAgree (table_slots store.old.1) store.old.0 }
    ensures { TablesAgree (table_slots store.new.1) store.new.0 }
{
    let node = store.capability(slot(rt, 0x400));
    let root = SlotName {
        address: 1,
        depth: 32,
    };
    let Some(number) = frame else {
        let table = table_at(rt, store);
        return map_table(store, node, table, root, address);
    };
    let frame = frame_at(rt, store, number);
    assert!(rt; store.mem().len() >= 0x2_0000 && frame.offset <= 0x1_f000);
    map_frame(store, node, frame, root, address, rights)
}

/// The place in memory that an address names.
fn find(rt: &impl Abort, store: &PlainSlots, address: u32, access: Access) -> u32
    requires { TablesAgree (table_slots store.now.1) store.now.0 }
{
    match store.capability(slot(rt, 0x401)) {
        Cap::RootTable { offset } => place_under(store, offset, address, access).unwrap_or(NONE),
        _ => panic!(rt; "no root table"),
    }
}

/// Whether a capability has a mapping.
fn is_mapped(store: &PlainSlots, at: Slot) -> bool {
    match store.capability(at) {
        Cap::Frame { mapping, .. } => mapping.is_some(),
        Cap::PageTable { mapping, .. } => mapping.is_some(),
        _ => false,
    }
}

/// Looks at a store.
fn look(rt: &impl Abort, store: &PlainSlots, verb: &str, first: u32) -> u32
    requires { TablesAgree (table_slots store.now.1) store.now.0 }
{
    match verb {
        "load" => find(rt, store, first, Access::Load),
        "store" => find(rt, store, first, Access::Store),
        "fetch" => find(rt, store, first, Access::Fetch),
        "word" => word(store, first),
        "is_mapped" => u32::from(is_mapped(store, slot(rt, first))),
        _ => panic!(rt; "no such call: {verb}"),
    }
}

/// What a store answers.
fn ask(
    rt: &impl Abort,
    store: &mut PlainSlots,
    verb: &str,
    numbers: [u32; 6],
) -> Result<u32, KError>
    requires { TablesAgree (table_slots store.old.1) store.old.0 }
    ensures { TablesAgree (table_slots store.new.1) store.new.0 }
{
    let [first, second, third, ..] = numbers;
    match verb {
        "map" => map(rt, store, Some(first), second, third)?,
        "map_table" => map(rt, store, None, first, 0)?,
        "unmap_frame" => {
            let frame = frame_at(rt, store, first);
            unmap_frame(store, frame);
        }
        "unmap_table" => {
            let table = table_at(rt, store);
            unmap_table(store, table);
        }
        "unmap_cap" => unmap_cap(store, slot(rt, first)),
        "end" => end_tables(store, first),
        _ => return Ok(look(rt, store, verb, first)),
    }
    Ok(1)
}

/// Goes through rows, one a line.
fn check_mappings(
    rt: &(impl AllocGlobal + Abort),
    store: &mut PlainSlots,
    rows: &str,
) -> Result<(), Fail>
    requires { TablesAgree (table_slots store.old.1) store.old.0 }
{
    'rows: for row in rows.lines() {
        let (asked, wanted) = row.split_once(" = ").unwrap_or((row, "?"));
        let (verb, numbers) = words(rt, asked);
        let answer = told(rt.alloc(), ask(rt, store, verb, numbers))?;
        assert_eq!(rt; answer.as_str(), wanted, "{row}");
    }
    Ok(())
}

#[test]
fn pages_and_tables(rt: HostRuntime) -> Result<(), Fail> {
    for rows in TABLES {
        let mut store = PlainSlots::new(rt.alloc(), 17)?;
        check_rows(&rt, &mut store, FRONT)?;
        assert!(rt; is_fresh(&store, 0x9000, Slot::new(0x402), 0xa000));
        check_mappings(&rt, &mut store, rows)?;
    }
    Ok(())
}
