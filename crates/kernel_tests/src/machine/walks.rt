//! Walks through tables in a memory of 2^17 bytes. The root table is at 0x9000, another table at
//! 0xA000, and a page at 0x11000.

use crate::machine::rows::row;
use model::Rights;
use pmem::Mem;
use std::test::Fail;
use sv32::{Access, Pte, walk};

/// The root table's entry 1 and the other table's entry 1; the root and the address of the walk (0x00401004 has 1 and 1
/// for the entries, and 4 for the byte); the place that it comes to, or -1 if there is none.
const LOADS: &str = "\
0x20002801 0x200044D7 0x9000 0x00401FFF 0x11FFF | the last byte of the page
0x20002801 0x200044D7 0x9000 0x00402000 -1 | the other table has no entry 2
0x20002801 0x200044D7 0x9000 0x00801004 -1 | the root table has no entry 2
0x20002801 0x200044D7 0x20000 0x00401004 -1 | the root stands behind memory
0x20002801 0x200044D7 0x9000 0x00401004 0x11004 | a leaf to read and write
0x20002801 0x200044C7 0x9000 0x00401004 -1 | a leaf that is not the user's
0x20002801 0x20004497 0x9000 0x00401004 -1 | a leaf that is not accessed
0x20002801 0x20004457 0x9000 0x00401004 0x11004 | a leaf that is not dirty
0x200028F1 0x200044D7 0x9000 0x00401004 0x11004 | a pointer with these three bits
0x200000D7 0 0x9000 0x00401004 0x1004 | a leaf of 4 MiB from the start of memory
0x200004D7 0 0x9000 0x00401004 -1 | a leaf of 4 MiB from the second page of memory
0x20002801 0x20004401 0x9000 0x00401004 -1 | a pointer where a leaf has to be
0x20002801 0xA00044D7 0x9000 0x00401004 -1 | a page that is none of memory's by its highest bit
0x20002801 0x000044D7 0x9000 0x00401004 -1 | a page before memory
0x20002801 0x200080D7 0x9000 0x00401004 -1 | a page behind memory
0xA0002801 0x200044D7 0x9000 0x00401004 -1 | a table that is none of memory's by its highest bit
0x00002801 0x200044D7 0x9000 0x00401004 -1 | a table before memory";

const STORES: &str = "\
0x20002801 0x200044D7 0x9000 0x00401004 0x11004 | a leaf to read and write
0x20002801 0x200044D5 0x9000 0x00401004 -1 | a leaf to write without read
0x20002801 0x20004457 0x9000 0x00401004 -1 | a leaf that is not dirty";

const FETCHES: &str = "\
0x20002801 0x200044D7 0x9000 0x00401004 -1 | a leaf to read and write
0x20002801 0x200044D9 0x9000 0x00401004 0x11004 | a leaf to execute";

#[test]
fn the_kernel_writes_these_entries(rt: HostRuntime) {
    assert_eq!(rt; Pte::leaf(0x1_1000, Rights(3)).0, 0x2000_44d7);
    assert_eq!(rt; Pte::leaf(0x1_1000, Rights(4)).0, 0x2000_44d9);
    assert_eq!(rt; Pte::table(0xa000).0, 0x2000_2801);
}

#[test]
fn walks_come_to_these_places(rt: HostRuntime) -> Result<(), Fail> {
    let mut memory = Mem::new(rt.alloc(), 17)?;
    for (rows, access) in [
        (LOADS, Access::Load),
        (STORES, Access::Store),
        (FETCHES, Access::Fetch),
    ] {
        for line in rows.lines() {
            let ([top, last, root, address, place], _) = row::<5>(line)?;
            assert!(rt; memory.len() == 0x2_0000);
            memory.write32(0x9004, top);
            memory.write32(0xa004, last);
            let found = walk(&memory, root, address, access);
            assert_eq!(rt; found.unwrap_or(u32::MAX), place, "{line}");
        }
    }
    Ok(())
}
