//! The walk through the page tables.

ghost use Rattle.std.specs.Prelude.{◌≡◌, ◌+◌, ◌*◌, ◌^◌, ◌<◌, ◌≤◌, option_map, Some, length};
ghost use Rattle.std.specs.Option.{ok_or};
ghost use Rattle.model.specs.Machine.Sv32.{entry_at, leaf_place, page_fault, place_of, walk};

use crate::Pte;
use crate::sizes::{GREAT_PAGE_BITS, MEMORY_BASE, PAGE_BITS, TABLE_ENTRIES};
use model::{Access, PageFault};
use pmem::Mem;

/// The place of a physical address in memory, if it does not lie before memory.
pub fn place_of(physical: u64) -> Option<u64>
    ensures { result ≡ place_of physical }
{
    if physical >= MEMORY_BASE {
        Some(physical - MEMORY_BASE)
    } else {
        None
    }
}

/// The entry of this number, below 1024, in the table at a place, if memory has it and it is valid.
#[tactic(auto, unfolding(model::specs::Machine::Sv32::entry_at))]
pub fn entry_at(memory: &Mem, table: u64, number: u32) -> Option<Pte>
    requires near { table < 2 ^ 35 }
    requires small { number < 2 ^ 10 }
    ensures value { option_map (λ entry. entry.0) result ≡ entry_at memory.now table number }
    ensures size { length memory.now ≤ 2 ^ 24 }
{
    let place = table + 4 * u64::from(number);
    if place + 4 > u64::from(memory.len()) {
        return None;
    }
    let entry = Pte(memory.read32(place as u32));
    if entry.is_valid() { Some(entry) } else { None }
}

/// The place that an address has in the page of 2^`bits` bytes that a leaf names.
#[tactic(auto, unfolding(model::specs::Machine::Sv32::leaf_place))]
fn leaf_place(memory: &Mem, leaf: Pte, bits: u32, address: u32, access: Access) -> Option<u32>
    requires { bits ≤ 22 }
    ensures { result ≡ leaf_place memory.now leaf.0 bits address access }
{
    let page = leaf.page_address();
    let size = 1u64 << bits;
    let place = place_of(page + u64::from(address) % size)?;
    if leaf.permits(access) && page % size == 0 && place < u64::from(memory.len()) {
        Some(place as u32)
    } else {
        None
    }
}

/// The place that an address names under a root table.
#[tactic(auto, unfolding(model::specs::Machine::Sv32::walk))]
fn translate(memory: &Mem, root: u32, address: u32, access: Access) -> Option<u32>
    ensures { result ≡ walk memory.now root address access }
{
    let top = entry_at(memory, u64::from(root), address >> GREAT_PAGE_BITS)?;
    if top.is_leaf() {
        return leaf_place(memory, top, GREAT_PAGE_BITS, address, access);
    }
    let table = place_of(top.page_address())?;
    let last = entry_at(memory, table, (address >> PAGE_BITS) % TABLE_ENTRIES)?;
    if last.is_leaf() {
        leaf_place(memory, last, PAGE_BITS, address, access)
    } else {
        None
    }
}

/// The offset in memory of the byte that a virtual address names for an access, under the root table at the offset `root`.
///
/// # Errors
///
/// A page fault: no leaf with the right is there. All 34 bits of a physical address count: a table or a byte that memory does
/// not have is a page fault, too.
pub fn walk(memory: &Mem, root: u32, address: u32, access: Access) -> Result<u32, PageFault>
    ensures { result ≡ ok_or (walk memory.now root address access) page_fault }
{
    translate(memory, root, address, access).ok_or(PageFault)
}
