//! A test that page tables and mappings agree, for slots that map nothing yet.

ghost use Rattle.std.specs.Prelude.{ℕ, ◌≡◌, ◌==◌, ◌+◌, ◌*◌, ◌%◌, ◌^◌, ◌<◌, ◌≤◌, IsTrue, length};
ghost use Rattle.model.specs.Shared.Bytes.{word_at};
ghost use Rattle.model.specs.Capabilities.Slots.{OutsideSlots, capability_at};
ghost use Rattle.kernel_tests.specs.Fresh.{MapNothing, maps_nothing};
ghost use Rattle.vspace.specs.Agreement.{IsBlank};
ghost use Rattle.vspace.specs.Tables.{TablesAgree};

use model::{Cap, Slot};
use pmem::Mem;
use slots::SlotStore;

/// Whether each word of a table is 0.
fn has_no_entry(memory: &Mem, table: u32) -> bool
    requires within { table + 2 ^ 12 ≤ length memory.now }
    requires near { table < 2 ^ 24 }
    ensures { IsTrue result → (i : ℕ) → i < 2 ^ 10 → word_at memory.now (table + 4 * i) ≡ 0 }
{
    'words: for i in 0..0x400 {
        if memory.read32(table + 4 * i) != 0 {
            return false;
        }
    }
    true
}

/// Whether no slot is open in a table.
fn has_no_slot<S: SlotStore>(store: &S, table: u32) -> bool
    requires aligned { table % 2 ^ 12 ≡ 0 }
    requires near { table + 2 ^ 12 ≤ 2 ^ 24 }
    ensures { IsTrue result → OutsideSlots (S.slots store.now) table (2 ^ 12) }
{
    let first = table / 16;
    'slots: for slot in first..first + 0x100 {
        if store.is_open(Slot::new(slot)) {
            return false;
        }
    }
    true
}

/// Whether a table is here, where no slot is open, and has no entry.
fn is_blank<S: SlotStore>(store: &S, table: u32) -> bool
    ensures { IsTrue result → IsBlank (S.slots store.now) (S.memory store.now) table }
{
    let memory = store.mem();
    let size = memory.len();
    if size < 0x1000 || table > size - 0x1000 || table % 0x1000 != 0 {
        return false;
    }
    has_no_entry(memory, table) && has_no_slot(store, table)
}

/// Whether a capability maps nothing, and names none but these tables.
fn maps_nothing(held: Cap, root: u32, table: u32, here: bool) -> bool
    ensures { result ≡ maps_nothing root table here held }
{
    match held {
        Cap::RootTable { offset } => offset == root,
        Cap::PageTable { offset, mapping } => mapping.is_none() && offset == table && here,
        Cap::Frame { mapping, .. } => mapping.is_none(),
        _ => true,
    }
}

/// Whether a slot maps nothing.
fn slot_maps_nothing<S: SlotStore>(store: &S, number: u32, root: u32, slot: u32, table: u32) -> bool
    requires { number < 2 ^ 20 }
    ensures { result ≡ maps_nothing root table (number == slot)
        (capability_at (S.slots store.now) number) }
{
    let held = store.capability(Slot::new(number));
    maps_nothing(held, root, table, number == slot)
}

/// Whether no slot maps anything. Each slot of memory is looked at.
fn map_nothing<S: SlotStore>(store: &S, root: u32, slot: u32, table: u32) -> bool
    ensures { IsTrue result → MapNothing (S.slots store.now) root slot table }
{
    let count = store.count();
    'slots: for number in 0..count {
        if !slot_maps_nothing(store, number, root, slot, table) {
            return false;
        }
    }
    true
}

/// Whether nothing is mapped yet: no capability has a mapping, all root tables are the one at `root`, the
/// only page table is the one at `table`, whose capability is in `slot`, and both have no entry.
pub(crate) fn is_fresh<S: SlotStore>(store: &S, root: u32, slot: Slot, table: u32) -> bool
    ensures { IsTrue result → TablesAgree (S.slots store.now) (S.memory store.now) }
{
    let _first = store.next_full(None);
    if root == table || !is_blank(store, root) || !is_blank(store, table) {
        return false;
    }
    map_nothing(store, root, slot.number(), table)
}
