//! The page tables in machine memory.

ghost use Rattle.std.specs.Prelude.{◌≡◌, ◌<◌, ◌≤◌, ◌^◌, ◌*◌, ◌+◌, ◌-◌, IfSome, length};
ghost use Rattle.std.specs.Option.{is_some};
ghost use Rattle.model.specs.Machine.Sv32.{entry_at};
ghost use Rattle.vspace.specs.Tables.{table_in};

use pmem::Mem;
use sv32::{entry_at, place_of};

/// The page table that a root table names for a region.
#[tactic(auto, unfolding(crate::specs::Tables::table_in))]
pub(crate) fn table_in(memory: &Mem, root: u32, region: u32) -> Option<u64>
    requires { region < 2 ^ 10 }
    ensures value { result ≡ table_in memory.now root region }
    ensures near { IfSome result (λ table. table < 2 ^ 34) }
    ensures size { length memory.now ≤ 2 ^ 24 }
{
    let entry = entry_at(memory, u64::from(root), region)?;
    place_of(entry.page_address())
}

/// Whether a table has a valid entry of this number.
pub(crate) fn is_taken(memory: &Mem, table: u64, number: u32) -> bool
    requires near { table < 2 ^ 35 }
    requires small { number < 2 ^ 10 }
    ensures { result ≡ is_some (entry_at memory.now table number) }
{
    entry_at(memory, table, number).is_some()
}
