//! Calls on page tables.

ghost use Rattle.std.specs.Prelude.{ℕ, ◌≡◌, OnErr, Option};
ghost use Rattle.model.specs.Kernel.Outcomes.{GivesState};
ghost use Rattle.kernel_machine.specs.perform_calls.Calls.{AppliesTo, call_of};
ghost use Rattle.model.specs.Kernel.Invocations.{perform};
ghost use Rattle.model.specs.declared.capabilities.TableMapping.{TableMapping};
ghost use Rattle.model.specs.declared.invocations.Invocation.TheVariants.{OnTable};
ghost use Rattle.objects.specs.Lives.{state_in};
ghost use Rattle.soundness.specs.Calls.{IsCall};

use crate::perform_calls::KernelCall;
use cnode_ops::Kernel;
use model::{Cap, KError, TableCall};
use slots::SlotStore;
use vspace::{PageTableCap, map_table, unmap_cap};

/// The capability of the page table that a call is made on.
fn table_of(call: KernelCall) -> PageTableCap
    requires { (offset : ℕ) × (mapping : Option TableMapping) × (call.capability ≡ Cap.PageTable offset mapping) }
    ensures slot { result.slot ≡ call.slot }
    ensures capability { call.capability ≡ Cap.PageTable result.offset result.mapping }
{
    let Cap::PageTable { offset, mapping } = call.capability else {
        unreachable!()
    };
    PageTableCap {
        slot: call.slot,
        offset,
        mapping,
    }
}

/// Maps a page table in an address space, or takes it out again with the frames of its region.
///
/// seL4 Reference Manual, seL4_RISCV_PageTable.
pub(crate) fn on_table<S: SlotStore>(
    kernel: &mut Kernel<S>,
    call: KernelCall,
    asked: TableCall,
) -> Result<(), KError>
    requires call { IsCall (state_in S.slots S.memory kernel.old) (call_of call) }
    requires applies { AppliesTo call.capability (OnTable asked) }
    ensures outcome { GivesState (perform (state_in S.slots S.memory kernel.old) (call_of call) (OnTable asked)) result
        (state_in S.slots S.memory kernel.new) }
    ensures unchanged { OnErr result (kernel.new ≡ kernel.old) }
{
    match asked {
        TableCall::MapTable { root, address } => {
            let cspace = call.root;
            let table = table_of(call);
            let live = &mut kernel.live;
            map_table(&mut live.store, cspace, table, root, address)
        }
        TableCall::UnmapTable => {
            let live = &mut kernel.live;
            unmap_cap(&mut live.store, call.slot);
            Ok(())
        }
    }
}
