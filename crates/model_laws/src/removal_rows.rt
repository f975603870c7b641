//! Worked rows on removal.

ghost use Rattle.std.specs.Prelude.{◌≡◌, ◌+◌, [], ◌∷◌, None, Some, Err};
ghost use Rattle.model.specs.declared.capabilities.Cap.TheVariants.{Empty, Frame, Notification, PageTable, Untyped};
ghost use Rattle.model.specs.declared.errors.KError.TheVariants.{NotEnoughMemory, RevokeFirst};
ghost use Rattle.model.specs.Capabilities.Rights.{rights};
ghost use Rattle.model.specs.Capabilities.Slots.{capability_at, empty_entry};
ghost use Rattle.model.specs.Kernel.Removal.{delete, revoke};
ghost use Rattle.model.specs.Kernel.State.{Runnable, thread_at};
ghost use Rattle.model_laws.specs.Kernels.{emptied, filled, freed, handled_by, handler_in, make_endpoints, mapped, state_or, waiting, woken};

/// The only capability to a CNode that holds a capability is not deleted.
#[tactic(auto, unfolding(crate::proofs::Opened::opened))]
pub fn a_filled_cnode_is_revoked_first()
    ensures { delete filled 1 ≡ Err RevokeFirst }
{}

/// Once it is empty it ends, and its slots are there no more.
#[tactic(auto, unfolding(crate::proofs::Opened::opened))]
pub fn an_empty_cnode_ends()
    ensures gone { (state_or emptied (delete emptied 1)).objects 0x500 ≡ None }
    ensures closed { (state_or emptied (delete emptied 1)).slots 0x51 ≡ None }
    ensures open_before { emptied.slots 0x51 ≡ Some empty_entry }
    ensures slot { (state_or emptied (delete emptied 1)).slots 1 ≡ Some empty_entry }
    ensures other { (state_or emptied (delete emptied 1)).objects 0x540 ≡ emptied.objects 0x540 }
{}

/// Threads that wait at an endpoint in a pool are set back by a Revoke of the pool, in rising order of
/// their addresses.
#[tactic(auto, unfolding(crate::proofs::Opened::opened))]
pub fn waiters_are_set_back_in_rising_order()
    ensures order { woken.ready 100 ≡ 0x600 ∷ 0x800 ∷ [] }
    ensures before { waiting.ready 100 ≡ [] }
    ensures ended { woken.objects 0x540 ≡ None }
    ensures status { (thread_at woken 0x800).status ≡ Runnable }
    ensures pc { (thread_at woken 0x800).registers.pc ≡ 0x1000 }
{}

/// Untyped memory that lost its last child is free; one that never had a child keeps its watermark.
#[tactic(auto, unfolding(crate::proofs::Opened::opened))]
pub fn the_last_child_clears_the_watermark()
    ensures cleared { capability_at woken.slots 1 ≡ Untyped 0x540 5 0 }
    ensures kept { capability_at woken.slots 5 ≡ Untyped 0x560 5 0x10 }
{}

/// A line's binding goes with the last handler of the line.
#[tactic(auto, unfolding(crate::proofs::Opened::opened))]
pub fn a_binding_goes_with_the_last_handler()
    ensures last { capability_at (state_or (handled_by (handler_in 2 ∷ [])) (delete (handled_by (handler_in 2 ∷ [])) 2)).slots 19 ≡ Empty }
    ensures one_left { capability_at (state_or (handled_by (handler_in 2 ∷ handler_in 4 ∷ [])) (delete (handled_by (handler_in 2 ∷ handler_in 4 ∷ [])) 2)).slots
        19
        ≡ Notification 0x540 (rights 11) 1 }
{}

/// A frame loses its mapping with the page table of its region, and all mappings go with their root
/// table.
#[tactic(auto, unfolding(crate::proofs::Opened::opened))]
pub fn mappings_go_with_their_tables()
    ensures table { capability_at (state_or mapped (delete mapped 2)).slots 3 ≡ Frame 0x11000 (rights 3) None }
    ensures root { capability_at (state_or mapped (delete mapped 1)).slots 3 ≡ Frame 0x11000 (rights 3) None }
    ensures root_table { capability_at (state_or mapped (delete mapped 1)).slots 2 ≡ PageTable 0xA000 None }
{}

/// An object of another kind at the offset of a root table ends no mapping.
#[tactic(auto, unfolding(crate::proofs::Opened::opened))]
pub fn only_root_tables_end_mappings()
    ensures { capability_at (state_or mapped (delete mapped 4)).slots 3
        ≡ Frame 0x11000 (rights 3) (Some (record { root = 0x9000; page = 0x401; rights = rights 3 })) }
{}

/// Two endpoints lie in 2^8 bytes of untyped memory. Once they are revoked all of it is free: 16
/// endpoints fit, and 17 do not.
#[tactic(auto, unfolding(crate::proofs::Opened::opened))]
pub fn revoked_memory_is_free()
    ensures watermark { capability_at freed.slots 1 ≡ Untyped 0x700 8 0 }
    ensures capability { capability_at freed.slots 2 ≡ Empty }
    ensures object { freed.objects 0x720 ≡ None }
    ensures sixteen { capability_at (state_or freed (make_endpoints 16)).slots 1 ≡ Untyped 0x700 8 0x100 }
    ensures seventeen { make_endpoints 17 ≡ Err NotEnoughMemory }
{}
