//! Rows on system calls of a thread with a pool.

ghost use Rattle.std.specs.Prelude.{◌≡◌, [], ◌∷◌, None, Some};
ghost use Rattle.model.specs.Acceptance.Accepted.{first_in};
ghost use Rattle.model.specs.Capabilities.Rights.{rights};
ghost use Rattle.model.specs.Acceptance.WellFormed.{object_rules};
ghost use Rattle.model.specs.declared.capabilities.Cap.TheVariants.{CNode, Endpoint, Frame, Notification, RootTable, Untyped};
ghost use Rattle.model.specs.declared.errors.KError.TheVariants.{DeleteFirst, IllegalOperation, TruncatedMessage};
ghost use Rattle.model.specs.declared.refusals.Refusal.TheVariants.{CallNotConstant, CallRefused, CapNotThere, PoolLost};
ghost use Rattle.model_laws.specs.Solo.{at_point};
ghost use Rattle.model_laws.specs.Worker.{behind_call, key, refused_as, sends, slot_in, slots_behind, worker_slots, written_by};

/// What the worker starts with.
#[tactic(auto, unfolding(crate::proofs::Opened::opened))]
pub fn worker_has()
    ensures { worker_slots ≡ slot_in 1 (Untyped 0xC000 13 0) None ∷ slot_in 2 (CNode 0xB200 4 28) None
        ∷ slot_in 3 (RootTable 0x9000) None ∷ slot_in 5 (Endpoint 0xE000 (rights 1) 0) None ∷ [] }
{}

/// Retype of one frame into slot 4, and of a page table, which programs may not have.
#[tactic(auto, unfolding(crate::proofs::Opened::opened))]
pub fn worker_makes_frames()
    ensures frame { slots_behind (behind_call (sends 1 0x1006 ((12, 6) ∷ (13, 0) ∷ (14, 0) ∷ (15, 0) ∷ (18, 4) ∷ (19, 1) ∷ [])) worker_slots)
        ≡ Some (slot_in 1 (Untyped 0xC000 13 0x1000) None ∷ slot_in 2 (CNode 0xB200 4 28) None
        ∷ slot_in 3 (RootTable 0x9000) None ∷ slot_in 4 (Frame 0xC000 (rights 3) None) (Some (key 1))
        ∷ slot_in 5 (Endpoint 0xE000 (rights 1) 0) None ∷ []) }
    ensures table { refused_as (behind_call (sends 1 0x1006 ((12, 7) ∷ (13, 0) ∷ (14, 0) ∷ (15, 0) ∷ (18, 4) ∷ (19, 1) ∷ [])) worker_slots)
        ≡ Some (CallRefused (at_point 0 0) IllegalOperation) }
    ensures constant { refused_as (behind_call (sends 1 0x1006 ((12, 6) ∷ (14, 0) ∷ (15, 0) ∷ (18, 4) ∷ (19, 1) ∷ [])) worker_slots)
        ≡ Some (CallNotConstant (at_point 0 0)) }
    ensures short { refused_as (behind_call (sends 1 0x1005 []) worker_slots) ≡ Some (CallRefused (at_point 0 0) TruncatedMessage) }
{}

/// The endpoint may be copied, and the pool may not be moved.
#[tactic(auto, unfolding(crate::proofs::Opened::opened))]
pub fn worker_keeps_its_pool()
    ensures copied { slots_behind (behind_call (sends 2 0x7005 ((12, 6) ∷ (13, 32) ∷ (14, 5) ∷ (15, 32) ∷ (18, 3) ∷ [])) worker_slots)
        ≡ Some (slot_in 1 (Untyped 0xC000 13 0) None ∷ slot_in 2 (CNode 0xB200 4 28) None ∷ slot_in 3 (RootTable 0x9000) None
        ∷ slot_in 5 (Endpoint 0xE000 (rights 1) 0) None ∷ slot_in 6 (Endpoint 0xE000 (rights 1) 0) (Some (key 5)) ∷ []) }
    ensures moved { refused_as (behind_call (sends 2 0x9004 ((12, 6) ∷ (13, 32) ∷ (14, 1) ∷ (15, 32) ∷ [])) worker_slots)
        ≡ Some (PoolLost (at_point 0 0)) }
    ensures mutated { refused_as (behind_call (sends 2 0xA005 ((12, 6) ∷ (13, 32) ∷ (14, 1) ∷ (15, 32) ∷ (18, 0) ∷ [])) worker_slots)
        ≡ Some (CallRefused (at_point 0 0) IllegalOperation) }
{}

/// A number that is no call, an empty slot, a receive without the right.
#[tactic(auto, unfolding(crate::proofs::Opened::opened))]
pub fn worker_may_not_call()
    ensures number { refused_as (behind_call ((17, 10) ∷ []) worker_slots) ≡ Some (CallRefused (at_point 0 0) IllegalOperation) }
    ensures constant { refused_as (behind_call [] worker_slots) ≡ Some (CallNotConstant (at_point 0 0)) }
    ensures slot { refused_as (behind_call (sends 4 0 []) worker_slots) ≡ Some (CapNotThere (at_point 0 0)) }
    ensures right { refused_as (behind_call ((17, 5) ∷ (10, 5) ∷ []) worker_slots) ≡ Some (CapNotThere (at_point 0 0)) }
    ensures send { refused_as (behind_call (sends 5 0 []) worker_slots) ≡ None }
{}

/// A frame is mapped at a free page of a region that has a page table.
#[tactic(auto, unfolding(crate::proofs::Opened::opened))]
pub fn worker_maps_frames()
    ensures { slots_behind (behind_call (sends 4 0xD004 ((12, 3) ∷ (13, 32) ∷ (14, 0x3000) ∷ (15, 3) ∷ []))
        (slot_in 3 (RootTable 0x9000) None ∷ slot_in 4 (Frame 0xC000 (rights 3) None) None ∷ []))
        ≡ Some (slot_in 3 (RootTable 0x9000) None
        ∷ slot_in 4 (Frame 0xC000 (rights 3) (Some (record { root = 0x9000; page = 3; rights = rights 3 }))) None ∷ []) }
{}

/// The endpoint's capability is deleted.
#[tactic(auto, unfolding(crate::proofs::Opened::opened))]
pub fn worker_deletes()
    ensures { slots_behind (behind_call (sends 2 0xB002 ((12, 5) ∷ (13, 32) ∷ [])) worker_slots)
        ≡ Some (slot_in 1 (Untyped 0xC000 13 0) None ∷ slot_in 2 (CNode 0xB200 4 28) None ∷ slot_in 3 (RootTable 0x9000) None ∷ []) }
{}

/// The registers that a call writes. Send, NBSend, Reply, Yield and PutChar write none.
#[tactic(auto, unfolding(crate::proofs::Opened::opened))]
pub fn calls_write_registers()
    ensures send { written_by (behind_call (sends 5 0 []) worker_slots) ≡ Some [] }
    ensures try_send { written_by (behind_call ((17, 4) ∷ (10, 5) ∷ []) worker_slots) ≡ Some [] }
    ensures reply { written_by (behind_call ((17, 6) ∷ []) worker_slots) ≡ Some [] }
    ensures yields { written_by (behind_call ((17, 7) ∷ []) worker_slots) ≡ Some [] }
    ensures put_char { written_by (behind_call ((17, 9) ∷ []) worker_slots) ≡ Some [] }
    ensures invocation { written_by (behind_call ((17, 1) ∷ (10, 2) ∷ (11, 0xB002) ∷ (12, 5) ∷ (13, 32) ∷ []) worker_slots) ≡ Some (10 ∷ 11 ∷ []) }
    ensures sent_invocation { written_by (behind_call (sends 2 0xB002 ((12, 5) ∷ (13, 32) ∷ [])) worker_slots) ≡ Some [] }
    ensures signal { written_by (behind_call ((17, 1) ∷ (10, 5) ∷ []) (slot_in 5 (Notification 0xE000 (rights 3) 1) None ∷ [])) ≡ Some (10 ∷ 11 ∷ []) }
    ensures word { written_by (behind_call ((17, 8) ∷ (10, 5) ∷ []) (slot_in 5 (Notification 0xE000 (rights 3) 1) None ∷ [])) ≡ Some (10 ∷ []) }
    ensures message { written_by (behind_call ((17, 8) ∷ (10, 5) ∷ []) (slot_in 5 (Endpoint 0xE000 (rights 3) 1) None ∷ []))
        ≡ Some (10 ∷ 11 ∷ 12 ∷ 13 ∷ 14 ∷ 15 ∷ 18 ∷ 19 ∷ 20 ∷ 21 ∷ []) }
    ensures answer { written_by (behind_call ((17, 1) ∷ (10, 5) ∷ []) (slot_in 5 (Endpoint 0xE000 (rights 9) 1) None ∷ []))
        ≡ Some (10 ∷ 11 ∷ 12 ∷ 13 ∷ 14 ∷ 15 ∷ 18 ∷ 19 ∷ 20 ∷ 21 ∷ []) }
{}

/// Each row has two things wrong, and the first check counts: the number, the address, the slot, the info word, extra
/// capabilities, the label, each word that the call lists, and what the kernel says, before a pool that is lost and before
/// the calls that a program may make.
#[tactic(auto, unfolding(crate::proofs::Opened::opened))]
pub fn calls_are_checked_in_order()
    ensures number { refused_as (behind_call ((10, 4) ∷ []) worker_slots) ≡ Some (CallNotConstant (at_point 0 0)) }
    ensures address { refused_as (behind_call ((17, 3) ∷ []) worker_slots) ≡ Some (CallNotConstant (at_point 0 0)) }
    ensures slot { refused_as (behind_call ((17, 3) ∷ (10, 4) ∷ []) worker_slots) ≡ Some (CapNotThere (at_point 0 0)) }
    ensures tried { refused_as (behind_call ((17, 4) ∷ (10, 4) ∷ []) worker_slots) ≡ Some (CapNotThere (at_point 0 0)) }
    ensures info { refused_as (behind_call ((17, 3) ∷ (10, 1) ∷ []) worker_slots) ≡ Some (CallNotConstant (at_point 0 0)) }
    ensures extra { refused_as (behind_call (sends 1 0x9086 []) worker_slots) ≡ Some (CallRefused (at_point 0 0) TruncatedMessage) }
    ensures label { refused_as (behind_call (sends 1 0x9001 []) worker_slots) ≡ Some (CallRefused (at_point 0 0) IllegalOperation) }
    ensures words { refused_as (behind_call (sends 1 0x1006 ((12, 99) ∷ (14, 0) ∷ (15, 0) ∷ (18, 4) ∷ (19, 1) ∷ [])) worker_slots)
        ≡ Some (CallNotConstant (at_point 0 0)) }
    ensures kernel { refused_as (behind_call (sends 2 0x9004 ((12, 5) ∷ (13, 32) ∷ (14, 1) ∷ (15, 32) ∷ [])) worker_slots)
        ≡ Some (CallRefused (at_point 0 0) DeleteFirst) }
    ensures kernel_first { refused_as (behind_call (sends 1 0x1006 ((12, 7) ∷ (13, 0) ∷ (14, 0) ∷ (15, 0) ∷ (18, 5) ∷ (19, 1) ∷ [])) worker_slots)
        ≡ Some (CallRefused (at_point 0 0) DeleteFirst) }
{}
