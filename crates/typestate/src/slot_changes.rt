//! What a call leaves of the slots at a point.
//! seL4 Reference Manual, "Capability Derivation Tree".

ghost use Rattle.std.specs.Prelude.{ℕ, ◌≡◌, Bool, List};
ghost use Rattle.model.specs.Acceptance.CallRules.{invoked};
ghost use Rattle.model.specs.Acceptance.NotedKernel.{noted_after, noted_slots};
ghost use Rattle.model.specs.Acceptance.NotedStates.{NotedSlot, PointState};
ghost use Rattle.model.specs.Images.Image.{Image, Thread};
ghost use Rattle.model.specs.Kernel.Arguments.{Call};
ghost use Rattle.model.specs.declared.capabilities.Cap.{Cap};
ghost use Rattle.model.specs.declared.invocations.CNodeCall.{CNodeCall};
ghost use Rattle.model.specs.declared.invocations.Invocation.{Invocation};
ghost use Rattle.model.specs.declared.invocations.Invocation.TheVariants.{OnCNode};
ghost use Rattle.model.specs.declared.refusals.Point.{Point};
ghost use Rattle.typestate.specs.Calls.{call_on};
ghost use Rattle.typestate.specs.CNodeCalls.{cnode_after};
ghost use Rattle.typestate.specs.ChangeLists.{changes_of};
ghost use Rattle.typestate.specs.Differences.{slots_of};
ghost use Rattle.typestate.specs.Levels.{named};
ghost use Rattle.typestate.specs.Orders.{Rise};
ghost use Rattle.typestate.specs.Replays.{replayed};
ghost use Rattle.typestate.specs.declared.points.NotedSlots.{NotedSlots};
ghost use Rattle.typestate.specs.declared.slot_changes.SlotChange.{SlotChange};
ghost use Rattle.typestate.specs.SlotChanges.{leaves, slots_after, slots_left};
ghost use Rattle.typestate.specs.Spaces.{AreOwn, StandsApart};

use crate::{NotedSlot, SlotKey};

/// Which slots go.
#[derive(Clone, Copy)]
pub enum Removed {
    /// This one; its children hang below its parent.
    One(SlotKey),
    /// All that were derived from this one.
    Below(SlotKey),
}

impl Removed {
    /// The slot that is named.
    pub(crate) fn named(&self) -> SlotKey
        ensures { result ≡ named self.now }
    {
        match self {
            Removed::One(key) | Removed::Below(key) => *key,
        }
    }
}

/// What a call makes of the slots.
#[derive(Clone, Copy)]
pub enum SlotChange {
    /// They stay.
    Nothing,
    /// A slot holds this.
    Puts(NotedSlot),
    /// What a slot held is in another one, and what was derived from it is derived from there.
    Moves { from: SlotKey, to: NotedSlot },
    /// Slots are emptied.
    Removes(Removed),
}

/// What is known after a call is what is known of the slots.
pub fn slots_decide_calls()
    ensures { (image : Image) (t : Thread) (at : Point) (state : PointState) (call : Call) (c : Invocation) (answers : Bool)
        → invoked image t at state call c answers ≡ leaves state answers (slots_after image t at state.slots call c) }
{}

/// The same of a call on a CNode, wherever its capability is.
pub fn slots_decide_cnode_calls()
    ensures { (image : Image) (t : Thread) (at : Point) (state : PointState) (slot : ℕ) (capability : Cap) (call : CNodeCall) (answers : Bool)
        → invoked image t at state (call_on image t slot capability) (OnCNode call) answers
        ≡ leaves state answers (cnode_after image t at state.slots capability call) }
{}

/// What a call makes of the slots of a thread is made by the changes that it appends.
pub fn changes_make_slots()
    ensures { (image : Image) (t : Thread) (slots : NotedSlots) (change : SlotChange) → AreOwn image t (slots_of slots)
        → replayed (slots_of slots) (changes_of slots change) ≡ slots_left (slots_of slots) change }
{}

/// Slots of a thread as the kernel's, and back.
pub fn slots_come_back()
    ensures { (image : Image) (t : Thread) (slots : List NotedSlot) → StandsApart image t → Rise slots → AreOwn image t slots
        → noted_after image t (noted_slots image t slots) ≡ slots }
{}
