//! Emptying a whole set of slots.

ghost use Rattle.std.specs.Prelude.{ℕ, ◌≡◌, OnErr, true};
ghost use Rattle.model.specs.Kernel.Outcomes.{GivesState};
ghost use Rattle.kernel_invariant.specs.Wholeness.{Agreed};
ghost use Rattle.cnode_ops.specs.Lines.{LinesGone, has_line};
ghost use Rattle.cnode_ops.specs.Sets.{set_of};
ghost use Rattle.cnode_ops.specs.Unsettled.{Notes, ObjectsLie};
ghost use Rattle.model.specs.Capabilities.Slots.{IsOpen};
ghost use Rattle.model.specs.Kernel.Removal.{SlotSet, delete, emptied, remove};
ghost use Rattle.objects.specs.Lives.{state_in};
ghost use Rattle.objects.specs.Tables.{state_of};
ghost use Rattle.removal_laws.specs.Steps.{BindingEmptied, IsReady, SameShape, bindings_from, joined};

use crate::Kernel;
use crate::emptying::empty_slot;
use crate::leaves::{leaf_removed, parent_removed};
use crate::lines::{LineSet, lines_lost};
use crate::refusals::wants_revoke_first;
use crate::sets::{Removed, first_removed};
use crate::settling::{Unsettled, settle};
use model::{KError, Slot};
use objects::{Line, Objects};
use slots::{SlotStore, is_taken};
use soundness::removals_keep_soundness;

/// Empties all slots of a set, one after another and each after all that is derived from it: what is left to empty, with
/// others beside the set, is these others. What is left to settle is more by the objects that ended. The result is the
/// lines of which a handler was taken.
fn empty_all<S: SlotStore>(
    store: &mut S,
    objects: &mut Objects,
    left: &mut Unsettled,
    set: &Removed,
) -> LineSet
    requires agree { Agreed objects.old (S.slots store.old) (S.memory store.old) }
    requires ready { IsReady (state_of objects.old (S.slots store.old) (S.memory store.old)) }
    requires lie { ObjectsLie (state_of objects.old (S.slots store.old) (S.memory store.old)) }
    requires members { (slot : ℕ) → set_of (S.slots store.old) set.now slot ≡ true → IsOpen (S.slots store.old) slot }
    ensures taken { (more : SlotSet) → ((slot : ℕ) → more slot ≡ true → IsOpen (S.slots store.old) slot)
        → emptied (state_of objects.old (S.slots store.old) (S.memory store.old)) (joined (set_of (S.slots store.old) set.now) more)
        ≡ emptied (state_of objects.new (S.slots store.new) (S.memory store.new)) more }
    ensures noted { Notes (state_of objects.old (S.slots store.old) (S.memory store.old)) left.old
        (state_of objects.new (S.slots store.new) (S.memory store.new)) left.new }
    ensures lines { LinesGone (state_of objects.old (S.slots store.old) (S.memory store.old))
        (state_of objects.new (S.slots store.new) (S.memory store.new)) result }
    ensures shape { SameShape (state_of objects.old (S.slots store.old) (S.memory store.old)) (state_of objects.new (S.slots store.new) (S.memory store.new)) }
    ensures agree { Agreed objects.new (S.slots store.new) (S.memory store.new) }
    ensures ready { IsReady (state_of objects.new (S.slots store.new) (S.memory store.new)) }
{
    let mut gone = LineSet::none();
    let Some(first) = first_removed(store, set) else {
        return gone;
    };
    let mut near = first;
    'slots: while let Some(slot) = leaf_removed(store, set, near) {
        near = parent_removed(store, set, slot);
        let held = empty_slot(store, objects, left, slot);
        gone = gone.with_handled(held);
    }
    gone
}

/// Empties the binding of a line, if it is taken along and there is one.
fn empty_binding<S: SlotStore>(
    store: &mut S,
    objects: &mut Objects,
    left: &mut Unsettled,
    line: Line,
    taken: bool,
)
    requires agree { Agreed objects.old (S.slots store.old) (S.memory store.old) }
    requires ready { IsReady (state_of objects.old (S.slots store.old) (S.memory store.old)) }
    requires lie { ObjectsLie (state_of objects.old (S.slots store.old) (S.memory store.old)) }
    ensures state { BindingEmptied (state_of objects.old (S.slots store.old) (S.memory store.old)) line taken
        (state_of objects.new (S.slots store.new) (S.memory store.new)) }
    ensures noted { Notes (state_of objects.old (S.slots store.old) (S.memory store.old)) left.old
        (state_of objects.new (S.slots store.new) (S.memory store.new)) left.new }
    ensures agree { Agreed objects.new (S.slots store.new) (S.memory store.new) }
{
    if !taken {
        return;
    }
    let slot = objects.binding(line);
    if is_taken(store, slot) {
        let _held = empty_slot(store, objects, left, slot);
    }
}

/// Empties the bindings of some lines, one after another.
fn empty_bindings<S: SlotStore>(
    store: &mut S,
    objects: &mut Objects,
    left: &mut Unsettled,
    lines: LineSet,
)
    requires agree { Agreed objects.old (S.slots store.old) (S.memory store.old) }
    requires ready { IsReady (state_of objects.old (S.slots store.old) (S.memory store.old)) }
    requires lie { ObjectsLie (state_of objects.old (S.slots store.old) (S.memory store.old)) }
    ensures state { emptied (state_of objects.old (S.slots store.old) (S.memory store.old))
        (bindings_from (state_of objects.old (S.slots store.old) (S.memory store.old)) (λ line. has_line lines line) 0)
        ≡ state_of objects.new (S.slots store.new) (S.memory store.new) }
    ensures noted { Notes (state_of objects.old (S.slots store.old) (S.memory store.old)) left.old
        (state_of objects.new (S.slots store.new) (S.memory store.new)) left.new }
    ensures agree { Agreed objects.new (S.slots store.new) (S.memory store.new) }
{
    if lines.is_none() {
        return;
    }
    'lines: for line in 0..64u8 {
        empty_binding(store, objects, left, Line::new(line), lines.contains(line));
    }
}

/// Takes a set of slots away at once, with the bindings of the lines whose last handler goes. It is
/// refused where an object would end that still holds a capability outside the set (`RevokeFirst`); then
/// nothing changes.
pub(crate) fn remove<S: SlotStore>(kernel: &mut Kernel<S>, set: Removed) -> Result<(), KError>
    requires { (slot : ℕ) → set_of (S.slots kernel.old.store) set slot ≡ true → IsOpen (S.slots kernel.old.store) slot }
    ensures outcome { GivesState (remove (state_in S.slots S.memory kernel.old) (set_of (S.slots kernel.old.store) set)) result
        (state_in S.slots S.memory kernel.new) }
    ensures unchanged { OnErr result (kernel.new ≡ kernel.old) }
{
    removals_keep_soundness();
    let live = &mut kernel.live;
    if wants_revoke_first(&live.store, set) {
        return Err(KError::RevokeFirst);
    }
    let mut left = Unsettled::nothing(live.store.count());
    let gone = empty_all(&mut live.store, &mut live.objects, &mut left, &set);
    let lost = lines_lost(&live.store, gone);
    empty_bindings(&mut live.store, &mut live.objects, &mut left, lost);
    settle(&mut live.store, &mut live.objects, &left);
    Ok(())
}

/// Empties a slot alone: an empty one stays as it is.
///
/// seL4 Reference Manual, "Deletion, Revocation, and Recycling".
///
/// # Errors
///
/// A CNode or a thread would end that still holds another capability (`RevokeFirst`). Nothing changes then.
pub fn remove_slot<S: SlotStore>(kernel: &mut Kernel<S>, slot: Slot) -> Result<(), KError>
    ensures outcome { GivesState (delete (state_in S.slots S.memory kernel.old) slot) result (state_in S.slots S.memory kernel.new) }
    ensures unchanged { OnErr result (kernel.new ≡ kernel.old) }
{
    let live = &kernel.live;
    if !is_taken(&live.store, slot) {
        return Ok(());
    }
    remove(kernel, Removed::One(slot))
}
