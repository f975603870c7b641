//! Retype at a point: a program may make endpoints, notifications and frames in its pools.
//! seL4 Reference Manual, "Kernel Memory Allocation", seL4_Untyped_Retype; type numbers and sizes are our own.

ghost use Rattle.std.specs.Prelude.{◌≡◌, ◌+◌, ◌*◌, ◌^◌, ◌≤◌, ◌<◌, ◌++◌, ◌∷◌, [], true, is_some, map, Some, IfOk};
ghost use Rattle.std.specs.List.{find};
ghost use Rattle.model.specs.Acceptance.CallRules.{may_make};
ghost use Rattle.model.specs.Acceptance.NotedKernel.{noted_root, noted_slots};
ghost use Rattle.model.specs.Acceptance.NotedStates.{is_own, slot_at};
ghost use Rattle.model.specs.Acceptance.ThreadRules.{reached};
ghost use Rattle.model.specs.declared.capabilities.Cap.TheVariants.{Untyped};
ghost use Rattle.model.specs.Capabilities.CapabilityKinds.{cnode_of};
ghost use Rattle.model.specs.Kernel.Arguments.{wanted};
ghost use Rattle.model.specs.declared.errors.KError.TheVariants.{FailedLookup};
ghost use Rattle.model.specs.Kernel.State.{slot_of};
ghost use Rattle.model.specs.Kernel.ObjectTypes.{new_type};
ghost use Rattle.model.specs.Kernel.Retype.{any_full, node, object_bits};
ghost use Rattle.model.specs.declared.invocations.Invocation.TheVariants.{OnUntyped};
ghost use Rattle.typestate.specs.Differences.{slots_of};
ghost use Rattle.typestate.specs.Invocations.{IsCallOn, held_after, made_or_refused};
ghost use Rattle.typestate.specs.Pools.{IsOwnWindow, NamesNode, PlaceAnswer, fits_node, room_in, slot_made, slots_made, some_full};
ghost use Rattle.typestate.specs.Spaces.{is_inside};
ghost use Rattle.typestate.specs.Strays.{IsTidyCall, is_at};
ghost use Rattle.typestate.specs.declared.log_entries.LogEntry.TheVariants.{Sets};

use crate::log_entries::note_sets;
use crate::new_objects::NewObjects;
use crate::noted::listed;
use crate::pools::Pool;
use crate::roots::OwnRoot;
use crate::slot_runs::SlotRun;
use crate::{
    LogEntry, NotedSlot, NotedSlots, SlotKey, ThreadSlots, Window, tidy_puts_leave_no_stray_slot,
};
use model::{
    Cap, KError, ObjectKind, ObjectType, Point, Refusal, RetypeCall, SlotName, UntypedMemory,
};
use std::alloc::AllocError;
use untyped::{asked_type, object_bits, place, power};

/// Where new objects of a type are: the first in memory, the pool's watermark after them, and the slot of the first capability.
#[derive(Clone, Copy)]
struct NewPlace {
    kind: ObjectType,
    offset: u32,
    watermark: u32,
    slot: SlotKey,
}

/// Whether a program may make objects of a type: endpoints, notifications and frames.
fn may_make(new: ObjectType) -> bool
    ensures { result ≡ may_make (Some (new_type new)) }
{
    matches!(
        new,
        ObjectType::Object(ObjectKind::Endpoint | ObjectKind::Notification | ObjectKind::Frame)
    )
}

/// The bytes of an object of a type that a program may make.
fn size_of(new: ObjectType) -> u32
    requires { may_make (Some (new_type new)) ≡ true }
    ensures value { result ≡ 2 ^ object_bits (new_type new) }
    ensures few { result ≤ 4096 }
{
    power(new.bits()) as u32
}

impl Window {
    /// Whether the CNode has so many slots from an index on, and some are asked, 256 at the most.
    fn fits(&self, index: u32, count: u32) -> bool
        ensures { result ≡ fits_node self.now.radix index count }
    {
        1 <= count
            && count <= 256
            && u64::from(index) + u64::from(count) <= u64::from(self.slot_count())
    }
}

impl NewObjects {
    /// The slot with the first capability to the object of a number.
    fn made_slot(&self, i: u32) -> NotedSlot
        requires { i < self.now.slots.count }
        ensures { result ≡ slot_made self.now.slots.first self.now.pool (new_type self.now.kind) self.now.offset i }
    {
        NotedSlot {
            key: self.slots.key(i),
            capability: self.kind.first_capability(self.offset + i * self.size),
            parent: Some(self.pool),
        }
    }

    /// Appends the slots with the first capabilities to all of them. Memory may be refused.
    fn note(&self, made: &mut Vec<NotedSlot>) -> Result<(), AllocError>
        ensures { IfOk result (λ _. made.new.items
            ≡ made.old.items ++ slots_made self.now.slots.first self.now.pool (new_type self.now.kind) self.now.offset self.now.slots.count) }
    {
        made.reserve(self.slots.count as usize)?;
        for i in 0..self.slots.count {
            made.push(self.made_slot(i))?;
        }
        Ok(())
    }
}

impl NotedSlots<'_> {
    /// Whether the image lists one of some slots of a CNode.
    fn lists_any(&self, run: &SlotRun) -> bool
        ensures { result ≡ some_full self.now.image.now run.now.first run.now.count }
    {
        for i in 0..run.count {
            if listed(self.image, run.key(i)).is_some() {
                return true;
            }
        }
        false
    }

    /// Whether one of some slots of a CNode is full, by each of them.
    fn holds_any(&self, run: &SlotRun) -> bool
        ensures { result ≡ some_full (slots_of self.now) run.now.first run.now.count }
    {
        for i in 0..run.count {
            if self.at(run.key(i)).is_some() {
                return true;
            }
        }
        false
    }

    /// Whether one of some slots of a CNode is full. Changes are not asked for each of them where none is to any of them.
    fn is_any_full(&self, run: &SlotRun) -> bool
        ensures { result ≡ some_full (slots_of self.now) run.now.first run.now.count }
    {
        if self.changes.has_none_of(run) {
            self.lists_any(run)
        } else {
            self.holds_any(run)
        }
    }
}

impl OwnRoot<'_, '_, '_> {
    /// The CNode of the root, if it is one.
    fn window(&self) -> Result<Window, KError>
        ensures { NamesNode self.now.own.space.image.now self.now.own.space.thread.now (wanted (cnode_of self.now.root) FailedLookup) result }
    {
        let Cap::CNode { offset, radix, .. } = self.root else {
            return Err(KError::FailedLookup);
        };
        match self.own.space.windows.at(offset, radix) {
            Some(window) => Ok(window),
            None => unreachable!(),
        }
    }
}

impl ThreadSlots<'_, '_, '_> {
    /// The CNode that a call names for the new capabilities: depth 0 names the root of the thread's capability space.
    fn node(&self, name: SlotName) -> Result<Window, KError>
        ensures { NamesNode self.now.space.image.now self.now.space.thread.now
            (node (noted_slots self.now.space.image.now self.now.space.thread.now (slots_of self.now.slots))
            (noted_root self.now.space.image.now self.now.space.thread.now) name) result }
    {
        if name.depth == 0 {
            let root = OwnRoot {
                own: *self,
                root: self.space.root,
            };
            return root.window();
        }
        let (_, held) = match self.named(name) {
            Ok(found) => found,
            Err(error) => return Err(error),
        };
        let root = OwnRoot {
            own: *self,
            root: held,
        };
        root.window()
    }
}

impl Pool<'_, '_, '_, '_> {
    /// Where new objects are in the pool, and its watermark after them, or the kernel's error.
    fn room_in(
        &self,
        window: Window,
        bits: u8,
        index: u32,
        count: u32,
    ) -> Result<(u32, u32), KError>
        requires mine { IsOwnWindow self.now.own.space.image.now self.now.own.space.thread.now window }
        requires bits { bits ≤ 24 }
        ensures { result ≡ room_in self.now.own.space.image.now self.now.own.space.thread.now
            (slots_of self.now.own.slots) self.now.held.now.key self.now.memory window bits index count }
    {
        if !window.fits(index, count) {
            return Err(KError::RangeError);
        }
        let run = SlotRun {
            first: SlotKey {
                cnode: window.cnode,
                index,
            },
            count,
        };
        if self.own.slots.is_any_full(&run) {
            return Err(KError::DeleteFirst);
        }
        let held = self.held;
        if !self.own.slots.may_have_child(held.key) {
            return Err(KError::IllegalOperation);
        }
        match place(self.memory.bits, self.memory.watermark, bits, count) {
            Ok(placed) => Ok(placed),
            Err(_) => Err(KError::NotEnoughMemory),
        }
    }

    /// The checks of Retype, in the kernel's order.
    fn new_place(&self, call: RetypeCall) -> Result<NewPlace, KError>
        ensures { PlaceAnswer self.now.own.space.image.now self.now.own.space.thread.now
            (slots_of self.now.own.slots) self.now.held.now.key self.now.memory call result }
    {
        let kind = match asked_type(call.kind, call.size) {
            Ok(kind) => kind,
            Err(error) => return Err(error),
        };
        let window = match self.own.node(call.node) {
            Ok(window) => window,
            Err(error) => return Err(error),
        };
        match self.room_in(window, object_bits(kind), call.index, call.count) {
            Ok((place, watermark)) => Ok(NewPlace {
                kind,
                offset: self.memory.offset + place,
                watermark,
                slot: SlotKey {
                    cnode: window.cnode,
                    index: call.index,
                },
            }),
            Err(error) => Err(error),
        }
    }

    /// Retype: the slots that it changes are put into the list, which is empty. They leave no stray slot where there was none: all are
    /// empty slots of the thread's, below a pool that it holds. Memory may be refused.
    fn note_objects(
        &self,
        at: Point,
        call: RetypeCall,
        made: &mut Vec<NotedSlot>,
    ) -> Result<Result<bool, Refusal>, AllocError>
        requires none { made.old.items ≡ [] }
        ensures tidy { IfOk result (IsTidyCall self.now.own.space.image.now self.now.own.space.thread.now (slots_of self.now.own.slots)
            (map (λ s. Sets s) made.new.items)) }
        ensures made { IfOk result (λ done. held_after self.now.own.space.image.now self.now.own.space.thread.now at
            (slots_of self.now.own.slots) self.now.held.now (OnUntyped self.now.memory call)
            ≡ made_or_refused (slots_of self.now.own.slots) (map (λ s. Sets s) made.new.items) done) }
    {
        tidy_puts_leave_no_stray_slot();
        let new = match self.new_place(call) {
            Ok(new) => new,
            Err(error) => return Ok(Err(Refusal::CallRefused(at, error))),
        };
        if !may_make(new.kind) {
            return Ok(Err(Refusal::CallRefused(at, KError::IllegalOperation)));
        }
        let held = *self.held;
        made.push(NotedSlot {
            key: held.key,
            capability: Cap::Untyped {
                offset: self.memory.offset,
                bits: self.memory.bits,
                watermark: new.watermark,
            },
            parent: held.parent,
        })?;
        let objects = NewObjects {
            kind: new.kind,
            size: size_of(new.kind),
            offset: new.offset,
            slots: SlotRun {
                first: new.slot,
                count: call.count,
            },
            pool: held.key,
        };
        objects.note(made)?;
        Ok(Ok(true))
    }

    /// Retype: what it makes of the slots is put into the list, which is empty, and the answer is whether it is known to leave no stray
    /// slot where there was none. Memory may be refused.
    pub(crate) fn retype(
        &self,
        at: Point,
        call: RetypeCall,
        made: &mut Vec<LogEntry>,
    ) -> Result<Result<bool, Refusal>, AllocError>
        requires none { made.old.items ≡ [] }
        ensures tidy { IfOk result (IsTidyCall self.now.own.space.image.now self.now.own.space.thread.now (slots_of self.now.own.slots) made.new.items) }
        ensures made { IfOk result (λ done. held_after self.now.own.space.image.now self.now.own.space.thread.now at
            (slots_of self.now.own.slots) self.now.held.now (OnUntyped self.now.memory call)
            ≡ made_or_refused (slots_of self.now.own.slots) made.new.items done) }
    {
        let mut objects = Vec::new(*made.allocator());
        let is_tidy = self.note_objects(at, call, &mut objects)?;
        note_sets(&objects, made)?;
        Ok(is_tidy)
    }
}
