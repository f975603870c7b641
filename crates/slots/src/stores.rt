//! A store of slots beside the bytes of the machine.

ghost use Rattle.std.specs.Prelude.{ℕ, ◌≡◌, ◌≢◌, ◌↔◌, ◌+◌, ◌*◌, ◌/◌, ◌^◌, ◌<◌, ◌≤◌, [], ◌∷◌, List, Some, None, IfSome};
ghost use Rattle.std.specs.Prelude.{IsTrue, true, false, drop, length, max, replicate, take};
ghost use Rattle.std.specs.Option.{ForSome};
ghost use Rattle.model.specs.Shared.Bytes.{word_bytes, written};
ghost use Rattle.model.specs.Capabilities.CapabilityWords.{IsCapability, IsPlace};
ghost use Rattle.model.specs.Capabilities.Slots.{IsDerivation, IsFull, IsOpen, OutsideSlots, SameOutside, capability_at, closed, depth_of};
ghost use Rattle.model.specs.Capabilities.Slots.{empty_entry, inserted, is_descendant, opened, recapped, relocated, spliced};
ghost use Rattle.model.specs.Capabilities.Orders.{IsOrderOf, next_in, descendants};
ghost use Rattle.model.specs.Shared.Lists.{without};
ghost use Rattle.model.specs.declared.capabilities.Cap.{Cap};
ghost use Rattle.model.specs.declared.capabilities.Cap.TheVariants.{Empty};
ghost use Rattle.model.specs.Capabilities.CapabilityKinds.{frame_of, object_of};
ghost use Rattle.pmem.specs.Words.{words_bytes};
ghost use Rattle.slots.specs.Kin.{IsKin, IsShared, IsSharedBeside, LeavesChildless, object_at};
ghost use Rattle.slots.specs.Listed.{is_handled, is_naming, naming};

use crate::kin::{frame_of, names, names_beside, names_too};
use crate::{SlotMap, is_handler_of, object_of};
use model::{Cap, Slot};
use pmem::Mem;

/// Slots that can be changed, beside the memory of the machine. Slot `s` is the 16 bytes from
/// `16 * s` on: while it is open, what these bytes are is the store's own affair.
pub trait SlotStore: SlotMap {
    // The bytes of the machine.
    ghost memory: { Self → List ℕ };

    // The full slots, in the store's own order.
    ghost order: { Self → List ℕ };

    /// The bytes of the machine, for reading.
    fn mem(&self) -> &Mem
        ensures { result.now ≡ memory self.now };

    /// How many slots there are: one for each 16 bytes of memory. No slot after them is open.
    fn count(&self) -> u32
        ensures value { 16 * result ≡ length (memory self.now) }
        ensures most { result ≤ 2 ^ 20 }
        ensures near { (s : ℕ) → IsOpen (Self.slots self.now) s → s < result };

    /// Whether a slot is open.
    fn is_open(&self, slot: Slot) -> bool
        ensures { IsTrue result ↔ IsOpen (Self.slots self.now) slot };

    /// How many slots lead up from an open slot: 0 to 255.
    fn depth(&self, slot: Slot) -> u32
        requires { IsOpen (Self.slots self.now) slot }
        ensures value { result ≡ depth_of (Self.slots self.now) slot }
        ensures derivation { IsDerivation (Self.slots self.now) };

    /// The full slot after `previous` in the store's own order, or the first one of all.
    fn next_full(&self, previous: Option<Slot>) -> Option<Slot>
        requires { ForSome previous (IsFull (Self.slots self.now)) }
        ensures next { result ≡ next_in (order self.now) previous }
        ensures lists { IsOrderOf (order self.now) (Self.slots self.now) }
        ensures derivation { IsDerivation (Self.slots self.now) };

    /// Whether a slot descends from another: by a walk up from it, where the store has no shorter way.
    fn descends(&self, root: Slot, slot: Slot) -> bool
        requires { IsOpen (Self.slots self.now) slot }
        ensures test { result ≡ is_descendant (Self.slots self.now) root slot }
        ensures derivation { IsDerivation (Self.slots self.now) }
    {
        let depth = self.depth(slot);
        let mut here = slot;
        'up: for _step in 0..depth {
            let (_held, above) = self.get(here);
            match above {
                None => return false,
                Some(parent) => {
                    if parent.number() == root.number() {
                        return true;
                    }
                    here = parent;
                }
            }
        }
        false
    }

    /// The descendant of a root after `previous` in the store's own order, or the first one: among all
    /// full slots, where the store has no shorter way.
    fn next_below(&self, root: Slot, previous: Option<Slot>) -> Option<Slot>
        requires full { ForSome previous (IsFull (Self.slots self.now)) }
        requires known { ForSome previous (λ slot. IsTrue (is_descendant (Self.slots self.now) root slot)) }
        ensures next { result ≡ next_in (descendants (order self.now) (Self.slots self.now) root) previous }
        ensures lists { IsOrderOf (order self.now) (Self.slots self.now) }
        ensures derivation { IsDerivation (Self.slots self.now) }
        ensures found_full { IfSome result (IsFull (Self.slots self.now)) }
        ensures found_known { IfSome result (λ slot. IsTrue (is_descendant (Self.slots self.now) root slot)) }
    {
        let mut at = previous;
        'slots: loop {
            let Some(slot) = self.next_full(at) else {
                return None;
            };
            if self.descends(root, slot) {
                return Some(slot);
            }
            at = Some(slot);
        }
    }

    /// Whether another slot names the object that a full slot names: among all full slots, where the store has no shorter way.
    fn is_shared(&self, slot: Slot) -> bool
        requires { IsFull (Self.slots self.now) slot }
        ensures shared { result ≡ true → IsShared (Self.slots self.now) slot }
        ensures alone { result ≡ false → IsShared (Self.slots self.now) slot → ⊥ }
    {
        let Some(offset) = object_of(self.capability(slot)) else {
            return false;
        };
        let mut at = None;
        'slots: loop {
            let Some(other) = self.next_full(at) else {
                return false;
            };
            if names_too(object_of(self.capability(other)), offset, other, slot) {
                return true;
            }
            at = Some(other);
        }
    }

    /// Whether a slot that does not descend from a root names the object that a slot names which does. `last` is the last one
    /// that does in the store's own order. Among all full slots, where the store has no shorter way.
    fn is_shared_beside(&self, root: Slot, last: Slot, slot: Slot) -> bool
        requires below { IsTrue (is_descendant (Self.slots self.now) root slot) }
        requires last_below { IsTrue (is_descendant (Self.slots self.now) root last) }
        requires none_behind { next_in (descendants (order self.now) (Self.slots self.now) root) (Some last) ≡ None }
        ensures shared { result ≡ true → IsSharedBeside (Self.slots self.now) root slot }
        ensures alone { result ≡ false → IsSharedBeside (Self.slots self.now) root slot → ⊥ }
    {
        let _last = last;
        let Some(offset) = object_of(self.capability(slot)) else {
            return false;
        };
        let mut at = None;
        'slots: loop {
            let Some(other) = self.next_full(at) else {
                return false;
            };
            let is_below = self.descends(root, other);
            if names_beside(object_of(self.capability(other)), offset, is_below) {
                return true;
            }
            at = Some(other);
        }
    }

    /// The slot that a full slot is derived from, if nothing is derived from it any more once this one is emptied: by the
    /// descendants of that one, where the store has no shorter way.
    fn childless_without(&self, slot: Slot) -> Option<Slot>
        requires { IsFull (Self.slots self.now) slot }
        ensures { LeavesChildless (Self.slots self.now) slot result }
    {
        let (_held, above) = self.get(slot);
        let Some(parent) = above else {
            return None;
        };
        let first = self.next_below(parent, None);
        if self.next_below(parent, first).is_some() {
            return None;
        }
        Some(parent)
    }

    /// The slot after `previous` in the store's own order that names the object at the offset of a page, or the first
    /// one: among all full slots, where the store has no shorter way.
    fn next_naming(&self, object: u32, previous: Option<Slot>) -> Option<Slot>
        requires page { IsPlace object 12 }
        requires full { ForSome previous (IsFull (Self.slots self.now)) }
        requires known { ForSome previous (λ slot. IsTrue (is_naming (Self.slots self.now) object slot)) }
        ensures next { result ≡ next_in (naming (order self.now) (Self.slots self.now) object) previous }
        ensures lists { IsOrderOf (order self.now) (Self.slots self.now) }
        ensures found_full { IfSome result (IsFull (Self.slots self.now)) }
        ensures found_known { IfSome result (λ slot. IsTrue (is_naming (Self.slots self.now) object slot)) }
    {
        let mut at = previous;
        'slots: loop {
            let Some(slot) = self.next_full(at) else {
                return None;
            };
            if names(self.capability(slot), object) {
                return Some(slot);
            }
            at = Some(slot);
        }
    }

    /// Whether some slot holds a handler of a line, 0 to 63: by a walk over all slots, where the store has no shorter way.
    fn is_handled(&self, line: u8) -> bool
        requires { line < 64 }
        ensures { result ≡ is_handled (Self.slots self.now) (length (memory self.now) / 16) line }
    {
        let count = self.count();
        'slots: for number in 0..count {
            if is_handler_of(self.capability(Slot::new(number)), line) {
                return true;
            }
        }
        false
    }

    /// The offset of the frame that a slot's capability names, if it is one of a frame: by the capability, where the store
    /// has no shorter way.
    fn frame(&self, slot: Slot) -> Option<u32>
        ensures { result ≡ frame_of (capability_at (Self.slots self.now) slot) }
    {
        frame_of(self.capability(slot))
    }

    /// Opens `count` slots, all of them empty.
    fn open_range(&mut self, first: Slot, count: u32)
        requires within { 16 * (first + count) ≤ length (memory self.old) }
        requires closed { (s : ℕ) → first ≤ s → s < first + count → Self.slots self.old s ≡ None }
        ensures slots { Self.slots self.new ≡ opened (Self.slots self.old) first count }
        ensures bytes { SameOutside (Self.slots self.new) (memory self.old) (memory self.new) }
        ensures order { order self.new ≡ order self.old };

    /// Closes `count` slots, all of them empty.
    fn close_range(&mut self, first: Slot, count: u32)
        requires within { 16 * (first + count) ≤ length (memory self.old) }
        requires empty { (s : ℕ) → first ≤ s → s < first + count
            → Self.slots self.old s ≡ Some empty_entry }
        ensures slots { Self.slots self.new ≡ closed (Self.slots self.old) first count }
        ensures bytes { SameOutside (Self.slots self.old) (memory self.old) (memory self.new) }
        ensures order { order self.new ≡ order self.old };

    /// Changes the capability in a full slot. Its parent and its children stay.
    fn set_cap(&mut self, slot: Slot, capability: Cap)
        requires full { IsFull (Self.slots self.old) slot }
        requires valid { IsCapability capability }
        requires some { capability ≢ Cap.Empty }
        requires alike { object_of capability ≡ object_at (Self.slots self.old) slot }
        ensures slots { Self.slots self.new ≡ recapped (Self.slots self.old) slot capability }
        ensures bytes { SameOutside (Self.slots self.old) (memory self.old) (memory self.new) }
        ensures order { order self.new ≡ order self.old };

    /// Puts a capability into an empty slot, derived from `parent` if there is one.
    fn insert(&mut self, slot: Slot, capability: Cap, parent: Option<Slot>)
        requires empty { Self.slots self.old slot ≡ Some empty_entry }
        requires valid { IsCapability capability }
        requires some { capability ≢ Cap.Empty }
        requires full { ForSome parent (IsFull (Self.slots self.old)) }
        requires room { ForSome parent (λ p. depth_of (Self.slots self.old) p < 255) }
        requires kin { IsKin (Self.slots self.old) capability parent }
        ensures slots { Self.slots self.new ≡ inserted (Self.slots self.old) slot capability parent }
        ensures bytes { SameOutside (Self.slots self.old) (memory self.old) (memory self.new) };

    /// Empties a full slot. Its children become children of its parent.
    fn splice_out(&mut self, slot: Slot)
        requires { IsFull (Self.slots self.old) slot }
        ensures derivation { IsDerivation (Self.slots self.old) }
        ensures slots { Self.slots self.new ≡ spliced (Self.slots self.old) slot }
        ensures bytes { SameOutside (Self.slots self.old) (memory self.old) (memory self.new) }
        ensures order { order self.new ≡ without slot (order self.old) };

    /// Moves what a full slot holds to an empty one, with its parent and its children.
    fn relocate(&mut self, from: Slot, to: Slot)
        requires full { IsFull (Self.slots self.old) from }
        requires empty { Self.slots self.old to ≡ Some empty_entry }
        ensures derivation { IsDerivation (Self.slots self.old) }
        ensures slots { Self.slots self.new ≡ relocated (Self.slots self.old) from to }
        ensures bytes { SameOutside (Self.slots self.old) (memory self.old) (memory self.new) };

    /// Writes one byte, where no slot is open.
    fn write8(&mut self, offset: u32, byte: u8)
        requires within { offset < length (memory self.old) }
        requires outside { OutsideSlots (Self.slots self.old) offset 1 }
        ensures slots { Self.slots self.new ≡ Self.slots self.old }
        ensures bytes { memory self.new ≡ written (memory self.old) offset (byte ∷ []) }
        ensures order { order self.new ≡ order self.old };

    /// Writes a number into four bytes, the lowest first, where no slot is open.
    fn write32(&mut self, offset: u32, word: u32)
        requires within { offset + 4 ≤ length (memory self.old) }
        requires outside { OutsideSlots (Self.slots self.old) offset 4 }
        ensures slots { Self.slots self.new ≡ Self.slots self.old }
        ensures bytes { memory self.new ≡ written (memory self.old) offset (word_bytes word) }
        ensures order { order self.new ≡ order self.old };

    /// Writes numbers into four bytes each, one after the other, the lowest byte of each first, where no slot is
    /// open.
    fn write_words(&mut self, offset: u32, words: &[u32])
        requires within { offset + 4 * length words.now ≤ length (memory self.old) }
        requires outside { OutsideSlots (Self.slots self.old) offset (4 * length words.now) }
        ensures slots { Self.slots self.new ≡ Self.slots self.old }
        ensures bytes { memory self.new ≡ written (memory self.old) offset (words_bytes words.now) }
        ensures order { order self.new ≡ order self.old };

    /// Copies `count` words of four bytes each from one place to another, where no slot is open, as they were before.
    fn copy_words(&mut self, source: u32, target: u32, count: u32)
        requires within { max source target + 4 * count ≤ length (memory self.old) }
        requires outside { OutsideSlots (Self.slots self.old) target (4 * count) }
        ensures slots { Self.slots self.new ≡ Self.slots self.old }
        ensures bytes { memory self.new ≡ written (memory self.old) target (take (4 * count) (drop source (memory self.old))) }
        ensures order { order self.new ≡ order self.old };

    /// Writes zero into `count` bytes, where no slot is open.
    fn zero(&mut self, offset: u32, count: u32)
        requires within { offset + count ≤ length (memory self.old) }
        requires outside { OutsideSlots (Self.slots self.old) offset count }
        ensures slots { Self.slots self.new ≡ Self.slots self.old }
        ensures bytes { memory self.new ≡ written (memory self.old) offset (replicate count 0) }
        ensures order { order self.new ≡ order self.old };
}
