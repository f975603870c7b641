//! How the state goes along with slots and memory. Each law is the contract of a function that does nothing.

ghost use Rattle.std.specs.Prelude.{ℕ, ◌≡◌, ◌/◌, List, None, Some, option_map, slice_index};
ghost use Rattle.model.specs.Capabilities.Slots.{IsOpen, SameOutside, Slots};
ghost use Rattle.model.specs.Kernel.State.{with_slots};
ghost use Rattle.objects.specs.Frames.{IsInRecord, SameBesideFrames, SameKept};
ghost use Rattle.objects.specs.Standing.{Standing};
ghost use Rattle.objects.specs.Tables.{Tables, state_of};

/// The state's slots are the store's.
#[tactic(auto, unfolding(crate::specs::Tables::state_of, crate::specs::Contents::told_by))]
pub fn a_state_has_its_slots()
    ensures { (o : Tables) (slots : Slots) (memory : List ℕ) → (state_of o slots memory).slots ≡ slots }
{}

/// Where slots change and only bytes of open slots, the state changes in its slots alone.
pub fn a_state_follows_its_slots()
    ensures { (o : Tables) (slots : Slots) (old new : List ℕ) (now : Slots) → Standing o slots old → SameOutside slots old new
        → state_of o now new ≡ with_slots (state_of o slots old) now }
{}

/// The invariant of objects still holds then, if no slot was opened.
pub fn what_stands_still_does()
    ensures { (o : Tables) (slots : Slots) (old new : List ℕ) (now : Slots) → Standing o slots old → SameOutside slots old new
        → ((slot : ℕ) → slots slot ≡ None → now slot ≡ None) → Standing o now new }
{}

/// Where slots change and no bytes of frames and records, the state changes in its slots alone.
pub fn a_state_follows_other_bytes()
    ensures { (o : Tables) (slots : Slots) (old new : List ℕ) (now : Slots) → Standing o slots old → SameKept (state_of o slots old) old new
        → state_of o now new ≡ with_slots (state_of o slots old) now }
{}

/// The invariant of objects still holds then, if no open slot lies in a frame or in a record.
pub fn what_stands_beside_other_bytes()
    ensures { (o : Tables) (slots : Slots) (old new : List ℕ) (now : Slots) → Standing o slots old → SameKept (state_of o slots old) old new
        → ((place : ℕ) → IsOpen now (place / 16) → (state_of o slots old).bytes place ≡ None)
        → ((place : ℕ) → IsOpen now (place / 16) → IsInRecord (state_of o slots old).objects place → ⊥) → Standing o now new }
{}

/// Where only bytes of frames change, the state changes in these alone.
pub fn a_state_follows_its_frames()
    ensures { (o : Tables) (slots : Slots) (old new : List ℕ) → Standing o slots old → SameBesideFrames (state_of o slots old) old new
        → state_of o slots new ≡ record (state_of o slots old) {
          bytes = λ place. option_map (λ _. slice_index new place)
              ((state_of o slots old).bytes place);
        } }
{}

/// The invariant of objects still holds then.
pub fn what_stands_beside_frames()
    ensures { (o : Tables) (slots : Slots) (old new : List ℕ) → Standing o slots old → SameBesideFrames (state_of o slots old) old new → Standing o slots new }
{}

/// A byte of a frame is memory's.
pub fn a_byte_is_in_memory()
    ensures { (o : Tables) (slots : Slots) (memory : List ℕ) (place byte : ℕ) → (state_of o slots memory).bytes place ≡ Some byte
        → byte ≡ slice_index memory place }
{}
