//! What the definitions say of slots that are kept as changes. Each law is the contract of a function that does nothing.

ghost use Rattle.std.specs.Prelude.{ℕ, ◌≡◌, List, true, false, map};
ghost use Rattle.std.specs.List.{list_all};
ghost use Rattle.model.specs.Acceptance.NotedStates.{NotedSlot, PointState, entry_slot, has_stray_slots, image_slots, record_slots};
ghost use Rattle.model.specs.Images.Image.{Image, StateRecord, Thread};
ghost use Rattle.typestate.specs.Differences.{changed};
ghost use Rattle.typestate.specs.Orders.{Rise};
ghost use Rattle.typestate.specs.SlotChanges.{slots_left};
ghost use Rattle.typestate.specs.Spaces.{NothingLeadsOutside};
ghost use Rattle.typestate.specs.Strays.{NoneStray, is_tidy, is_tidy_put};
ghost use Rattle.typestate.specs.declared.slot_changes.SlotChange.{SlotChange};
ghost use Rattle.typestate.specs.declared.spaces.Space.{Space};

/// The slots of a record are the image's with the slots that it notes as changes.
pub fn records_note_changes()
    ensures { (image : Image) (t : Thread) (r : StateRecord) → record_slots image t r ≡ changed (image_slots image t) (map entry_slot r.slots) }
{}

/// Where no slot is one that the thread may not have, nothing leads outside of its CNodes.
pub fn no_stray_slot_leads_outside()
    ensures { (image : Image) (t : Thread) (point : ℕ) (state : PointState) → has_stray_slots image t point state ≡ false
        → NothingLeadsOutside image t state.slots }
{}

/// Where no slot is one that the thread may not have, there is none after a tidy change.
pub fn tidy_changes_leave_no_stray_slot()
    ensures { (space : Space) (slots : List NotedSlot) (change : SlotChange) → Rise slots → NoneStray space.image.now space.thread.now slots
        → is_tidy space slots change ≡ true
        → NoneStray space.image.now space.thread.now (slots_left slots change) }
{}

/// Where no slot is one that the thread may not have, there is none after tidy slots that are put one after another.
pub fn tidy_puts_leave_no_stray_slot()
    ensures { (space : Space) (slots made : List NotedSlot) → Rise slots → NoneStray space.image.now space.thread.now slots
        → list_all (is_tidy_put space slots) made ≡ true
        → NoneStray space.image.now space.thread.now (changed slots made) }
{}

/// At a point without a record that notes slots elsewhere, no slot is one that the thread may not have where none is refused.
pub fn points_without_stray_slots_have_none()
    ensures { (image : Image) (t : Thread) (point : ℕ) (state : PointState) → has_stray_slots image t point state ≡ false → NoneStray image t state.slots }
{}
