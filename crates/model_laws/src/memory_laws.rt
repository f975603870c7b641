//! What authority rules out of memory: mappings under other root tables than the thread's own, and what a new frame has.

ghost use Rattle.std.specs.Prelude.{ℕ, ◌≡◌, ◌≢◌, Some, None};
ghost use Rattle.model.specs.declared.capabilities.Cap.TheVariants.{Frame, PageTable};
ghost use Rattle.model.specs.declared.rights.Rights.{Rights};
ghost use Rattle.model.specs.Acceptance.Authority.{WithinAuthority};
ghost use Rattle.model.specs.Capabilities.Slots.{capability_at};
ghost use Rattle.model.specs.Images.Image.{Image, Thread};
ghost use Rattle.model.specs.Images.Places.{offset_of};
ghost use Rattle.model.specs.Kernel.Kinds.{frame_around};
ghost use Rattle.model.specs.Kernel.State.{State, FrameObject};

/// Under the root table of another thread no frame is mapped, none is unmapped, and no page table is mapped. It checks
/// `frame_mappings` and `table_mappings`.
pub fn pages_of_another_root_table_stay()
    ensures mapped { (image : Image) (t : Thread) (s after : State) (slot frame root page : ℕ) (held allowed : Rights)
        → root ≢ offset_of image t.header.root → capability_at s.slots slot ≡ Frame frame held None
        → capability_at after.slots slot ≡ Frame frame held (Some (record { root = root; page = page; rights = allowed }))
        → WithinAuthority image t s after → ⊥ }
    ensures unmapped { (image : Image) (t : Thread) (s after : State) (slot frame root page : ℕ) (held allowed : Rights)
        → root ≢ offset_of image t.header.root
        → capability_at s.slots slot ≡ Frame frame held (Some (record { root = root; page = page; rights = allowed }))
        → capability_at after.slots slot ≡ Frame frame held None → WithinAuthority image t s after → ⊥ }
    ensures table { (image : Image) (t : Thread) (s after : State) (slot table root region : ℕ) → root ≢ offset_of image t.header.root
        → capability_at s.slots slot ≡ PageTable table None
        → capability_at after.slots slot ≡ PageTable table (Some (record { root = root; region = region }))
        → WithinAuthority image t s after → ⊥ }
{}

/// A frame that appears is all zero. It checks `comes_with_frame` of `ByteChange`.
pub fn a_new_frame_is_all_zero()
    ensures { (image : Image) (t : Thread) (s after : State) (place byte : ℕ) → s.objects (frame_around place) ≡ None
        → after.objects (frame_around place) ≡ Some FrameObject → s.bytes place ≡ None → after.bytes place ≡ Some byte → byte ≢ 0
        → WithinAuthority image t s after → ⊥ }
{}
