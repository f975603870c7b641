//! Rows on what the world does to memory. A frame is at 0x1000, all zero, and no other.

ghost use Rattle.std.specs.Prelude.{◌≡◌, ◌∷◌, [], None, Some, map, true, false};
ghost use Rattle.model.specs.declared.labels.Label.TheVariants.{Showed, Wrote};
ghost use Rattle.model.specs.declared.events.Event.TheVariants.{Read, Write};
ghost use Rattle.model.specs.Kernel.Steps.{step};
ghost use Rattle.model.specs.Kernel.World.{is_word_of_frame, word_seen, world_writes};
ghost use Rattle.model_laws.specs.DevicePages.{endpoint_there};
ghost use Rattle.model_laws.specs.Setups.{framed, fresh};

/// A word is of a frame where all its four bytes are.
#[tactic(auto, unfolding(crate::proofs::Opened::opened))]
pub fn a_word_is_of_the_frame_of_its_bytes()
    ensures first { is_word_of_frame framed 0x1000 ≡ true }
    ensures unaligned { is_word_of_frame framed 0x1235 ≡ true }
    ensures last { is_word_of_frame framed 0x1FFC ≡ true }
    ensures over { is_word_of_frame framed 0x1FFD ≡ false }
    ensures end { is_word_of_frame framed 0x1FFF ≡ false }
    ensures behind { is_word_of_frame framed 0x2000 ≡ false }
    ensures before { is_word_of_frame framed 0xFFC ≡ false }
    ensures none { is_word_of_frame fresh 0x1000 ≡ false }
    ensures endpoint { is_word_of_frame endpoint_there 0x1000 ≡ false }
{}

/// The world's write of 0x11223344 changes the four bytes from its place on, the lowest first, and no other.
#[tactic(auto, unfolding(crate::proofs::Opened::opened, model::specs::Kernel::World::world_writes))]
pub fn a_write_of_the_world_changes_four_bytes()
    ensures bytes { map (world_writes framed 0x1004 0x1122_3344).bytes (0x1003 ∷ 0x1004 ∷ 0x1005 ∷ 0x1006 ∷ 0x1007 ∷ 0x1008 ∷ [])
        ≡ Some 0 ∷ Some 0x44 ∷ Some 0x33 ∷ Some 0x22 ∷ Some 0x11 ∷ Some 0 ∷ [] }
    ensures unaligned { map (world_writes framed 0x1001 0x1122_3344).bytes (0x1000 ∷ 0x1001 ∷ 0x1002 ∷ 0x1003 ∷ 0x1004 ∷ 0x1005 ∷ [])
        ≡ Some 0 ∷ Some 0x44 ∷ Some 0x33 ∷ Some 0x22 ∷ Some 0x11 ∷ Some 0 ∷ [] }
    ensures last { map (world_writes framed 0x1FFC 0x1122_3344).bytes (0x1FFB ∷ 0x1FFC ∷ 0x1FFD ∷ 0x1FFE ∷ 0x1FFF ∷ 0x2000 ∷ [])
        ≡ Some 0 ∷ Some 0x44 ∷ Some 0x33 ∷ Some 0x22 ∷ Some 0x11 ∷ None ∷ [] }
    ensures objects { (world_writes framed 0x1004 0x1122_3344).objects ≡ framed.objects }
    ensures slots { (world_writes framed 0x1004 0x1122_3344).slots ≡ framed.slots }
{}

/// Where no frame has all four bytes the world's write changes nothing.
#[tactic(auto, unfolding(crate::proofs::Opened::opened, model::specs::Kernel::World::world_writes))]
pub fn a_write_of_the_world_outside_of_frames_changes_nothing()
    ensures over { world_writes framed 0x1FFD 0x1122_3344 ≡ framed }
    ensures end { world_writes framed 0x1FFF 0x1122_3344 ≡ framed }
    ensures behind { world_writes framed 0x2000 0x1122_3344 ≡ framed }
    ensures before { world_writes framed 0xFFE 0x1122_3344 ≡ framed }
    ensures endpoint { world_writes endpoint_there 0x1004 0x1122_3344 ≡ endpoint_there }
{}

/// The world sees the word that it wrote, the lowest byte first, and 0 for each byte that no frame has.
#[tactic(auto, unfolding(crate::proofs::Opened::opened, model::specs::Kernel::World::world_writes, model::specs::Kernel::World::word_seen))]
pub fn a_look_gives_the_word_back()
    ensures back { word_seen (world_writes framed 0x1004 0x1122_3344) 0x1004 ≡ 0x1122_3344 }
    ensures greatest { word_seen (world_writes framed 0x1FFC 0xFFFF_FFFF) 0x1FFC ≡ 0xFFFF_FFFF }
    ensures shifted { word_seen (world_writes framed 0x1004 0x1122_3344) 0x1005 ≡ 0x0011_2233 }
    ensures earlier { word_seen (world_writes framed 0x1004 0x1122_3344) 0x1003 ≡ 0x2233_4400 }
    ensures beside { word_seen (world_writes framed 0x1004 0x1122_3344) 0x1008 ≡ 0 }
    ensures over { word_seen (world_writes framed 0x1FFC 0x1122_3344) 0x1FFE ≡ 0x1122 }
    ensures nothing { word_seen fresh 0x1000 ≡ 0 }
    ensures behind { word_seen framed 0x2000 ≡ 0 }
{}

/// The events of the world are at addresses from 0x80000000 on. A write is printed with its word, a look with what is seen, and a look
/// leaves the state as it is.
#[tactic(auto, unfolding(crate::proofs::Opened::opened, model::specs::Kernel::World::world_writes, model::specs::Kernel::World::word_seen))]
pub fn writes_and_looks_are_labelled()
    ensures writes { (step framed (Write 0x8000_1004 0x1122_3344)).0 ≡ world_writes framed 0x1004 0x1122_3344 }
    ensures wrote { (step framed (Write 0x8000_1004 0x1122_3344)).1 ≡ Wrote 0x8000_1004 0x1122_3344 }
    ensures outside { (step framed (Write 0x8000_2000 7)).0 ≡ framed }
    ensures looks { (step (world_writes framed 0x1004 7) (Read 0x8000_1004)).0 ≡ world_writes framed 0x1004 7 }
    ensures showed { (step (world_writes framed 0x1004 7) (Read 0x8000_1004)).1 ≡ Showed 0x8000_1004 7 }
    ensures low { (step (world_writes framed 0x1004 7) (Read 0x1004)).1 ≡ Showed 0x1004 0 }
{}
