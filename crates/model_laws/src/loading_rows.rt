//! Rows on what an image describes and on how it is loaded, on the image `solo`.

ghost use Rattle.std.specs.Prelude.{◌≡◌, [], ◌∷◌, None, Some, codes, length, map};
ghost use Rattle.model.specs.Images.BootCalls.{all_calls};
ghost use Rattle.model.specs.Images.Described.{described};
ghost use Rattle.model.specs.Images.Listing.{listing_lines};
ghost use Rattle.model.specs.Images.Places.{boot_slots, offset_of, watermark_of};
ghost use Rattle.model.specs.Capabilities.Rights.{rights};
ghost use Rattle.model.specs.Capabilities.Slots.{empty_entry};
ghost use Rattle.model.specs.declared.capabilities.Cap.TheVariants.{CNode, Frame, Notification, PageTable, RootTable, Untyped};
ghost use Rattle.model_laws.specs.Solo.{solo_image};

/// The objects lie one after another in their untyped memory.
#[tactic(auto, unfolding(crate::proofs::Opened::opened))]
pub fn solo_objects_stand_at()
    ensures places { map (offset_of solo_image) (0 ∷ 1 ∷ 2 ∷ 3 ∷ 4 ∷ 5 ∷ 6 ∷ [])
        ≡ 0x8000 ∷ 0x9000 ∷ 0xA000 ∷ 0xB000 ∷ 0xC000 ∷ 0xC200 ∷ 0xC300 ∷ [] }
    ensures used { watermark_of solo_image 0 ≡ 0x4310 }
    ensures slots { boot_slots solo_image ≡ 13 }
{}

/// What is in some of the slots: the untyped memory, a mapped page table, the copy by which code is mapped, the binding
/// of line 3, a listed capability and the thread's own three, of which the last is empty.
#[tactic(auto, unfolding(crate::proofs::Opened::opened))]
pub fn solo_slots_hold()
    ensures untyped { (described solo_image).slots 0 ≡ Some (record { capability = Untyped 0x8000 15 0x4310; parent = None }) }
    ensures table { (described solo_image).slots 3
        ≡ Some (record { capability = PageTable 0xA000 (Some (record { root = 0x9000; region = 0 })); parent = Some 0 }) }
    ensures code { (described solo_image).slots 10
        ≡ Some (record { capability = Frame 0x8000 (rights 3) (Some (record { root = 0x9000; page = 1; rights = rights 4 })); parent = Some 1 }) }
    ensures binding { (described solo_image).slots 19
        ≡ Some (record { capability = Notification 0xC300 (rights 11) 1; parent = Some 12 }) }
    ensures listed { (described solo_image).slots 0xC21
        ≡ Some (record { capability = Notification 0xC300 (rights 2) 0; parent = Some 7 }) }
    ensures cspace { (described solo_image).slots 0xC00 ≡ Some (record { capability = CNode 0xC200 4 28; parent = Some 6 }) }
    ensures vspace { (described solo_image).slots 0xC01 ≡ Some (record { capability = RootTable 0x9000; parent = Some 2 }) }
    ensures buffer { (described solo_image).slots 0xC02 ≡ Some empty_entry }
    ensures closed { (described solo_image).slots 0xC03 ≡ None }
{}

/// The first word of the program lies in the code page, and the thread is ready at its priority.
#[tactic(auto, unfolding(crate::proofs::Opened::opened))]
pub fn solo_starts_with()
    ensures word { map (described solo_image).bytes (0x8000 ∷ 0x8001 ∷ 0x8002 ∷ 0x8003 ∷ [])
        ≡ Some 0x93 ∷ Some 0x02 ∷ Some 0xA0 ∷ Some 0 ∷ [] }
    ensures rest { map (described solo_image).bytes (0x801C ∷ 0xB000 ∷ 0xC000 ∷ []) ≡ Some 0 ∷ Some 0 ∷ None ∷ [] }
    ensures ready { (described solo_image).ready 100 ≡ 0xC000 ∷ [] }
{}

/// The loader makes 21 kernel calls.
#[tactic(auto, unfolding(crate::proofs::Opened::opened))]
pub fn solo_takes_calls()
    ensures { length (all_calls solo_image) ≡ 21 }
{}

/// The lines of the listing.
#[tactic(auto, unfolding(crate::proofs::Opened::opened))]
pub fn solo_is_listed()
    ensures { listing_lines solo_image
        ≡ codes "memory 16 4" ∷ codes "untyped u0 32768 15" ∷ codes "object o0 u0 frame" ∷ codes "object o1 u0 root"
        ∷ codes "object o2 u0 table" ∷ codes "object o3 u0 frame" ∷ codes "object o4 u0 tcb" ∷ codes "object o5 u0 cnode 4"
        ∷ codes "object o6 u0 notification" ∷ codes "irq i0 3 o6 1" ∷ codes "cap o5 1 o6 2 0" ∷ codes "cap o5 2 i0 0 0"
        ∷ codes "table o1 0 o2" ∷ codes "map o1 4096 o0 4" ∷ codes "map o1 8192 o3 3" ∷ codes "thread o4 o5 28 o1 100 24 0 l 4096"
        ∷ codes "l:" ∷ codes "measure 24" ∷ codes "word 10486419" ∷ codes "measure 3 x5 2" ∷ codes "range x5 1 10"
        ∷ codes "word 4294083219" ∷ codes "measure 4 x5 2" ∷ codes "range x5 0 9" ∷ codes "word 4261584611" ∷ codes "word 1049875"
        ∷ codes "word 5245075" ∷ codes "word 115" ∷ codes "word 4284477551" ∷ codes "end" ∷ [] }
{}
