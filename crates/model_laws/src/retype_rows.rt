//! Worked rows on Retype: each error in its place, and the window.

ghost use Rattle.std.specs.Prelude.{◌≡◌, None, Some, Err, [], is_ok, true};
ghost use Rattle.model.specs.declared.capabilities.Cap.TheVariants.{Empty, Frame, Untyped};
ghost use Rattle.model.specs.declared.errors.KError.TheVariants.{DeleteFirst, FailedLookup, IllegalOperation, InvalidArgument, NotEnoughMemory, RangeError};
ghost use Rattle.model.specs.Capabilities.Rights.{rights};
ghost use Rattle.model.specs.Capabilities.Slots.{capability_at, parent_at};
ghost use Rattle.model.specs.Kernel.State.{FrameObject};
ghost use Rattle.model_laws.specs.Kernels.{make_below, make_here, make_in, state_or, workshop};

/// A type that there is not, and sizes that are too small or too great.
#[tactic(auto, unfolding(crate::proofs::Opened::opened))]
pub fn retype_knows_types_and_sizes()
    ensures none { make_here 0 0 8 1 ≡ Err InvalidArgument }
    ensures ninth { make_here 9 0 8 1 ≡ Err InvalidArgument }
    ensures small_untyped { make_here 1 3 8 1 ≡ Err InvalidArgument }
    ensures small_cnode { make_here 5 0 8 1 ≡ Err InvalidArgument }
    ensures great_untyped { make_here 1 25 8 1 ≡ Err RangeError }
    ensures great_cnode { make_here 5 15 8 1 ≡ Err RangeError }
{}

/// The CNode that gets the capabilities: no CNode in the slot, too many bits.
#[tactic(auto, unfolding(crate::proofs::Opened::opened))]
pub fn retype_wants_a_cnode()
    ensures endpoint { make_in (record { address = 5; depth = 32 }) ≡ Err FailedLookup }
    ensures empty { make_in (record { address = 6; depth = 32 }) ≡ Err FailedLookup }
    ensures deep { make_in (record { address = 5; depth = 33 }) ≡ Err RangeError }
{}

/// The window: how many, inside the CNode, and all of it empty.
#[tactic(auto, unfolding(crate::proofs::Opened::opened))]
pub fn retype_wants_an_empty_window()
    ensures nothing { make_here 3 0 8 0 ≡ Err RangeError }
    ensures many { make_here 3 0 0 257 ≡ Err RangeError }
    ensures outside { make_here 3 0 30 3 ≡ Err RangeError }
    ensures occupied { make_here 3 0 4 3 ≡ Err DeleteFirst }
{}

/// A child of a slot at depth 255 would be too deep; below depth 254 there is one.
#[tactic(auto, unfolding(crate::proofs::Opened::opened))]
pub fn retype_knows_the_greatest_depth()
    ensures deep { make_below 255 ≡ Err IllegalOperation }
    ensures last { is_ok (make_below 254) ≡ true }
{}

/// No room is reported last: 15 frames fit after 16 bytes that are used, and 16 do not.
#[tactic(auto, unfolding(crate::proofs::Opened::opened))]
pub fn retype_wants_room()
    ensures fits { capability_at (state_or (workshop 0x10 []) (make_here 6 0 8 15)).slots 1 ≡ Untyped 0x10000 16 0x10000 }
    ensures room { make_here 6 0 8 16 ≡ Err NotEnoughMemory }
{}

/// Two frames: their capabilities are in the window as children of the untyped memory, the frames are
/// there with bytes of 0, and nothing is beside them.
#[tactic(auto, unfolding(crate::proofs::Opened::opened))]
pub fn retype_fills_the_window()
    ensures first { capability_at (state_or (workshop 0x10 []) (make_here 6 0 8 2)).slots 8 ≡ Frame 0x11000 (rights 3) None }
    ensures second { capability_at (state_or (workshop 0x10 []) (make_here 6 0 8 2)).slots 9 ≡ Frame 0x12000 (rights 3) None }
    ensures before { capability_at (state_or (workshop 0x10 []) (make_here 6 0 8 2)).slots 7 ≡ Empty }
    ensures behind { capability_at (state_or (workshop 0x10 []) (make_here 6 0 8 2)).slots 10 ≡ Empty }
    ensures parent { parent_at (state_or (workshop 0x10 []) (make_here 6 0 8 2)).slots 9 ≡ Some 1 }
    ensures watermark { capability_at (state_or (workshop 0x10 []) (make_here 6 0 8 2)).slots 1 ≡ Untyped 0x10000 16 0x3000 }
    ensures object { (state_or (workshop 0x10 []) (make_here 6 0 8 2)).objects 0x12000 ≡ Some FrameObject }
    ensures zero { (state_or (workshop 0x10 []) (make_here 6 0 8 2)).bytes 0x12FFF ≡ Some 0 }
    ensures nothing { (state_or (workshop 0x10 []) (make_here 6 0 8 2)).bytes 0x13000 ≡ None }
{}
