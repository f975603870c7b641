//! What is true of the threads of well-formed images. Each law is the contract of a function that does nothing.

ghost use Rattle.std.specs.Prelude.{◌≡◌, ◌+◌, ◌*◌, ◌^◌, ◌<◌, ◌≤◌, true};
ghost use Rattle.model.specs.Acceptance.Accepted.{IsWellFormed};
ghost use Rattle.model.specs.Capabilities.CapabilityWords.{IsPlace};
ghost use Rattle.model.specs.Images.Image.{Image, Thread, whole_image};
ghost use Rattle.model.specs.Images.Places.{offset_of};
ghost use Rattle.thread_spaces.specs.Given.{IsListed};
ghost use Rattle.typestate.specs.Mappings.{MappingsAreListed};
ghost use Rattle.typestate.specs.Spaces.{StandsApart};

/// Outside of a thread's CNodes those pages and regions are mapped under its root table that the image lists.
pub fn mappings_are_listed()
    ensures { (image : Image) (t : Thread) → whole_image.fits image ≡ true → IsWellFormed image → IsListed image t → MappingsAreListed image t }
{}

/// A thread's CNodes lie apart from one another and from all other slots, and what is in the boot CNode is known.
pub fn threads_stand_apart()
    ensures { (image : Image) (t : Thread) → whole_image.fits image ≡ true → IsWellFormed image → IsListed image t → StandsApart image t }
{}

/// A thread's root table lies at a page, as its capability asks.
pub fn root_tables_are_placed()
    ensures { (image : Image) (t : Thread) → whole_image.fits image ≡ true → IsWellFormed image → IsListed image t
        → IsPlace (offset_of image t.header.root) 12 }
{}

/// A thread's program ends in the lower half of the address space, and its entry is one of its words.
pub fn programs_have_their_places()
    ensures { (image : Image) (t : Thread) → IsWellFormed image → IsListed image t
        → (t.header.base + 4 * t.header.words ≤ 2 ^ 31) × (t.header.entry < t.header.words) }
{}
