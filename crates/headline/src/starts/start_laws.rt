//! What an accepted image's threads find where they start.

ghost use Rattle.headline.specs.starts.Laws.{ListedSlotsNameNoCode, MappingsAreAsListed, ProgramsStandAtTheirAddresses};
ghost use Rattle.headline.specs.starts.Laws.{SlotsAreAsListed, ThreadsAreAsListed, ThreadsStartAsCertified};

/// The thread object of each thread is as the image lists it.
pub fn threads_are_as_listed()
    ensures { ThreadsAreAsListed }
{}

/// The slots of a thread's CNodes are noted as the image lists them.
pub fn slots_are_as_listed()
    ensures { SlotsAreAsListed }
{}

/// Under a thread's root table those pages are mapped that the image maps there, and no slot of the thread names code.
pub fn mappings_are_as_listed()
    ensures maps { MappingsAreAsListed }
    ensures code { ListedSlotsNameNoCode }
{}

/// Each word of a thread's program can be fetched at its address.
pub fn programs_stand_at_their_addresses()
    ensures { ProgramsStandAtTheirAddresses }
{}

/// Each thread of an accepted image starts as its certificate says.
pub fn threads_start_as_certified()
    ensures { ThreadsStartAsCertified }
{}
