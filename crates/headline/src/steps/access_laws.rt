//! Loads and stores of threads.

ghost use Rattle.headline.specs.steps.Laws.{MappedAccessesDoNotFault};

/// A load or store does not fault where the rule on mapped pages is kept, and the mappings are those of the image and of noted slots.
pub fn mapped_accesses_do_not_fault()
    ensures { MappedAccessesDoNotFault }
{}
