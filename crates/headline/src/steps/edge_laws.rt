//! The edges that instructions take.

ghost use Rattle.headline.specs.steps.Laws.{DecodedFieldsLieInTheirRanges, InstructionsTakeEdges};

/// What a word spells has its fields in their ranges.
pub fn decoded_fields_lie_in_their_ranges()
    ensures { DecodedFieldsLieInTheirRanges }
{}

/// An instruction that is neither a system call nor a computed jump, and that reaches what it loads or stores, takes one of its edges.
pub fn an_instruction_takes_an_edge()
    ensures { InstructionsTakeEdges }
{}
