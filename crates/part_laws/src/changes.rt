//! What a call is made of, in the whole and in the part alone.

ghost use Rattle.part_laws.specs.Changes.{BlocksAgree, InterruptsAgree, ReceivesAgree, RepliesAgree, SameRuns};
ghost use Rattle.part_laws.specs.Changes.{SendsAgree, SignalsAgree, TicksAgree, WaitsAgree, WakesAgree};

/// What a call is made of keeps that the whole and the part alone agree, and so does a tick in which a thread of the part runs.
pub fn changes_of_a_part_agree()
    ensures runs { SameRuns }
    ensures wakes { WakesAgree }
    ensures blocks { BlocksAgree }
    ensures ticks { TicksAgree }
{}

/// What threads of a part send to one another, and receive, agrees on both sides.
pub fn messages_within_a_part_agree()
    ensures sends { SendsAgree }
    ensures receives { ReceivesAgree }
{}

/// Replies, signals, waits and polls within a part agree on both sides, and so do interrupts of its lines.
pub fn signals_of_a_part_agree()
    ensures replies { RepliesAgree }
    ensures signals { SignalsAgree }
    ensures waits { WaitsAgree }
    ensures interrupts { InterruptsAgree }
{}
