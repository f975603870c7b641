//! What stays of queues where something else changes. Each law is the contract of a function that does nothing.

ghost use Rattle.queues.specs.Laws.{BeginsEmpty, KindsApart, NobodyNamed, ReadyStays, WaitingStays};

/// Those that wait still do, where neither the bytes of their links nor the objects change.
pub fn waiting_stays()
    ensures { WaitingStays }
{}

/// Those that are ready still are, where neither the bytes of their links nor the threads change.
pub fn ready_stays()
    ensures { ReadyStays }
{}

/// Who waits changes beside who is ready, and threads alone are in queues, of objects that may have such.
pub fn kinds_stand_apart()
    ensures { KindsApart }
{}

/// Who is in no queue is not named, and where nobody waits, nobody is.
pub fn nobody_is_named()
    ensures { NobodyNamed }
{}

/// Threads and objects begin with nobody named.
pub fn objects_begin_empty()
    ensures { BeginsEmpty }
{}
