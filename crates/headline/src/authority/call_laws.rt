//! What a system call changes stays within authority, from every sound state and whoever waits at what the call names.

ghost use Rattle.headline.specs.authority.Laws.{AcknowledgementsStayWithin, CharactersStayWithin, HandlersStayWithin, MappingsStayWithin};
ghost use Rattle.headline.specs.authority.Laws.{ReceivesStayWithin, RepliesStayWithin, RepliesToReceiveStayWithin, RepliesToWaitStayWithin};
ghost use Rattle.headline.specs.authority.Laws.{SendsStayWithin, SignalsStayWithin, WaitsStayWithin, YieldsStayWithin};

/// Call, Send and NBSend by a capability to an endpoint that writes stay within authority: the first receiver gets the message, or the
/// thread waits, or nothing is sent.
pub fn sends_stay_within_authority()
    ensures { SendsStayWithin }
{}

/// Call, Send and NBSend by a capability to a notification that writes stay within authority: the first waiter gets the badge, or it
/// joins the word.
pub fn signals_stay_within_authority()
    ensures { SignalsStayWithin }
{}

/// Recv and NBRecv by a capability to an endpoint that reads stay within authority: the thread gets the message of the first sender, with
/// the right to reply to one that called with grant-reply, or waits, or gets nothing.
pub fn receives_stay_within_authority()
    ensures { ReceivesStayWithin }
{}

/// Recv and NBRecv by a capability to a notification that reads stay within authority: the thread takes the word, or waits, or gets
/// nothing.
pub fn waits_stay_within_authority()
    ensures { WaitsStayWithin }
{}

/// Reply and ReplyRecv stay within authority, where whom the thread may answer waits for no answer to a fault. A ReplyRecv by a capability
/// to an endpoint, which may deliver two messages, does so where no two threads that are not stopped have one message buffer.
pub fn replies_stay_within_authority()
    ensures alone { RepliesStayWithin }
    ensures receiving { RepliesToReceiveStayWithin }
    ensures waiting { RepliesToWaitStayWithin }
{}

/// Yield and PutChar stay within authority.
pub fn calls_on_nothing_stay_within_authority()
    ensures yields { YieldsStayWithin }
    ensures characters { CharactersStayWithin }
{}

/// The acknowledgement of a line, by Call, Send or NBSend, stays within authority: the line is open again, or what was pending is
/// signalled to what it is bound to.
pub fn acknowledgements_stay_within_authority()
    ensures { AcknowledgementsStayWithin }
{}

/// A Map of a frame of the thread's own under its own root table, by Call, Send or NBSend, stays within authority.
pub fn mappings_stay_within_authority()
    ensures { MappingsStayWithin }
{}

/// A Get of a line's handler, by interrupt control of the thread's own, stays within authority.
pub fn handlers_stay_within_authority()
    ensures { HandlersStayWithin }
{}
