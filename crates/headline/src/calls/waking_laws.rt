//! What calls write where they are done.

ghost use Rattle.headline.specs.calls.Laws.{AnswerFits, SentMessagesKeepPromises, MessageFits, NothingFits, ResultFits, SignalFits};

/// What a message that keeps its promise, the answer to a call, a signal, the result of an invocation and a message that is not there write
/// lies in the ranges after them, and no other register changes.
pub fn messages_fit_behind()
    ensures message { MessageFits }
    ensures answer { AnswerFits }
    ensures signal { SignalFits }
    ensures result { ResultFits }
    ensures nothing { NothingFits }
{}

/// Where what is known of a thread's registers keeps a promise, the message in them does.
pub fn what_is_sent_keeps_its_promise()
    ensures { SentMessagesKeepPromises }
{}
