//! What the rules on messages say.

ghost use Rattle.headline.specs.calls.Laws.{NeedNothing, Receives, Sends};

/// A receive that its rule allows is by a capability that may read. A Call, Send or NBSend that its rule allows is by one that may write, or is an
/// invocation that is allowed. What is known after each is what its kind says, and after a call that needs nothing all
/// is as before.
pub fn rules_on_messages_are_known()
    ensures receives { Receives }
    ensures sends { Sends }
    ensures others { NeedNothing }
{}
