//! What is promised of messages.

ghost use Rattle.headline.specs.moves.Laws.{WaitingMessagesKeepPromises};

use crate::moves::below::laws_below;

/// Where all threads of an accepted image are as their certificates say, each message that waits at an endpoint keeps what the image
/// promises there.
pub fn waiting_messages_keep_their_promises()
    ensures { WaitingMessagesKeepPromises }
{
    laws_below();
}
