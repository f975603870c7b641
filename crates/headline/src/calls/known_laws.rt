//! What is known of the system calls that the rules allow.

ghost use Rattle.headline.specs.calls.Laws.{AreAllowed, AreNamed, AreNumbered, AreWordsKnown, IsWordKnown};

/// A system call at a point with a state of an accepted image is allowed, and the registers that it depends on hold what the rules know of them: its
/// number, the capability that it names, and each word that has to have one value.
pub fn allowed_calls_are_known()
    ensures allowed { AreAllowed }
    ensures number { AreNumbered }
    ensures named { AreNamed }
    ensures word { IsWordKnown }
    ensures words { AreWordsKnown }
{}
