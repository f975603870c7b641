//! All threads, over a step that invokes a capability.

ghost use Rattle.headline.specs.invocations.Laws.{InvocationsGoWell};

use crate::invocations::laws::laws_on_invocations;

/// An invocation has no fault and no error, and keeps the threads' invariant.
pub fn invocations_go_well()
    ensures { InvocationsGoWell }
{
    laws_on_invocations();
}
