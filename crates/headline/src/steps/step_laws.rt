//! Steps of threads that reach no system call.

ghost use Rattle.headline.specs.steps.Laws.{PlainStepsKeepThreads, PlainStepsKeepThreadsBehindEvents, PlainStepsKeepThreadsOneEventMore};

/// A step of a thread that reaches no system call does not fault, and keeps what is true of the thread.
pub fn plain_steps_keep_threads()
    ensures any_state { PlainStepsKeepThreads }
    ensures behind_events { PlainStepsKeepThreadsBehindEvents }
    ensures one_event_more { PlainStepsKeepThreadsOneEventMore }
{}
