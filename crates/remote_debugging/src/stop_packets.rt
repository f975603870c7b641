//! Why a run has stopped, as a packet says it.

use crate::debuggers::{Debugger, Watched};
use crate::motions::Motion;
use debugging::current;
use std::alloc::AllocError;

impl Debugger<'_, '_, '_, '_> {
    /// What is watched and is no more what it was, first.
    pub(crate) fn changed(&self) -> Option<Watched> {
        for (watch, watched) in self.stops.watches.iter().zip(&self.watched) {
            if watch.has_changed(self.run.system()) {
                return Some(*watched);
            }
        }
        None
    }

    /// Whether the part that runs next is at a breakpoint.
    fn is_at_breakpoint(&self) -> bool {
        let Some(thread) = current(self.run.system()) else {
            return false;
        };
        let pc = self.run.system().reg(thread, 0).unwrap_or(0);
        self.stops
            .breakpoints
            .iter()
            .any(|breakpoint| breakpoint.is_met_by(thread, pc))
    }

    /// Appends why a run has stopped, and which part is shown.
    pub(crate) fn push_stop(&self, motion: Motion, to: &mut Vec<u8>) -> Result<(), AllocError> {
        let thread = self.selected.saturating_add(1);
        let text = match motion {
            Motion::Idle => format!(in self.alloc; "T00thread:{thread:x};")?,
            Motion::TooLong => format!(in self.alloc; "T02thread:{thread:x};")?,
            Motion::AtEnd => format!(in self.alloc; "T05replaylog:end;thread:{thread:x};")?,
            Motion::AtStart => format!(in self.alloc; "T05replaylog:begin;thread:{thread:x};")?,
            Motion::Stopped => match self.hit {
                Some(Watched { address, .. }) => {
                    format!(in self.alloc; "T05watch:{address:x};thread:{thread:x};")?
                }
                None if self.is_at_breakpoint() => {
                    format!(in self.alloc; "T05swbreak:;thread:{thread:x};")?
                }
                None => format!(in self.alloc; "T05thread:{thread:x};")?,
            },
        };
        to.extend_from_slice(text.as_bytes())
    }

    /// Puts what is said to the debugger's user where a run has stopped by itself.
    pub(crate) fn push_said(&self, motion: Motion, to: &mut String) -> Result<(), AllocError> {
        match motion {
            Motion::Idle => to.push_str(
                "No part runs: `monitor irq NAME` or `monitor tick` goes on, and `monitor waits` says what each waits for.\n",
            ),
            Motion::TooLong => to.push_str("Ten million events without a stop.\n"),
            Motion::AtEnd => to.push_str("All events are done.\n"),
            Motion::AtStart => to.push_str("Nothing is before this: no event is done.\n"),
            Motion::Stopped => Ok(()),
        }
    }
}
