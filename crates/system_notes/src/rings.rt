//! Threads that wait for one another in a ring.

use crate::calls::Deed;
use crate::meetings::{Scene, only};
use std::alloc::{AllocError, Global};

/// For whom each thread may wait, at once or by others: bit N of a set is thread N.
#[derive(Drop)]
pub(crate) struct Rings {
    awaited: Vec<u64>,
}

/// For whom a thread may wait when it enters an endpoint: itself counts where it alone receives there.
fn awaited_at(receivers: u64, own: u64) -> u64 {
    if receivers == own {
        own
    } else {
        receivers & !own
    }
}

impl Rings {
    /// Those of a system.
    pub(crate) fn of(alloc: Global, scene: Scene<'_, '_>) -> Result<Self, AllocError> {
        let mut awaited = Vec::new(alloc);
        for (number, thread) in scene.threads.iter().enumerate() {
            let mut set = 0u64;
            for call in &thread.calls {
                if let Deed::Enter { endpoint, .. } = call.deed {
                    set |= awaited_at(scene.meetings.receiving(endpoint), only(number));
                }
            }
            awaited.push(set)?;
        }
        let mut rings = Rings { awaited };
        rings.close();
        Ok(rings)
    }

    /// For whom a thread may wait.
    fn awaited(&self, thread: usize) -> u64 {
        match self.awaited.get(thread) {
            Some(set) => *set,
            None => 0,
        }
    }

    /// Adds those for whom the others wait.
    fn close(&mut self) {
        for number in 0..self.awaited.len() {
            let further = self.awaited(number);
            for set in self.awaited.iter_mut() {
                if *set & only(number) != 0 {
                    *set |= further;
                }
            }
        }
    }

    /// The ring that a thread is in, or nobody.
    pub(crate) fn ring(&self, thread: usize) -> u64 {
        let own = only(thread);
        let awaited = self.awaited(thread);
        if awaited & own == 0 {
            return 0;
        }
        let mut ring = 0;
        for (number, others) in self.awaited.iter().enumerate() {
            if awaited & only(number) != 0 && *others & own != 0 {
                ring |= only(number);
            }
        }
        ring
    }
}
