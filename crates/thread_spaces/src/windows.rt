//! Where the CNodes of a thread lie.

ghost use Rattle.std.specs.Prelude.{◌≡◌, IfOk};
ghost use Rattle.model.specs.Acceptance.ThreadRules.{reached};
ghost use Rattle.thread_spaces.specs.Given.{IsCNode};
ghost use Rattle.typestate.specs.Spaces.{AreWindows, IsWindow};

use crate::offsets::PlacedImage;
use crate::placed_threads::PlacedThread;
use crate::space_laws::threads_stand_apart;
use std::alloc::{AllocError, Global};
use typestate::{Window, Windows};
use wellformed::{NumberSet, radix_of, type_at};

/// Where a CNode lies.
fn window_of(placed: &PlacedImage<'_, '_>, cnode: u32) -> Window
    requires cnode { IsCNode placed.now.image.now cnode }
    ensures { IsWindow placed.now.image.now cnode result }
{
    let image = placed.image;
    let Some(radix) = radix_of(type_at(image, cnode)) else {
        unreachable!()
    };
    Window {
        cnode,
        offset: placed.offsets[cnode as usize],
        radix,
    }
}

impl PlacedThread<'_, '_, '_, '_> {
    /// Where the CNodes lie that the thread reaches, in the order in which they are found. Fails if out of memory.
    pub(crate) fn windows(&self, alloc: Global, cnodes: &NumberSet) -> Result<Windows, AllocError>
        requires cnodes { cnodes.now ≡ reached self.now.placed.now.image.now self.now.thread.now }
        ensures { IfOk result (λ windows. AreWindows self.now.placed.now.image.now (reached self.now.placed.now.image.now self.now.thread.now) windows) }
    {
        let placed = self.placed;
        let image = placed.image;
        let _ = image.header();
        threads_stand_apart();
        let mut windows = Vec::new(alloc);
        'cnodes: for place in 0..cnodes.len() {
            windows.push(window_of(placed, cnodes.at(place)))?;
        }
        Windows::new(alloc, windows)
    }
}
