//! A thread's capability space, as a well-formed image gives it.

ghost use Rattle.std.specs.Prelude.{◌≡◌};
ghost use Rattle.model.specs.Acceptance.NotedKernel.{noted_root};
ghost use Rattle.model.specs.Acceptance.ThreadRules.{reached};
ghost use Rattle.model.specs.Capabilities.CapabilityWords.{IsCapability};
ghost use Rattle.model.specs.Images.Places.{offset_of};
ghost use Rattle.typestate.specs.Promises.{AreOfImage};
ghost use Rattle.typestate.specs.Spaces.{AreWindows};

use crate::placed_threads::PlacedThread;
use crate::space_laws::{mappings_are_listed, threads_stand_apart};
use model::Cap;
use typestate::{PlacedPromises, Space, Windows};
use wellformed::{radix_of, type_at};

impl<'a> PlacedThread<'_, '_, '_, 'a> {
    /// The root of the thread's capability space: its CNode, with its guard word.
    fn root(&self) -> Cap
        ensures value { result ≡ noted_root self.now.placed.now.image.now self.now.thread.now }
        ensures valid { IsCapability result }
    {
        let placed = self.placed;
        let image = placed.image;
        let _ = image.header();
        let header = self.thread.header();
        let Some(radix) = radix_of(type_at(image, header.cnode)) else {
            unreachable!()
        };
        Cap::CNode {
            offset: placed.offsets[header.cnode as usize],
            radix,
            guard: header.guard,
        }
    }

    /// The offset of the thread's root table.
    fn table(&self) -> u32
        ensures { result ≡ offset_of self.now.placed.now.image.now self.now.thread.now.header.root }
    {
        let placed = self.placed;
        let image = placed.image;
        let _ = image.header();
        placed.offsets[self.thread.header().root as usize]
    }

    /// The thread's capability space, with the CNodes that it reaches.
    pub(crate) fn space<'s>(
        &'s self,
        windows: &'s Windows,
        promises: &'s PlacedPromises<'a>,
    ) -> Space<'a, 's>
        requires windows { AreWindows self.now.placed.now.image.now (reached self.now.placed.now.image.now self.now.thread.now) windows.now }
        requires promises { AreOfImage self.now.placed.now.image.now promises.now }
        ensures image { result.image.now ≡ self.now.placed.now.image.now }
        ensures thread { result.thread.now ≡ self.now.thread.now }
    {
        let image = self.placed.image;
        let _ = image.header();
        threads_stand_apart();
        mappings_are_listed();
        Space {
            image,
            thread: self.thread,
            windows,
            promises,
            root: self.root(),
            table: self.table(),
        }
    }
}
