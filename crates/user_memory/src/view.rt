//! Memory as the instructions of a thread see it.

ghost use Rattle.std.specs.Prelude.{◌≡◌, MatchResult, Ok, Err};
ghost use Rattle.model.specs.Machine.ProgramMemory.{stored};
ghost use Rattle.model.specs.declared.instructions.Access.TheVariants.{Store};
ghost use Rattle.model.specs.declared.instructions.AccessSize.TheVariants.{Halfword, Word};
ghost use Rattle.objects.specs.Lives.{state_in};
ghost use Rattle.user_memory.specs.Views.{Beside, IsFound, IsUsable, IsWordAt, beside_of, content_under};

use crate::spaces::{MOST_MEMORY, Space};
use cnode_ops::Kernel;
use model::{Access, AccessSize, MemoryFault};
use packed_slots::WalkStore;
use rv32_exec::View;

/// Memory under a root table, or none, with the kernel that its bytes are in.
#[derive(Drop)]
pub(crate) struct UserMemory<'k, S: WalkStore> {
    pub(crate) kernel: &'k mut Kernel<S>,
    pub(crate) root: Option<u32>,
    ghost usable: { ∥ IsUsable (state_in S.slots S.memory kernel.now) (S.memory kernel.now.store) root ∥₁ },
}

impl<S: WalkStore> UserMemory<'_, S> {
    /// The same memory, for reading.
    fn space(&self) -> Space<'_, S>
        ensures kernel { result.kernel.now ≡ self.now.kernel.now }
        ensures root { result.root ≡ self.now.root }
    {
        Space {
            kernel: self.kernel,
            root: self.root,
        }
    }

    /// Puts the four bytes of a number at a multiple of 4 whose place is known.
    fn put_word(&mut self, address: u32, place: u32, value: u32)
        requires { IsWordAt (content_under (state_in S.slots S.memory self.old.kernel.now) self.old.root) address place }
        ensures content { stored (content_under (state_in S.slots S.memory self.old.kernel.now) self.old.root) Word address value
            ≡ Ok (content_under (state_in S.slots S.memory self.new.kernel.now) self.new.root) }
        ensures rest { beside_of self.new.kernel.now.tables (S.slots self.new.kernel.now.store)
            (S.memory self.new.kernel.now.store) self.new.root self.new.kernel.ghost_name
            ≡ beside_of self.old.kernel.now.tables (S.slots self.old.kernel.now.store)
            (S.memory self.old.kernel.now.store) self.old.root self.old.kernel.ghost_name }
    {
        let kernel = &mut *self.kernel;
        let live = &mut kernel.live;
        live.store.write32(place, value);
    }
}

impl<S: WalkStore> UserMemory<'_, S> {
    /// Stores the low two bytes of a number, at a multiple of 2 by its place, where that is known.
    fn store_halfword(
        &mut self,
        address: u32,
        value: u32,
        place: Option<u32>,
    ) -> Result<(), MemoryFault>
        requires { IsFound (content_under (state_in S.slots S.memory self.old.kernel.now) self.old.root) Store address place }
        ensures content { MatchResult
            result
            (λ _. stored (content_under (state_in S.slots S.memory self.old.kernel.now) self.old.root) Halfword address value
            ≡ Ok (content_under (state_in S.slots S.memory self.new.kernel.now) self.new.root))
            (λ fault. (stored (content_under (state_in S.slots S.memory self.old.kernel.now) self.old.root) Halfword address value ≡ Err fault)
            × (content_under (state_in S.slots S.memory self.new.kernel.now) self.new.root
            ≡ content_under (state_in S.slots S.memory self.old.kernel.now) self.old.root)) }
        ensures rest { beside_of self.new.kernel.now.tables (S.slots self.new.kernel.now.store)
            (S.memory self.new.kernel.now.store) self.new.root self.new.kernel.ghost_name
            ≡ beside_of self.old.kernel.now.tables (S.slots self.old.kernel.now.store)
            (S.memory self.old.kernel.now.store) self.old.root self.old.kernel.ghost_name }
    {
        if address % 2 != 0 {
            return self.set_number(address, AccessSize::Halfword, value);
        }
        match place {
            Some(place) if place < MOST_MEMORY => {
                let bytes = value.to_le_bytes();
                self.set_byte(place, bytes[0]);
                self.set_byte(place + 1, bytes[1]);
                Ok(())
            }
            _ => self.set_number(address, AccessSize::Halfword, value),
        }
    }

    /// Stores the low bytes of a number at an address, by the place of the first one, where that is known.
    #[inline(always)]
    pub(crate) fn store_found(
        &mut self,
        address: u32,
        size: AccessSize,
        value: u32,
        place: Option<u32>,
    ) -> Result<(), MemoryFault>
        requires { IsFound (content_under (state_in S.slots S.memory self.old.kernel.now) self.old.root) Store address place }
        ensures content { MatchResult
            result
            (λ _. stored (content_under (state_in S.slots S.memory self.old.kernel.now) self.old.root) size address value
            ≡ Ok (content_under (state_in S.slots S.memory self.new.kernel.now) self.new.root))
            (λ fault. (stored (content_under (state_in S.slots S.memory self.old.kernel.now) self.old.root) size address value ≡ Err fault)
            × (content_under (state_in S.slots S.memory self.new.kernel.now) self.new.root
            ≡ content_under (state_in S.slots S.memory self.old.kernel.now) self.old.root)) }
        ensures rest { beside_of self.new.kernel.now.tables (S.slots self.new.kernel.now.store)
            (S.memory self.new.kernel.now.store) self.new.root self.new.kernel.ghost_name
            ≡ beside_of self.old.kernel.now.tables (S.slots self.old.kernel.now.store)
            (S.memory self.old.kernel.now.store) self.old.root self.old.kernel.ghost_name }
    {
        match size {
            AccessSize::Word if address % 4 == 0 => match place {
                Some(place) => {
                    self.put_word(address, place, value);
                    Ok(())
                }
                None => self.set_number(address, size, value),
            },
            AccessSize::Halfword => self.store_halfword(address, value, place),
            AccessSize::Byte => match place {
                Some(place) => {
                    let bytes = value.to_le_bytes();
                    self.set_byte(place, bytes[0]);
                    Ok(())
                }
                None => self.set_number(address, size, value),
            },
            _ => self.set_number(address, size, value),
        }
    }
}

impl<S: WalkStore> View for UserMemory<'_, S> {
    ghost content = { λ view. content_under (state_in S.slots S.memory view.kernel.now) view.root };

    ghost Rest = { Beside };

    ghost rest = { λ view. beside_of view.kernel.now.tables (S.slots view.kernel.now.store) (S.memory view.kernel.now.store) view.root view.kernel.ghost_name };

    fn place(&self, address: u32, access: Access) -> Result<u32, MemoryFault> {
        self.space().place(address, access)
    }

    fn byte(&self, place: u32) -> u8 {
        self.space().byte(place)
    }

    #[inline(always)]
    fn load(&self, address: u32, size: AccessSize) -> Result<u32, MemoryFault> {
        match size {
            AccessSize::Word => self.space().word(address, Access::Load),
            AccessSize::Halfword => match self.space().kept_halfword(address, Access::Load) {
                Some(number) => Ok(number),
                None => self.number(address, size, Access::Load),
            },
            AccessSize::Byte => self.number(address, size, Access::Load),
        }
    }

    fn set_byte(&mut self, place: u32, value: u8) {
        let kernel = &mut *self.kernel;
        let live = &mut kernel.live;
        live.store.write8(place, value);
    }

    fn store(&mut self, address: u32, size: AccessSize, value: u32) -> Result<(), MemoryFault> {
        let place = self.space().kept_place(address, Access::Store);
        self.store_found(address, size, value, place)
    }
}
