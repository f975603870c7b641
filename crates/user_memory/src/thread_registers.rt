//! The registers of a thread, where the kernel keeps them.

ghost use Rattle.std.specs.Prelude.{◌≡◌, Some};
ghost use Rattle.model.specs.Kernel.Kinds.{kind_at};
ghost use Rattle.model.specs.Kernel.Retype.{NewThread};
ghost use Rattle.model.specs.Kernel.Steps.{registers_of};
ghost use Rattle.objects.specs.Lives.{state_in};
ghost use Rattle.user_memory.specs.BesideRegisters.{BesideRegisters, beside_registers};

use cnode_ops::Kernel;
use model::Register;
use packed_slots::WalkStore;
use rv32_exec::Registers;

/// The registers of a thread that is there, with the kernel that keeps them. A write changes the bytes of one register.
#[derive(Drop)]
pub(crate) struct ThreadRegisters<'k, S: WalkStore> {
    pub(crate) kernel: &'k mut Kernel<S>,
    pub(crate) thread: u32,
    ghost there: { kind_at (state_in S.slots S.memory kernel.now) thread ≡ Some NewThread },
}

impl<S: WalkStore> Registers for ThreadRegisters<'_, S> {
    ghost file = { λ own. registers_of (state_in S.slots S.memory own.kernel.now) own.thread };

    ghost Rest = { BesideRegisters };

    ghost rest = { λ own. beside_registers (state_in S.slots S.memory own.kernel.now) own.thread own.kernel.ghost_name };

    fn pc(&self) -> u32 {
        let kernel = &*self.kernel;
        kernel.live.pc(self.thread)
    }

    fn set_pc(&mut self, pc: u32) {
        let kernel = &mut *self.kernel;
        kernel.live.set_pc(self.thread, pc);
    }

    fn read(&self, register: Register) -> u32 {
        let kernel = &*self.kernel;
        kernel.live.register(self.thread, register)
    }

    fn write(&mut self, register: Register, value: u32) {
        let kernel = &mut *self.kernel;
        kernel.live.set_register(self.thread, register, value);
    }
}
