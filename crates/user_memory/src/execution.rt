//! The next instruction of a thread, and what it does.

ghost use Rattle.std.specs.Prelude.{ℕ, ◌≡◌, ◌≢◌, Some, Ok, Err, IfOk, MatchResult};
ghost use Rattle.model.specs.Kernel.AddressSpaces.{content_of, vspace_of, with_content};
ghost use Rattle.model.specs.Kernel.Kinds.{kind_at};
ghost use Rattle.model.specs.Kernel.Messages.{with_registers};
ghost use Rattle.model.specs.Kernel.Retype.{NewThread};
ghost use Rattle.model.specs.Kernel.Steps.{registers_of};
ghost use Rattle.model.specs.Machine.Effects.{effect};
ghost use Rattle.model.specs.Machine.Instructions.{IsInstr};
ghost use Rattle.model.specs.Machine.ProgramMemory.{FitsSize, loaded, stored};
ghost use Rattle.model.specs.declared.instructions.Access.TheVariants.{Fetch, Load, Store};
ghost use Rattle.model.specs.declared.instructions.AccessSize.TheVariants.{Word};
ghost use Rattle.objects.specs.Lives.{state_in};
ghost use Rattle.user_memory.specs.KeptPages.{AreOwn};
ghost use Rattle.user_memory.specs.Views.{IsOwnPlace, content_under};

use crate::code_pages::{find, number_at};
use crate::keeping::keep_page;
use crate::known_words::ValidInstr;
use crate::one_byte::OneByte;
use crate::pages::Pages;
use crate::spaces::Space;
use crate::thread_registers::ThreadRegisters;
use crate::view::UserMemory;
use cnode_ops::Kernel;
use model::{Access, AccessSize, Exec, Instr, MemoryFault};
use packed_slots::WalkStore;
use rv32_exec::{
    Regs, View, advance, exec, load_result, load_size, plus, store_size, write_register,
};

/// The word that a thread runs next, at its program counter. The leaf of its page is kept, which changes nothing else. Asks
/// for the thread's root table.
///
/// # Errors
///
/// The fault at the first byte of it that the thread may not run.
pub fn fetch<S: WalkStore>(
    kernel: &mut Kernel<S>,
    thread: u32,
    root: Option<u32>,
) -> Result<u32, MemoryFault>
    requires root { root ≡ vspace_of (state_in S.slots S.memory kernel.old) thread }
    ensures value { result ≡ loaded (content_of (state_in S.slots S.memory kernel.old) thread) Fetch Word
        (registers_of (state_in S.slots S.memory kernel.old) thread).pc }
    ensures unchanged { kernel.new ≡ kernel.old }
{
    let address = kernel.pc(thread);
    word_at(kernel, thread, root, address, Access::Fetch)
}

/// The word at any address, for an access of a thread: at first as it is kept.
#[inline]
pub(crate) fn word_at<S: WalkStore>(
    kernel: &mut Kernel<S>,
    thread: u32,
    root: Option<u32>,
    address: u32,
    access: Access,
) -> Result<u32, MemoryFault>
    requires root { root ≡ vspace_of (state_in S.slots S.memory kernel.old) thread }
    ensures value { result ≡ loaded (content_of (state_in S.slots S.memory kernel.old) thread) access Word address }
    ensures unchanged { kernel.new ≡ kernel.old }
{
    match kept_word(kernel, thread, root, address, access) {
        Some(word) => Ok(word),
        None => walked_word(kernel, thread, root, address, access),
    }
}

/// The word at an address for an access that the thread may make, where the leaf of its page is kept.
#[inline]
fn kept_word<S: WalkStore>(
    kernel: &Kernel<S>,
    thread: u32,
    root: Option<u32>,
    address: u32,
    access: Access,
) -> Option<u32>
    requires root { root ≡ vspace_of (state_in S.slots S.memory kernel.now) thread }
    ensures { (word : ℕ) → result ≡ Some word
        → Ok word ≡ loaded (content_of (state_in S.slots S.memory kernel.now) thread) access Word address }
{
    if address % 4 != 0 {
        return None;
    }
    let Some(table) = root else {
        return None;
    };
    let live = &kernel.live;
    match live.store.kept_place(table, address, access) {
        Some(place) => Some(live.store.mem().read32(place)),
        None => None,
    }
}

/// The word at an address for an access that the thread may make, by walks. The leaf of its page is kept.
#[cold]
#[inline(never)]
fn walked_word<S: WalkStore>(
    kernel: &mut Kernel<S>,
    thread: u32,
    root: Option<u32>,
    address: u32,
    access: Access,
) -> Result<u32, MemoryFault>
    requires root { root ≡ vspace_of (state_in S.slots S.memory kernel.old) thread }
    ensures value { result ≡ loaded (content_of (state_in S.slots S.memory kernel.old) thread) access Word address }
    ensures unchanged { kernel.new ≡ kernel.old }
{
    let live = &mut kernel.live;
    keep_page(&mut live.store, root, address, access, None);
    let space = Space { kernel, root };
    space.word(address, access)
}

/// The number at an address, for an instruction of a thread that loads it, by the pages that are kept.
///
/// # Errors
///
/// The fault at the first byte of it that the thread may not read.
#[inline]
fn load_paged<S: WalkStore>(
    kernel: &mut Kernel<S>,
    thread: u32,
    pages: &mut Pages,
    address: u32,
    size: AccessSize,
) -> Result<u32, MemoryFault>
    requires { AreOwn (state_in S.slots S.memory kernel.old) thread pages.old }
    ensures value { result ≡ loaded (content_of (state_in S.slots S.memory kernel.old) thread) Load size address }
    ensures range { IfOk result (FitsSize size) }
    ensures unchanged { kernel.new ≡ kernel.old }
    ensures pages { AreOwn (state_in S.slots S.memory kernel.old) thread pages.new }
{
    if let Some(place) = find(kernel, thread, pages, address, Access::Load) {
        if let Some(number) = number_at(kernel, thread, address, Access::Load, size, place) {
            return Ok(number);
        }
    }
    load(kernel, thread, pages.root, address, size)
}

/// Stores the low bytes of a number at an address, for an instruction of a thread, by the pages that are kept.
///
/// # Errors
///
/// The fault at the first byte of it that the thread may not write. Nothing changes then.
#[inline]
fn store_paged<S: WalkStore>(
    kernel: &mut Kernel<S>,
    thread: u32,
    pages: &mut Pages,
    address: u32,
    size: AccessSize,
    value: u32,
) -> Result<(), MemoryFault>
    requires { AreOwn (state_in S.slots S.memory kernel.old) thread pages.old }
    ensures content { let s = state_in S.slots S.memory kernel.old in
        let now = content_under (state_in S.slots S.memory kernel.new) (vspace_of s thread) in
        MatchResult
        result
        (λ _. stored (content_of s thread) size address value ≡ Ok now)
        (λ fault. (stored (content_of s thread) size address value ≡ Err fault) × (now ≡ content_of s thread)) }
    ensures state { let s = state_in S.slots S.memory kernel.old in
        state_in S.slots S.memory kernel.new ≡ with_content s (content_under (state_in S.slots S.memory kernel.new) (vspace_of s thread)) }
    ensures pages { AreOwn (state_in S.slots S.memory kernel.new) thread pages.new }
{
    let place = find(kernel, thread, pages, address, Access::Store);
    store(kernel, thread, pages.root, address, size, value, place)
}

/// Runs an instruction over the memory of a thread, by the pages that are kept. What reaches no memory runs over a byte of its own.
#[inline]
pub(crate) fn run<S: WalkStore>(
    kernel: &mut Kernel<S>,
    thread: u32,
    pages: &mut Pages,
    registers: &mut Regs,
    known: ValidInstr,
) -> Exec
    requires { AreOwn (state_in S.slots S.memory kernel.old) thread pages.old }
    ensures outcome { result ≡ (effect registers.old (content_of (state_in S.slots S.memory kernel.old) thread) known.instruction).exec }
    ensures registers { registers.new ≡ (effect registers.old (content_of (state_in S.slots S.memory kernel.old) thread) known.instruction).registers }
    ensures state { state_in S.slots S.memory kernel.new
        ≡ with_content (state_in S.slots S.memory kernel.old)
        (effect registers.old (content_of (state_in S.slots S.memory kernel.old) thread) known.instruction).content }
    ensures pages { AreOwn (state_in S.slots S.memory kernel.new) thread pages.new }
{
    match known.instruction {
        Instr::Load {
            op,
            rd,
            rs1,
            offset,
        } => {
            let address = plus(registers.read(rs1), offset);
            match load_paged(kernel, thread, pages, address, load_size(op)) {
                Ok(number) => write_register(registers, rd, load_result(op, number)),
                Err(fault) => Exec::Memory(fault.address, fault.access),
            }
        }
        Instr::Store {
            op,
            rs1,
            rs2,
            offset,
        } => {
            let address = plus(registers.read(rs1), offset);
            let value = registers.read(rs2);
            match store_paged(kernel, thread, pages, address, store_size(op), value) {
                Ok(()) => advance(registers),
                Err(fault) => Exec::Memory(fault.address, fault.access),
            }
        }
        _ => exec(registers, known.instruction, &mut OneByte::new()),
    }
}

/// Runs an instruction of a thread: its registers change, and the bytes of its frames. Where the answer is
/// not `Next`, nothing does. Asks for the thread's root table.
pub fn execute<S: WalkStore>(
    kernel: &mut Kernel<S>,
    thread: u32,
    root: Option<u32>,
    instruction: Instr,
) -> Exec
    requires instruction { IsInstr instruction }
    requires root { root ≡ vspace_of (state_in S.slots S.memory kernel.old) thread }
    requires there { kind_at (state_in S.slots S.memory kernel.old) thread ≡ Some NewThread }
    ensures outcome { result ≡ (effect (registers_of (state_in S.slots S.memory kernel.old) thread)
        (content_of (state_in S.slots S.memory kernel.old) thread) instruction).exec }
    ensures state { let s = state_in S.slots S.memory kernel.old in
        let after = effect (registers_of s thread) (content_of s thread) instruction in
        state_in S.slots S.memory kernel.new ≡ with_content (with_registers s thread after.registers) after.content }
    ensures unchanged { result ≢ Exec.Next → state_in S.slots S.memory kernel.new ≡ state_in S.slots S.memory kernel.old }
{
    match instruction {
        Instr::Load {
            op,
            rd,
            rs1,
            offset,
        } => {
            let address = plus(kernel.live.register(thread, rs1), offset);
            match load(kernel, thread, root, address, load_size(op)) {
                Ok(number) => {
                    let mut registers = ThreadRegisters { kernel, thread };
                    write_register(&mut registers, rd, load_result(op, number))
                }
                Err(fault) => Exec::Memory(fault.address, fault.access),
            }
        }
        Instr::Store {
            op,
            rs1,
            rs2,
            offset,
        } => {
            let address = plus(kernel.live.register(thread, rs1), offset);
            let value = kernel.live.register(thread, rs2);
            match store(kernel, thread, root, address, store_size(op), value, None) {
                Ok(()) => {
                    let mut registers = ThreadRegisters { kernel, thread };
                    advance(&mut registers)
                }
                Err(fault) => Exec::Memory(fault.address, fault.access),
            }
        }
        _ => {
            let mut registers = ThreadRegisters { kernel, thread };
            exec(&mut registers, instruction, &mut OneByte::new())
        }
    }
}

/// The number at an address, for an instruction of a thread that loads it. The leaf of its page is kept, which changes
/// nothing else.
///
/// # Errors
///
/// The fault at the first byte of it that the thread may not read.
fn load<S: WalkStore>(
    kernel: &mut Kernel<S>,
    thread: u32,
    root: Option<u32>,
    address: u32,
    size: AccessSize,
) -> Result<u32, MemoryFault>
    requires root { root ≡ vspace_of (state_in S.slots S.memory kernel.old) thread }
    ensures value { result ≡ loaded (content_of (state_in S.slots S.memory kernel.old) thread) Load size address }
    ensures range { IfOk result (FitsSize size) }
    ensures unchanged { kernel.new ≡ kernel.old }
{
    match size {
        AccessSize::Word => word_at(kernel, thread, root, address, Access::Load),
        _ => {
            let live = &mut kernel.live;
            keep_page(&mut live.store, root, address, Access::Load, None);
            let memory = UserMemory { kernel, root };
            memory.load(address, size)
        }
    }
}

/// Stores the low bytes of a number at an address, for an instruction of a thread, by the place of the first one, where that
/// is known.
///
/// # Errors
///
/// The fault at the first byte of it that the thread may not write. Nothing changes then.
#[inline]
fn store<S: WalkStore>(
    kernel: &mut Kernel<S>,
    thread: u32,
    root: Option<u32>,
    address: u32,
    size: AccessSize,
    value: u32,
    place: Option<u32>,
) -> Result<(), MemoryFault>
    requires { IsOwnPlace (state_in S.slots S.memory kernel.old) thread root Store address place }
    ensures content { MatchResult
        result
        (λ _. stored (content_under (state_in S.slots S.memory kernel.old) root) size address value
        ≡ Ok (content_under (state_in S.slots S.memory kernel.new) root))
        (λ fault. (stored (content_under (state_in S.slots S.memory kernel.old) root) size address value ≡ Err fault)
        × (content_under (state_in S.slots S.memory kernel.new) root ≡ content_under (state_in S.slots S.memory kernel.old) root)) }
    ensures state { state_in S.slots S.memory kernel.new
        ≡ with_content (state_in S.slots S.memory kernel.old) (content_under (state_in S.slots S.memory kernel.new) root) }
{
    let live = &mut kernel.live;
    keep_page(&mut live.store, root, address, Access::Store, place);
    let mut memory = UserMemory { kernel, root };
    match place {
        Some(_) => memory.store_found(address, size, value, place),
        None => memory.store(address, size, value),
    }
}
