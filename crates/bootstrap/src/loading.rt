//! The kernel calls that load an image, section by section.

ghost use Rattle.std.specs.Prelude.{ℕ, ◌≡◌, ◌≢◌, ◌+◌, ◌-◌, ◌≤◌, ◌<◌, ◌^◌, ◌∷◌, ◌++◌, [], map, flat_map, length};
ghost use Rattle.std.specs.List.{range_with_len};
ghost use Rattle.bootstrap.specs.Limits.{CapabilityFits, FrameFits, InterruptFits, TableFits, ThreadFits};
ghost use Rattle.bootstrap.specs.Loading.{buffer_calls, called, progress_of, register_call, space_calls, start_calls};
ghost use Rattle.invoke.specs.Methods.{label_of};
ghost use Rattle.model.specs.Kernel.Outcomes.{GivesState};
ghost use Rattle.model.specs.Images.BootCalls.{capability_call, frame_calls, interrupt_call, loader_call, object_call, signal_calls, table_call, thread_calls};
ghost use Rattle.model.specs.Images.Described.{numbered};
ghost use Rattle.model.specs.Images.Image.{no_buffer};
ghost use Rattle.model.specs.Kernel.CallForms.{resume_label};

use crate::boot_images::BootImage;
use crate::boot_slots::{
    control_slot, frame_copy_slot, handler_slot, notification_copy_slot, original_slot,
    source_boot_slot,
};
use crate::entry_addresses::start_of;
use image_reading::ThreadRef;
use invoke::Method;
use kernel_machine::Machine;
use model::{BootFault, CapabilityEntry, FrameEntry, InterruptEntry, TableEntry, ThreadHeader};
use wellformed::{is_untyped, source_type};

/// The address of the boot CNode itself.
const BOOT_CNODE: u32 = 0xFFFF_FFFF;

/// A boot slot is its number, and all bits of an address.
const DEPTH: u32 = 32;

/// Write and read.
const ALL_FRAME_RIGHTS: u32 = 3;

/// Write, read and grant-reply.
const ALL_ENDPOINT_RIGHTS: u32 = 11;

/// What SetRegister calls the program counter.
const PC: u32 = 0;

/// The number of the frame of a thread without a message buffer.
const NO_BUFFER: u32 = u32::MAX;

/// A machine that is being set up, and how many calls were made for it.
#[derive(Drop)]
pub(crate) struct Loader {
    pub(crate) machine: Machine,
    pub(crate) calls: u32,
}

impl Loader {
    /// Makes a call. A refusal is reported by its number.
    pub(crate) fn call(&mut self, cap: u32, method: Method, words: &[u32]) -> Result<(), BootFault>
        requires { self.old.calls ≤ 2 ^ 30 }
        ensures outcome { GivesState (called (progress_of self.old) (loader_call cap (label_of method) words.now ∷ [])) result (progress_of self.new) }
        ensures counted { self.new.calls ≤ self.old.calls + 1 }
    {
        match self.machine.call(cap, method.label(), words) {
            Ok(()) => {
                self.calls += 1;
                Ok(())
            }
            Err(error) => Err(BootFault::Kernel(self.calls, error)),
        }
    }

    /// Makes the objects, each in its untyped, after the ones before it.
    pub(crate) fn make_objects(&mut self, image: &BootImage<'_, '_>) -> Result<(), BootFault>
        requires room { self.old.calls ≤ 2 ^ 29 }
        ensures outcome { GivesState (called (progress_of self.old) (map (object_call image.now.read.now) (range_with_len 0 image.now.read.now.header.objects)))
            result (progress_of self.new) }
        ensures counted { self.new.calls ≤ self.old.calls + 4096 }
    {
        for number in 0..image.read.header().objects {
            self.make_object(image, number)?;
        }
        Ok(())
    }

    /// Makes one object.
    fn make_object(&mut self, image: &BootImage<'_, '_>, number: u32) -> Result<(), BootFault>
        requires number { number < image.now.read.now.header.objects }
        requires room { self.old.calls ≤ 2 ^ 30 }
        ensures outcome { GivesState (called (progress_of self.old) (object_call image.now.read.now number ∷ [])) result (progress_of self.new) }
        ensures counted { self.new.calls ≤ self.old.calls + 1 }
    {
        let object = image.read.object(number);
        let slot = original_slot(image, number);
        let words = [object.kind, object.size, 0, 0, slot, 1];
        self.call(object.untyped, Method::Retype, &words)
    }

    /// Takes the handler of each interrupt's line.
    pub(crate) fn take_handlers(&mut self, image: &BootImage<'_, '_>) -> Result<(), BootFault>
        requires room { self.old.calls ≤ 2 ^ 29 }
        ensures outcome { GivesState (called (progress_of self.old) (map (interrupt_call image.now.read.now) (numbered image.now.read.now.interrupts))) result
            (progress_of self.new) }
        ensures counted { self.new.calls ≤ self.old.calls + 64 }
    {
        for number in 0..image.read.header().interrupts {
            let entry = image.read.interrupt(number);
            self.take_handler(image, number, entry)?;
        }
        Ok(())
    }

    /// Takes the handler of one line.
    fn take_handler(
        &mut self,
        image: &BootImage<'_, '_>,
        number: u32,
        entry: InterruptEntry,
    ) -> Result<(), BootFault>
        requires number { number < image.now.read.now.header.interrupts }
        requires room { self.old.calls ≤ 2 ^ 30 }
        ensures outcome { GivesState (called (progress_of self.old) (interrupt_call image.now.read.now (number, entry) ∷ [])) result (progress_of self.new) }
        ensures counted { self.new.calls ≤ self.old.calls + 1 }
    {
        let words = [entry.line, handler_slot(image, number), DEPTH];
        self.call(control_slot(image), Method::GetHandler, &words)
    }

    /// Puts the listed capabilities into their slots.
    pub(crate) fn put_capabilities(&mut self, image: &BootImage<'_, '_>) -> Result<(), BootFault>
        requires room { self.old.calls ≤ 2 ^ 29 }
        ensures outcome { GivesState (called (progress_of self.old) (map (capability_call image.now.read.now) image.now.read.now.capabilities)) result
            (progress_of self.new) }
        ensures counted { self.new.calls ≤ self.old.calls + 16384 }
    {
        for number in 0..image.read.header().capabilities {
            let entry = image.read.capability(number);
            self.put_capability(image, entry)?;
        }
        Ok(())
    }

    /// Puts one capability into its slot: a copy with the listed rights and badge or guard word, or untyped memory itself.
    fn put_capability(
        &mut self,
        image: &BootImage<'_, '_>,
        entry: CapabilityEntry,
    ) -> Result<(), BootFault>
        requires fits { CapabilityFits image.now.read.now.header entry }
        requires room { self.old.calls ≤ 2 ^ 30 }
        ensures outcome { GivesState (called (progress_of self.old) (capability_call image.now.read.now entry ∷ [])) result (progress_of self.new) }
        ensures counted { self.new.calls ≤ self.old.calls + 1 }
    {
        let cnode = image.read.object(entry.cnode);
        let slot = original_slot(image, entry.cnode);
        let source = source_boot_slot(image, entry.source);
        if is_untyped(source_type(image.read, entry.source)) {
            let words = [entry.index, cnode.size, source, DEPTH];
            self.call(slot, Method::Move, &words)
        } else {
            let words = [
                entry.index,
                cnode.size,
                source,
                DEPTH,
                entry.rights,
                entry.payload,
            ];
            self.call(slot, Method::Mint, &words)
        }
    }

    /// Maps the page tables.
    pub(crate) fn map_tables(&mut self, image: &BootImage<'_, '_>) -> Result<(), BootFault>
        requires room { self.old.calls ≤ 2 ^ 29 }
        ensures outcome { GivesState (called (progress_of self.old) (map (table_call image.now.read.now) image.now.read.now.tables)) result
            (progress_of self.new) }
        ensures counted { self.new.calls ≤ self.old.calls + 1024 }
    {
        for number in 0..image.read.header().tables {
            let entry = image.read.table(number);
            self.map_table(image, entry)?;
        }
        Ok(())
    }

    /// Maps one page table.
    fn map_table(&mut self, image: &BootImage<'_, '_>, entry: TableEntry) -> Result<(), BootFault>
        requires fits { TableFits image.now.read.now.header entry }
        requires room { self.old.calls ≤ 2 ^ 30 }
        ensures outcome { GivesState (called (progress_of self.old) (table_call image.now.read.now entry ∷ [])) result (progress_of self.new) }
        ensures counted { self.new.calls ≤ self.old.calls + 1 }
    {
        let words = [original_slot(image, entry.root), DEPTH, entry.address];
        self.call(original_slot(image, entry.table), Method::MapTable, &words)
    }

    /// Maps the frames, each by a copy of its capability.
    pub(crate) fn map_frames(&mut self, image: &BootImage<'_, '_>) -> Result<(), BootFault>
        requires room { self.old.calls ≤ 2 ^ 29 }
        ensures outcome { GivesState (called (progress_of self.old) (flat_map (frame_calls image.now.read.now) (numbered image.now.read.now.frames))) result
            (progress_of self.new) }
        ensures counted { self.new.calls ≤ self.old.calls + 8192 }
    {
        for number in 0..image.read.header().frames {
            let entry = image.read.frame(number);
            self.map_frame(image, number, entry)?;
        }
        Ok(())
    }

    /// Copies the capability of one frame, and maps it by the copy.
    fn map_frame(
        &mut self,
        image: &BootImage<'_, '_>,
        number: u32,
        entry: FrameEntry,
    ) -> Result<(), BootFault>
        requires fits { FrameFits image.now.read.now.header entry }
        requires number { number < image.now.read.now.header.frames }
        requires room { self.old.calls ≤ 2 ^ 30 - 1 }
        ensures outcome { GivesState (called (progress_of self.old) (frame_calls image.now.read.now (number, entry))) result (progress_of self.new) }
        ensures counted { self.new.calls ≤ self.old.calls + 2 }
    {
        let copy = frame_copy_slot(image, number);
        let original = original_slot(image, entry.frame);
        self.call(
            BOOT_CNODE,
            Method::Copy,
            &[copy, DEPTH, original, DEPTH, ALL_FRAME_RIGHTS],
        )?;
        let root = original_slot(image, entry.root);
        self.call(
            copy,
            Method::MapFrame,
            &[root, DEPTH, entry.address, entry.rights],
        )
    }

    /// Binds each interrupt's line to its notification, by a copy with the badge.
    pub(crate) fn bind_interrupts(&mut self, image: &BootImage<'_, '_>) -> Result<(), BootFault>
        requires room { self.old.calls ≤ 2 ^ 29 }
        ensures outcome { GivesState (called (progress_of self.old) (flat_map (signal_calls image.now.read.now) (numbered image.now.read.now.interrupts)))
            result (progress_of self.new) }
        ensures counted { self.new.calls ≤ self.old.calls + 128 }
    {
        for number in 0..image.read.header().interrupts {
            let entry = image.read.interrupt(number);
            self.bind_interrupt(image, number, entry)?;
        }
        Ok(())
    }

    /// Makes the copy that an interrupt signals by, and binds the line to it.
    fn bind_interrupt(
        &mut self,
        image: &BootImage<'_, '_>,
        number: u32,
        entry: InterruptEntry,
    ) -> Result<(), BootFault>
        requires fits { InterruptFits image.now.read.now.header entry }
        requires number { number < image.now.read.now.header.interrupts }
        requires room { self.old.calls ≤ 2 ^ 30 - 1 }
        ensures outcome { GivesState (called (progress_of self.old) (signal_calls image.now.read.now (number, entry))) result (progress_of self.new) }
        ensures counted { self.new.calls ≤ self.old.calls + 2 }
    {
        let copy = notification_copy_slot(image, number);
        let notification = original_slot(image, entry.notification);
        let words = [
            copy,
            DEPTH,
            notification,
            DEPTH,
            ALL_ENDPOINT_RIGHTS,
            entry.badge,
        ];
        self.call(BOOT_CNODE, Method::Mint, &words)?;
        self.call(
            handler_slot(image, number),
            Method::SetNotification,
            &[copy, DEPTH],
        )
    }

    /// Sets the threads up and lets them run, in the image's order.
    pub(crate) fn start_threads(&mut self, image: &BootImage<'_, '_>) -> Result<(), BootFault>
        requires room { self.old.calls ≤ 2 ^ 29 }
        ensures outcome { GivesState (called (progress_of self.old) (flat_map (thread_calls image.now.read.now) image.now.read.now.threads)) result
            (progress_of self.new) }
        ensures counted { self.new.calls ≤ self.old.calls + 2304 }
    {
        for thread in image.read.threads() {
            self.start_thread(image, &thread)?;
        }
        Ok(())
    }

    /// Gives a thread its spaces, its message buffer, its priority and its registers, and lets it run.
    fn start_thread(
        &mut self,
        image: &BootImage<'_, '_>,
        thread: &ThreadRef<'_>,
    ) -> Result<(), BootFault>
        requires fits { ThreadFits image.now.read.now.header thread.now }
        requires room { self.old.calls ≤ 2 ^ 30 - 40 }
        ensures outcome { GivesState (called (progress_of self.old) (thread_calls image.now.read.now thread.now)) result (progress_of self.new) }
        ensures counted { self.new.calls ≤ self.old.calls + 36 }
    {
        let header = thread.header();
        let tcb = original_slot(image, header.tcb);
        let cspace = original_slot(image, header.cnode);
        let vspace = original_slot(image, header.root);
        self.configure(image, tcb, cspace, vspace, &header)?;
        self.set_start(tcb, &header)?;
        self.resume(tcb, thread)
    }

    /// Gives a thread its message buffer, if the image has one for it.
    fn set_buffer(
        &mut self,
        image: &BootImage<'_, '_>,
        tcb: u32,
        buffer: u32,
    ) -> Result<(), BootFault>
        requires number { buffer ≢ no_buffer → buffer < image.now.read.now.header.objects }
        requires room { self.old.calls ≤ 2 ^ 30 }
        ensures outcome { GivesState (called (progress_of self.old) (buffer_calls image.now.read.now tcb buffer)) result (progress_of self.new) }
        ensures counted { self.new.calls ≤ self.old.calls + 1 }
    {
        if buffer == NO_BUFFER {
            return Ok(());
        }
        let frame = original_slot(image, buffer);
        self.call(tcb, Method::SetBuffer, &[frame, DEPTH])
    }

    /// Gives a thread its spaces and its message buffer.
    fn configure(
        &mut self,
        image: &BootImage<'_, '_>,
        tcb: u32,
        cspace: u32,
        vspace: u32,
        header: &ThreadHeader,
    ) -> Result<(), BootFault>
        requires buffer { header.now.buffer ≢ no_buffer → header.now.buffer < image.now.read.now.header.objects }
        requires room { self.old.calls ≤ 2 ^ 30 - 40 }
        ensures outcome { GivesState (called (progress_of self.old) (space_calls image.now.read.now tcb cspace vspace header.now)) result
            (progress_of self.new) }
        ensures counted { self.new.calls ≤ self.old.calls + 2 }
    {
        let words = [header.fault, cspace, DEPTH, vspace, DEPTH, header.guard];
        self.call(tcb, Method::Configure, &words)?;
        self.set_buffer(image, tcb, header.buffer)
    }

    /// Gives a thread its priority and its program counter.
    fn set_start(&mut self, tcb: u32, header: &ThreadHeader) -> Result<(), BootFault>
        requires room { self.old.calls ≤ 2 ^ 30 - 38 }
        ensures outcome { GivesState (called (progress_of self.old) (start_calls tcb header.now)) result (progress_of self.new) }
        ensures counted { self.new.calls ≤ self.old.calls + 2 }
    {
        self.call(tcb, Method::SetPriority, &[header.priority])?;
        self.call(tcb, Method::SetRegister, &[PC, start_of(header)])
    }

    /// Sets the registers that a thread lists, and lets it run.
    fn resume(&mut self, tcb: u32, thread: &ThreadRef<'_>) -> Result<(), BootFault>
        requires few { length thread.now.registers ≤ 31 }
        requires room { self.old.calls ≤ 2 ^ 30 - 36 }
        ensures outcome { GivesState (called (progress_of self.old) (map (register_call tcb) thread.now.registers ++ loader_call tcb resume_label [] ∷ []))
            result (progress_of self.new) }
        ensures counted { self.new.calls ≤ self.old.calls + 32 }
    {
        self.set_registers(tcb, thread)?;
        self.call(tcb, Method::Resume, &[])
    }

    /// Sets the registers that a thread lists.
    fn set_registers(&mut self, tcb: u32, thread: &ThreadRef<'_>) -> Result<(), BootFault>
        requires few { length thread.now.registers ≤ 31 }
        requires room { self.old.calls ≤ 2 ^ 30 - 36 }
        ensures outcome { GivesState (called (progress_of self.old) (map (register_call tcb) thread.now.registers)) result (progress_of self.new) }
        ensures counted { self.new.calls ≤ self.old.calls + 31 }
    {
        for entry in thread.registers() {
            self.call(tcb, Method::SetRegister, &[entry.register, entry.value])?;
        }
        Ok(())
    }
}
