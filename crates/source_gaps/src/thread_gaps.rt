//! Refusals of threads as the image starts them.

use crate::item_gaps::{Items, is_cnode};
use image_reading::ThreadRef;
use model::Refusal;
use source_texts::{CapabilityLine, Source, SourceThread};
use std::alloc::AllocError;
use thread_spaces::reached_of;
use wellformed::{NumberSet, is_frame, is_root_table, is_thread};

/// The least address that no program may reach.
const LIMIT: u64 = 0x8000_0000;

/// The first number of a set that another set has, too.
fn first_in_both(own: &NumberSet, others: &NumberSet) -> Option<u32> {
    for place in 0..own.len() {
        let number = own.at(place);
        if others.contains(number) {
            return Some(number);
        }
    }
    None
}

/// Reports that a thread's guard word is not valid for a CNode.
fn report_thread_guard(to: &mut String, guard: u32, radix: u32) -> Result<(), AllocError> {
    write!(
        to,
        "has the guard word {guard:#x}, which is not valid for a CNode of 2^{radix} slots: its low 5 bits are the guard's size, at most 32 - {radix}, and the \
         guard above them fits into it\n"
    )
}

impl Items<'_, '_, '_, '_, '_, '_> {
    /// The CNodes that a thread of the image reaches.
    fn reached(&self, thread: &ThreadRef<'_>) -> Result<NumberSet, AllocError> {
        match reached_of(self.alloc, self.image, thread) {
            Ok(found) => Ok(found),
            Err(Refusal::OutOfMemory) => Err(AllocError),
            Err(_) => Ok(NumberSet::new(self.alloc)),
        }
    }

    /// Puts the head of what is reported of a thread.
    fn push_thread(&self, to: &mut String, thread: &SourceThread<'_>) -> Result<(), AllocError> {
        self.push_line(to, thread.line)?;
        let name = self.source.object_name(thread.tcb);
        write!(to, "thread {name} ")
    }

    /// Reports which CNode a thread shares with an earlier one.
    pub(crate) fn report_shared_cnode(&self, to: &mut String, item: u32) -> Result<(), AllocError> {
        let Some(thread) = self.source.threads.get(item as usize) else {
            return Ok(());
        };
        self.push_thread(to, thread)?;
        if item >= self.image.header().threads {
            return to.push_str("\n");
        }
        let own = self.reached(&self.image.thread(item))?;
        for number in 0..item {
            if let Some(cnode) = self.shared_cnode(&own, &self.image.thread(number))? {
                return self.push_shared_cnode(to, cnode, number);
            }
        }
        to.push_str("reaches a CNode that another one reaches\n")
    }

    /// One of these CNodes that another thread reaches, too.
    fn shared_cnode(
        &self,
        own: &NumberSet,
        thread: &ThreadRef<'_>,
    ) -> Result<Option<u32>, AllocError> {
        let others = self.reached(thread)?;
        Ok(first_in_both(own, &others))
    }

    /// Puts which CNode a thread shares, and with which one.
    fn push_shared_cnode(
        &self,
        to: &mut String,
        cnode: u32,
        thread: u32,
    ) -> Result<(), AllocError> {
        let name = self.source.object_name(cnode as usize);
        let other = self.thread_name(thread);
        write!(
            to,
            "reaches the CNode `{name}`, as thread {other} does: each thread has CNodes of its own\n"
        )
    }

    /// The name of a thread.
    fn thread_name(&self, number: u32) -> &str {
        match self.source.threads.get(number as usize) {
            Some(thread) => self.source.object_name(thread.tcb),
            None => "?",
        }
    }

    /// Whether an object is a root table, and another one than this.
    fn is_other_root(&self, number: usize, root: usize) -> bool {
        is_root_table(self.source.kind(number)) && number != root
    }

    /// The earliest thread before one that has the same root table, by its TCB.
    fn sharing_root(&self, item: usize, root: usize) -> Option<usize> {
        for (number, other) in self.source.threads.iter().enumerate() {
            if number < item && other.root == root {
                return Some(other.tcb);
            }
        }
        None
    }

    /// Reports which root table a thread shares, or holds beside its own.
    pub(crate) fn report_shared_root(&self, to: &mut String, item: u32) -> Result<(), AllocError> {
        let Some(thread) = self.source.threads.get(item as usize) else {
            return Ok(());
        };
        self.push_thread(to, thread)?;
        match self.sharing_root(item as usize, thread.root) {
            Some(tcb) => self.push_shared_root(to, thread.root, tcb),
            None => self.report_held_root(to, item, thread.root),
        }
    }

    /// Puts that a thread has the root table that another one has.
    fn push_shared_root(&self, to: &mut String, root: usize, tcb: usize) -> Result<(), AllocError> {
        let root = self.source.object_name(root);
        let name = self.source.object_name(tcb);
        write!(
            to,
            "has the root table `{root}`, as thread {name} has: each thread has one of its own\n"
        )
    }

    /// Reports which root table a thread holds beside its own.
    fn report_held_root(&self, to: &mut String, item: u32, root: usize) -> Result<(), AllocError> {
        if item >= self.image.header().threads {
            return to.push_str("\n");
        }
        let own = self.reached(&self.image.thread(item))?;
        for capability in &self.source.capabilities {
            if let Some(number) = self.held_root(&own, capability, root) {
                return self.push_held_root(to, number, capability.line, root);
            }
        }
        to.push_str("has the root table of another one\n")
    }

    /// The root table that a capability in one of these CNodes names, if it is another one than this.
    fn held_root(
        &self,
        own: &NumberSet,
        capability: &CapabilityLine,
        root: usize,
    ) -> Option<usize> {
        let cnode = u32::try_from(capability.cnode).unwrap_or(u32::MAX);
        match capability.source {
            Source::Object(number) if self.is_other_root(number, root) && own.contains(cnode) => {
                Some(number)
            }
            _ => None,
        }
    }

    /// Puts which root table a thread holds beside its own, and on which line.
    fn push_held_root(
        &self,
        to: &mut String,
        number: usize,
        line: u64,
        own: usize,
    ) -> Result<(), AllocError> {
        let name = self.source.object_name(number);
        let root = self.source.object_name(own);
        write!(
            to,
            "holds the root table `{name}` (line {line}), which is not its own, `{root}`\n"
        )
    }

    /// The object that a thread names where one of another kind is wanted, and what is wanted.
    fn wrong_object(&self, thread: &SourceThread<'_>) -> Option<(usize, &'static str)> {
        if !is_thread(self.source.kind(thread.tcb)) {
            Some((thread.tcb, "a TCB (`tcb`)"))
        } else if !is_cnode(self.source.kind(thread.cnode)) {
            Some((thread.cnode, "a CNode"))
        } else if !is_root_table(self.source.kind(thread.root)) {
            Some((thread.root, "a root table (`root`)"))
        } else {
            None
        }
    }

    /// The line of the thread before one that has the same message buffer.
    fn sharing_buffer(&self, item: usize, frame: usize) -> Option<u64> {
        for (number, other) in self.source.threads.iter().enumerate() {
            if let Some(buffer) = other.buffer {
                if number < item && buffer.frame == frame {
                    return Some(buffer.line);
                }
            }
        }
        None
    }

    /// The line of the first mapping of a frame with execute.
    fn executed_on(&self, frame: usize) -> Option<u64> {
        for page in &self.source.frames {
            if page.frame == frame && page.rights & 4 != 0 {
                return Some(page.line);
            }
        }
        None
    }

    /// Reports why a frame is no message buffer.
    fn report_unfit_frame(
        &self,
        to: &mut String,
        item: usize,
        frame: usize,
    ) -> Result<(), AllocError> {
        let name = self.source.object_name(frame);
        write!(to, "has the buffer `{name}`, ")?;
        if !is_frame(self.source.kind(frame)) {
            to.push_str("which is not a frame (`frame`)\n")
        } else if let Some(line) = self.sharing_buffer(item, frame) {
            write!(to, "which is a buffer on line {line}, too\n")
        } else if let Some(line) = self.naming(frame) {
            write!(to, "to which line {line} gives a capability\n")
        } else if let Some(line) = self.executed_on(frame) {
            write!(to, "which line {line} maps with execute (4)\n")
        } else {
            to.push_str("which is not one\n")
        }
    }

    /// Reports what does not fit of a thread's message buffer.
    pub(crate) fn report_buffer(&self, to: &mut String, item: u32) -> Result<(), AllocError> {
        let Some(thread) = self.source.threads.get(item as usize) else {
            return Ok(());
        };
        let Some(buffer) = thread.buffer else {
            return Ok(());
        };
        self.push_line(to, buffer.line)?;
        let name = self.source.object_name(thread.tcb);
        write!(to, "thread {name} ")?;
        self.report_unfit_frame(to, item as usize, buffer.frame)
    }

    /// The line of the earliest thread before one that has the same TCB.
    fn sharing_tcb(&self, item: usize, tcb: usize) -> Option<u64> {
        for (number, other) in self.source.threads.iter().enumerate() {
            if number < item && other.tcb == tcb {
                return Some(other.line);
            }
        }
        None
    }

    /// Reports what does not fit of a thread.
    pub(crate) fn report_thread(&self, to: &mut String, item: u32) -> Result<(), AllocError> {
        let Some(thread) = self.source.threads.get(item as usize) else {
            return Ok(());
        };
        self.push_thread(to, thread)?;
        if let Some((number, what)) = self.wrong_object(thread) {
            let name = self.source.object_name(number);
            return write!(to, "names `{name}`, which is not {what}\n");
        }
        if let Some(line) = self.sharing_tcb(item as usize, thread.tcb) {
            return write!(to, "has the TCB of the thread on line {line}\n");
        }
        self.report_start_of(to, thread)
    }

    /// Reports what does not fit of a thread whose objects do.
    fn report_start_of(
        &self,
        to: &mut String,
        thread: &SourceThread<'_>,
    ) -> Result<(), AllocError> {
        let radix = self.source.radix(thread.cnode);
        if capwords::is_guard_word(radix, thread.guard) {
            self.report_place(to, thread)
        } else {
            report_thread_guard(to, thread.guard, u32::from(radix))
        }
    }

    /// Whether a page is mapped under a root table with the right to execute.
    fn is_executed(&self, root: usize, address: u64) -> bool {
        for page in &self.source.frames {
            if page.root == root && u64::from(page.address) == address && page.rights & 4 != 0 {
                return true;
            }
        }
        false
    }

    /// The first page of a thread's program that is not mapped to execute.
    fn unmapped_page(&self, thread: &SourceThread<'_>, end: u64) -> Option<u64> {
        let base = u64::from(thread.base);
        let pages = end.saturating_sub(base).saturating_add(4095) / 4096;
        for place in 0..pages {
            let address = base.saturating_add(place.saturating_mul(4096));
            if !self.is_executed(thread.root, address) {
                return Some(address);
            }
        }
        None
    }

    /// Reports what does not fit of a thread's program and its entry.
    fn report_place(&self, to: &mut String, thread: &SourceThread<'_>) -> Result<(), AllocError> {
        let base = thread.base;
        let count = thread.points.len() as u64;
        let end = u64::from(base).saturating_add(count.saturating_mul(4));
        if base % 4096 != 0 {
            return write!(
                to,
                "begins its program at {base:#x}, which is no multiple of 4096\n"
            );
        }
        if end > LIMIT {
            return write!(
                to,
                "has a program that ends at {end:#x}, beyond 0x80000000\n"
            );
        }
        self.report_pages(to, thread, end)
    }

    /// Reports which page of a thread's program is not mapped, or where the thread starts after its program.
    fn report_pages(
        &self,
        to: &mut String,
        thread: &SourceThread<'_>,
        end: u64,
    ) -> Result<(), AllocError> {
        if let Some(page) = self.unmapped_page(thread, end) {
            return self.push_unmapped(to, thread, page);
        }
        let entry = thread.entry;
        write!(to, "starts at `{entry}`, after its last instruction\n")
    }

    /// Puts which page of a thread's program is not mapped.
    fn push_unmapped(
        &self,
        to: &mut String,
        thread: &SourceThread<'_>,
        page: u64,
    ) -> Result<(), AllocError> {
        let (count, base) = (thread.points.len(), thread.base);
        let root = self.source.object_name(thread.root);
        write!(
            to,
            "has {count} instructions from {base:#x} on, and the page {page:#x} is not mapped under `{root}` with execute (4)\n"
        )
    }
}
