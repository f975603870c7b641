//! What a text says of the lines of a trace: its threads by the addresses of their TCBs, its device pages and its interrupt lines.

use crate::addresses::addresses_of;
use crate::device_words::{DevicePage, DevicePages, DeviceWord};
use crate::interrupts::{Interrupts, NamedInterrupt};
use crate::labels::LabelledLines;
use crate::places::SourcePlace;
use indexmap::IndexMap;
use source_texts::{
    Budgets, SourceText, SourceThread, TextFault, read, source_place, without_programs, word_at,
};
use std::alloc::{AllocError, Global};

/// The greatest number of an interrupt line.
const GREATEST_INTERRUPT: u32 = 63;

/// A thread of a text.
#[derive(Drop)]
pub struct NamedThread<'t> {
    pub name: &'t str,
    /// Its budget, if that is not still to be found.
    pub budget: Option<u64>,
    line: u64,
    base: u32,
    /// The lines of its points, from 0.
    points: Vec<u64>,
}

/// What a text says of the lines of a trace. What is looked up takes as long as it takes to find a label by halves.
#[derive(Drop)]
pub struct TextNames<'t> {
    text: LabelledLines<'t>,
    /// The threads by the physical addresses of their TCBs.
    threads: IndexMap<u32, NamedThread<'t>>,
    /// The addresses of the TCBs by the names of the threads.
    tcbs: IndexMap<&'t str, u32>,
    devices: DevicePages<'t>,
    interrupts: Interrupts<'t>,
}

/// The point of an address, where the program begins at another one.
fn point_at(pc: u32, base: u32) -> Option<usize> {
    let offset = pc.checked_sub(base)?;
    if offset % 4 == 0 {
        Some((offset / 4) as usize)
    } else {
        None
    }
}

/// Whether a place in another file is one in a description, whose labels are the text's. Those of a text from C are made up.
fn is_described(origin: &str) -> bool {
    match origin.split_once(':') {
        Some((file, _)) => file.ends_with(".sys"),
        None => false,
    }
}

impl<'t> TextNames<'t> {
    /// What a text says, whose budgets may be `auto`, and whose programs may be named by lines `program FILE ..`.
    ///
    /// # Errors
    ///
    /// The first line that is none of the text form, or names what is not declared; or memory was refused.
    pub fn read(alloc: Global, text: &'t str) -> Result<Self, TextFault> {
        let mut names = TextNames {
            text: LabelledLines::of(alloc, text)?,
            threads: IndexMap::new(alloc),
            tcbs: IndexMap::new(alloc),
            devices: DevicePages::new(alloc),
            interrupts: Interrupts::of(alloc, &[])?,
        };
        let draft = without_programs(alloc, text)?;
        names.read_draft(alloc, &draft)?;
        Ok(names)
    }

    /// The threads, device pages and interrupt lines of a text, by the text as far as it can be read.
    fn read_draft(&mut self, alloc: Global, draft: &Budgets) -> Result<(), TextFault> {
        let source = read(alloc, &draft.text)?;
        let addresses = addresses_of(alloc, &source)?;
        self.add_threads(alloc, &source, &addresses, &draft.lines)?;
        self.add_devices(&source, &addresses)?;
        self.add_interrupts(alloc, &source)?;
        Ok(())
    }

    /// A word of a line of the text.
    fn word(&self, line: u64, place: usize) -> &'t str {
        word_at(self.text.line(line), place).unwrap_or("?")
    }

    /// The interrupt lines of a text: `irq NAME LINE NOTIFICATION BADGE`.
    fn add_interrupts(&mut self, alloc: Global, source: &SourceText<'_>) -> Result<(), AllocError> {
        let mut interrupts = Vec::new(alloc);
        for interrupt in &source.interrupts {
            if interrupt.number <= GREATEST_INTERRUPT {
                interrupts.push(NamedInterrupt {
                    name: self.word(interrupt.line, 1),
                    bell: self.word(interrupt.line, 3),
                    number: interrupt.number as u8,
                })?;
            }
        }
        self.interrupts = Interrupts::of(alloc, &interrupts)?;
        Ok(())
    }

    /// The device pages of a text, whose objects have these addresses.
    fn add_devices(
        &mut self,
        source: &SourceText<'_>,
        addresses: &[u32],
    ) -> Result<(), AllocError> {
        for (object, address) in source.objects.iter().zip(addresses) {
            if object.is_device {
                let name = self.word(object.line, 1);
                self.devices.add(*address, name)?;
            }
        }
        Ok(())
    }

    /// The threads of a text, whose objects have these addresses.
    fn add_threads(
        &mut self,
        alloc: Global,
        source: &SourceText<'_>,
        addresses: &[u32],
        automatic: &[u64],
    ) -> Result<(), AllocError> {
        for thread in &source.threads {
            if let Some(address) = addresses.get(thread.tcb) {
                let named = self.named(alloc, thread, automatic)?;
                self.tcbs.insert(named.name, *address)?;
                self.threads.insert(*address, named)?;
            }
        }
        Ok(())
    }

    /// A thread with its name.
    fn named(
        &self,
        alloc: Global,
        thread: &SourceThread<'_>,
        automatic: &[u64],
    ) -> Result<NamedThread<'t>, AllocError> {
        let is_automatic = automatic.contains(&thread.line);
        Ok(NamedThread {
            name: self.word(thread.line, 1),
            budget: if is_automatic {
                None
            } else {
                Some(thread.budget)
            },
            line: thread.line,
            base: thread.base,
            points: Vec::from_slice(alloc, &thread.points)?,
        })
    }

    /// The thread whose TCB is at a physical address.
    pub fn thread(&self, address: u32) -> Option<&NamedThread<'t>> {
        self.threads.get(&address)
    }

    /// The physical address of the TCB of the thread of this name.
    pub fn thread_address(&self, name: &str) -> Option<u32> {
        self.tcbs.get(name).copied()
    }

    /// The number of the interrupt line of this name: that of the interrupt, or of its notification where it alone signals that.
    pub fn interrupt(&self, name: &str) -> Option<u8> {
        self.interrupts.number(name)
    }

    /// The name by which an interrupt line is shown: its own, or in the text of a description that of the bell that it alone rings.
    pub fn interrupt_name(&self, number: u8) -> Option<&'t str> {
        self.interrupts.name(number)
    }

    /// Whether there is an interrupt line.
    pub fn has_interrupts(&self) -> bool {
        self.interrupts.are_any()
    }

    /// Puts the names by which the interrupt lines are shown.
    ///
    /// # Errors
    ///
    /// Memory is refused.
    pub fn push_interrupts(&self, to: &mut String) -> Result<(), AllocError> {
        self.interrupts.push_names(to)
    }

    /// The device page of this name.
    pub fn device_page(&self, name: &str) -> Option<DevicePage> {
        self.devices.page(name)
    }

    /// Whether there is a device page.
    pub fn has_device_pages(&self) -> bool {
        self.devices.are_any()
    }

    /// Puts the names of the device pages.
    ///
    /// # Errors
    ///
    /// Memory is refused.
    pub fn push_device_pages(&self, to: &mut String) -> Result<(), AllocError> {
        self.devices.push_names(to)
    }

    /// The word of a device page at a physical address.
    pub fn device_word(&self, address: u32) -> Option<DeviceWord<'t>> {
        self.devices.word(address)
    }

    /// Where the instruction of a thread at an address is.
    pub fn place(&self, thread: &NamedThread<'t>, pc: u32) -> Option<SourcePlace<'t>> {
        let point = point_at(pc, thread.base)?;
        let line = *thread.points.get(point)?;
        let origin = source_place(self.text.line(line));
        let label = match origin {
            Some(origin) if !is_described(origin) => None,
            _ => self.text.label(line, thread.line),
        };
        Some(SourcePlace {
            label,
            line,
            origin,
        })
    }
}
