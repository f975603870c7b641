//! Refusals of what a text declares before its threads.

use crate::lines::{Text, push_line};
use image_reading::ImageRef;
use model::{ObjectKind, ObjectType, Refusal};
use source_texts::{
    CapabilityLine, FrameLine, Source, SourceText, TableLine, UntypedLine, word_at,
};
use std::alloc::{AllocError, Global};
use wellformed::{
    UsedMemory, is_endpoint, is_frame, is_page_table, is_root_table, is_thread, is_untyped,
};

/// A text, the image that it makes, and what the text declares.
#[derive(Clone, Copy, Drop)]
pub(crate) struct Items<'f, 't, 'm, 'x, 'j, 'i> {
    pub(crate) alloc: Global,
    pub(crate) text: Text<'f, 't>,
    /// The name of the rule that is broken.
    pub(crate) rule: &'static str,
    pub(crate) source: &'m SourceText<'x>,
    pub(crate) image: &'j ImageRef<'i>,
}

/// How many slots a boot CNode has besides those of its radix.
const KEPT: u64 = 64;

/// What an object is, in words.
fn kind_name(kind: Option<ObjectType>) -> &'static str {
    match kind {
        None => "no object",
        Some(ObjectType::Untyped { .. }) => "untyped memory",
        Some(ObjectType::Object(ObjectKind::Thread)) => "a TCB",
        Some(ObjectType::Object(ObjectKind::Endpoint)) => "an endpoint",
        Some(ObjectType::Object(ObjectKind::Notification)) => "a notification",
        Some(ObjectType::Object(ObjectKind::CNode { .. })) => "a CNode",
        Some(ObjectType::Object(ObjectKind::Frame)) => "a frame",
        Some(ObjectType::Object(ObjectKind::PageTable)) => "a page table",
        Some(ObjectType::Object(ObjectKind::RootTable)) => "a root table",
    }
}

/// Whether this is a CNode.
pub(crate) fn is_cnode(kind: Option<ObjectType>) -> bool {
    matches!(&kind, Some(ObjectType::Object(ObjectKind::CNode { .. })))
}

/// The least radix, from a given one on, with which a CNode has so many slots.
fn radix_for(given: u32, needed: u64) -> u32 {
    let mut radix = given;
    for _ in 0..14 {
        if power(radix) < needed {
            radix = radix.saturating_add(1);
        }
    }
    radix
}

/// 2 to the power of so many.
fn power(bits: u32) -> u64 {
    1u64.wrapping_shl(bits)
}

/// Reports what is wrong with the rights and the badge of a capability to an endpoint or a notification.
fn report_badge(to: &mut String, rights: u32, badge: u32) -> Result<(), AllocError> {
    if rights & 11 == rights {
        write!(to, "the badge {badge} is 2^28 or more\n")
    } else {
        write!(
            to,
            "{rights} are no rights of an endpoint or a notification: write 1, read 2, grant-reply 8\n"
        )
    }
}

/// Reports what is wrong with the rights and the data of a capability to a frame.
fn report_frame_data(to: &mut String, rights: u32) -> Result<(), AllocError> {
    if rights & 3 == rights {
        to.push_str("a frame's capability has no data: write 0\n")
    } else {
        write!(to, "{rights} are no rights of a frame: write 1, read 2\n")
    }
}

/// Reports that a capability to a CNode has a wrong guard word.
fn report_guard(to: &mut String, name: &str, payload: u32) -> Result<(), AllocError> {
    write!(to, "{payload} is no guard word for the CNode `{name}`\n")
}

/// Reports what is wrong with the rights and the data of a capability to an object of a kind.
fn report_data(
    to: &mut String,
    kind: Option<ObjectType>,
    name: &str,
    rights: u32,
    payload: u32,
) -> Result<(), AllocError> {
    match kind {
        Some(ObjectType::Object(ObjectKind::Endpoint | ObjectKind::Notification)) => {
            report_badge(to, rights, payload)
        }
        Some(ObjectType::Object(ObjectKind::Frame)) => report_frame_data(to, rights),
        Some(ObjectType::Object(ObjectKind::CNode { .. })) if rights == 0 => {
            report_guard(to, name, payload)
        }
        _ => write!(
            to,
            "a capability to `{name}` has the rights 0 and the data 0\n"
        ),
    }
}

/// Reports that untyped memory does not begin at a multiple of its size.
fn report_unaligned(to: &mut String, start: u64, size: u64) -> Result<(), AllocError> {
    write!(
        to,
        "{start:#x} is no multiple of the size, {size:#x} bytes\n"
    )
}

/// Reports that untyped memory ends after the machine's memory.
fn report_end(to: &mut String, end: u64, memory: u64) -> Result<(), AllocError> {
    write!(
        to,
        "it ends at {end:#x}, beyond the machine's memory of {memory:#x} bytes\n"
    )
}

/// Reports that untyped memory begins inside another one.
fn report_overlap(to: &mut String, before: &UntypedLine<'_>) -> Result<(), AllocError> {
    let (name, line) = (before.name, before.line);
    let last = u64::from(before.offset).saturating_add(power(before.bits));
    write!(
        to,
        "it begins inside `{name}` (line {line}), which ends at {last:#x}: untyped memories come in their order\n"
    )
}

/// Reports that an object of so many bytes would end there in its untyped memory.
fn report_room(
    to: &mut String,
    untyped: &UntypedLine<'_>,
    size: u64,
    wanted: u64,
) -> Result<(), AllocError> {
    let (name, line) = (untyped.name, untyped.line);
    let whole = power(untyped.bits);
    write!(
        to,
        "no room: `{name}` (line {line}) has {whole:#x} bytes, and this object of {size:#x} bytes would end at {wanted:#x}, after those before it\n  \
         make the memory larger, or put small objects after large ones\n"
    )
}

/// Reports that a device page, which is declared on this line, is mapped to execute.
fn report_device_code(to: &mut String, name: &str, line: u64) -> Result<(), AllocError> {
    write!(
        to,
        "`{name}` is a device page (line {line}), which the world writes: it cannot be executed\n"
    )
}

/// Reports that a frame of code is mapped on another line, too.
fn report_other_mapping(to: &mut String, name: &str, line: u64) -> Result<(), AllocError> {
    write!(
        to,
        "`{name}` is mapped to execute, and mapped on line {line}, too: code has a frame of its own\n"
    )
}

/// Reports that a capability names a frame of code.
fn report_named_code(to: &mut String, name: &str, line: u64) -> Result<(), AllocError> {
    write!(
        to,
        "`{name}` is mapped to execute, and a capability names it (line {line}): code has a frame of its own\n"
    )
}

/// Reports that a frame of code is filled.
fn report_filled_code(to: &mut String, name: &str, line: u64) -> Result<(), AllocError> {
    write!(
        to,
        "`{name}` is mapped to execute, and filled on line {line}: the loader fills it with the program\n"
    )
}

impl Items<'_, '_, '_, '_, '_, '_> {
    /// Puts the head of what is reported of a line.
    pub(crate) fn push_line(&self, to: &mut String, line: u64) -> Result<(), AllocError> {
        push_line(to, &self.text, line, self.rule)
    }

    /// Reports that an object is of another kind than is wanted.
    fn report_kind(&self, to: &mut String, number: usize, wanted: &str) -> Result<(), AllocError> {
        let name = self.source.object_name(number);
        let kind = kind_name(self.source.kind(number));
        write!(to, "`{name}` is {kind}, and no {wanted}\n")
    }

    /// Where the boot area ends.
    fn boot_end(&self) -> u64 {
        power(self.image.header().boot_radix)
            .saturating_add(KEPT)
            .saturating_mul(16)
    }

    /// Reports what is wrong with untyped memory.
    fn report_untyped(&self, to: &mut String, item: u32) -> Result<(), AllocError> {
        let Some(untyped) = self.source.untypeds.get(item as usize) else {
            return Ok(());
        };
        self.push_line(to, untyped.line)?;
        self.report_bytes(to, item, u64::from(untyped.offset), power(untyped.bits))
    }

    /// Reports what is wrong with the bytes of untyped memory, which begins there and has so many.
    fn report_bytes(
        &self,
        to: &mut String,
        item: u32,
        start: u64,
        size: u64,
    ) -> Result<(), AllocError> {
        if start & size.saturating_sub(1) != 0 {
            return report_unaligned(to, start, size);
        }
        let end = start.saturating_add(size);
        let memory = power(self.image.header().memory_bits);
        if end > memory {
            return report_end(to, end, memory);
        }
        self.report_start(to, item, start)
    }

    /// Reports what is where untyped memory begins.
    fn report_start(&self, to: &mut String, item: u32, start: u64) -> Result<(), AllocError> {
        let boot = self.boot_end();
        if start < boot {
            return write!(
                to,
                "it begins inside the boot area, which ends at {boot:#x} (16 bytes for each of 2^RADIX + 64 slots)\n"
            );
        }
        match self.source.untypeds.get((item as usize).saturating_sub(1)) {
            Some(before) => report_overlap(to, before),
            None => to.push_str("it overlaps what comes before it\n"),
        }
    }

    /// Where an object begins, in bytes from the start of physical memory.
    fn offset_of(&self, item: u32) -> u64 {
        let image = self.image;
        let mut used = UsedMemory::none();
        for number in 0..image.header().objects {
            let place = used.place(image, number);
            if number == item {
                return place.offset;
            }
        }
        0
    }

    /// Reports which object does not fit into its untyped memory.
    fn report_no_room(&self, to: &mut String, item: u32) -> Result<(), AllocError> {
        let Some(object) = self.source.objects.get(item as usize) else {
            return Ok(());
        };
        let Some(untyped) = self.source.untypeds.get(object.untyped) else {
            return Ok(());
        };
        self.push_line(to, object.line)?;
        let size = power(object.kind.bits());
        let offset = self.offset_of(item);
        let start = offset.saturating_sub(u64::from(untyped.offset));
        report_room(to, untyped, size, start.saturating_add(size))
    }

    /// How many slots the boot CNode needs.
    fn boot_slots(&self) -> u64 {
        let header = self.image.header();
        u64::from(header.untypeds)
            .saturating_add(u64::from(header.objects))
            .saturating_add(1)
            .saturating_add(u64::from(header.interrupts).saturating_mul(2))
            .saturating_add(u64::from(header.frames))
    }

    /// Puts what the boot CNode needs its slots for.
    fn push_boot_needs(&self, to: &mut String) -> Result<(), AllocError> {
        let header = self.image.header();
        let (untypeds, objects) = (header.untypeds, header.objects);
        let (interrupts, frames) = (header.interrupts, header.frames);
        write!(
            to,
            "for untyped memories {untypeds}, objects {objects}, interrupt control 1, interrupts twice {interrupts}, mapped frames {frames}\n"
        )
    }

    /// The line `memory`: the first that says something.
    fn memory_line(&self) -> u64 {
        let mut number = 0u64;
        for line in self.text.content.lines() {
            number = number.saturating_add(1);
            if word_at(line, 0).is_some() {
                return number;
            }
        }
        1
    }

    /// Reports that the boot CNode has too few slots.
    fn report_boot(&self, to: &mut String) -> Result<(), AllocError> {
        let given = self.image.header().boot_radix;
        let (there, needed) = (power(given), self.boot_slots());
        self.push_line(to, self.memory_line())?;
        write!(to, "the boot CNode has {there} slots, and needs {needed}: ")?;
        self.push_boot_needs(to)?;
        let radix = radix_for(given, needed);
        write!(to, "  the radix has to be {radix} or more\n")
    }

    /// The capability of an item, by its place in the image.
    fn capability_line(&self, item: u32) -> Option<CapabilityLine> {
        let mut number = 0u32;
        for entry in self.image.capabilities() {
            if number == item {
                return self.source.capability(entry.cnode as usize, entry.index);
            }
            number = number.saturating_add(1);
        }
        None
    }

    /// Reports what is wrong with a capability, or with an interrupt after them.
    fn report_capability(&self, to: &mut String, item: u32) -> Result<(), AllocError> {
        let count = self.image.header().capabilities;
        if item >= count {
            return self.report_interrupt(to, item.saturating_sub(count));
        }
        let Some(capability) = self.capability_line(item) else {
            return Ok(());
        };
        self.push_line(to, capability.line)?;
        if !is_cnode(self.source.kind(capability.cnode)) {
            return self.report_kind(to, capability.cnode, "CNode");
        }
        self.report_slot(to, &capability)
    }

    /// Reports what is wrong with a capability in the slot of a CNode.
    fn report_slot(&self, to: &mut String, capability: &CapabilityLine) -> Result<(), AllocError> {
        let radix = self.source.radix(capability.cnode);
        let (index, last) = (capability.index, power(u32::from(radix)).saturating_sub(1));
        if u64::from(index) > last {
            let cnode = self.source.object_name(capability.cnode);
            return write!(to, "`{cnode}` has the slots 0 to {last}, and no {index}\n");
        }
        self.report_source(to, capability)
    }

    /// Reports what is wrong with what a capability names.
    fn report_source(
        &self,
        to: &mut String,
        capability: &CapabilityLine,
    ) -> Result<(), AllocError> {
        let name = self.source.source_name(capability.source);
        let kind = match capability.source {
            Source::Object(number) => self.source.kind(number),
            Source::Interrupt(_) => None,
        };
        if is_thread(kind) || is_page_table(kind) {
            let words = kind_name(kind);
            return write!(to, "`{name}` is {words}: no capability may name one\n");
        }
        if is_untyped(kind) {
            if let Some(line) = self.other_gift(capability) {
                return write!(
                    to,
                    "the untyped memory `{name}` is given away twice (line {line})\n"
                );
            }
        }
        report_data(to, kind, name, capability.rights, capability.payload)
    }

    /// The line of another capability to what a capability names.
    fn other_gift(&self, capability: &CapabilityLine) -> Option<u64> {
        for other in &self.source.capabilities {
            if other.source == capability.source && other.line != capability.line {
                return Some(other.line);
            }
        }
        None
    }

    /// The machine's line of an interrupt, by its place in the image.
    fn machine_line(&self, place: u32) -> Option<u32> {
        let mut number = 0u32;
        for entry in self.image.interrupts() {
            if number == place {
                return Some(entry.line);
            }
            number = number.saturating_add(1);
        }
        None
    }

    /// Reports what is wrong with an interrupt.
    fn report_interrupt(&self, to: &mut String, place: u32) -> Result<(), AllocError> {
        let Some(number) = self.machine_line(place) else {
            return Ok(());
        };
        for interrupt in &self.source.interrupts {
            if interrupt.number == number {
                self.push_line(to, interrupt.line)?;
                return self.report_kind(to, interrupt.notification, "notification");
            }
        }
        Ok(())
    }

    /// Reports what is wrong with a table.
    fn report_table(&self, to: &mut String, table: &TableLine) -> Result<(), AllocError> {
        self.push_line(to, table.line)?;
        if !is_root_table(self.source.kind(table.root)) {
            return self.report_kind(to, table.root, "root table");
        }
        if !is_page_table(self.source.kind(table.table)) {
            return self.report_kind(to, table.table, "page table");
        }
        self.report_table_place(to, table)
    }

    /// Reports what is wrong with the place of a table.
    fn report_table_place(&self, to: &mut String, table: &TableLine) -> Result<(), AllocError> {
        let address = table.address;
        if address >= 0x8000_0000 || address % 0x40_0000 != 0 {
            return write!(
                to,
                "{address:#x} is no multiple of 0x400000 below 0x80000000\n"
            );
        }
        let name = self.source.object_name(table.table);
        write!(
            to,
            "`{name}` is in a second place: each page table has one\n"
        )
    }

    /// Whether a page table covers an address under a root table.
    fn is_covered(&self, root: usize, address: u32) -> bool {
        for table in &self.source.tables {
            if table.root == root && table.address / 0x40_0000 == address / 0x40_0000 {
                return true;
            }
        }
        false
    }

    /// Reports what is wrong with a frame's mapping.
    fn report_frame(&self, to: &mut String, frame: &FrameLine) -> Result<(), AllocError> {
        self.push_line(to, frame.line)?;
        if !is_root_table(self.source.kind(frame.root)) {
            return self.report_kind(to, frame.root, "root table");
        }
        if !is_frame(self.source.kind(frame.frame)) {
            return self.report_kind(to, frame.frame, "frame");
        }
        self.report_frame_place(to, frame)
    }

    /// Reports what is wrong with the address and the rights of a frame's mapping.
    fn report_frame_place(&self, to: &mut String, frame: &FrameLine) -> Result<(), AllocError> {
        let (address, rights) = (frame.address, frame.rights);
        if address >= 0x8000_0000 || address % 4096 != 0 {
            return write!(to, "{address:#x} is no multiple of 4096 below 0x80000000\n");
        }
        if self.is_covered(frame.root, address) {
            return write!(
                to,
                "{rights} are no rights of a mapping: read 2, read and write 3, execute 4, read and execute 6\n"
            );
        }
        self.report_uncovered(to, frame)
    }

    /// Reports that no page table covers a frame's address.
    fn report_uncovered(&self, to: &mut String, frame: &FrameLine) -> Result<(), AllocError> {
        let root = self.source.object_name(frame.root);
        let address = frame.address;
        let region = address - address % 0x40_0000;
        write!(
            to,
            "no page table covers {address:#x}: there is no `table {root} {region:#x} ..`\n"
        )
    }

    /// The line that maps a frame at an address under a root table.
    fn mapping_at(&self, root: usize, address: u32) -> Option<FrameLine> {
        for frame in &self.source.frames {
            if frame.root == root && frame.address == address {
                return Some(*frame);
            }
        }
        None
    }

    /// The line of a frame's mapping, by its place in the image.
    fn frame_line(&self, place: u32) -> Option<FrameLine> {
        let mut number = 0u32;
        for entry in self.image.frames() {
            if number == place {
                return self.mapping_at(entry.root as usize, entry.address);
            }
            number = number.saturating_add(1);
        }
        None
    }

    /// The line of a table at an address under a root table.
    fn table_at(&self, root: usize, address: u32) -> Option<TableLine> {
        for table in &self.source.tables {
            if table.root == root && table.address == address {
                return Some(*table);
            }
        }
        None
    }

    /// The line of a table, by its place in the image.
    fn table_line(&self, place: u32) -> Option<TableLine> {
        let mut number = 0u32;
        for entry in self.image.tables() {
            if number == place {
                return self.table_at(entry.root as usize, entry.address);
            }
            number = number.saturating_add(1);
        }
        None
    }

    /// Reports what is wrong with a table, a frame's mapping or a content, which are numbered on.
    fn report_mapping(&self, to: &mut String, item: u32) -> Result<(), AllocError> {
        let tables = self.image.header().tables;
        if item < tables {
            return match self.table_line(item) {
                Some(table) => self.report_table(to, &table),
                None => Ok(()),
            };
        }
        self.report_filling(to, item.saturating_sub(tables))
    }

    /// Reports what is wrong with a frame's mapping or a content, which are numbered on.
    fn report_filling(&self, to: &mut String, item: u32) -> Result<(), AllocError> {
        if item < self.image.header().frames {
            return match self.frame_line(item) {
                Some(frame) => self.report_frame(to, &frame),
                None => Ok(()),
            };
        }
        self.report_content(to)
    }

    /// Reports which content fills what is no frame.
    fn report_content(&self, to: &mut String) -> Result<(), AllocError> {
        for content in &self.source.contents {
            if !is_frame(self.source.kind(content.frame)) {
                self.push_line(to, content.line)?;
                return self.report_kind(to, content.frame, "frame");
            }
        }
        Ok(())
    }

    /// Reports which promise is of no endpoint.
    fn report_promise(&self, to: &mut String) -> Result<(), AllocError> {
        for promise in &self.source.promises {
            if !is_endpoint(self.source.kind(promise.endpoint)) {
                self.push_line(to, promise.line)?;
                return self.report_kind(to, promise.endpoint, "endpoint");
            }
        }
        Ok(())
    }

    /// Reports which code can be written.
    fn report_writable(&self, to: &mut String, item: u32) -> Result<(), AllocError> {
        let Some(frame) = self.frame_line(item.saturating_sub(self.image.header().tables)) else {
            return Ok(());
        };
        self.push_line(to, frame.line)?;
        let name = self.source.object_name(frame.frame);
        if let Some(line) = self.device_line(frame.frame) {
            return report_device_code(to, name, line);
        }
        if frame.rights == 7 {
            return write!(
                to,
                "`{name}` is mapped to write and to execute: code has a frame of its own\n"
            );
        }
        self.report_shared_code(to, &frame, name)
    }

    /// The line that declares an object, if it is a device page.
    fn device_line(&self, object: usize) -> Option<u64> {
        match self.source.objects.get(object) {
            Some(object) if object.is_device => Some(object.line),
            _ => None,
        }
    }

    /// Reports what else a frame of code is used for.
    fn report_shared_code(
        &self,
        to: &mut String,
        frame: &FrameLine,
        name: &str,
    ) -> Result<(), AllocError> {
        if let Some(line) = self.other_mapping(frame) {
            return report_other_mapping(to, name, line);
        }
        if let Some(line) = self.naming(frame.frame) {
            return report_named_code(to, name, line);
        }
        match self.filling(frame.frame) {
            Some(line) => report_filled_code(to, name, line),
            None => to.push_str("code can be written\n"),
        }
    }

    /// The line of another mapping of the frame that a line maps.
    fn other_mapping(&self, frame: &FrameLine) -> Option<u64> {
        for other in &self.source.frames {
            if other.frame == frame.frame && other.line != frame.line {
                return Some(other.line);
            }
        }
        None
    }

    /// The line of a capability that names an object.
    pub(crate) fn naming(&self, object: usize) -> Option<u64> {
        for capability in &self.source.capabilities {
            if capability.source == Source::Object(object) {
                return Some(capability.line);
            }
        }
        None
    }

    /// The line that fills a frame.
    fn filling(&self, frame: usize) -> Option<u64> {
        for content in &self.source.contents {
            if content.frame == frame {
                return Some(content.line);
            }
        }
        None
    }

    /// Reports what is refused of a thread.
    fn report_of_thread(&self, to: &mut String, refusal: Refusal) -> Result<(), AllocError> {
        match refusal {
            Refusal::SharedCSpace { thread } => self.report_shared_cnode(to, thread),
            Refusal::SharedVSpace { thread } => self.report_shared_root(to, thread),
            Refusal::BadBuffer { thread } => self.report_buffer(to, thread),
            Refusal::BadThread { thread } => self.report_thread(to, thread),
            refusal => {
                let name = refusal.name();
                write!(to, "{name}: the image cannot be read\n")
            }
        }
    }

    /// Reports what is refused before any program is looked at.
    fn report(&self, to: &mut String, refusal: Refusal) -> Result<(), AllocError> {
        match refusal {
            Refusal::UntypedOverlap { untyped } => self.report_untyped(to, untyped),
            Refusal::NoRoom { object } => self.report_no_room(to, object),
            Refusal::BadObject { .. } => self.report_boot(to),
            Refusal::BadCap { item } => self.report_capability(to, item),
            Refusal::BadMapping { item } => self.report_mapping(to, item),
            Refusal::WritableCode { item } => self.report_writable(to, item),
            Refusal::BadPromise { .. } => self.report_promise(to),
            refusal => self.report_of_thread(to, refusal),
        }
    }
}

/// Puts what the image of a text is refused for before any program is looked at.
///
/// # Errors
///
/// Out of memory.
pub fn report_item(
    alloc: Global,
    to: &mut String,
    text: Text<'_, '_>,
    source: &SourceText<'_>,
    image: &ImageRef<'_>,
    refusal: Refusal,
) -> Result<(), AllocError> {
    let items = Items {
        alloc,
        text,
        rule: refusal.name(),
        source,
        image,
    };
    items.report(to, refusal)
}
