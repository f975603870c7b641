//! Loads and stores that reach what is not mapped.

use crate::caps::mapping_words;
use crate::point_words::push_range;
use crate::scenes::Scene;
use crate::states::State;
use model::{Cap, FrameEntry, FrameMapping, Instr, LoadOp, Range, Register, StoreOp};
use rv32_isa::decode;
use std::alloc::AllocError;
use typestate::{NotedSlot, SlotKey};

/// How many mapped pages are named at most.
const MOST_NAMED: u32 = 12;

/// A load or a store.
#[derive(Clone, Copy, Drop)]
struct Access {
    name: &'static str,
    /// How it is to be mapped.
    wanted: &'static str,
    right: u32,
    base: Register,
    offset: i64,
    width: i64,
}

/// How many bytes a load reads.
fn load_width(op: LoadOp) -> i64 {
    match op {
        LoadOp::Lb | LoadOp::Lbu => 1,
        LoadOp::Lh | LoadOp::Lhu => 2,
        LoadOp::Lw => 4,
    }
}

/// How many bytes a store writes.
fn store_width(op: StoreOp) -> i64 {
    match op {
        StoreOp::Sb => 1,
        StoreOp::Sh => 2,
        StoreOp::Sw => 4,
    }
}

/// The access that an instruction makes, if it loads or stores.
fn access_of(instr: Instr) -> Option<Access> {
    match instr {
        Instr::Load {
            op,
            rs1,
            offset,
            ..
        } => Some(Access {
            name: "load of bytes",
            wanted: "read",
            right: 2,
            base: rs1,
            offset: i64::from(offset),
            width: load_width(op),
        }),
        Instr::Store {
            op,
            rs1,
            offset,
            ..
        } => Some(Access {
            name: "store to bytes",
            wanted: "write",
            right: 1,
            base: rs1,
            offset: i64::from(offset),
            width: store_width(op),
        }),
        _ => None,
    }
}

/// The first and the last of the bytes that an access can reach.
#[derive(Clone, Copy, Drop)]
struct ReachedBytes {
    first: i64,
    last: i64,
}

impl ReachedBytes {
    /// Those that an access can reach with these values of its register.
    fn of(access: &Access, range: Range) -> Self {
        ReachedBytes {
            first: i64::from(range.low).saturating_add(access.offset),
            last: i64::from(range.high)
                .saturating_add(access.offset)
                .saturating_add(access.width.saturating_sub(1)),
        }
    }

    /// Whether each of them has an address.
    fn have_addresses(self) -> bool {
        0 <= self.first && self.last <= 0xffff_ffff
    }
}

/// Puts what parts a page from so many before it.
fn push_separator(to: &mut String, before: u32) -> Result<(), AllocError> {
    to.push_str(if before == 0 { " " } else { ", " })
}

/// The page of an address, or 0 where it is none.
fn page_at(address: i64) -> u32 {
    u32::try_from(address / 4096).unwrap_or(0)
}

/// Puts the first and the last of some bytes.
fn push_bytes(to: &mut String, bytes: ReachedBytes) -> Result<(), AllocError> {
    push_whole(to, bytes.first)?;
    to.push_str(" to ")?;
    push_whole(to, bytes.last)
}

/// Puts a whole number in hexadecimal digits.
fn push_whole(to: &mut String, number: i64) -> Result<(), AllocError> {
    let sign = if number < 0 { "-" } else { "" };
    let size = number.unsigned_abs();
    write!(to, "{sign}{size:#x}")
}

impl Scene<'_, '_, '_, '_, '_, '_, '_> {
    /// The rights with which the image maps a page.
    fn listed_rights(&self, page: u32) -> u32 {
        let root = self.given.space.thread.header().root;
        for entry in self.given.space.image.frames() {
            if entry.root == root && entry.address / 4096 == page {
                return entry.rights;
            }
        }
        0
    }

    /// The rights with which a noted slot maps a page.
    fn mapped_rights(&self, slot: &NotedSlot, page: u32) -> u32 {
        match slot.capability {
            Cap::Frame {
                mapping: Some(mapping),
                ..
            } if mapping.page == page && mapping.root == self.given.space.table => u32::from(
                mapping.rights.0,
            ),
            _ => 0,
        }
    }

    /// Whether a page is mapped with a right.
    fn is_mapped(&self, state: &State, page: u32, right: u32) -> bool {
        if self.listed_rights(page) & right != 0 {
            return true;
        }
        let changes = &state.changes;
        for change in changes {
            if self.mapped_rights(change, page) & right != 0 {
                return true;
            }
        }
        false
    }

    /// The first page of some bytes that is not mapped with a right.
    fn unmapped_page(&self, state: &State, bytes: ReachedBytes, right: u32) -> Option<u32> {
        let last = page_at(bytes.last);
        for page in page_at(bytes.first)..last.saturating_add(1) {
            if !self.is_mapped(state, page, right) {
                return Some(page);
            }
        }
        None
    }

    /// Puts what is mapped.
    fn push_mapped(&self, to: &mut String, state: &State) -> Result<(), AllocError> {
        to.push_str("; mapped:")?;
        let listed = self.push_listed(to)?;
        let count = self.push_changed(to, state, listed)?;
        if count > MOST_NAMED {
            write!(to, ", {count} pages in all")?;
        }
        to.push_str(if count == 0 { " nothing\n" } else { "\n" })
    }

    /// Puts the first pages that the image maps, and returns how many it maps.
    fn push_listed(&self, to: &mut String) -> Result<u32, AllocError> {
        let root = self.given.space.thread.header().root;
        let mut count = 0u32;
        for entry in self.given.space.image.frames() {
            if entry.root == root {
                if count < MOST_NAMED {
                    push_separator(to, count)?;
                    self.push_entry(to, &entry)?;
                }
                count = count.saturating_add(1);
            }
        }
        Ok(count)
    }

    /// Puts a page that the image maps.
    fn push_entry(&self, to: &mut String, entry: &FrameEntry) -> Result<(), AllocError> {
        let address = entry.address;
        let name = self.source.object_name(entry.frame as usize);
        let words = mapping_words(entry.rights);
        write!(to, "{address:#x} {name} ({words})")
    }

    /// Puts the pages that are mapped by changed slots, after so many others, and returns how many all are.
    fn push_changed(&self, to: &mut String, state: &State, before: u32) -> Result<u32, AllocError> {
        let mut count = before;
        for change in &state.changes {
            if let Cap::Frame {
                mapping: Some(mapping),
                ..
            } = change.capability
            {
                push_separator(to, count)?;
                self.push_change(to, change.key, &mapping)?;
                count = count.saturating_add(1);
            }
        }
        Ok(count)
    }

    /// Puts a page that a changed slot maps.
    fn push_change(
        &self,
        to: &mut String,
        key: SlotKey,
        mapping: &FrameMapping,
    ) -> Result<(), AllocError> {
        let address = mapping.page.wrapping_mul(4096);
        let words = mapping_words(u32::from(mapping.rights.0));
        write!(to, "{address:#x} by slot ")?;
        self.push_key(to, key)?;
        write!(to, " ({words})")
    }

    /// Reports which bytes a load or a store can reach, and which of them is not mapped.
    pub(crate) fn report_page(
        &self,
        to: &mut String,
        point: u32,
        state: &State,
    ) -> Result<(), AllocError> {
        if point >= self.given.space.thread.word_count() {
            return Ok(());
        }
        let Some(access) = self.access_at(point) else {
            return Ok(());
        };
        let base = access.base;
        if base.0 >= 32 {
            return Ok(());
        }
        let range = state.bounds.get(base);
        let bytes = ReachedBytes::of(&access, range);
        self.push_head(to, point)?;
        let name = access.name;
        write!(to, "{name} ")?;
        push_bytes(to, bytes)?;
        let number = base.0;
        write!(to, ", where x{number} is ")?;
        push_range(to, range)?;
        if !bytes.have_addresses() {
            return to.push_str(
                "\n  no such bytes are there: narrow the register by a branch before it\n",
            );
        }
        to.push_str("\n")?;
        self.report_unmapped(to, state, &access, bytes)
    }

    /// Reports which of the pages that an access can reach is the first that is not mapped for it, and which are.
    fn report_unmapped(
        &self,
        to: &mut String,
        state: &State,
        access: &Access,
        bytes: ReachedBytes,
    ) -> Result<(), AllocError> {
        if let Some(page) = self.unmapped_page(state, bytes, access.right) {
            let address = page.wrapping_mul(4096);
            let wanted = access.wanted;
            write!(to, "  page {address:#x} is not mapped to {wanted}")?;
            self.push_mapped(to, state)?;
        }
        Ok(())
    }

    /// The register with the address of the load or store at a point.
    pub(crate) fn base_at(&self, point: u32) -> Option<u8> {
        let access = self.access_at(point)?;
        Some(access.base.0)
    }

    /// Whether the load or store at a point can reach what is not mapped for it.
    pub(crate) fn reaches_unmapped(&self, point: u32, state: &State) -> bool {
        let Some(access) = self.access_at(point) else {
            return false;
        };
        if access.base.0 >= 32 {
            return false;
        }
        let bytes = ReachedBytes::of(&access, state.bounds.get(access.base));
        !bytes.have_addresses() || self.unmapped_page(state, bytes, access.right).is_some()
    }

    /// The load or store at a point.
    fn access_at(&self, point: u32) -> Option<Access> {
        if point >= self.given.space.thread.word_count() {
            return None;
        }
        access_of(decode(self.given.space.thread.word(point))?)
    }
}
