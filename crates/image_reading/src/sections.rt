//! Entries of the sections of an image before the contents, of the words of a promise, and of the slots that a record notes: each is
//! read, tested and spelled here.

ghost use Rattle.std.specs.Prelude.{◌≡◌, ◌==◌, ◌&&◌, ◌||◌, ◌+◌, ◌^◌, nat_lt, nat_le, is_some, if◌then◌else◌, Some, None};
ghost use Rattle.model.specs.Capabilities.CapabilityFields.{unpacked};
ghost use Rattle.model.specs.Images.Format.{field};
ghost use Rattle.model.specs.Images.Image.{below, capability_format, frame_format, interrupt_format, names_parent, object_format, pair_key};
ghost use Rattle.model.specs.Images.Image.{promised_word_format, size_fits_in, slot_format, table_format, untyped_format};

use crate::entries::{Counts, Entry, Keyed, Listed};
use crate::fields::{
    any_word, object_or_none, pair_key, rising_word, second_part, word_below, word_between,
};
use crate::slot_words::{is_empty, names_parent, unpacks};
use crate::spelled::{Spelled, append_all};
use crate::versions::size_fits;
use model::{
    CapabilityEntry, FrameEntry, InterruptEntry, ObjectEntry, PromisedWord, Refusal, SlotEntry,
    TableEntry, UntypedEntry,
};
use std::alloc::AllocError;

impl Keyed for UntypedEntry {
    ghost key = { λ _. 0 };

    fn key(&self) -> u64 {
        0
    }
}

#[tactic(auto, unfolding(model::specs::Images::Image::untyped_format))]
impl Spelled for UntypedEntry {
    ghost spelling = { untyped_format.spelling };

    fn append(&self, bytes: &mut Vec<u8>) -> Result<(), AllocError> {
        append_all(bytes, &[self.offset, self.bits])
    }
}

#[tactic(auto, unfolding(model::specs::Images::Image::untyped_format))]
impl Listed for UntypedEntry {
    ghost format = { λ _ _. untyped_format };

    ghost next = { λ _. 0 };

    fn fits(&self, _counts: Counts, _least: u64) -> Option<u64> {
        let UntypedEntry {
            offset: _offset,
            bits,
        } = *self;
        if 4 <= bits && bits <= 24 {
            Some(0)
        } else {
            None
        }
    }
}

#[tactic(auto, unfolding(model::specs::Images::Image::untyped_format))]
impl Entry for UntypedEntry {
    fn size() -> usize {
        8
    }

    fn read(
        bytes: &[u8],
        at: usize,
        _counts: Counts,
        _least: u64,
    ) -> Result<(UntypedEntry, usize), Refusal> {
        let (offset, at) = any_word(bytes, at)?;
        let (bits, at) = word_between(bytes, at, 4, 24)?;
        Ok((UntypedEntry { offset, bits }, at))
    }

    fn least_after(&self) -> u64 {
        0
    }
}

/// The size of an object of this type at `at`, and the offset after it.
fn object_size(bytes: &[u8], at: usize, version: u32, kind: u32) -> Result<(u32, usize), Refusal>
    ensures { result ≡ (field (size_fits_in version kind)).reads bytes.now at }
{
    let (size, next) = any_word(bytes, at)?;
    if size_fits(version, kind, size) {
        Ok((size, next))
    } else {
        Err(Refusal::Limit { offset: at as u64 })
    }
}

impl Keyed for ObjectEntry {
    ghost key = { λ e. e.untyped };

    fn key(&self) -> u64 {
        u64::from(self.untyped)
    }
}

#[tactic(auto, unfolding(model::specs::Images::Image::object_format))]
impl Spelled for ObjectEntry {
    ghost spelling = { (object_format 0 0 0).spelling };

    fn append(&self, bytes: &mut Vec<u8>) -> Result<(), AllocError> {
        append_all(bytes, &[self.untyped, self.kind, self.size])
    }
}

#[tactic(auto, unfolding(model::specs::Images::Image::object_format))]
impl Listed for ObjectEntry {
    ghost format = { λ c. object_format c.version c.untypeds };

    ghost next = { λ e. e.untyped };

    fn fits(&self, counts: Counts, least: u64) -> Option<u64> {
        let ObjectEntry {
            untyped,
            kind,
            size,
        } = *self;
        let key = u64::from(untyped);
        if least <= key
            && untyped < counts.untypeds
            && 1 <= kind
            && kind <= 8
            && size_fits(counts.version, kind, size)
        {
            Some(key)
        } else {
            None
        }
    }
}

#[tactic(auto, unfolding(model::specs::Images::Image::object_format))]
impl Entry for ObjectEntry {
    fn size() -> usize {
        12
    }

    fn read(
        bytes: &[u8],
        at: usize,
        counts: Counts,
        least: u64,
    ) -> Result<(ObjectEntry, usize), Refusal> {
        let (untyped, at) = rising_word(bytes, at, least, counts.untypeds)?;
        let (kind, at) = word_between(bytes, at, 1, 8)?;
        let (size, at) = object_size(bytes, at, counts.version, kind)?;
        Ok((
            ObjectEntry {
                untyped,
                kind,
                size,
            },
            at,
        ))
    }

    fn least_after(&self) -> u64 {
        u64::from(self.untyped)
    }
}

impl Keyed for CapabilityEntry {
    ghost key = { λ e. pair_key e.cnode e.index };

    fn key(&self) -> u64 {
        pair_key(self.cnode, self.index)
    }
}

#[tactic(auto, unfolding(model::specs::Images::Image::capability_format))]
impl Spelled for CapabilityEntry {
    ghost spelling = { (capability_format 0 0 0).spelling };

    fn append(&self, bytes: &mut Vec<u8>) -> Result<(), AllocError> {
        append_all(
            bytes,
            &[
                self.cnode,
                self.index,
                self.source,
                self.rights,
                self.payload,
            ],
        )
    }
}

#[tactic(auto, unfolding(model::specs::Images::Image::capability_format))]
impl Listed for CapabilityEntry {
    ghost format = { λ c. capability_format c.objects c.interrupts };

    ghost next = { λ e. pair_key e.cnode e.index + 1 };

    fn fits(&self, counts: Counts, least: u64) -> Option<u64> {
        let CapabilityEntry {
            cnode,
            index,
            source,
            rights: _,
            payload: _,
        } = *self;
        let key = pair_key(cnode, index);
        let sources = u64::from(counts.objects) + u64::from(counts.interrupts);
        if cnode < counts.objects && least <= key && u64::from(source) < sources {
            Some(key + 1)
        } else {
            None
        }
    }
}

#[tactic(auto, unfolding(model::specs::Images::Image::capability_format))]
impl Entry for CapabilityEntry {
    fn size() -> usize {
        20
    }

    fn read(
        bytes: &[u8],
        at: usize,
        counts: Counts,
        least: u64,
    ) -> Result<(CapabilityEntry, usize), Refusal> {
        let (cnode, at) = word_below(bytes, at, counts.objects)?;
        let (index, at) = second_part(bytes, at, cnode, least)?;
        let (source, at) = source(bytes, at, counts)?;
        let (rights, at) = any_word(bytes, at)?;
        let (payload, at) = any_word(bytes, at)?;
        Ok((
            CapabilityEntry {
                cnode,
                index,
                source,
                rights,
                payload,
            },
            at,
        ))
    }

    fn least_after(&self) -> u64 {
        pair_key(self.cnode, self.index) + 1
    }
}

/// The number of an object or of an interrupt after the objects at `at`, and the offset after it.
fn source(bytes: &[u8], at: usize, counts: Counts) -> Result<(u32, usize), Refusal>
    ensures { result ≡ (field (below (counts.objects + counts.interrupts))).reads bytes.now at }
{
    let (word, next) = any_word(bytes, at)?;
    if u64::from(word) < u64::from(counts.objects) + u64::from(counts.interrupts) {
        Ok((word, next))
    } else {
        Err(Refusal::Limit { offset: at as u64 })
    }
}

impl Keyed for InterruptEntry {
    ghost key = { λ e. e.line };

    fn key(&self) -> u64 {
        u64::from(self.line)
    }
}

#[tactic(auto, unfolding(model::specs::Images::Image::interrupt_format))]
impl Spelled for InterruptEntry {
    ghost spelling = { (interrupt_format 0 0).spelling };

    fn append(&self, bytes: &mut Vec<u8>) -> Result<(), AllocError> {
        append_all(bytes, &[self.line, self.notification, self.badge])
    }
}

#[tactic(auto, unfolding(model::specs::Images::Image::interrupt_format))]
impl Listed for InterruptEntry {
    ghost format = { λ c. interrupt_format c.objects };

    ghost next = { λ e. e.line + 1 };

    fn fits(&self, counts: Counts, least: u64) -> Option<u64> {
        let InterruptEntry {
            line,
            notification,
            badge,
        } = *self;
        let key = u64::from(line);
        if least <= key && line <= 63 && notification < counts.objects && badge < 1 << 28 {
            Some(key + 1)
        } else {
            None
        }
    }
}

#[tactic(auto, unfolding(model::specs::Images::Image::interrupt_format))]
impl Entry for InterruptEntry {
    fn size() -> usize {
        12
    }

    fn read(
        bytes: &[u8],
        at: usize,
        counts: Counts,
        least: u64,
    ) -> Result<(InterruptEntry, usize), Refusal> {
        let (line, at) = word_between(bytes, at, least, 63)?;
        let (notification, at) = word_below(bytes, at, counts.objects)?;
        let (badge, at) = word_below(bytes, at, 1 << 28)?;
        Ok((
            InterruptEntry {
                line,
                notification,
                badge,
            },
            at,
        ))
    }

    fn least_after(&self) -> u64 {
        u64::from(self.line) + 1
    }
}

impl Keyed for TableEntry {
    ghost key = { λ e. pair_key e.root e.address };

    fn key(&self) -> u64 {
        pair_key(self.root, self.address)
    }
}

#[tactic(auto, unfolding(model::specs::Images::Image::table_format))]
impl Spelled for TableEntry {
    ghost spelling = { (table_format 0 0).spelling };

    fn append(&self, bytes: &mut Vec<u8>) -> Result<(), AllocError> {
        append_all(bytes, &[self.root, self.address, self.table])
    }
}

#[tactic(auto, unfolding(model::specs::Images::Image::table_format))]
impl Listed for TableEntry {
    ghost format = { λ c. table_format c.objects };

    ghost next = { λ e. pair_key e.root e.address + 1 };

    fn fits(&self, counts: Counts, least: u64) -> Option<u64> {
        let TableEntry {
            root,
            address,
            table,
        } = *self;
        let key = pair_key(root, address);
        if root < counts.objects && least <= key && table < counts.objects {
            Some(key + 1)
        } else {
            None
        }
    }
}

#[tactic(auto, unfolding(model::specs::Images::Image::table_format))]
impl Entry for TableEntry {
    fn size() -> usize {
        12
    }

    fn read(
        bytes: &[u8],
        at: usize,
        counts: Counts,
        least: u64,
    ) -> Result<(TableEntry, usize), Refusal> {
        let (root, at) = word_below(bytes, at, counts.objects)?;
        let (address, at) = second_part(bytes, at, root, least)?;
        let (table, at) = word_below(bytes, at, counts.objects)?;
        Ok((
            TableEntry {
                root,
                address,
                table,
            },
            at,
        ))
    }

    fn least_after(&self) -> u64 {
        pair_key(self.root, self.address) + 1
    }
}

impl Keyed for FrameEntry {
    ghost key = { λ e. pair_key e.root e.address };

    fn key(&self) -> u64 {
        pair_key(self.root, self.address)
    }
}

#[tactic(auto, unfolding(model::specs::Images::Image::frame_format))]
impl Spelled for FrameEntry {
    ghost spelling = { (frame_format 0 0).spelling };

    fn append(&self, bytes: &mut Vec<u8>) -> Result<(), AllocError> {
        append_all(bytes, &[self.root, self.address, self.frame, self.rights])
    }
}

#[tactic(auto, unfolding(model::specs::Images::Image::frame_format))]
impl Listed for FrameEntry {
    ghost format = { λ c. frame_format c.objects };

    ghost next = { λ e. pair_key e.root e.address + 1 };

    fn fits(&self, counts: Counts, least: u64) -> Option<u64> {
        let FrameEntry {
            root,
            address,
            frame,
            rights,
        } = *self;
        let key = pair_key(root, address);
        if root < counts.objects && least <= key && frame < counts.objects && rights <= 7 {
            Some(key + 1)
        } else {
            None
        }
    }
}

#[tactic(auto, unfolding(model::specs::Images::Image::frame_format))]
impl Entry for FrameEntry {
    fn size() -> usize {
        16
    }

    fn read(
        bytes: &[u8],
        at: usize,
        counts: Counts,
        least: u64,
    ) -> Result<(FrameEntry, usize), Refusal> {
        let (root, at) = word_below(bytes, at, counts.objects)?;
        let (address, at) = second_part(bytes, at, root, least)?;
        let (frame, at) = word_below(bytes, at, counts.objects)?;
        let (rights, at) = word_between(bytes, at, 0, 7)?;
        Ok((
            FrameEntry {
                root,
                address,
                frame,
                rights,
            },
            at,
        ))
    }

    fn least_after(&self) -> u64 {
        pair_key(self.root, self.address) + 1
    }
}

/// The highest value of a promised word at `at`, and the offset after it.
fn high_word(bytes: &[u8], at: usize, low: u32) -> Result<(u32, usize), Refusal>
    ensures { result ≡ (field (nat_le low)).reads bytes.now at }
{
    let (high, next) = any_word(bytes, at)?;
    if low <= high {
        Ok((high, next))
    } else {
        Err(Refusal::Limit { offset: at as u64 })
    }
}

impl Keyed for PromisedWord {
    ghost key = { λ _. 0 };

    fn key(&self) -> u64 {
        0
    }
}

#[tactic(auto, unfolding(model::specs::Images::Image::promised_word_format))]
impl Spelled for PromisedWord {
    ghost spelling = { promised_word_format.spelling };

    fn append(&self, bytes: &mut Vec<u8>) -> Result<(), AllocError> {
        append_all(bytes, &[self.low, self.high])
    }
}

#[tactic(auto, unfolding(model::specs::Images::Image::promised_word_format))]
impl Listed for PromisedWord {
    ghost format = { λ _ _. promised_word_format };

    ghost next = { λ _. 0 };

    fn fits(&self, _counts: Counts, _least: u64) -> Option<u64> {
        let PromisedWord { low, high } = *self;
        if low <= high { Some(0) } else { None }
    }
}

#[tactic(auto, unfolding(model::specs::Images::Image::promised_word_format))]
impl Entry for PromisedWord {
    fn size() -> usize {
        8
    }

    fn read(
        bytes: &[u8],
        at: usize,
        _counts: Counts,
        _least: u64,
    ) -> Result<(PromisedWord, usize), Refusal> {
        let (low, at) = any_word(bytes, at)?;
        let (high, at) = high_word(bytes, at, low)?;
        Ok((PromisedWord { low, high }, at))
    }

    fn least_after(&self) -> u64 {
        0
    }
}

/// The second word of what a slot holds at `at`, and the offset after it.
fn second_word(bytes: &[u8], at: usize, head: u32) -> Result<(u32, usize), Refusal>
    ensures { result ≡ (field (λ word. is_some (unpacked head word))).reads bytes.now at }
{
    let (word, next) = any_word(bytes, at)?;
    if unpacks(head, word) {
        Ok((word, next))
    } else {
        Err(Refusal::Limit { offset: at as u64 })
    }
}

/// The index of a slot's parent at `at`, and the offset after it.
fn parent_index(
    bytes: &[u8],
    at: usize,
    is_empty: bool,
    parent: u32,
) -> Result<(u32, usize), Refusal>
    ensures { result ≡ (field (names_parent is_empty parent)).reads bytes.now at }
{
    let (index, next) = any_word(bytes, at)?;
    if names_parent(is_empty, parent, index) {
        Ok((index, next))
    } else {
        Err(Refusal::Limit { offset: at as u64 })
    }
}

/// The index of a slot of a CNode at `at`, and the offset after it.
fn slot_index(bytes: &[u8], at: usize, cnode: u32, least: u64) -> Result<(u32, usize), Refusal>
    ensures { result ≡ (field (λ index. nat_le least (pair_key cnode index) && nat_lt index (2 ^ 14))).reads bytes.now at }
{
    let (index, next) = any_word(bytes, at)?;
    if least <= pair_key(cnode, index) && index < 1 << 14 {
        Ok((index, next))
    } else {
        Err(Refusal::Limit { offset: at as u64 })
    }
}

impl Keyed for SlotEntry {
    ghost key = { λ e. pair_key e.cnode e.index };

    fn key(&self) -> u64 {
        pair_key(self.cnode, self.index)
    }
}

#[tactic(auto, unfolding(model::specs::Images::Image::slot_format))]
impl Spelled for SlotEntry {
    ghost spelling = { (slot_format 0 0).spelling };

    fn append(&self, bytes: &mut Vec<u8>) -> Result<(), AllocError> {
        append_all(
            bytes,
            &[
                self.cnode,
                self.index,
                self.word0,
                self.word1,
                self.parent_cnode,
                self.parent_index,
            ],
        )
    }
}

#[tactic(auto, unfolding(model::specs::Images::Image::slot_format))]
impl Listed for SlotEntry {
    ghost format = { λ c. slot_format c.objects };

    ghost next = { λ e. pair_key e.cnode e.index + 1 };

    fn fits(&self, counts: Counts, least: u64) -> Option<u64> {
        let SlotEntry {
            cnode,
            index,
            word0,
            word1,
            parent_cnode,
            parent_index,
        } = *self;
        let key = pair_key(cnode, index);
        let is_empty = word0 == 0 && word1 == 0;
        if cnode < counts.objects
            && least <= key
            && index < 1 << 14
            && unpacks(word0, word1)
            && (parent_cnode < counts.objects || parent_cnode == u32::MAX)
            && names_parent(is_empty, parent_cnode, parent_index)
        {
            Some(key + 1)
        } else {
            None
        }
    }
}

#[tactic(auto, unfolding(model::specs::Images::Image::slot_format))]
impl Entry for SlotEntry {
    fn size() -> usize {
        24
    }

    fn read(
        bytes: &[u8],
        at: usize,
        counts: Counts,
        least: u64,
    ) -> Result<(SlotEntry, usize), Refusal> {
        let (cnode, at) = word_below(bytes, at, counts.objects)?;
        let (index, at) = slot_index(bytes, at, cnode, least)?;
        let (word0, at) = any_word(bytes, at)?;
        let (word1, at) = second_word(bytes, at, word0)?;
        let (parent_cnode, at) = object_or_none(bytes, at, counts.objects)?;
        let (parent_index, at) = parent_index(bytes, at, is_empty(word0, word1), parent_cnode)?;
        Ok((
            SlotEntry {
                cnode,
                index,
                word0,
                word1,
                parent_cnode,
                parent_index,
            },
            at,
        ))
    }

    fn least_after(&self) -> u64 {
        pair_key(self.cnode, self.index) + 1
    }
}
