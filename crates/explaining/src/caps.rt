//! Capabilities and slots in words.

use crate::scenes::Scene;
use capwords::pack;
use model::{Cap, FrameMapping, ObjectKind, ObjectType, Rights};
use std::alloc::AllocError;
use typestate::{NotedSlot, SlotKey};

/// What the rights of a mapping are.
pub(crate) fn mapping_words(rights: u32) -> &'static str {
    match rights & 7 {
        2 => "read",
        3 => "read, write",
        4 => "execute",
        6 => "read, execute",
        7 => "read, write, execute",
        _ => "no right",
    }
}

/// What the rights of a capability are.
pub(crate) fn rights_words(rights: Rights) -> &'static str {
    match rights.0 & 11 {
        0 => "no right",
        1 => "write",
        2 => "read",
        3 => "read, write",
        8 => "grant-reply",
        9 => "write, grant-reply",
        10 => "read, grant-reply",
        _ => "read, write, grant-reply",
    }
}

/// What a capability is to, and where that is.
fn kind_words(capability: Cap) -> (&'static str, u32) {
    match capability {
        Cap::Empty => ("nothing", 0),
        Cap::Untyped { offset, .. } => ("untyped memory", offset),
        Cap::Endpoint { offset, .. } => ("endpoint", offset),
        Cap::Notification { offset, .. } => ("notification", offset),
        Cap::CNode { offset, .. } => ("CNode", offset),
        Cap::Frame { offset, .. } => ("frame", offset),
        Cap::PageTable { offset, .. } => ("page table", offset),
        Cap::Tcb { offset } => ("thread", offset),
        Cap::RootTable { offset } => ("root table", offset),
        Cap::InterruptControl => ("interrupt control", 0),
        Cap::InterruptHandler { .. } => ("interrupt handler", 0),
    }
}

/// Whether a capability is to an object or to untyped memory.
fn is_to_object(capability: Cap) -> bool {
    !matches!(
        &capability,
        Cap::Empty | Cap::InterruptControl | Cap::InterruptHandler { .. }
    )
}

/// Whether a capability is to an object of this kind.
fn is_to(capability: Cap, kind: ObjectType) -> bool {
    matches!(
        (&capability, &kind),
        (Cap::Untyped { .. }, ObjectType::Untyped { .. })
            | (Cap::Tcb { .. }, ObjectType::Object(ObjectKind::Thread))
            | (
                Cap::Endpoint { .. },
                ObjectType::Object(ObjectKind::Endpoint)
            )
            | (
                Cap::Notification { .. },
                ObjectType::Object(ObjectKind::Notification)
            )
            | (
                Cap::CNode { .. },
                ObjectType::Object(ObjectKind::CNode { .. })
            )
            | (Cap::Frame { .. }, ObjectType::Object(ObjectKind::Frame))
            | (
                Cap::PageTable { .. },
                ObjectType::Object(ObjectKind::PageTable)
            )
            | (
                Cap::RootTable { .. },
                ObjectType::Object(ObjectKind::RootTable)
            )
    )
}

impl Scene<'_, '_, '_, '_, '_, '_, '_> {
    /// The name of the object that a capability to an offset names, if the text declares it.
    fn name_at(&self, capability: Cap, offset: u32) -> Option<&str> {
        for (number, object) in self.source.objects.iter().enumerate() {
            if is_to(capability, object.kind) && self.offsets.get(number) == Some(&offset) {
                return Some(object.name);
            }
        }
        None
    }

    /// Puts where a frame is mapped.
    fn push_mapping(&self, to: &mut String, mapping: &FrameMapping) -> Result<(), AllocError> {
        let address = mapping.page.wrapping_mul(4096);
        let words = mapping_words(u32::from(mapping.rights.0));
        write!(to, ", mapped at {address:#x} ({words})")
    }

    /// Puts a capability in words.
    pub(crate) fn push_cap(&self, to: &mut String, capability: Cap) -> Result<(), AllocError> {
        let (kind, offset) = kind_words(capability);
        to.push_str(kind)?;
        match self.name_at(capability, offset) {
            Some(name) => write!(to, " `{name}`")?,
            None if is_to_object(capability) => write!(to, " at {offset:#x}")?,
            None => {}
        }
        self.push_detail(to, capability)
    }

    /// Puts what a capability says beside its object: rights, a badge, how much is used.
    fn push_detail(&self, to: &mut String, capability: Cap) -> Result<(), AllocError> {
        match capability {
            Cap::Endpoint { rights, badge, .. } | Cap::Notification { rights, badge, .. } => {
                let words = rights_words(rights);
                write!(to, " ({words}), badge {badge}")
            }
            Cap::Frame {
                rights,
                mapping,
                ..
            } => {
                let words = rights_words(rights);
                write!(to, " ({words})")?;
                match mapping {
                    Some(mapping) => self.push_mapping(to, &mapping),
                    None => Ok(()),
                }
            }
            Cap::Untyped { watermark, .. } => write!(to, ", {watermark:#x} bytes used"),
            Cap::InterruptHandler { line } => write!(to, " of line {line}"),
            _ => Ok(()),
        }
    }

    /// Puts the name and the index of a slot.
    pub(crate) fn push_key(&self, to: &mut String, key: SlotKey) -> Result<(), AllocError> {
        let name = self.source.object_name(key.cnode as usize);
        let index = key.index;
        write!(to, "{name} {index}")
    }

    /// Puts the line that notes a slot.
    pub(crate) fn push_slot_line(
        &self,
        to: &mut String,
        slot: &NotedSlot,
    ) -> Result<(), AllocError> {
        let [head, word] = pack(slot.capability);
        to.push_str("`slot ")?;
        self.push_key(to, slot.key)?;
        write!(to, " {head:#010x} {word:#x} ")?;
        match slot.parent {
            Some(parent) => self.push_key(to, parent)?,
            None => to.push_str("boot 0")?,
        }
        to.push_str("`")
    }
}
