//! The edges of a graph: what threads may do with the objects that they hold, and what memory they share.

use crate::rights_words::{frame_words, mapping_words};
use crate::scenes::Scene;
use model::{ObjectKind, ObjectType};
use source_texts::{CapabilityLine, FrameLine, Source, SourceThread};
use std::alloc::AllocError;
use system_pictures::Reached;

/// Of the rights of a capability, as the text has them.
const WRITE: u32 = 1;

const READ: u32 = 2;

const GRANT_REPLY: u32 = 8;

/// Puts where an edge leads from and to.
pub(crate) fn push_ends(to: &mut String, from: &str, target: &str) -> Result<(), AllocError> {
    write!(to, "  \"{from}\" -> \"{target}\" ")
}

/// Puts an edge with its label, and how it is drawn.
fn push_edge(
    to: &mut String,
    from: &str,
    target: &str,
    label: &str,
    look: &str,
) -> Result<(), AllocError> {
    push_ends(to, from, target)?;
    write!(to, "[label=\"{label}\", {look}];\n")
}

/// Puts the badge of a capability, after what it lets its thread do.
fn push_badge(to: &mut String, badge: u32) -> Result<(), AllocError> {
    if badge == 0 {
        Ok(())
    } else {
        write!(to, ", badge {badge}")
    }
}

/// Puts the label of an edge for sending, which has a badge, and its colour.
fn push_sending(to: &mut String, words: &str, badge: u32, colour: &str) -> Result<(), AllocError> {
    write!(to, "[label=\"{words}")?;
    push_badge(to, badge)?;
    write!(to, "\", color=\"{colour}\"];\n")
}

/// Puts the label of an edge of a shared page, and how it is drawn.
fn push_shared(
    to: &mut String,
    address: u32,
    words: &str,
    direction: &str,
) -> Result<(), AllocError> {
    write!(
        to,
        "[label=\"{address:#x} {words}\", color=\"#b0612b\", dir={direction}];\n"
    )
}

impl Scene<'_, '_, '_> {
    /// The edges of what a thread holds, of the pages that it shares, of its message buffer, and of its fault handler.
    pub(crate) fn push_links(
        &mut self,
        thread: &SourceThread<'_>,
        reached: &Reached,
    ) -> Result<(), AllocError> {
        let name = self.text.object_name(thread.tcb);
        self.push_all_held(name, reached)?;
        self.push_mappings(name, thread.root)?;
        self.push_buffer(name, thread)?;
        self.push_handler(name, thread)
    }

    /// The edges of all capabilities in some CNodes.
    fn push_all_held(&mut self, name: &str, reached: &Reached) -> Result<(), AllocError> {
        for capability in &self.text.capabilities {
            if reached.contains(capability.cnode) {
                self.push_held(name, capability)?;
            }
        }
        Ok(())
    }

    /// The edges of a capability. Which interrupts a thread may acknowledge is in its box.
    fn push_held(&mut self, name: &str, capability: &CapabilityLine) -> Result<(), AllocError> {
        let object = self.text.source_name(capability.source);
        match capability.source {
            Source::Object(number) => {
                let kind = self.text.kind(number);
                self.push_object_held(name, object, kind, capability)
            }
            Source::Interrupt(_) => Ok(()),
        }
    }

    /// The edges of a capability to an object of a kind.
    fn push_object_held(
        &mut self,
        name: &str,
        object: &str,
        kind: Option<ObjectType>,
        capability: &CapabilityLine,
    ) -> Result<(), AllocError> {
        match kind {
            Some(ObjectType::Untyped { .. }) => push_edge(
                &mut self.graph,
                object,
                name,
                "memory",
                "style=dotted, arrowhead=none",
            ),
            Some(ObjectType::Object(ObjectKind::Endpoint)) => {
                self.push_endpoint(name, object, capability)
            }
            Some(ObjectType::Object(ObjectKind::Notification)) => {
                self.push_notification(name, object, capability)
            }
            Some(ObjectType::Object(ObjectKind::Frame)) => push_edge(
                &mut self.graph,
                object,
                name,
                frame_words(capability.rights),
                "style=dotted, color=\"#b0612b\", dir=back",
            ),
            _ => Ok(()),
        }
    }

    /// The edges of a capability to an endpoint: to it for sending, from it for receiving.
    fn push_endpoint(
        &mut self,
        name: &str,
        object: &str,
        capability: &CapabilityLine,
    ) -> Result<(), AllocError> {
        if capability.rights & WRITE != 0 {
            let words = if capability.rights & GRANT_REPLY != 0 {
                "call"
            } else {
                "send"
            };
            push_ends(&mut self.graph, name, object)?;
            push_sending(&mut self.graph, words, capability.payload, "#3c7a36")?;
        }
        if capability.rights & READ != 0 {
            push_edge(
                &mut self.graph,
                object,
                name,
                "receive",
                "color=\"#3c7a36\"",
            )?;
        }
        Ok(())
    }

    /// The edges of a capability to a notification: to it for signals, from it for waiting.
    fn push_notification(
        &mut self,
        name: &str,
        object: &str,
        capability: &CapabilityLine,
    ) -> Result<(), AllocError> {
        if capability.rights & WRITE != 0 {
            push_ends(&mut self.graph, name, object)?;
            push_sending(&mut self.graph, "signal", capability.payload, "#a07d13")?;
        }
        if capability.rights & READ != 0 {
            push_edge(&mut self.graph, object, name, "wait", "color=\"#a07d13\"")?;
        }
        Ok(())
    }

    /// The edges of the pages under a root table that are shared.
    fn push_mappings(&mut self, name: &str, root: usize) -> Result<(), AllocError> {
        for page in &self.text.frames {
            if page.root == root && self.is_shared(page.frame) {
                self.push_mapping(name, page)?;
            }
        }
        Ok(())
    }

    /// The edge of a page that is shared.
    fn push_mapping(&mut self, name: &str, page: &FrameLine) -> Result<(), AllocError> {
        let direction = if page.rights & WRITE != 0 {
            "both"
        } else {
            "forward"
        };
        push_ends(&mut self.graph, self.text.object_name(page.frame), name)?;
        push_shared(
            &mut self.graph,
            page.address,
            mapping_words(page.rights),
            direction,
        )
    }

    /// The edge to the frame of a thread's message buffer.
    fn push_buffer(&mut self, name: &str, thread: &SourceThread<'_>) -> Result<(), AllocError> {
        match thread.buffer {
            Some(buffer) => push_edge(
                &mut self.graph,
                self.text.object_name(buffer.frame),
                name,
                "message buffer",
                "style=dashed, color=\"#b0612b\", dir=both",
            ),
            None => Ok(()),
        }
    }

    /// The edge to the endpoint that a thread's faults are reported to.
    fn push_handler(&mut self, name: &str, thread: &SourceThread<'_>) -> Result<(), AllocError> {
        if thread.fault == 0 {
            return Ok(());
        }
        let Some(index) = self.text.root_index(thread, thread.fault) else {
            return Ok(());
        };
        match self.text.capability(thread.cnode, index) {
            Some(capability) => {
                let object = self.text.source_name(capability.source);
                push_edge(
                    &mut self.graph,
                    name,
                    object,
                    "faults",
                    "style=dashed, color=\"#b03030\"",
                )
            }
            None => Ok(()),
        }
    }
}
