//! The nodes of a graph: threads, objects and interrupt lines.

use crate::links::push_ends;
use crate::rights_words::mapping_words;
use crate::scenes::Scene;
use model::{ObjectKind, ObjectType};
use source_texts::{FrameLine, InterruptLine, PromiseLine, Source, SourceThread};
use std::alloc::AllocError;
use system_pictures::{Reached, push_size};

/// How many of a thread's own pages its node names.
const MOST_PAGES: u32 = 8;

/// What is before what is said in small letters below a name.
const SMALL: &str = "<BR/><FONT POINT-SIZE=\"9\" COLOR=\"#555555\">";

/// How untyped memory is drawn.
const MEMORY: &str = "shape=cylinder, style=filled, fillcolor=\"#eeeeee\", color=\"#777777\"";

/// How an endpoint is drawn.
const ENDPOINT: &str = "shape=ellipse, style=filled, fillcolor=\"#dff2dd\", color=\"#3c7a36\"";

/// How a notification is drawn.
const NOTIFICATION: &str = "shape=hexagon, style=filled, fillcolor=\"#fdf3cf\", color=\"#a07d13\"";

/// How a frame is drawn.
const FRAME: &str = "shape=note, style=filled, fillcolor=\"#fbe5d6\", color=\"#b0612b\"";

/// How an interrupt line is drawn.
const INTERRUPT: &str = "shape=cds, style=filled, fillcolor=\"#f3dcea\", color=\"#8d3b70\"";

/// Puts the name of a node and how it is drawn, up to what is said below the name.
fn push_shape(to: &mut String, name: &str, look: &str) -> Result<(), AllocError> {
    write!(to, "  \"{name}\" [{look}, label=<{name}")?;
    to.push_str(SMALL)
}

/// Puts a node with these words below its name.
fn push_node(to: &mut String, name: &str, look: &str, words: &str) -> Result<(), AllocError> {
    push_shape(to, name, look)?;
    write!(to, "{words}</FONT>>];\n")
}

/// Puts the node of an endpoint, with what is promised of the messages to it.
fn push_endpoint(
    to: &mut String,
    name: &str,
    promise: Option<&PromiseLine>,
) -> Result<(), AllocError> {
    push_shape(to, name, ENDPOINT)?;
    to.push_str("endpoint")?;
    if let Some(promise) = promise {
        push_promise(to, promise)?;
    }
    to.push_str("</FONT>>];\n")
}

/// Puts what is promised of messages.
fn push_promise(to: &mut String, promise: &PromiseLine) -> Result<(), AllocError> {
    let (low, high) = (promise.badge_low, promise.badge_high);
    write!(to, "<BR/>badge {low} to {high}")?;
    let mut place = 0usize;
    for word in &promise.words {
        let (low, high) = (word.low, word.high);
        write!(to, "<BR/>word {place}: {low} to {high}")?;
        place = place.saturating_add(1);
    }
    Ok(())
}

/// Puts the node of untyped memory, with its size.
fn push_memory(to: &mut String, name: &str, bits: u32) -> Result<(), AllocError> {
    push_shape(to, name, MEMORY)?;
    push_size(to, bits)?;
    to.push_str("</FONT>>];\n")
}

/// Puts the node of an interrupt line.
fn push_interrupt_line(to: &mut String, name: &str, number: u32) -> Result<(), AllocError> {
    push_shape(to, name, INTERRUPT)?;
    write!(to, "interrupt line {number}</FONT>>];\n")
}

/// Puts the edge of what an interrupt signals.
fn push_signal(to: &mut String, name: &str, target: &str, badge: u32) -> Result<(), AllocError> {
    push_ends(to, name, target)?;
    write!(
        to,
        "[label=\"signal, badge {badge}\", color=\"#8d3b70\"];\n"
    )
}

/// Puts the node of a thread up to its name.
fn push_box(to: &mut String, name: &str) -> Result<(), AllocError> {
    write!(
        to,
        "  \"{name}\" [shape=box, style=\"rounded,filled\", fillcolor=\"#dce9f7\", color=\"#2b5c8f\", penwidth=1.4, label=<<B>{name}</B>"
    )
}

/// Puts how many pages more a thread has than its node names.
fn push_more(to: &mut String, more: u32) -> Result<(), AllocError> {
    to.push_str(SMALL)?;
    write!(to, "and {more} more pages</FONT>")
}

impl Scene<'_, '_, '_> {
    /// The node of a thread: its name, how it runs, the interrupts that it may acknowledge, and the pages that it alone has.
    pub(crate) fn push_thread(
        &mut self,
        thread: &SourceThread<'_>,
        reached: &Reached,
    ) -> Result<(), AllocError> {
        push_box(&mut self.graph, self.text.object_name(thread.tcb))?;
        self.push_running(thread)?;
        self.push_acknowledged(reached)?;
        self.push_pages(thread.root)?;
        self.graph.push_str(">];\n")
    }

    /// How a thread runs: its priority and its budget.
    fn push_running(&mut self, thread: &SourceThread<'_>) -> Result<(), AllocError> {
        let (priority, budget) = (thread.priority, thread.budget);
        write!(self.graph, "<BR/>priority {priority}, ")?;
        if self.is_automatic(thread.line) {
            self.graph.push_str("budget auto")
        } else {
            write!(self.graph, "budget {budget}")
        }
    }

    /// The interrupts that a thread may acknowledge.
    fn push_acknowledged(&mut self, reached: &Reached) -> Result<(), AllocError> {
        for capability in &self.text.capabilities {
            if let Source::Interrupt(number) = capability.source {
                if reached.contains(capability.cnode) {
                    self.push_acknowledged_line(number)?;
                }
            }
        }
        Ok(())
    }

    /// An interrupt that a thread may acknowledge.
    fn push_acknowledged_line(&mut self, number: usize) -> Result<(), AllocError> {
        let Some(InterruptLine { number, .. }) = self.text.interrupts.get(number) else {
            return Ok(());
        };
        self.graph.push_str(SMALL)?;
        write!(self.graph, "acknowledges interrupt {number}</FONT>")
    }

    /// The pages of a root table that nothing else maps or names.
    fn push_pages(&mut self, root: usize) -> Result<(), AllocError> {
        let mut count = 0u32;
        for page in &self.text.frames {
            if page.root == root && !self.is_shared(page.frame) {
                count = count.saturating_add(1);
                if count <= MOST_PAGES {
                    self.push_page(page)?;
                }
            }
        }
        if count > MOST_PAGES {
            push_more(&mut self.graph, count - MOST_PAGES)?;
        }
        Ok(())
    }

    /// A page that a thread alone has.
    fn push_page(&mut self, page: &FrameLine) -> Result<(), AllocError> {
        let address = page.address;
        let name = self.text.object_name(page.frame);
        let rights = mapping_words(page.rights);
        self.graph.push_str(SMALL)?;
        write!(self.graph, "{address:#x} {name}: {rights}</FONT>")
    }

    /// The node of an object that threads share or hold, if its kind has one.
    pub(crate) fn push_object(&mut self, number: usize) -> Result<(), AllocError> {
        let name = self.text.object_name(number);
        match self.text.kind(number) {
            Some(ObjectType::Untyped { bits }) => {
                push_memory(&mut self.graph, name, u32::from(bits))
            }
            Some(ObjectType::Object(ObjectKind::Endpoint)) => {
                push_endpoint(&mut self.graph, name, self.text.promise(number))
            }
            Some(ObjectType::Object(ObjectKind::Notification)) => {
                push_node(&mut self.graph, name, NOTIFICATION, "notification")
            }
            Some(ObjectType::Object(ObjectKind::Frame)) => {
                let is_device = self.text.is_device(number);
                let words = if is_device { "device page" } else { "frame" };
                push_node(&mut self.graph, name, FRAME, words)
            }
            _ => Ok(()),
        }
    }

    /// The nodes of the interrupt lines, and what they signal.
    pub(crate) fn push_interrupts(&mut self) -> Result<(), AllocError> {
        for interrupt in &self.text.interrupts {
            self.push_interrupt(interrupt)?;
        }
        Ok(())
    }

    /// The node of an interrupt line, and what it signals.
    fn push_interrupt(&mut self, interrupt: &InterruptLine<'_>) -> Result<(), AllocError> {
        let target = self.text.object_name(interrupt.notification);
        push_interrupt_line(&mut self.graph, interrupt.name, interrupt.number)?;
        push_signal(&mut self.graph, interrupt.name, target, interrupt.badge)
    }
}
