//! A system as a graph.

use crate::faults::DrawingFault;
use crate::scenes::{Scene, uses_of};
use model::{ObjectKind, ObjectType};
use sinks::{Sink, put_all};
use source_texts::{Budgets, SourceText, read, without_programs};
use std::alloc::{AllocError, Global};
use system_pictures::reached_in;

/// What is at the head of each graph.
const HEAD: &str =
    "digraph system {\n  graph [rankdir=LR, bgcolor=white, pad=0.3, nodesep=0.35, ranksep=0.7, fontname=\"Helvetica\"];\n  \
     node [fontname=\"Helvetica\", fontsize=12, margin=\"0.14,0.08\"];\n  \
     edge [fontname=\"Helvetica\", fontsize=10, fontcolor=\"#333333\", color=\"#555555\", arrowsize=0.7];\n";

/// Whether an object of this kind is drawn where a capability names it: untyped memory, an endpoint, or a notification.
fn is_drawn(kind: Option<ObjectType>) -> bool {
    matches!(
        &kind,
        Some(
            ObjectType::Untyped { .. }
                | ObjectType::Object(ObjectKind::Endpoint | ObjectKind::Notification)
        )
    )
}

/// Whether this is a frame.
fn is_frame(kind: Option<ObjectType>) -> bool {
    matches!(&kind, Some(ObjectType::Object(ObjectKind::Frame)))
}

/// The graph of a text.
fn graph_of(alloc: Global, text: &SourceText<'_>, automatic: &[u64]) -> Result<String, AllocError> {
    let reached = reached_in(alloc, text)?;
    let mut scene = Scene {
        text,
        automatic,
        reached: &reached,
        uses: uses_of(alloc, text)?,
        graph: String::new(alloc),
    };
    scene.push_all()?;
    Ok(scene.graph)
}

impl Scene<'_, '_, '_> {
    /// The whole graph.
    fn push_all(&mut self) -> Result<(), AllocError> {
        self.graph.push_str(HEAD)?;
        self.push_threads()?;
        self.push_objects()?;
        self.push_interrupts()?;
        self.push_all_links()?;
        self.graph.push_str("}\n")
    }

    /// All threads.
    fn push_threads(&mut self) -> Result<(), AllocError> {
        for (thread, reached) in self.text.threads.iter().zip(self.reached) {
            self.push_thread(thread, reached)?;
        }
        Ok(())
    }

    /// All objects that are drawn.
    fn push_objects(&mut self) -> Result<(), AllocError> {
        for number in 0..self.text.objects.len() {
            let kind = self.text.kind(number);
            if (is_drawn(kind) && self.is_named(number))
                || (is_frame(kind) && self.is_shared(number))
            {
                self.push_object(number)?;
            }
        }
        Ok(())
    }

    /// What each thread holds.
    fn push_all_links(&mut self) -> Result<(), AllocError> {
        for (thread, reached) in self.text.threads.iter().zip(self.reached) {
            self.push_links(thread, reached)?;
        }
        Ok(())
    }
}

/// The graph of a text with budgets.
fn drawn(alloc: Global, budgets: &Budgets) -> Result<String, DrawingFault> {
    let source = read(alloc, &budgets.text)?;
    let graph = graph_of(alloc, &source, &budgets.lines)?;
    Ok(graph)
}

/// Puts the system that a text describes as text for Graphviz: threads with priority, budget and the pages that are theirs alone;
/// endpoints and notifications between them, with rights and badges; frames that are shared or message buffers; untyped memory;
/// interrupt lines. A budget may be `auto`, and a line `program FILE ..` may be in the place of instructions.
///
/// # Errors
///
/// The first line that is at fault, an output that takes no more, or memory refused. Only the second has put anything.
pub fn draw<S: Sink>(alloc: Global, text: &str, output: &mut S) -> Result<(), DrawingFault> {
    let budgets = without_programs(alloc, text)?;
    let graph = drawn(alloc, &budgets)?;
    put_all(output, graph.as_bytes())?;
    Ok(())
}
