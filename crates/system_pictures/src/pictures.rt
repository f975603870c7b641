//! A system as a picture.

use crate::arrows::{Arrow, Arrows, arrows_of};
use crate::faults::PictureFault;
use crate::layouts::{LINE, Layout, OUTSIDE, Outside, Place, layout_of};
use crate::shapes::{
    Frame, LEGEND, Line, OBJECT_WIDTH, OBJECTS, OUTSIDE_WIDTH, OUTSIDES, STYLE, THREAD_WIDTH,
    THREADS, WIDTH, push_arrow, push_frame, push_line, push_object_frame, push_words, sort_of,
};
use crate::uses::{Uses, uses_of};
use crate::words::push_kind;
use source_texts::{Budgets, SourceText, read, without_programs};
use std::alloc::{AllocError, Global};

/// How many characters of a name, and of what is said of it, fit into the boxes of the columns.
const MOST_NAME: usize = 28;

const MOST_SAID: usize = 40;

const MOST_OUTSIDE: usize = 18;

/// A picture that is being drawn.
#[derive(Drop)]
struct Picturing<'t, 's, 'l> {
    alloc: Global,
    text: &'t SourceText<'s>,
    /// The lines of the threads whose budgets are to be found.
    automatic: &'l [u64],
    svg: String,
}

impl Picturing<'_, '_, '_> {
    /// The head: how large it is, and how its signs look.
    fn push_head(&mut self, height: u32) -> Result<(), AllocError> {
        let height = height.saturating_add(24);
        write!(
            self.svg,
            "<svg class=\"mp\" xmlns=\"http://www.w3.org/2000/svg\" role=\"img\" aria-label=\"the system\" width=\"{WIDTH}\" height=\"{height}\" \
             viewBox=\"0 0 {WIDTH} {height}\">\n"
        )?;
        self.svg.push_str(STYLE)
    }

    /// All arrows, below the boxes.
    fn push_arrows(&mut self, arrows: &Arrows) -> Result<(), AllocError> {
        for arrow in &arrows.all {
            self.push_use(arrow)?;
        }
        Ok(())
    }

    /// The arrow of what a thread does with an object.
    fn push_use(&mut self, arrow: &Arrow) -> Result<(), AllocError> {
        let sort = sort_of(self.text.kind(arrow.object));
        push_arrow(
            &mut self.svg,
            sort,
            Line {
                left: THREADS + THREAD_WIDTH,
                from: arrow.thread_height,
                right: OBJECTS,
                to: arrow.object_height,
                left_head: arrow.comes,
                right_head: arrow.goes,
            },
        )
    }

    /// The box of a thread: its name, how it runs, and notes.
    fn push_thread(&mut self, place: &Place) -> Result<(), AllocError> {
        let Some(thread) = self.text.threads.get(place.number) else {
            return Ok(());
        };
        let (left, top) = (THREADS, place.top);
        push_frame(
            &mut self.svg,
            "t",
            Frame {
                left,
                top,
                width: THREAD_WIDTH,
                height: place.height,
            },
        )?;
        let name = self.text.object_name(thread.tcb);
        self.push_text(
            "n",
            left.saturating_add(8),
            top.saturating_add(15),
            name,
            MOST_NAME,
        )?;
        let said = self.running(place.number)?;
        self.push_text(
            "s",
            left.saturating_add(8),
            top.saturating_add(28),
            said.as_str(),
            MOST_SAID,
        )?;
        self.push_notes(place)
    }

    /// How a thread runs: its priority and its budget.
    fn running(&self, number: usize) -> Result<String, AllocError> {
        let Some(thread) = self.text.threads.get(number) else {
            return Ok(String::new(self.alloc));
        };
        let (priority, budget) = (thread.priority, thread.budget);
        if self.automatic.contains(&thread.line) {
            format!(in self.alloc; "priority {priority}, budget auto")
        } else {
            format!(in self.alloc; "priority {priority}, budget {budget}")
        }
    }

    /// The notes in the box of a thread.
    fn push_notes(&mut self, place: &Place) -> Result<(), AllocError> {
        let mut base = place.top.saturating_add(41);
        for note in &place.notes {
            self.push_text("s", THREADS + 8, base, note.as_str(), MOST_SAID)?;
            base = base.saturating_add(LINE);
        }
        Ok(())
    }

    /// Words at a place.
    fn push_text(
        &mut self,
        class: &str,
        left: u32,
        base: u32,
        said: &str,
        most: usize,
    ) -> Result<(), AllocError> {
        push_words(self.alloc, &mut self.svg, class, left, base, said, most)
    }

    /// What each arrow is for, where it begins.
    fn push_labels(&mut self, arrows: &Arrows) -> Result<(), AllocError> {
        for arrow in &arrows.all {
            let name = self.text.object_name(arrow.object);
            let label = arrow.label.as_str();
            let said = format!(in self.alloc; "{name}: {label}")?;
            let base = arrow.thread_height.saturating_add(3);
            let right = THREADS + THREAD_WIDTH - 6;
            self.push_text("e", right, base, said.as_str(), MOST_SAID)?;
        }
        Ok(())
    }

    /// The box of an object: its name, and what it is.
    fn push_object(&mut self, place: &Place) -> Result<(), AllocError> {
        let sort = sort_of(self.text.kind(place.number));
        let (left, top) = (OBJECTS, place.top);
        push_object_frame(
            &mut self.svg,
            sort,
            Frame {
                left,
                top,
                width: OBJECT_WIDTH,
                height: place.height,
            },
        )?;
        let name = self.text.object_name(place.number);
        let middle = top.saturating_add(place.height / 2);
        self.push_text(
            "n",
            left.saturating_add(10),
            middle.saturating_sub(2),
            name,
            MOST_NAME,
        )?;
        let mut kind = String::new(self.alloc);
        push_kind(&mut kind, self.text, place.number)?;
        self.push_text(
            "s",
            left.saturating_add(10),
            middle.saturating_add(11),
            kind.as_str(),
            MOST_SAID,
        )
    }

    /// The box of what comes from outside, and its arrow.
    fn push_outside(&mut self, outside: &Outside) -> Result<(), AllocError> {
        let middle = outside.top.saturating_add(OUTSIDE / 2);
        push_frame(
            &mut self.svg,
            "x",
            Frame {
                left: OUTSIDES,
                top: outside.top,
                width: OUTSIDE_WIDTH,
                height: OUTSIDE,
            },
        )?;
        push_line(
            &mut self.svg,
            "ax",
            Line {
                left: OBJECTS + OBJECT_WIDTH,
                from: outside.object_height,
                right: OUTSIDES,
                to: middle,
                left_head: true,
                right_head: outside.line.is_none(),
            },
        )?;
        let said = self.outside_words(outside)?;
        self.push_text(
            "s",
            OUTSIDES + 6,
            middle.saturating_add(4),
            said.as_str(),
            MOST_OUTSIDE,
        )
    }

    /// What comes from outside.
    fn outside_words(&self, outside: &Outside) -> Result<String, AllocError> {
        let Some(line) = outside.line else {
            return String::from_str(self.alloc, "the world");
        };
        match self.text.interrupts.get(line) {
            Some(interrupt) => {
                let (number, badge) = (interrupt.number, interrupt.badge);
                format!(in self.alloc; "line {number} with {badge}")
            }
            None => Ok(String::new(self.alloc)),
        }
    }

    /// The whole picture.
    fn push_all(&mut self, layout: &Layout, arrows: &Arrows) -> Result<(), AllocError> {
        self.push_head(layout.height)?;
        self.push_arrows(arrows)?;
        for place in &layout.threads {
            self.push_thread(place)?;
        }
        self.push_labels(arrows)?;
        for place in &layout.objects {
            self.push_object(place)?;
        }
        for outside in &layout.outside {
            self.push_outside(outside)?;
        }
        let base = layout.height.saturating_add(12);
        self.push_text("s", THREADS, base, LEGEND, usize::MAX)?;
        self.svg.push_str("</svg>\n")
    }
}

/// The picture of a text whose threads do this. The budgets of the threads on the lines `automatic` are to be found.
///
/// # Errors
///
/// Memory may be refused.
pub fn picture_of(
    alloc: Global,
    text: &SourceText<'_>,
    uses: &Uses,
    automatic: &[u64],
) -> Result<String, AllocError> {
    let mut arrows = arrows_of(alloc, text, uses)?;
    let layout = layout_of(alloc, text, uses, &mut arrows)?;
    let mut picturing = Picturing {
        alloc,
        text,
        automatic,
        svg: String::new(alloc),
    };
    picturing.push_all(&layout, &arrows)?;
    Ok(picturing.svg)
}

/// The picture of a text with budgets.
fn pictured(alloc: Global, budgets: &Budgets) -> Result<String, PictureFault> {
    let source = read(alloc, &budgets.text)?;
    let uses = uses_of(alloc, &source)?;
    Ok(picture_of(alloc, &source, &uses, budgets.lines.as_slice())?)
}

/// The system that a text describes as a picture, SVG in integers: on the left the threads from the highest priority down, with what each may
/// do; beside them doors, bells, pages that are shared, and what else threads hold; on the right the lines of the machine and the world at
/// device pages. A budget may be `auto`, and a line `program FILE ..` may be in the place of instructions.
///
/// # Errors
///
/// The first line that is at fault, or memory refused.
pub fn picture(alloc: Global, text: &str) -> Result<String, PictureFault> {
    let budgets = without_programs(alloc, text)?;
    pictured(alloc, &budgets)
}

#[cfg(test)]
mod tests {
    use super::*;
    use crate::words::push_said;
    use std::test::Fail;

    const TEXT: &str =
        "memory 16 4\nuntyped u 0x1000 14\nobject teller u tcb\nobject bell u notification\nobject cs u cnode 4\nobject vs u root\nirq beat 7 bell 2\n\
         cap cs 1 bell 3 5\nthread teller cs 0 vs 7 100 0 start 0x1000\nstart: jal x0 start\nend\n";

    #[test]
    fn a_thread_rings_and_waits(rt: HostRuntime) -> Result<(), Fail> {
        let svg = picture(rt.alloc(), TEXT).expect(&rt, "drawn");
        assert!(rt; svg.contains(">teller</text>"));
        assert!(rt; svg.contains(">priority 7, budget 100</text>"));
        assert!(rt; svg.contains(">bell: waits, rings with 5</text>"));
        assert!(rt; svg.contains(">line 7 with 2</text>"));
        Ok(())
    }

    #[test]
    fn signs_are_text(rt: HostRuntime) -> Result<(), Fail> {
        let mut text = String::new(rt.alloc());
        push_said(&mut text, "<b onload='x'>&\"\u{7}")?;
        assert_eq!(rt; text.as_str(), "&lt;b onload=&#39;x&#39;&gt;&amp;&quot;?");
        Ok(())
    }

    #[test]
    fn a_line_that_is_none_is_named(rt: HostRuntime) {
        let drawn = picture(rt.alloc(), "memory 16 4\nobject\n");
        assert!(rt; matches!(drawn, Err(PictureFault::Malformed { line: 2 })));
    }
}
