//! Two texts, compared.

use crate::contents::{Side, changed, image_of};
use crate::faults::{DifferencesFault, in_first, in_second};
use crate::reaches::{Reach, Reaches, reaches_of};
use crate::things::Thing;
use source_texts::{Budgets, SourceText, read, with_budgets};
use std::alloc::{AllocError, Global};

/// What the threads of one text may do that those of another may not, and what else is not the same, a line for each thing. All are
/// empty where there is no difference.
#[derive(Drop)]
pub struct Changes {
    /// What those of the second may do that those of the first may not, with the lines of the second.
    pub more: String,
    /// What those of the first may do that those of the second may not.
    pub less: String,
    /// What is not the same and is neither: programs, the words that frames begin with, and what is promised, with the lines of the
    /// second.
    pub changed: String,
}

/// Which of two lists is written.
#[derive(Clone, Copy, PartialEq, Eq)]
enum List {
    More,
    Less,
}

/// A list that is being written.
#[derive(Drop)]
struct Writer {
    list: List,
    text: String,
}

impl Writer {
    /// The end of what a line of the text at hand says. What is no longer there has no line in the second text.
    fn end(&mut self, line: u64) -> Result<(), AllocError> {
        match self.list {
            List::More => write!(&mut self.text, " (line {line})\n"),
            List::Less => self.text.push_str("\n"),
        }
    }

    /// A thing that a thread may do.
    fn put_thing(&mut self, name: &str, thing: &Thing<'_>, line: u64) -> Result<(), AllocError> {
        let may = match self.list {
            List::More => "may",
            List::Less => "may no longer",
        };
        write!(&mut self.text, "{name}: {may} ")?;
        thing.put(&mut self.text)?;
        self.end(line)
    }

    /// What a thread may do that it may not by the other text. A call says that messages may be sent, too.
    fn put_things(
        &mut self,
        name: &str,
        reach: &Reach<'_>,
        other: Option<&Reach<'_>>,
    ) -> Result<(), AllocError> {
        for (thing, line) in reach.things.iter() {
            if !is_in(other, thing) && !is_said_by_call(reach, thing) {
                self.put_thing(name, thing, *line)?;
            }
        }
        Ok(())
    }

    /// A greater priority or budget than by the other text. `less` has the smaller one of the second.
    fn put_greater(
        &mut self,
        name: &str,
        what: &str,
        value: u64,
        other: u64,
        line: u64,
    ) -> Result<(), AllocError> {
        if value <= other {
            return Ok(());
        }
        let (is, was) = match self.list {
            List::More => (value, other),
            List::Less => (other, value),
        };
        write!(&mut self.text, "{name}: has {what} {is} in place of {was}")?;
        self.end(line)
    }

    /// How a thread runs, beside the same thread of the other text.
    fn put_running(
        &mut self,
        name: &str,
        reach: &Reach<'_>,
        other: &Reach<'_>,
    ) -> Result<(), AllocError> {
        let (priority, others) = (u64::from(reach.priority), u64::from(other.priority));
        self.put_greater(name, "priority", priority, others, reach.line)?;
        match (reach.budget, other.budget) {
            (Some(budget), Some(others)) => {
                self.put_greater(name, "budget", budget, others, reach.line)
            }
            _ => Ok(()),
        }
    }

    /// A thread that the other text does not have.
    fn put_lone(&mut self, name: &str, reach: &Reach<'_>) -> Result<(), AllocError> {
        let priority = reach.priority;
        match self.list {
            List::More => write!(
                &mut self.text,
                "{name}: is a thread, with priority {priority}"
            )?,
            List::Less => write!(&mut self.text, "{name}: is no longer a thread")?,
        }
        self.end(reach.line)
    }

    /// What a thread has, beside the same thread of the other text, if there is one.
    fn put_thread(
        &mut self,
        name: &str,
        reach: &Reach<'_>,
        other: Option<&Reach<'_>>,
    ) -> Result<(), AllocError> {
        match other {
            Some(other) => self.put_running(name, reach, other)?,
            None => self.put_lone(name, reach)?,
        }
        self.put_things(name, reach, other)
    }
}

/// Whether a thread may do a thing, if it is there.
fn is_in(reach: Option<&Reach<'_>>, thing: &Thing<'_>) -> bool {
    match reach {
        Some(reach) => reach.things.get(thing).is_some(),
        None => false,
    }
}

/// Whether a thread may also call where it may send.
fn is_said_by_call(reach: &Reach<'_>, thing: &Thing<'_>) -> bool {
    match thing.as_call() {
        Some(call) => reach.things.get(&call).is_some(),
        None => false,
    }
}

/// What the threads of one text have that those of the other have not.
fn list_of(
    alloc: Global,
    list: List,
    reaches: &Reaches<'_>,
    others: &Reaches<'_>,
) -> Result<String, AllocError> {
    let mut writer = Writer {
        list,
        text: String::new(alloc),
    };
    for (name, reach) in reaches.iter() {
        writer.put_thread(*name, reach, others.get(*name))?;
    }
    Ok(writer.text)
}

/// A text with what it declares, and the numbers that its budgets are taken for.
#[derive(Clone, Copy)]
struct Drafted<'c, 'b, 't, 'n> {
    content: &'c str,
    budgets: &'b Budgets,
    text: &'t SourceText<'n>,
}

/// What the threads of each of two texts may do that those of the other may not: of the second, and of the first.
fn lists_of(
    alloc: Global,
    one: Drafted<'_, '_, '_, '_>,
    other: Drafted<'_, '_, '_, '_>,
) -> Result<(String, String), AllocError> {
    let first = reaches_of(alloc, one.text, &one.budgets.lines)?;
    let second = reaches_of(alloc, other.text, &other.budgets.lines)?;
    let more = list_of(alloc, List::More, &second, &first)?;
    let less = list_of(alloc, List::Less, &first, &second)?;
    Ok((more, less))
}

/// What is not the same in two texts besides.
fn changes_of(
    alloc: Global,
    one: Drafted<'_, '_, '_, '_>,
    other: Drafted<'_, '_, '_, '_>,
) -> Result<String, AllocError> {
    let first = image_of(alloc, &one.budgets.text)?;
    let second = image_of(alloc, &other.budgets.text)?;
    let first_built = first.as_ref();
    let second_built = second.as_ref();
    let before = Side {
        content: one.content,
        text: one.text,
        image: first_built,
    };
    let after = Side {
        content: other.content,
        text: other.text,
        image: second_built,
    };
    changed(alloc, before, after)
}

/// Two texts, compared.
fn compared(
    alloc: Global,
    one: Drafted<'_, '_, '_, '_>,
    other: Drafted<'_, '_, '_, '_>,
) -> Result<Changes, AllocError> {
    let changed = changes_of(alloc, one, other)?;
    let (more, less) = lists_of(alloc, one, other)?;
    Ok(Changes {
        more,
        less,
        changed,
    })
}

/// What the threads of the text `after` may do that the threads of the same names in `before` may not, and the other way round. What
/// is compared is what each thread may do to which object, by the object's name: by capabilities in its CNodes and in those that
/// these name, by pages that are mapped, by its message buffer, and where its faults are reported; the badges that it sends and
/// signals with; its priority, and its budget where both texts give a number. A thread that the other text does not have is there
/// with all that it may do.
///
/// What is changed besides are programs and the words of pages, each by the first place that differs, where both texts make images,
/// and promises.
///
/// Not compared are: registers, certificates, the slots and addresses at which things are, where objects lie, and what interrupts
/// signal.
///
/// # Errors
///
/// The first line of `before`, or else of `after`, that is none of the text form or names what is not declared; or memory was
/// refused.
pub fn differences(alloc: Global, before: &str, after: &str) -> Result<Changes, DifferencesFault> {
    let first = with_budgets(alloc, before)?;
    let second = with_budgets(alloc, after)?;
    let first_text = read(alloc, &first.text).map_err(in_first)?;
    let second_text = read(alloc, &second.text).map_err(in_second)?;
    let one = Drafted {
        content: before,
        budgets: &first,
        text: &first_text,
    };
    let other = Drafted {
        content: after,
        budgets: &second,
        text: &second_text,
    };
    Ok(compared(alloc, one, other)?)
}
