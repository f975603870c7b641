//! What is written beside and in the lanes of a chart.

use crate::layouts::LEAST_LEFT;
use crate::threads::{Rest, ThreadRun};
use crate::words::{WordRun, shown_word};
use named_traces::{DeviceWord, NamedThread, SourcePlace, TextNames};
use std::alloc::{AllocError, Global};

/// The most characters that are shown of a name.
const LONGEST_NAME: usize = 28;

/// How wide a character of a name is, and of what is said in small letters.
const NAME_WIDTH: u32 = 7;

const SMALL_WIDTH: u32 = 5;

/// The least width of a stretch in which an address is written.
const ADDRESS_WIDTH: u32 = 96;

/// What is written beside a lane.
#[derive(Drop)]
pub(crate) struct LaneName {
    /// The thread or word: its name, or the address of the TCB or the word.
    pub(crate) name: String,
    /// Of a thread the most instructions from one wait to the next, and the budget, if there is a text; of a word the least and the
    /// greatest value.
    pub(crate) below: String,
}

/// The front of a name that is too long, or the name.
fn shown(name: &str) -> &str {
    match name.get(..LONGEST_NAME) {
        Some(front) => front,
        None => name,
    }
}

/// The most instructions of a thread from one wait to the next, of its budget.
fn longest_of_budget(
    alloc: Global,
    longest: u64,
    named: Option<&NamedThread<'_>>,
) -> Result<String, AllocError> {
    match named {
        None => format!(in alloc; "longest {longest}"),
        Some(named) => match named.budget {
            Some(budget) => format!(in alloc; "longest {longest} of {budget}"),
            None => format!(in alloc; "longest {longest} of auto"),
        },
    }
}

/// The name of a word, or its address.
fn name_of_word(
    alloc: Global,
    names: Option<&TextNames<'_>>,
    address: u32,
) -> Result<String, AllocError> {
    match device_word(names, address) {
        Some(word) => {
            let (page, index) = (shown(word.page), word.index);
            format!(in alloc; "{page} {index}")
        }
        None => format!(in alloc; "{address:08x}"),
    }
}

/// The word of a device page at an address, if there is a text that knows it.
fn device_word<'t>(names: Option<&TextNames<'t>>, address: u32) -> Option<DeviceWord<'t>> {
    names?.device_word(address)
}

impl LaneName {
    /// What is written beside the lane of a thread.
    pub(crate) fn of(
        alloc: Global,
        names: Option<&TextNames<'_>>,
        address: u32,
        run: &ThreadRun,
    ) -> Result<Self, AllocError> {
        let Some(names) = names else {
            return Ok(LaneName {
                name: format!(in alloc; "{address:08x}")?,
                below: String::new(alloc),
            });
        };
        let named = names.thread(address);
        Ok(LaneName {
            name: match named {
                Some(named) => String::from_str(alloc, shown(named.name))?,
                None => format!(in alloc; "{address:08x}")?,
            },
            below: longest_of_budget(alloc, run.longest, named)?,
        })
    }

    /// What is written beside the lane of a word.
    pub(crate) fn of_word(
        alloc: Global,
        names: Option<&TextNames<'_>>,
        address: u32,
        run: &WordRun,
    ) -> Result<Self, AllocError> {
        let (low, high) = (shown_word(alloc, run.low)?, shown_word(alloc, run.high)?);
        let (low, high) = (low.as_str(), high.as_str());
        Ok(LaneName {
            name: name_of_word(alloc, names, address)?,
            below: format!(in alloc; "{low} to {high}")?,
        })
    }

    /// How wide this is.
    pub(crate) fn width(&self) -> u32 {
        let name = width_of(&self.name, NAME_WIDTH);
        name.max(width_of(&self.below, SMALL_WIDTH))
    }
}

/// How wide a text of such characters is.
fn width_of(text: &str, character: u32) -> u32 {
    (text.len().min(200) as u32).saturating_mul(character)
}

/// Where lanes with these names begin.
pub(crate) fn left_of(names: &[LaneName]) -> u32 {
    let mut left = LEAST_LEFT;
    for name in names {
        left = left.max(name.width().saturating_add(16));
    }
    left
}

/// What is said of a thread that rests at a place: whole if there is room, or else the line alone if there is room for that.
fn said_of_place(
    alloc: Global,
    verb: &str,
    place: &SourcePlace<'_>,
    room: u32,
) -> Result<Option<String>, AllocError> {
    let mut whole = format!(in alloc; "{verb} at ")?;
    place.push(&mut whole)?;
    if width_of(&whole, SMALL_WIDTH) < room {
        return Ok(Some(whole));
    }
    let mut line = String::new(alloc);
    place.push_line(&mut line)?;
    if width_of(&line, SMALL_WIDTH) < room {
        Ok(Some(line))
    } else {
        Ok(None)
    }
}

/// What is said of a thread that rests at an address, if there is room.
fn said_of_address(
    alloc: Global,
    verb: &str,
    pc: u32,
    room: u32,
) -> Result<Option<String>, AllocError> {
    if room < ADDRESS_WIDTH {
        return Ok(None);
    }
    Ok(Some(format!(in alloc; "{verb} at {pc:#x}")?))
}

/// What is said of a thread that rests so long, if there is room: where it waits, and if there is a text also where it faulted.
pub(crate) fn said_of_rest(
    alloc: Global,
    names: Option<&TextNames<'_>>,
    thread: u32,
    rest: Rest,
    room: u32,
) -> Result<Option<String>, AllocError> {
    let (verb, pc) = match rest {
        Rest::Ready => return Ok(None),
        Rest::Waits { pc } => ("waits", pc),
        Rest::Faulted { pc } if names.is_some() => ("fault", pc),
        Rest::Faulted { .. } => return Ok(None),
    };
    match place_of(names, thread, pc) {
        Some(place) => said_of_place(alloc, verb, &place, room),
        None => said_of_address(alloc, verb, pc, room),
    }
}

/// Where an instruction of a thread is in the text, if there is one that knows.
fn place_of<'t>(names: Option<&TextNames<'t>>, thread: u32, pc: u32) -> Option<SourcePlace<'t>> {
    let names = names?;
    names.place(names.thread(thread)?, pc)
}
