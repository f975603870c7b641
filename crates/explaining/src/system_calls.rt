//! System calls that the rules refuse.

use crate::call_words::{call_name, check_words, push_method};
use crate::point_words::{push_number, push_range};
use crate::scenes::Scene;
use crate::states::State;
use cspace::called_slot;
use invoke::{Method, listed_words};
use model::{Cap, KError, Register, Rights};
use slots::SlotMap;
use std::alloc::AllocError;
use typestate::{OwnSlots, SlotKey, SlotLog};

/// The registers of the words of a message.
pub(crate) const WORDS: [u8; 8] = [12, 13, 14, 15, 18, 19, 20, 21];

/// What a call on an endpoint or a notification wants.
fn wanted_rights(number: u32, is_endpoint: bool) -> Rights {
    match number {
        1 if is_endpoint => Rights(9),
        1 | 3 | 4 => Rights(1),
        _ => Rights(2),
    }
}

/// The rights that are wanted and not there, in words.
fn lacking(wanted: Rights, there: Rights) -> &'static str {
    match wanted.0 & (11 - (there.0 & 11)) {
        1 => "write (1)",
        2 => "read (2)",
        8 => "grant-reply (8)",
        9 => "write (1) and grant-reply (8)",
        _ => "a right",
    }
}

/// Puts which of the wanted rights a capability lacks.
fn push_lacking(to: &mut String, wanted: Rights, there: Rights) -> Result<(), AllocError> {
    let words = lacking(wanted, there);
    write!(to, ": the capability lacks {words}\n")
}

/// Puts what is asked by a label.
fn push_label(to: &mut String, label: u32) -> Result<(), AllocError> {
    let Some(method) = Method::of_label(label) else {
        return write!(to, "label {label}, by ");
    };
    push_method(to, method)?;
    write!(to, " (label {label}), by ")
}

/// Puts an error, and which check fails.
fn push_error(
    to: &mut String,
    capability: Cap,
    label: u32,
    error: KError,
) -> Result<(), AllocError> {
    let code = error.number();
    let check = check_words(capability, label, error);
    write!(to, ": error {code}, {error:?}\n  {check}\n")
}

/// The capability in a slot that was found.
fn capability_of(found: &Option<(SlotKey, Cap)>) -> Cap {
    match found {
        Some((_, capability)) => *capability,
        None => Cap::Empty,
    }
}

impl Scene<'_, '_, '_, '_, '_, '_, '_> {
    /// The value of a register, if it has one alone.
    pub(crate) fn single(&self, state: &State, number: u8) -> Option<u32> {
        if number >= 32 {
            return None;
        }
        state.bounds.get(Register(number)).value()
    }

    /// The slot that a call names, and what it holds.
    pub(crate) fn called_key(
        &self,
        state: &State,
        address: u32,
    ) -> Result<Option<(SlotKey, Cap)>, AllocError> {
        let mut log = SlotLog::new(self.alloc);
        let part = log.note_changes(&state.changes)?;
        let here = log.shown(part)?;
        let own = OwnSlots {
            windows: self.given.space.windows,
            slots: here.slots(self.given.slots),
        };
        let Ok(slot) = called_slot(&own, self.given.space.root, address) else {
            return Ok(None);
        };
        let Some(key) = self.given.space.windows.key(slot.number()) else {
            return Ok(None);
        };
        Ok(Some((key, own.capability(slot))))
    }

    /// Puts the name of a register of a call.
    fn push_argument(
        &self,
        to: &mut String,
        state: &State,
        number: u8,
        what: &str,
    ) -> Result<(), AllocError> {
        if number >= 32 {
            return Ok(());
        }
        write!(to, "x{number} ({what}) is ")?;
        push_range(to, state.bounds.get(Register(number)))
    }

    /// The first word of a call that has more than one value.
    fn varying_word(&self, state: &State) -> Option<u8> {
        for register in WORDS {
            if self.single(state, register).is_none() {
                return Some(register);
            }
        }
        None
    }

    /// The first register of a call that has more than one value, and what it is.
    fn varying(&self, state: &State) -> Option<(u8, &'static str)> {
        if self.single(state, 17).is_none() {
            Some((17, "a7, the number of the call"))
        } else if self.single(state, 10).is_none() {
            Some((10, "a0, the address of the capability"))
        } else if self.single(state, 11).is_none() {
            Some((11, "a1, the info word"))
        } else {
            let register = self.varying_word(state)?;
            Some((register, "a word of the call"))
        }
    }

    /// Reports which register of a call has more than one value.
    pub(crate) fn report_not_constant(
        &self,
        to: &mut String,
        point: u32,
        state: &State,
    ) -> Result<(), AllocError> {
        self.push_head(to, point)?;
        let varying = self.varying(state);
        if let Some((register, what)) = varying {
            self.push_argument(to, state, register, what)?;
        }
        to.push_str("; it has to have one value: set it just before\n")?;
        if let Some((register, _)) = varying {
            self.push_cause(to, point, register)?;
        }
        self.push_state(to, state)
    }

    /// Puts the name of a call and of the capability that it is on.
    pub(crate) fn push_call(
        &self,
        to: &mut String,
        number: u32,
        address: u32,
        found: &Option<(SlotKey, Cap)>,
    ) -> Result<(), AllocError> {
        match call_name(number) {
            Some(name) => to.push_str(name)?,
            None => write!(to, "system call {number}")?,
        }
        to.push_str(" on a0 = ")?;
        push_number(to, address)?;
        if let Some((key, capability)) = found {
            to.push_str(", slot ")?;
            self.push_key(to, *key)?;
            to.push_str(", ")?;
            self.push_cap(to, *capability)?;
        }
        Ok(())
    }

    /// Reports that the slot that a call names is empty, or lacks a right.
    pub(crate) fn report_not_there(
        &self,
        to: &mut String,
        point: u32,
        state: &State,
    ) -> Result<(), AllocError> {
        let (Some(number), Some(address)) = (self.single(state, 17), self.single(state, 10)) else {
            return self.report_not_constant(to, point, state);
        };
        let found = self.called_key(state, address)?;
        self.push_head(to, point)?;
        self.push_call(to, number, address, &found)?;
        self.push_lack(to, number, &found)?;
        self.push_slots(to, state)?;
        self.push_state(to, state)
    }

    /// Puts what the slot that a call names lacks.
    fn push_lack(
        &self,
        to: &mut String,
        number: u32,
        found: &Option<(SlotKey, Cap)>,
    ) -> Result<(), AllocError> {
        match found {
            None => {
                to.push_str(": no full slot has this address\n")?;
                self.push_guard(to)
            }
            Some((_, Cap::Endpoint { rights, .. })) => {
                push_lacking(to, wanted_rights(number, true), *rights)
            }
            Some((_, Cap::Notification { rights, .. })) => {
                push_lacking(to, wanted_rights(number, false), *rights)
            }
            Some(_) => to.push_str(": it is neither an endpoint nor a notification\n"),
        }
    }

    /// Puts how the thread's guard word makes addresses, where they are no numbers of slots.
    fn push_guard(&self, to: &mut String) -> Result<(), AllocError> {
        let radix = u32::from(self.source.radix(self.thread.cnode));
        let guard = self.thread.guard & 31;
        if guard.saturating_add(radix) == 32 {
            return Ok(());
        }
        let whole = 32u32.saturating_sub(radix);
        write!(
            to,
            "  the thread's guard has {guard} bits and its CNode 2^{radix} slots; with the guard word {whole} an address is the number of a slot\n"
        )
    }

    /// Puts what is in the slots of the thread's own CNode.
    fn push_slots(&self, to: &mut String, state: &State) -> Result<(), AllocError> {
        let root = self.given.space.thread.header().cnode;
        let mut is_first = true;
        for index in 0..64u32 {
            let key = SlotKey { cnode: root, index };
            let slot = self.slot_with(&state.changes, key);
            if slot.capability != Cap::Empty {
                to.push_str(if is_first { "  full slots: " } else { "; " })?;
                self.push_key(to, key)?;
                to.push_str(" ")?;
                self.push_cap(to, slot.capability)?;
                is_first = false;
            }
        }
        to.push_str(if is_first { "" } else { "\n" })
    }

    /// Reports which error a call would give, and which check fails.
    pub(crate) fn report_refused(
        &self,
        to: &mut String,
        point: u32,
        state: &State,
        error: KError,
    ) -> Result<(), AllocError> {
        let Some(number) = self.single(state, 17) else {
            return self.report_not_constant(to, point, state);
        };
        if call_name(number).is_none() {
            return self.report_no_call(to, point, state, number);
        }
        let (Some(address), Some(info)) = (self.single(state, 10), self.single(state, 11)) else {
            return self.report_not_constant(to, point, state);
        };
        let found = self.called_key(state, address)?;
        self.push_head(to, point)?;
        push_label(to, info / 4096)?;
        self.push_call(to, number, address, &found)?;
        self.push_refusal(to, state, capability_of(&found), info, error)?;
        self.push_slots(to, state)?;
        self.push_state(to, state)
    }

    /// Reports that there is no system call of a number.
    fn report_no_call(
        &self,
        to: &mut String,
        point: u32,
        state: &State,
        number: u32,
    ) -> Result<(), AllocError> {
        self.push_head(to, point)?;
        write!(
            to,
            "x17 (a7) is {number}: system calls have the numbers 1 to 9\n"
        )?;
        self.push_state(to, state)
    }

    /// Puts which error a call on a capability would give, and the words that it has.
    fn push_refusal(
        &self,
        to: &mut String,
        state: &State,
        capability: Cap,
        info: u32,
        error: KError,
    ) -> Result<(), AllocError> {
        let label = info / 4096;
        push_error(to, capability, label, error)?;
        match listed_words(capability, label) {
            Some(wanted) => self.push_words(to, state, wanted, info & 127),
            None => Ok(()),
        }
    }

    /// Puts the words of a call.
    fn push_words(
        &self,
        to: &mut String,
        state: &State,
        wanted: usize,
        given: u32,
    ) -> Result<(), AllocError> {
        write!(to, "  words: {given} of {wanted} given")?;
        let mut place = 0usize;
        for register in WORDS {
            if place < wanted && register < 32 {
                write!(to, ", {place} (x{register}) ")?;
                push_range(to, state.bounds.get(Register(register)))?;
            }
            place = place.saturating_add(1);
        }
        to.push_str("\n")
    }
}
