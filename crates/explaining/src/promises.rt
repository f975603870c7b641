//! Messages that do not keep what is promised at their endpoints.

use crate::point_words::push_range;
use crate::scenes::Scene;
use crate::states::State;
use crate::system_calls::WORDS;
use model::{Cap, PromisedWord, Range, Register};
use std::alloc::AllocError;
use typestate::MessagePromise;

/// Puts that a badge is not one of those that are promised.
fn push_badge(to: &mut String, badge: u32, promised: Range) -> Result<(), AllocError> {
    if promised.low <= badge && badge <= promised.high {
        return Ok(());
    }
    write!(to, "  badge {badge}; promised is ")?;
    push_range(to, promised)?;
    to.push_str("\n")
}

/// Puts that fewer words are sent than are promised.
fn push_count(to: &mut String, given: u32, promised: u32) -> Result<(), AllocError> {
    if given < promised {
        write!(
            to,
            "  words: {given}, by the low 7 bits of a1; promised: {promised}\n"
        )
    } else {
        Ok(())
    }
}

/// Puts by how much a word misses what is promised of it.
fn push_word(
    to: &mut String,
    place: usize,
    register: u8,
    range: Range,
    promised: PromisedWord,
) -> Result<(), AllocError> {
    let below = promised.low.saturating_sub(range.low);
    let above = range.high.saturating_sub(promised.high);
    if below == 0 && above == 0 {
        return Ok(());
    }
    write!(to, "  word {place} (x{register}) is ")?;
    push_range(to, range)?;
    to.push_str("; promised is ")?;
    push_range(
        to,
        Range {
            low: promised.low,
            high: promised.high,
        },
    )?;
    if below > 0 {
        write!(to, ": it can be too small by {below}")?;
    }
    if above > 0 {
        write!(to, ": it can be too large by {above}")?;
    }
    to.push_str("\n")
}

impl Scene<'_, '_, '_, '_, '_, '_, '_> {
    /// Puts what of a message does not keep a promise.
    fn push_missed(
        &self,
        to: &mut String,
        state: &State,
        promise: &MessagePromise<'_>,
        badge: u32,
        info: u32,
    ) -> Result<(), AllocError> {
        push_badge(to, badge, promise.badges())?;
        push_count(to, (info & 127).min(8), promise.count())?;
        let mut place = 0usize;
        for word in promise.words() {
            if let Some(register) = WORDS.get(place) {
                if *register < 32 {
                    let range = state.bounds.get(Register(*register));
                    push_word(to, place, *register, range, word)?;
                }
            }
            place = place.saturating_add(1);
        }
        Ok(())
    }

    /// Reports by how much a message misses what is promised at its endpoint.
    pub(crate) fn report_promise(
        &self,
        to: &mut String,
        point: u32,
        state: &State,
    ) -> Result<(), AllocError> {
        let (Some(number), Some(address), Some(info)) = (
            self.single(state, 17),
            self.single(state, 10),
            self.single(state, 11),
        ) else {
            return self.report_not_constant(to, point, state);
        };
        let found = self.called_key(state, address)?;
        self.push_head(to, point)?;
        self.push_call(to, number, address, &found)?;
        to.push_str(": the message does not keep what is promised there\n")?;
        if let Some((_, Cap::Endpoint { offset, badge, .. })) = &found {
            if let Some(promise) = self.given.space.promise_at(*offset) {
                self.push_missed(to, state, promise, *badge, info)?;
            }
        }
        self.push_state(to, state)
    }
}
