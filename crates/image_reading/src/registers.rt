//! Entries whose key is a register, 1 to 31.

ghost use Rattle.std.specs.Prelude.{◌≡◌, ◌+◌, ◌-◌, ◌^◌, ◌&&◌, ◌||◌, nat_le, nat_lt, if◌then◌else◌, Some, None};
ghost use Rattle.model.specs.Images.Format.{field};
ghost use Rattle.model.specs.Images.Image.{register_format, range_format, term_format};

use crate::entries::{Counts, Entry, Keyed, Listed};
use crate::fields::{any_word, coefficient, word_between};
use crate::spelled::{Spelled, append_all};
use model::{RangeEntry, Refusal, RegisterEntry, TermEntry};
use std::alloc::AllocError;

impl Keyed for RegisterEntry {
    ghost key = { λ e. e.register };

    fn key(&self) -> u64 {
        u64::from(self.register)
    }
}

#[tactic(auto, unfolding(model::specs::Images::Image::register_format))]
impl Spelled for RegisterEntry {
    ghost spelling = { (register_format 0).spelling };

    fn append(&self, bytes: &mut Vec<u8>) -> Result<(), AllocError> {
        append_all(bytes, &[self.register, self.value])
    }
}

#[tactic(auto, unfolding(model::specs::Images::Image::register_format))]
impl Listed for RegisterEntry {
    ghost format = { λ _. register_format };

    ghost next = { λ e. e.register + 1 };

    fn fits(&self, _counts: Counts, least: u64) -> Option<u64> {
        let RegisterEntry { register, value } = *self;
        let key = u64::from(register);
        if least <= key && register <= 31 && value != 0 {
            Some(key + 1)
        } else {
            None
        }
    }
}

#[tactic(auto, unfolding(model::specs::Images::Image::register_format))]
impl Entry for RegisterEntry {
    fn size() -> usize {
        8
    }

    fn read(
        bytes: &[u8],
        at: usize,
        _counts: Counts,
        least: u64,
    ) -> Result<(RegisterEntry, usize), Refusal> {
        let (register, at) = word_between(bytes, at, least, 31)?;
        let (value, next) = any_word(bytes, at)?;
        if value == 0 {
            return Err(Refusal::Limit { offset: at as u64 });
        }
        Ok((RegisterEntry { register, value }, next))
    }

    fn least_after(&self) -> u64 {
        u64::from(self.register) + 1
    }
}

/// Whether these are the ends of a range that is not the full one.
fn are_ends(low: u32, high: u32) -> bool
    ensures { result ≡ (nat_le low high && (nat_lt 0 low || nat_lt high (2 ^ 32 - 1))) }
{
    low <= high && (0 < low || high < u32::MAX)
}

/// The 4 bytes at `at` as the high end of a range that is not the full one, and the offset after them.
fn range_end(bytes: &[u8], at: usize, low: u32) -> Result<(u32, usize), Refusal>
    ensures { result ≡ (field (λ high. nat_le low high && (nat_lt 0 low || nat_lt high (2 ^ 32 - 1)))).reads bytes.now at }
{
    let (high, next) = any_word(bytes, at)?;
    if are_ends(low, high) {
        Ok((high, next))
    } else {
        Err(Refusal::Limit { offset: at as u64 })
    }
}

impl Keyed for RangeEntry {
    ghost key = { λ e. e.register };

    fn key(&self) -> u64 {
        u64::from(self.register)
    }
}

#[tactic(auto, unfolding(model::specs::Images::Image::range_format))]
impl Spelled for RangeEntry {
    ghost spelling = { (range_format 0).spelling };

    fn append(&self, bytes: &mut Vec<u8>) -> Result<(), AllocError> {
        append_all(bytes, &[self.register, self.low, self.high])
    }
}

#[tactic(auto, unfolding(model::specs::Images::Image::range_format))]
impl Listed for RangeEntry {
    ghost format = { λ _. range_format };

    ghost next = { λ e. e.register + 1 };

    fn fits(&self, _counts: Counts, least: u64) -> Option<u64> {
        let RangeEntry {
            register,
            low,
            high,
        } = *self;
        let key = u64::from(register);
        let is_full = low == 0 && high == u32::MAX;
        if least <= key && register <= 31 && low <= high && !is_full {
            Some(key + 1)
        } else {
            None
        }
    }
}

#[tactic(auto, unfolding(model::specs::Images::Image::range_format))]
impl Entry for RangeEntry {
    fn size() -> usize {
        12
    }

    fn read(
        bytes: &[u8],
        at: usize,
        _counts: Counts,
        least: u64,
    ) -> Result<(RangeEntry, usize), Refusal> {
        let (register, at) = word_between(bytes, at, least, 31)?;
        let (low, at) = any_word(bytes, at)?;
        let (high, at) = range_end(bytes, at, low)?;
        Ok((
            RangeEntry {
                register,
                low,
                high,
            },
            at,
        ))
    }

    fn least_after(&self) -> u64 {
        u64::from(self.register) + 1
    }
}

impl Keyed for TermEntry {
    ghost key = { λ e. e.register };

    fn key(&self) -> u64 {
        u64::from(self.register)
    }
}

#[tactic(auto, unfolding(model::specs::Images::Image::term_format))]
impl Spelled for TermEntry {
    ghost spelling = { (term_format 0).spelling };

    fn append(&self, bytes: &mut Vec<u8>) -> Result<(), AllocError> {
        append_all(bytes, &[self.register, self.coefficient.cast_unsigned()])
    }
}

#[tactic(auto, unfolding(model::specs::Images::Image::term_format))]
impl Listed for TermEntry {
    ghost format = { λ _. term_format };

    ghost next = { λ e. e.register + 1 };

    fn fits(&self, _counts: Counts, least: u64) -> Option<u64> {
        let TermEntry {
            register,
            coefficient,
        } = *self;
        let key = u64::from(register);
        if least <= key && register <= 31 && coefficient != 0 {
            Some(key + 1)
        } else {
            None
        }
    }
}

#[tactic(auto, unfolding(model::specs::Images::Image::term_format))]
impl Entry for TermEntry {
    fn size() -> usize {
        8
    }

    fn read(
        bytes: &[u8],
        at: usize,
        _counts: Counts,
        least: u64,
    ) -> Result<(TermEntry, usize), Refusal> {
        let (register, at) = word_between(bytes, at, least, 31)?;
        let (coefficient, next) = coefficient(bytes, at)?;
        Ok((
            TermEntry {
                register,
                coefficient,
            },
            next,
        ))
    }

    fn least_after(&self) -> u64 {
        u64::from(self.register) + 1
    }
}
