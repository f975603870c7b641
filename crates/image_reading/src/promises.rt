//! What messages to endpoints keep.

ghost use Rattle.std.specs.Prelude.{◌≡◌, ◌+◌, ◌^◌, ◌&&◌, nat_le, nat_lt};
ghost use Rattle.std.specs.Iterator.{YieldsFirst, item_count};
ghost use Rattle.model.specs.Images.Format.{end_of, field, ordered};
ghost use Rattle.model.specs.Images.Image.{promise_format};

use crate::entries::{Counts, Section, entries_end};
use crate::fields::{any_word, rising_word, word_between};
use model::{PromiseHeader, PromisedWord, Refusal};
use std::marker::Model;

/// What every message to an endpoint keeps, lent from the file.
#[derive(Drop)]
pub struct PromiseRef<'a> {
    bytes: &'a [u8],
    counts: Counts,
    header: PromiseHeader,
    words_at: usize,
}

impl<'a> Model for PromiseRef<'a> {
    ghost use Rattle.std.specs.Prelude.{◌≡◌, true, is_ok};
    ghost use Rattle.model.specs.Images.Format.{end_of, many, values_of};
    ghost use Rattle.model.specs.Images.Image.{ImagePromise, promised_word_format};

    ghost Value = { ImagePromise };

    ghost view = { λ p. record {
      header = p.header;
      words = values_of ((many p.header.words promised_word_format).reads p.bytes.now p.words_at);
    } };

    ghost invariant = { λ p. is_ok (end_of ((many p.header.words promised_word_format).reads p.bytes.now p.words_at)) ≡ true };
}

/// The highest badge at `at`, which is not below the lowest and has 28 bits, and the offset after it.
fn high_badge(bytes: &[u8], at: usize, low: u32) -> Result<(u32, usize), Refusal>
    ensures { result ≡ (field (λ high. nat_le low high && nat_lt high (2 ^ 28))).reads bytes.now at }
{
    let (high, next) = any_word(bytes, at)?;
    if low <= high && high < 1 << 28 {
        Ok((high, next))
    } else {
        Err(Refusal::Limit { offset: at as u64 })
    }
}

/// The promise at `at`, and the offset after it. Its endpoint's number is not below `least`.
#[tactic(auto, unfolding(model::specs::Images::Image::promise_format))]
pub(crate) fn promise_at<'a>(
    bytes: &'a [u8],
    at: usize,
    counts: Counts,
    least: u64,
) -> Result<(PromiseRef<'a>, usize), Refusal>
    ensures { result ≡ (promise_format counts.objects least).reads bytes.now at }
{
    let (endpoint, at) = rising_word(bytes, at, least, counts.objects)?;
    let (badge_low, at) = any_word(bytes, at)?;
    let (badge_high, at) = high_badge(bytes, at, badge_low)?;
    let (words, words_at) = word_between(bytes, at, 0, 8)?;
    let end = entries_end::<PromisedWord>(bytes, words_at, counts, 0, words)?;
    let promise = PromiseRef {
        bytes,
        counts,
        header: PromiseHeader {
            endpoint,
            badge_low,
            badge_high,
            words,
        },
        words_at,
    };
    Ok((promise, end))
}

impl<'a> PromiseRef<'a> {
    /// The promise's fixed part.
    pub fn header(&self) -> PromiseHeader
        ensures { result ≡ self.now.header }
    {
        self.header
    }

    /// The ranges of the promised words, from the first word on.
    pub fn words(&self) -> Section<'a, PromisedWord>
        ensures { result ≡ self.now.words }
    {
        Section::new(self.bytes, self.words_at, self.counts, 0, self.header.words)
    }
}

/// The offset after `count` promises from `start`.
pub(crate) fn promises_end(
    bytes: &[u8],
    start: usize,
    counts: Counts,
    count: u32,
) -> Result<usize, Refusal>
    ensures { result ≡ end_of ((ordered 0 (promise_format counts.objects) (λ p. p.header.endpoint + 1) count).reads bytes.now start) }
{
    let mut at = start;
    let mut least = 0;
    for _ in 0..count {
        let (promise, next) = promise_at(bytes, at, counts, least)?;
        least = u64::from(promise.header().endpoint) + 1;
        at = next;
    }
    Ok(at)
}

/// The promises, in rising order of their endpoints.
#[derive(Drop)]
pub struct Promises<'a> {
    pub(crate) bytes: &'a [u8],
    pub(crate) at: usize,
    pub(crate) counts: Counts,
    pub(crate) least: u64,
    pub(crate) left: u32,
}

impl<'a> Model for Promises<'a> {
    ghost use Rattle.std.specs.Prelude.{◌≡◌, List, true, is_ok, ◌+◌};
    ghost use Rattle.model.specs.Images.Format.{many_read, values_of};
    ghost use Rattle.model.specs.Images.Image.{ImagePromise, promise_format};

    ghost Value = { List ImagePromise };

    ghost view = { λ r. values_of (many_read (promise_format r.counts.objects) (λ p. p.header.endpoint + 1) r.least r.left r.bytes.now r.at) };

    ghost invariant = { λ r. is_ok (many_read (promise_format r.counts.objects) (λ p. p.header.endpoint + 1) r.least r.left r.bytes.now r.at) ≡ true };
}

impl<'a> Iterator for Promises<'a> {
    type Item = PromiseRef<'a>;

    ghost next_gives = { YieldsFirst (λ s. s) };

    ghost remaining = { item_count (λ s. s) };

    fn next(&mut self) -> Option<PromiseRef<'a>> {
        if self.left == 0 {
            return None;
        }
        match promise_at(self.bytes, self.at, self.counts, self.least) {
            Ok((promise, next)) => {
                self.least = u64::from(promise.header().endpoint) + 1;
                self.at = next;
                self.left -= 1;
                Some(promise)
            }
            Err(_) => unreachable!(),
        }
    }
}
