//! What may be left, and what interrupts cost, in instructions: none where that is 2^64 or more.

ghost use Rattle.std.specs.Prelude.{ℕ, ◌≡◌, ◌+◌, ◌*◌, ◌/◌, IfSome, if◌then◌else◌};
ghost use Rattle.std.specs.List.{range_with_len};
ghost use Rattle.response.specs.Left.{total};
ghost use Rattle.responses.specs.Checks.{bell_price, left_by, price_of_line};
ghost use Rattle.responses.specs.Keepers.{is_high};
ghost use Rattle.responses.specs.Numbers.{is_among, number_at};

use crate::bounds::Rate;
use crate::lines::{Bell, LINES, bell_at};
use crate::outlines::Outline;
use crate::price::Price;
use crate::weights::{Weights, is_one_of, number_at};

/// A price, or nothing where that is said.
pub(crate) fn unless(is_free: bool, price: u64) -> u64
    ensures { result ≡ (if is_free then 0 else price) }
{
    if is_free { 0 } else { price }
}

/// What words cost that may be there at rest.
pub(crate) fn words_at_rest(prices: &[Price], taken: &[u32]) -> Option<u64>
    ensures { IfSome result (λ sum. sum ≡ total (λ p. if is_among taken.now p.object then 0 else p.price) prices.now) }
{
    let mut sum = 0u64;
    for price in prices {
        sum = sum.checked_add(unless(is_one_of(taken, price.object), price.price))?;
    }
    Some(sum)
}

/// What a line costs, by what it signals.
fn bell_price(weights: &Weights, bell: Option<Bell>) -> u64
    ensures { result ≡ bell_price weights.now.prices bell }
{
    match bell {
        Some(bell) => weights.price_of(bell.notification),
        None => 0,
    }
}

/// What an interrupt of a line costs.
pub(crate) fn price_of_line(weights: &Weights, bells: &[Option<Bell>], line: u32) -> u64
    ensures { result ≡ price_of_line weights.now.prices bells.now line }
{
    bell_price(weights, bell_at(bells, line))
}

/// What those of the first so many lines cost that may be pending at rest.
fn first_lines_at_rest(
    weights: &Weights,
    bells: &[Option<Bell>],
    lines: &[u32],
    count: u32,
) -> Option<u64>
    ensures { IfSome result (λ sum. sum ≡ total (λ line. if is_among lines.now line then 0 else price_of_line weights.now.prices bells.now line)
        (range_with_len 0 count)) }
{
    let mut sum = 0u64;
    for line in 0..count {
        sum = sum.checked_add(unless(is_one_of(lines, line), price_of_line(weights, bells, line)))?;
    }
    Some(sum)
}

/// What lines cost that may be pending at rest.
pub(crate) fn lines_at_rest(weights: &Weights, bells: &[Option<Bell>], lines: &[u32]) -> Option<u64>
    ensures { IfSome result (λ sum. sum ≡ total (λ line. if is_among lines.now line then 0 else price_of_line weights.now.prices bells.now line)
        (range_with_len 0 64)) }
{
    first_lines_at_rest(weights, bells, lines, LINES)
}

/// What threads may wait with at rest.
pub(crate) fn owed_at_rest(owed: &[u64], programs: &[Outline]) -> Option<u64>
    ensures { IfSome result (λ sum. sum ≡ total (λ p. number_at owed.now p.number) programs.now) }
{
    let mut sum = 0u64;
    for program in programs {
        sum = sum.checked_add(number_at(owed, program.number as usize))?;
    }
    Some(sum)
}

/// What the interrupts of a line cost that come within so many steps, if its rate has a period.
fn cost_of(rate: &Rate, price: u64, steps: u64) -> Option<u64>
    ensures { IfSome result (λ cost. cost ≡ (rate.now.burst + steps / rate.now.period) * price) }
{
    if rate.period == 0 {
        return None;
    }
    let count = rate.burst.checked_add(steps / rate.period)?;
    count.checked_mul(price)
}

/// What the interrupts cost that come within so many steps.
pub(crate) fn costs_within(
    weights: &Weights,
    bells: &[Option<Bell>],
    rates: &[Rate],
    steps: u64,
) -> Option<u64>
    ensures { IfSome result (λ sum. sum ≡ total (λ r. (r.burst + steps / r.period) * price_of_line weights.now.prices bells.now r.line) rates.now) }
{
    let mut sum = 0u64;
    for rate in rates {
        let price = price_of_line(weights, bells, rate.line);
        sum = sum.checked_add(cost_of(rate, price, steps)?)?;
    }
    Some(sum)
}

/// Whether a thread is of the level of a priority and above.
pub(crate) fn is_high(priority: u32, program: &Outline) -> bool
    ensures { result ≡ is_high priority program.now }
{
    priority <= program.header.priority
}

/// What a thread has left where it starts, if it is of the level.
fn left_of(weights: &Weights, priority: u32, program: &Outline) -> Option<u64>
    ensures { IfSome result (λ left. left ≡ left_by priority weights.now program.now) }
{
    if !is_high(priority, program) {
        return Some(0);
    }
    let header = program.header;
    header
        .budget
        .checked_add(weights.still(program.number, program.place(header.entry)))
}

/// What is left at the start.
pub(crate) fn left_at_start(weights: &Weights, priority: u32, programs: &[Outline]) -> Option<u64>
    ensures { IfSome result (λ sum. sum ≡ total (left_by priority weights.now) programs.now) }
{
    let mut sum = 0u64;
    for program in programs {
        sum = sum.checked_add(left_of(weights, priority, program)?)?;
    }
    Some(sum)
}
