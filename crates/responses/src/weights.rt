//! Weights: what it costs a level that something comes to a notification or an endpoint, and what a thread has still to set going from a run
//! on to its next wait.

ghost use Rattle.std.specs.Prelude.{◌≡◌, ◌+◌, nat_le};
ghost use Rattle.std.specs.Option.{option_map_or};
ghost use Rattle.responses.specs.Asks.{asked};
ghost use Rattle.responses.specs.Edges.{pays_wholly};
ghost use Rattle.responses.specs.Found.{price_in, weights_of};
ghost use Rattle.responses.specs.Numbers.{is_among, mark_at, number_at};

use crate::asks::Ask;
use crate::prices::Prices;

/// Of a level of threads.
#[derive(Drop)]
pub(crate) struct Weights {
    pub(crate) prices: Prices,
    /// Of each thread by its number, and each run: what it has still to set going on its way to the next wait, in instructions.
    pub(crate) still: Vec<Vec<u64>>,
}

/// Whether two numbers are together at most so many.
pub(crate) fn fits(first: u64, second: u64, most: u64) -> bool
    ensures { result ≡ nat_le (first + second) most }
{
    first <= most && second <= most - first
}

/// Whether three numbers are.
pub(crate) fn all_fit(first: u64, second: u64, third: u64, most: u64) -> bool
    ensures { result ≡ nat_le (first + second + third) most }
{
    fits(first, second, most) && third <= most - first - second
}

/// What is still to be set going from a run on.
fn still_among(runs: Option<&Vec<u64>>, place: usize) -> u64
    ensures { result ≡ option_map_or (λ numbers. number_at numbers.now.items place) runs.entry 0 }
{
    match runs {
        Some(runs) => number_at(runs.as_slice(), place),
        None => 0,
    }
}

impl Weights {
    /// What the notification or endpoint at an offset costs.
    pub(crate) fn price_of(&self, object: u32) -> u64
        ensures { result ≡ price_in self.now.prices object }
    {
        self.prices.of_object(object)
    }

    /// What a thread has still to set going from a run on.
    pub(crate) fn still(&self, thread: u32, place: usize) -> u64
        ensures { result ≡ (weights_of self.now).still thread place }
    {
        still_among(self.still.get(thread as usize), place)
    }

    /// Whether they pay for what a run of a thread with this budget asks, and for the answer if it calls, from what is still to be set going
    /// there and after it.
    pub(crate) fn pay_for(&self, budget: u64, here: u64, next: u64, ask: Ask) -> bool
        ensures { result ≡ pays_wholly (weights_of self.now) budget here next (asked ask) }
    {
        match ask {
            Ask::Takes(object) => fits(budget, next, self.price_of(object)),
            Ask::Accepts { endpoint, .. } => fits(budget, next, self.price_of(endpoint)),
            Ask::Rings(object) => fits(self.price_of(object), next, here),
            Ask::Tries(object) => fits(self.price_of(object), next, here),
            Ask::SendsTo(object) => all_fit(self.price_of(object), budget, next, here),
            Ask::Calls(object) => all_fit(self.price_of(object), budget, next, here),
            Ask::Polls(_) => next <= here,
            Ask::Looks(_) => next <= here,
            Ask::Acknowledges(_) => next <= here,
            Ask::Answers => next <= here,
            Ask::Nothing => next <= here,
        }
    }
}

/// The number at a place, and none where there is no such place.
pub(crate) fn number_at(numbers: &[u64], place: usize) -> u64
    ensures { result ≡ number_at numbers.now place }
{
    match numbers.get(place) {
        Some(number) => *number,
        None => 0,
    }
}

/// Whether a place is marked.
pub(crate) fn mark_at(marks: &[bool], place: usize) -> bool
    ensures { result ≡ mark_at marks.now place }
{
    match marks.get(place) {
        Some(mark) => *mark,
        None => false,
    }
}

/// Whether a number is one of these.
pub(crate) fn is_one_of(numbers: &[u32], number: u32) -> bool
    ensures { result ≡ is_among numbers.now number }
{
    numbers.iter().any(|other| *other == number)
}
