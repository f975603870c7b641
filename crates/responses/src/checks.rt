//! The test of weights and numbers for a level of an image.

ghost use Rattle.std.specs.Prelude.{◌≡◌, ◌+◌, ◌==◌, ◌||◌, IfSome, if◌then◌else◌, nat_le, nat_lt, not};
ghost use Rattle.std.specs.List.{list_all, list_any, range_with_len};
ghost use Rattle.response.specs.Owed.{step_fits};
ghost use Rattle.responses.specs.Asks.{asked};
ghost use Rattle.responses.specs.Checks.{fit_steps, going_to, is_acknowledged, is_rated, owe_all, owes_so, pay_all, rest_seen, run_owes, sums_fit};
ghost use Rattle.responses.specs.Found.{price_in};
ghost use Rattle.responses.specs.Keepers.{is_high};
ghost use Rattle.responses.specs.Numbers.{is_among, number_at};
ghost use Rattle.responses.specs.Prices.{Rise};
ghost use Rattle.responses.specs.Seen.{asks_all, run_passes};
ghost use Rattle.responses.specs.Settling.{are_paid, is_tended};

use crate::asks::Ask;
use crate::bounds::Rate;
use crate::doors::is_input;
use crate::edge_checks::EdgeTest;
use crate::keepers::Keeper;
use crate::lines::{Bell, LINES};
use crate::outlines::{Outline, Run};
use crate::settled::Settled;
use crate::sums::{is_high, lines_at_rest, owed_at_rest, price_of_line, unless, words_at_rest};
use crate::weights::{Weights, all_fit, fits, is_one_of, number_at};
use answering::Answered;

/// What was found of a level.
#[derive(Clone, Copy)]
pub(crate) struct Claim<'c> {
    pub(crate) priority: u32,
    pub(crate) rates: &'c [Rate],
    pub(crate) weights: &'c Weights,
    pub(crate) settled: &'c Settled,
    /// Inputs of settled threads.
    pub(crate) taken: &'c [u32],
    /// Lines that threads of the level keep that wait for no message.
    pub(crate) lines: &'c [u32],
    /// Lines that settled threads keep.
    pub(crate) tended: &'c [u32],
    /// What each thread by its number may wait with at rest, to send or for an answer.
    pub(crate) owed: &'c [u64],
}

/// Whether the weights pay for all that threads of the level ask.
pub(crate) fn pay_all(weights: &Weights, priority: u32, programs: &[Outline]) -> bool
    ensures { result ≡ pay_all weights.now priority programs.now }
{
    programs.iter().all(|program| {
        !is_high(priority, program)
            || {
                let test = EdgeTest::Pays {
                    weights,
                    thread: program.number,
                    budget: program.header.budget,
                };
                test.holds_for(program)
            }
    })
}

/// Whether a thread of the level that waits for no message keeps a line.
fn is_acknowledged(
    priority: u32,
    programs: &[Outline],
    keepers: &[Option<Keeper>],
    line: u32,
) -> bool
    ensures { result ≡ is_acknowledged priority programs.now keepers.now line }
{
    match keepers.get(line as usize) {
        Some(Some(keeper)) => keeper.is_alone_of(priority, programs),
        Some(None) => false,
        None => false,
    }
}

/// Whether a settled thread keeps a line, whose input it signals.
fn is_tended(settled: &Settled, keepers: &[Option<Keeper>], line: u32) -> bool
    ensures { result ≡ is_tended settled.now keepers.now line }
{
    match keepers.get(line as usize) {
        Some(Some(keeper)) => is_input(keeper.notification, settled.input(keeper.thread)),
        Some(None) => false,
        None => false,
    }
}

/// Where steps of threads below are looked at: what may be left at rest, and at most.
#[derive(Clone, Copy)]
pub(crate) struct Below<'c> {
    pub(crate) weights: &'c Weights,
    pub(crate) taken: &'c [u32],
    pub(crate) rest: u64,
    pub(crate) most: u64,
}

impl Below<'_> {
    /// Whether what comes to an object fits: nothing is counted at rest where it is taken at once.
    fn has_room(&self, object: u32) -> bool
        ensures { result ≡ (not (is_among self.now.taken.now object)
            || nat_le (self.now.rest + price_in self.now.weights.now.prices object) self.now.most) }
    {
        !is_one_of(self.taken, object) || fits(self.rest, self.weights.price_of(object), self.most)
    }

    /// Whether what is asked fits.
    fn fits(&self, ask: Ask) -> bool
        ensures { result ≡ step_fits (is_among self.now.taken.now) (price_in self.now.weights.now.prices) self.now.rest self.now.most (asked ask) }
    {
        match ask {
            Ask::Rings(object) => self.has_room(object),
            Ask::SendsTo(object) => self.has_room(object),
            Ask::Calls(object) => self.has_room(object),
            Ask::Tries(object) => self.has_room(object),
            Ask::Takes(_) => true,
            Ask::Polls(_) => true,
            Ask::Acknowledges(_) => true,
            Ask::Accepts { .. } => true,
            Ask::Looks(_) => true,
            Ask::Answers => true,
            Ask::Nothing => true,
        }
    }

    /// Whether what a run asks does, if that is clear.
    fn holds_at(&self, run: &Run) -> bool
        ensures { result ≡ run_passes (step_fits (is_among self.now.taken.now) (price_in self.now.weights.now.prices) self.now.rest self.now.most)
            run.now }
    {
        run.is_clear && self.fits(run.ask)
    }

    /// Whether what all runs ask does.
    fn holds_for(&self, program: &Outline) -> bool
        ensures { result ≡ asks_all (step_fits (is_among self.now.taken.now) (price_in self.now.weights.now.prices) self.now.rest self.now.most)
            program.now }
    {
        program.runs.iter().all(|run| self.holds_at(run))
    }

    /// Whether all that threads below a priority ask does.
    pub(crate) fn hold(&self, priority: u32, programs: &[Outline]) -> bool
        ensures { result ≡ fit_steps priority (is_among self.now.taken.now)
            (price_in self.now.weights.now.prices) self.now.rest self.now.most programs.now }
    {
        programs.iter().all(|program| is_high(priority, program) || self.holds_for(program))
    }
}

/// Where messages are looked at with which threads wait: what each may wait with at most that is not settled.
#[derive(Clone, Copy)]
pub(crate) struct Waits<'c> {
    pub(crate) weights: &'c Weights,
    pub(crate) priority: u32,
    pub(crate) settled: &'c Settled,
    /// Inputs of settled threads: nobody waits to send there.
    pub(crate) taken: &'c [u32],
    pub(crate) owed: &'c [u64],
}

impl Waits<'_> {
    /// Whether a message of this price, with what its thread runs and sets going once it goes on to this run, is what the thread may wait with.
    fn sends(&self, program: &Outline, next: usize, price: u64) -> bool
        ensures { result ≡ nat_le (price + going_to self.now.priority self.now.weights.now program.now next) (number_at self.now.owed.now program.now.number) }
    {
        let most = number_at(self.owed, program.number as usize);
        if is_high(self.priority, program) {
            let still = self.weights.still(program.number, next);
            all_fit(price, program.header.budget, still, most)
        } else {
            price <= most
        }
    }

    /// Whether a message to an object is, if it may wait there.
    fn sends_to(&self, program: &Outline, next: usize, object: u32) -> bool
        ensures { result ≡ (is_among self.now.taken.now object
            || nat_le (price_in self.now.weights.now.prices object + going_to self.now.priority self.now.weights.now program.now next)
            (number_at self.now.owed.now program.now.number)) }
    {
        is_one_of(self.taken, object) || self.sends(program, next, self.weights.price_of(object))
    }

    /// What a message to an object costs that may wait there.
    fn waiting_price(&self, object: u32) -> u64
        ensures { result ≡ (if is_among self.now.taken.now object then 0 else price_in self.now.weights.now.prices object) }
    {
        unless(is_one_of(self.taken, object), self.weights.price_of(object))
    }

    /// Whether a message that is tried, and may be left by a thread below, is what the thread may wait with.
    fn leaves(&self, program: &Outline, object: u32) -> bool
        ensures { result ≡ (is_high self.now.priority program.now || is_among self.now.taken.now object
            || nat_le (price_in self.now.weights.now.prices object) (number_at self.now.owed.now program.now.number)) }
    {
        is_high(self.priority, program)
            || is_one_of(self.taken, object)
            || self.weights.price_of(object) <= number_at(self.owed, program.number as usize)
    }

    /// Whether what is asked before this run is.
    fn fits(&self, program: &Outline, next: usize, ask: Ask) -> bool
        ensures { result ≡ owes_so self.now.priority self.now.weights.now self.now.taken.now self.now.owed.now program.now next (asked ask) }
    {
        match ask {
            Ask::SendsTo(object) => self.sends_to(program, next, object),
            Ask::Calls(object) => self.sends(program, next, self.waiting_price(object)),
            Ask::Tries(object) => self.leaves(program, object),
            Ask::Takes(_) => true,
            Ask::Polls(_) => true,
            Ask::Rings(_) => true,
            Ask::Acknowledges(_) => true,
            Ask::Accepts { .. } => true,
            Ask::Looks(_) => true,
            Ask::Answers => true,
            Ask::Nothing => true,
        }
    }

    /// Whether what a run asks is, if that is clear.
    fn holds_at(&self, program: &Outline, run: &Run) -> bool
        ensures { result ≡ run_owes self.now.priority self.now.weights.now self.now.taken.now self.now.owed.now program.now run.now }
    {
        if !run.is_clear {
            return false;
        }
        self.fits(program, run.next_place(), run.ask)
    }

    /// Whether what all runs of a program ask is.
    fn holds_for(&self, program: &Outline) -> bool
        ensures { result ≡ list_all (run_owes self.now.priority self.now.weights.now self.now.taken.now self.now.owed.now program.now)
            program.now.runs.items }
    {
        program.runs.iter().all(|run| self.holds_at(program, run))
    }

    /// Whether all that threads ask is which are not settled.
    pub(crate) fn hold(&self, programs: &[Outline]) -> bool
        ensures { result ≡ owe_all self.now.priority self.now.weights.now self.now.settled.now self.now.taken.now self.now.owed.now programs.now }
    {
        programs.iter().all(|program| self.settled.input(program.number).is_some()
            || self.holds_for(program))
    }
}

/// What may be left at rest, and what interrupts cost within so many steps.
#[derive(Clone, Copy)]
pub(crate) struct Sums {
    pub(crate) rest: u64,
    pub(crate) costs: u64,
}

/// Whether a line has a rate.
fn has_rate(rates: &[Rate], line: u32) -> bool
    ensures { result ≡ list_any (λ r. r.line == line) rates.now }
{
    rates.iter().any(|rate| rate.line == line)
}

/// Whether a line costs nothing, or has a rate.
pub(crate) fn is_rated(weights: &Weights, bells: &[Option<Bell>], rates: &[Rate], line: u32) -> bool
    ensures { result ≡ is_rated weights.now.prices bells.now rates.now line }
{
    price_of_line(weights, bells, line) == 0 || has_rate(rates, line)
}

/// Whether each of so many lines that costs something has a rate.
fn are_first_rated(weights: &Weights, bells: &[Option<Bell>], rates: &[Rate], count: u32) -> bool
    ensures { result ≡ list_all (is_rated weights.now.prices bells.now rates.now) (range_with_len 0 count) }
{
    for line in 0..count {
        if !is_rated(weights, bells, rates, line) {
            return false;
        }
    }
    true
}

/// Whether each line that costs something has a rate.
pub(crate) fn are_rated(weights: &Weights, bells: &[Option<Bell>], rates: &[Rate]) -> bool
    ensures { result ≡ list_all (is_rated weights.now.prices bells.now rates.now) (range_with_len 0 64) }
{
    are_first_rated(weights, bells, rates, LINES)
}

/// Whether all rates are of lines that there are.
pub(crate) fn are_of_lines(rates: &[Rate]) -> bool
    ensures { result ≡ list_all (λ r. nat_lt r.line 64) rates.now }
{
    rates.iter().all(|rate| rate.line < LINES)
}

impl Claim<'_> {
    /// What may be left where no thread of the level is ready.
    pub(crate) fn rest(&self, programs: &[Outline], bells: &[Option<Bell>]) -> Option<u64>
        ensures rest { IfSome result (λ rest. rest ≡ rest_seen self.now.weights.now self.now.taken.now self.now.tended.now self.now.owed.now
            programs.now bells.now) }
        ensures rise { IfSome result (λ rest. Rise self.now.weights.now.prices) }
    {
        let words = words_at_rest(self.weights.prices.all(), self.taken)?;
        let lines = lines_at_rest(self.weights, bells, self.tended)?;
        let owed = owed_at_rest(self.owed, programs)?;
        let both = words.checked_add(lines)?;
        let rest = both.checked_add(owed)?;
        Some(rest)
    }

    /// Whether threads of the level that wait for no message keep lines as it is claimed.
    pub(crate) fn is_acknowledged(&self, programs: &[Outline], keepers: &[Option<Keeper>]) -> bool
        ensures { result ≡ list_all (is_acknowledged self.now.priority programs.now keepers.now) self.now.lines.now }
    {
        self.lines.iter().all(|line| is_acknowledged(self.priority, programs, keepers, *line))
    }

    /// Whether settled threads keep lines as it is claimed.
    fn is_tended(&self, keepers: &[Option<Keeper>]) -> bool
        ensures { result ≡ list_all (is_tended self.now.settled.now keepers.now) self.now.tended.now }
    {
        self.tended
            .iter()
            .all(|line| is_tended(self.settled, keepers, *line))
    }

    /// Whether the weights pay for what threads of the level ask, and what is said to rest does.
    pub(crate) fn is_paid(
        &self,
        programs: &[Outline],
        keepers: &[Option<Keeper>],
        found: &[Answered],
    ) -> bool
        ensures { result ≡ are_paid self.now.priority self.now.weights.now self.now.settled.now self.now.taken.now self.now.tended.now self.now.owed.now
            programs.now keepers.now found.now }
    {
        let waits = Waits {
            weights: self.weights,
            priority: self.priority,
            settled: self.settled,
            taken: self.taken,
            owed: self.owed,
        };
        pay_all(self.weights, self.priority, programs)
            && self.settled.are_settled(self.priority, found, programs)
            && waits.hold(programs)
            && self.settled.are_inputs(programs, self.taken)
            && self.is_tended(keepers)
    }

    /// Whether no more than `most` is left at rest with what comes from below, and all that is done within so many steps with what interrupts cost.
    pub(crate) fn fits(
        &self,
        programs: &[Outline],
        bells: &[Option<Bell>],
        sums: &Sums,
        most: u64,
        steps: u64,
    ) -> bool
        ensures { result ≡ sums_fit self.now.priority self.now.rates.now self.now.weights.now self.now.taken.now programs.now bells.now sums.now.rest
            sums.now.costs most steps }
    {
        let below = Below {
            weights: self.weights,
            taken: self.taken,
            rest: sums.rest,
            most,
        };
        below.hold(self.priority, programs)
            && are_rated(self.weights, bells, self.rates)
            && are_of_lines(self.rates)
            && sums.rest <= most
            && fits(most, sums.costs, steps)
    }
}
