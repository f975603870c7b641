//! What a bound is made of: what may be left at rest, and what comes meanwhile.

use crate::bounds::{Basis, Bound, Rate};
use crate::lines::LINES;
use crate::sums::price_of_line;
use crate::systems::Levels;
use crate::weights::is_one_of;
use std::alloc::{AllocError, Global};

/// What a share of a bound is for.
#[derive(Clone, Copy, Debug, PartialEq, Eq)]
pub enum Reason {
    /// A word or a message at the notification or endpoint at this offset.
    LeftAt { object: u32 },
    /// An interrupt of this line that is pending.
    Pending { line: u32 },
    /// What a thread waits with, to send or for an answer.
    WaitsWith { thread: u32 },
    /// What one step of a thread below sets going.
    FromBelow,
    /// So many interrupts of this line.
    Comes { line: u32, times: u64 },
}

/// A share of a bound, in steps.
#[derive(Clone, Copy, Debug, PartialEq, Eq)]
pub struct Share {
    pub reason: Reason,
    pub steps: u64,
}

/// Shares so far.
#[derive(Drop)]
struct Shares {
    shares: Vec<Share>,
}

impl Shares {
    /// Puts a share if it is one.
    fn put(&mut self, reason: Reason, steps: u64) -> Result<(), AllocError> {
        if steps != 0 {
            self.shares.push(Share { reason, steps })?;
        }
        Ok(())
    }

    /// All of them.
    fn total(&self) -> u64 {
        let mut total = 0u64;
        for share in &self.shares {
            total = total.saturating_add(share.steps);
        }
        total
    }

    /// Puts what may be left at rest.
    fn put_rest(
        &mut self,
        levels: &Levels<'_, '_>,
        basis: &Basis,
        tended: &[u32],
    ) -> Result<(), AllocError> {
        for price in basis.weights.prices.all() {
            if !is_one_of(basis.taken.as_slice(), price.object) {
                let object = price.object;
                self.put(Reason::LeftAt { object }, price.price)?;
            }
        }
        for line in 0..LINES {
            if !is_one_of(tended, line) {
                let cost = price_of_line(&basis.weights, levels.bells.as_slice(), line);
                self.put(Reason::Pending { line }, cost)?;
            }
        }
        for (thread, owed) in basis.owed.iter().enumerate() {
            let thread = u32::try_from(thread).unwrap_or(u32::MAX);
            self.put(Reason::WaitsWith { thread }, *owed)?;
        }
        Ok(())
    }
}

/// How many interrupts come within so many steps at a rate.
fn times_within(rate: &Rate, steps: u64) -> u64 {
    if rate.period == 0 {
        return u64::MAX;
    }
    rate.burst.saturating_add(steps / rate.period)
}

/// What a bound is made of once the level has rested, at the rates that it was found for: all shares together are `later`. Memory may be refused.
pub(crate) fn shares_of(
    alloc: Global,
    levels: &Levels<'_, '_>,
    basis: &Basis,
    bound: &Bound,
    rates: &[Rate],
) -> Result<Vec<Share>, AllocError> {
    let mut shares = Shares {
        shares: Vec::new(alloc),
    };
    shares.put_rest(levels, basis, bound.tended.as_slice())?;
    let below = basis.most_at_rest.saturating_sub(shares.total());
    shares.put(Reason::FromBelow, below)?;
    for rate in rates {
        let line = rate.line;
        let times = times_within(rate, bound.later);
        let cost = price_of_line(&basis.weights, levels.bells.as_slice(), line);
        shares.put(Reason::Comes { line, times }, times.saturating_mul(cost))?;
    }
    Ok(shares.shares)
}
