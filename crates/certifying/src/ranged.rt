//! Ranges of all registers: what holds on both of two ways, and ranges that are widened.

ghost use Rattle.ranges.specs.Orders.{IsOrdered};

use model::{Range, Register};
use ranges::Bounds;

/// The ranges that hold on both ways: the least range around two, for each register.
pub(crate) fn joined(first: &Bounds, second: &Bounds) -> Bounds {
    let mut both = *first;
    'registers: for number in 1..32u8 {
        let register = Register(number);
        let one = first.get(register);
        let other = second.get(register);
        let hull = Range {
            low: one.low.min(other.low),
            high: one.high.max(other.high),
        };
        both.set(register, hull);
    }
    both
}

/// The greatest threshold that is not above a value. They rise.
fn threshold_below(thresholds: &[u32], value: u32) -> u32 {
    match thresholds.binary_search(&value) {
        Ok(_) => value,
        Err(place) => match thresholds.get(place.saturating_sub(1)) {
            Some(threshold) if place > 0 => *threshold,
            _ => 0,
        },
    }
}

/// The least threshold that is not below a value. They rise.
fn threshold_above(thresholds: &[u32], value: u32) -> u32 {
    match thresholds.binary_search(&value) {
        Ok(_) => value,
        Err(place) => match thresholds.get(place) {
            Some(threshold) => *threshold,
            None => u32::MAX,
        },
    }
}

/// A range that has grown, with each end that moved moved on to a threshold.
fn grown(before: Range, now: Range, thresholds: &[u32]) -> Range
    requires { IsOrdered now }
    ensures { IsOrdered result }
{
    let low = if now.low < before.low {
        threshold_below(thresholds, now.low)
    } else {
        now.low
    };
    let high = if before.high < now.high {
        threshold_above(thresholds, now.high)
    } else {
        now.high
    };
    Range {
        low: low.min(now.low),
        high: high.max(now.high),
    }
}

/// Ranges that have grown, with each end that moved moved on to a threshold.
pub(crate) fn widened(before: &Bounds, now: &Bounds, thresholds: &[u32]) -> Bounds {
    let mut wide = *now;
    'registers: for number in 1..32u8 {
        let register = Register(number);
        let range = grown(before.get(register), now.get(register), thresholds);
        wide.set(register, range);
    }
    wide
}
