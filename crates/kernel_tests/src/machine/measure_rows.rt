//! Measures, worked out by hand: least values, and whether they fall.

use crate::machine::rows::row;
use measure::{AfterInstruction, Measure, TermEntry, falls, least};
use model::Register;
use ranges::{Bounds, Range, after};
use rv32_isa::decode;
use std::test::Fail;

/// A measure (its constant; the register and the coefficient of its one term), and its least value where x5 is 1 to 10.
const LEAST: &str = "\
3 5 2 | 5
30 5 -2 | 10
7 0 -1 | 7";

/// A word; the ends of x5; a measure before the word, and one after it; whether the measure falls.
const FALLS: &str = "\
0xFFF28293 1 10 3 5 2 4 5 2 1 | addi x5, x5, -1: 3 + 2 x5 becomes 4 + 2 (x5 - 1)
0xFFF28293 1 10 3 5 2 5 5 2 0 | addi x5, x5, -1
0xFFF28293 0 10 3 5 2 4 5 2 0 | addi x5, x5, -1: it may wrap at 0, and then nothing is known of it
0xFFF28293 7 7 16 5 -2 13 5 -2 1 | addi x5, x5, -1: with one value it is that value less 1
0x005282B3 1 10 0 5 2 -1 5 1 1 | add x5, x5, x5: x5 becomes 2 x5
0x005282B3 1 10 0 5 2 0 5 1 0 | add x5, x5, x5
0x00034283 1 10 256 6 0 0 5 1 1 | lbu x5, 0(x6): a value up to 255
0x00034283 1 10 255 6 0 0 5 1 0 | lbu x5, 0(x6)";

#[test]
fn the_least_value_takes_each_term_by_itself(rt: HostRuntime) -> Result<(), Fail> {
    let bounds = with_x5(1, 10).ok_or("a range")?;
    for line in LEAST.lines() {
        let (measure, want) = row(line)?;
        let found = format!(in rt.alloc(); "{}", least(&of(measure), &bounds))?;
        assert_eq!(rt; found.as_str(), want, "{line}");
    }
    let mut measure = Measure::new(-(1 << 62));
    measure.push(TermEntry {
        register: 6,
        coefficient: i32::MIN,
    });
    // -2^62 - 2^31 (2^32 - 1)
    let lowest = -(1 << 62) - (1 << 63) + (1 << 31);
    assert_eq!(rt; least(&measure, &bounds), lowest);
    Ok(())
}

#[test]
fn measures_fall_by_the_sums_that_are_written(rt: HostRuntime) -> Result<(), Fail> {
    for line in FALLS.lines() {
        let ([word, low, high, a, b, c, d, e, f, want], _) = row::<10>(line)?;
        let found = falling(word, low, high, &of([a, b, c]), &of([d, e, f]));
        assert_eq!(rt; found.ok_or(line)?, want == 1, "{line}");
    }
    Ok(())
}

/// A measure with one term.
fn of([constant, register, coefficient]: [u32; 3]) -> Measure {
    let mut measure = Measure::new(i64::from(constant.cast_signed()));
    measure.push(TermEntry {
        register,
        coefficient: coefficient.cast_signed(),
    });
    measure
}

/// Every register has every value, but for x5.
fn with_x5(low: u32, high: u32) -> Option<Bounds> {
    if high < low {
        return None;
    }
    let mut bounds = Bounds::full();
    bounds.set(Register(5), Range { low, high });
    Some(bounds)
}

/// Whether a measure falls over a word at 0x1000, where x5 has this range and x6 and the others every value.
fn falling(word: u32, low: u32, high: u32, from: &Measure, to: &Measure) -> Option<bool> {
    let instr = decode(word)?;
    let before = with_x5(low, high)?;
    let edge = after(0x1000, instr, &before).fall_through?;
    let step = AfterInstruction::new(instr, &before, &edge.bounds);
    Some(falls(from, to, &step, &before, &edge.bounds))
}
