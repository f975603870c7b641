//! The entry of a thread.

ghost use Rattle.std.specs.Prelude.{ℕ, ◌≡◌, ◌<◌, ◌+◌, List, int_lt, pos, slice_index, slice_index_or};
ghost use Rattle.std.specs.List.{list_all, range_with_len};
ghost use Rattle.std.specs.Result.{result_err};
ghost use Rattle.measure.specs.Measures.{measure_of};
ghost use Rattle.model.specs.Acceptance.Measures.{measured};
ghost use Rattle.model.specs.Acceptance.NotedStates.{NotedSlot, are_same_slots, image_slots};
ghost use Rattle.model.specs.Acceptance.PointRules.{entry_rules, lies_in};
ghost use Rattle.model.specs.Acceptance.PointStates.{point_of};
ghost use Rattle.model.specs.Acceptance.PointStates as states;
ghost use Rattle.model.specs.Acceptance.Ranges.{full};
ghost use Rattle.model.specs.Acceptance.Rules.{first_broken};
ghost use Rattle.model.specs.Images.Described.{Numbered, listed_registers};
ghost use Rattle.model.specs.Images.Image.{Image};
ghost use Rattle.program_rules.specs.point_rules.Points.{known_of};

use crate::kept::Known;
use image_reading::ThreadRef;
use measure::{Measure, value_at};
use model::{Point, Range, Refusal, Register};
use ranges::Bounds;

/// The values that a thread starts with. Registers that it does not list are 0.
fn start_values(thread: &ThreadRef<'_>) -> [u32; 32]
    ensures { result ≡ listed_registers thread.now }
{
    let mut words = [0; 32];
    for entry in thread.registers() {
        if entry.register < 32 {
            words[entry.register as usize] = entry.value;
        }
    }
    words
}

/// Whether a value lies in a range.
fn lies_in(value: u32, range: Range) -> bool
    ensures { result ≡ lies_in value range }
{
    range.low <= value && value <= range.high
}

/// Whether a register, counted from register 1, starts in its range.
fn starts_in(words: &[u32; 32], bounds: &Bounds, index: u8) -> bool
    requires { index < 31 }
    ensures { result ≡ lies_in (slice_index words.now (index + 1)) (slice_index_or bounds.now index full) }
{
    lies_in(
        words[usize::from(index) + 1],
        bounds.get(Register(index + 1)),
    )
}

/// Whether the values of registers 1 to 31 lie in their ranges.
fn start_within(words: &[u32; 32], bounds: &Bounds) -> bool
    ensures { result ≡ list_all (λ k. lies_in (slice_index words.now (k + 1)) (slice_index_or bounds.now k full)) (range_with_len 0 31) }
{
    'registers: for index in 0..31 {
        if !starts_in(words, bounds, index) {
            return false;
        }
    }
    true
}

/// Whether a measure is above a budget where the registers hold these words.
fn exceeds(measure: &Measure, words: &[u32; 32], budget: u64) -> bool
    ensures { result ≡ int_lt (pos budget) (measured (measure_of measure.now) (record { pc = 0; words = words.now })) }
{
    value_at(measure, words) > i128::from(budget)
}

/// Whether a thread may start in the state of its entry, if it is known whether that has the slots that the image lists.
///
/// # Errors
///
/// The first rule that it breaks: it starts within the ranges (`RangeNotKept`), with these slots (`CapNotThere`), and within
/// its budget (`OverBudget`).
pub(crate) fn entered(
    thread: &ThreadRef<'_>,
    at: Point,
    state: &Known,
    has_slots: bool,
) -> Result<(), Refusal>
    ensures { (image : Image) (t : Numbered) (slots : List NotedSlot) → t.thread ≡ thread.now → at ≡ point_of t t.thread.header.entry
        → has_slots ≡ are_same_slots slots (image_slots image t.thread)
        → result_err result ≡ first_broken (entry_rules image t (states.Known (known_of slots state.now))) }
{
    let words = start_values(thread);
    if !start_within(&words, &state.bounds) {
        return Err(Refusal::RangeNotKept(at));
    }
    if !has_slots {
        return Err(Refusal::CapNotThere(at));
    }
    if exceeds(&state.measure, &words, thread.header().budget) {
        return Err(Refusal::OverBudget(at));
    }
    Ok(())
}
