//! The test that a thread answers a badge, by what was found of the ways of its messages.

ghost use Rattle.std.specs.Prelude.{◌≡◌, ◌&&◌, ◌+◌, ◌*◌, ◌-◌, ◌/◌, ◌||◌, IfOk, IfSome, is_some, not, option_to_list, true};
ghost use Rattle.std.specs.List.{list_all};
ghost use Rattle.model.specs.Acceptance.PointStates.{address_of, instruction_at};
ghost use Rattle.model.specs.Machine.Decoding.{decoded};
ghost use Rattle.settled_threads.specs.Answering.{are_known, leads_known, ranges_received};
ghost use Rattle.answering.specs.Answers.{Answers};
ghost use Rattle.answering.specs.Effects.{owes_as};
ghost use Rattle.answering.specs.Known.{is_call, known_at, leads_from, owes_over, way_known};
ghost use Rattle.answering.specs.Seen.{all_edges_pass, edges_pass};

use crate::effects::{Effect, effect_of};
use crate::known::{AllRanges, Known, after_call, are_known, received};
use crate::walks::known_for;
use headline::steps::decoded_fields_lie_in_their_ranges;
use image_reading::ThreadRef;
use model::Instr;
use program_rules::{PointView, PointViews, ProgramView};
use ranges::{Bounds, Edge, Edges, after};
use rv32_isa::decode;
use std::alloc::{AllocError, Global};

/// The test of what is known of the ways of messages with a badge.
#[derive(Clone, Copy)]
struct Test<'t, 'k, 'a> {
    thread: &'t ThreadRef<'a>,
    known: &'k Known,
    badge: u32,
}

/// The address of a point, if it is below 2^32.
fn address_of(base: u32, point: u32) -> Option<u32>
    ensures { IfSome result (λ address. address ≡ base + 4 * point) }
{
    base.checked_add(point.checked_mul(4)?)
}

/// The point at an address.
fn point_at(base: u32, address: u32) -> u32
    ensures { result ≡ (address - base) / 4 }
{
    address.saturating_sub(base) / 4
}

/// Whether what is known at the next point holds on a way, if it leads there.
fn way_known(way: &Option<Edge>, target: u32, next: &Option<AllRanges>) -> bool
    ensures { result ≡ way_known target next.now way.now }
{
    match way {
        Some(way) => way.target != target || are_known(next, &way.bounds),
        None => true,
    }
}

/// Whether it is a system call.
fn is_call(instr: Instr) -> bool
    ensures { result ≡ is_call instr }
{
    matches!(instr, Instr::Ecall)
}

/// Whether it holds on both ways on.
fn ways_known(ways: &Edges, target: u32, next: &Option<AllRanges>) -> bool
    ensures { result ≡ (way_known target next.now ways.now.taken && way_known target next.now ways.now.fall_through) }
{
    way_known(&ways.taken, target, next) && way_known(&ways.fall_through, target, next)
}

/// Whether it holds on each way that leads there from an instruction at `pc`, with these ranges before it.
fn leads_known(pc: u32, target: u32, word: u32, bounds: &Bounds, next: &Option<AllRanges>) -> bool
    ensures { result ≡ leads_known pc target bounds.now next.now (decoded word) }
{
    decoded_fields_lie_in_their_ranges();
    match decode(word) {
        None => true,
        Some(instr) => {
            let ways = after(pc, instr, bounds);
            if is_call(instr) {
                are_known(next, &after_call(bounds))
            } else {
                ways_known(&ways, target, next)
            }
        }
    }
}

impl Test<'_, '_, '_> {
    /// Whether what is known at a point holds on the way to the next one, with these ranges before it.
    fn leads(&self, here: u32, next: u32, bounds: &Bounds) -> bool
        ensures { result ≡ true → leads_known (address_of self.now.thread.now here) (address_of self.now.thread.now next) bounds.now
            (known_at self.now.known.now next) (instruction_at self.now.thread.now here) ≡ true }
    {
        if self.thread.word_count() <= here {
            return false;
        }
        let base = self.thread.header().base;
        let Some(pc) = address_of(base, here) else {
            return false;
        };
        let Some(target) = address_of(base, next) else {
            return false;
        };
        let word = self.thread.word(here);
        leads_known(pc, target, word, bounds, &self.known.at(next as usize))
    }

    /// Whether it does, if something is known.
    fn goes_on(&self, here: u32, next: u32) -> bool
        ensures { result ≡ true → leads_from self.now.thread.now self.now.known.now here next ≡ true }
    {
        match self.known.at(here as usize) {
            Some(ranges) => self.leads(here, next, &ranges.bounds()),
            None => true,
        }
    }

    /// Whether nothing is known of a point.
    fn is_free(&self, point: u32) -> bool
        ensures { result ≡ not (is_some (known_at self.now.known.now point)) }
    {
        self.known.at(point as usize).is_none()
    }

    /// Whether a message may be received at a point, where an answer is given before or not.
    fn may_receive(&self, replies: bool, here: u32) -> bool
        ensures { result ≡ (replies || not (is_some (known_at self.now.known.now here))) }
    {
        replies || self.is_free(here)
    }

    /// Whether a message with the badge is known after that at a point.
    fn is_received(&self, next: u32) -> bool
        ensures { result ≡ are_known (known_at self.now.known.now next) (ranges_received self.now.badge) }
    {
        are_known(&self.known.at(next as usize), &received(self.badge))
    }

    /// Whether an answer is owed as it may be on a way from a point with this effect.
    fn passes(&self, effect: Effect, here: u32, next: u32) -> bool
        ensures { result ≡ true → owes_as effect (is_some (known_at self.now.known.now here)) (are_known (known_at self.now.known.now next)
            (ranges_received self.now.badge)) (leads_from self.now.thread.now self.now.known.now here next) ≡ true }
    {
        match effect {
            Effect::Receives { replies } => {
                self.may_receive(replies, here) && self.is_received(next)
            }
            Effect::Drops => self.is_free(here),
            Effect::Answers => true,
            Effect::Passes => self.goes_on(here, next),
        }
    }

    /// Whether it is on the way to an address, if there is one.
    fn passes_to(&self, effect: Effect, base: u32, here: u32, way: Option<u32>) -> bool
        ensures { result ≡ true → list_all (λ target. owes_as effect (is_some (known_at self.now.known.now here))
            (are_known (known_at self.now.known.now ((target - base) / 4)) (ranges_received self.now.badge))
            (leads_from self.now.thread.now self.now.known.now here ((target - base) / 4))) (option_to_list way) ≡ true }
    {
        match way {
            Some(address) => self.passes(effect, here, point_at(base, address)),
            None => true,
        }
    }

    /// Whether it is on the ways from a point: those of a point without a state are none, and those of one that is unclear are not known.
    fn holds_from(&self, base: u32, here: u32, view: &PointView) -> bool
        ensures { result ≡ true → edges_pass (owes_over self.now.thread.now self.now.badge self.now.known.now) base here view.now ≡ true }
    {
        match view {
            PointView::Unknown => true,
            PointView::Unclear => false,
            PointView::GoesOn => match here.checked_add(1) {
                Some(next) => self.passes(Effect::Passes, here, next),
                None => false,
            },
            PointView::Seen(point) => {
                let effect = effect_of(point);
                self.passes_to(effect, base, here, point.taken)
                    && self.passes_to(effect, base, here, point.next)
            }
        }
    }

    /// Whether it is on all ways of a program.
    fn holds(&self, base: u32, points: &PointViews) -> bool
        ensures { result ≡ true → all_edges_pass (owes_over self.now.thread.now self.now.badge self.now.known.now) base points.now ≡ true }
    {
        for point in 0..points.len() {
            let Ok(here) = u32::try_from(point) else {
                return false;
            };
            if !self.holds_from(base, here, &points.at(point)) {
                return false;
            }
        }
        true
    }
}

/// Whether a thread with this program answers who calls with this badge, whichever way the message takes. Memory may be refused.
pub(crate) fn answers(
    alloc: Global,
    thread: &ThreadRef<'_>,
    program: &ProgramView,
    badge: u32,
) -> Result<bool, AllocError>
    ensures { IfOk result (λ is. is ≡ true → Answers thread.now program.now badge) }
{
    let Some(known) = known_for(alloc, thread, program, badge)? else {
        return Ok(false);
    };
    let test = Test {
        thread,
        known: &known,
        badge,
    };
    Ok(test.holds(program.header.base, &program.points))
}
