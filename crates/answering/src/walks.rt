//! Follows what is known of the registers from each message with a badge on. What is found is tested apart, so nothing is promised of it here.

use crate::effects::{Effect, effect_of};
use crate::known::{Known, after_call, received};
use headline::steps::decoded_fields_lie_in_their_ranges;
use image_reading::ThreadRef;
use model::Instr;
use program_rules::{PointView, ProgramView};
use ranges::{Bounds, Edge, after};
use rv32_isa::decode;
use std::alloc::{AllocError, Global};

/// How often the ranges of a point are widened at most: each time one register gets every value.
const WIDENINGS: usize = 32;

/// The ways of a message with a badge through the program of a thread.
#[derive(Drop)]
struct Walk<'t, 'p, 'a> {
    thread: &'t ThreadRef<'a>,
    program: &'p ProgramView,
    known: Known,
    /// Points from which the ways on are still to be followed.
    open: Vec<usize>,
}

/// The point at an address.
fn point_at(base: u32, address: u32) -> usize {
    (address.saturating_sub(base) / 4) as usize
}

/// Whether a point leads to an address: one that goes on leads to the next one alone.
fn leads_to(view: &PointView, address: u32) -> bool {
    match view {
        PointView::Seen(seen) => seen.taken == Some(address) || seen.next == Some(address),
        PointView::GoesOn => true,
        PointView::Unknown | PointView::Unclear => false,
    }
}

/// The address of the next instruction, if a system call that is seen may go on there.
fn next_of(view: &PointView) -> Option<u32> {
    match view {
        PointView::Seen(seen) => seen.next,
        _ => None,
    }
}

/// What a point makes of an answer that is owed: one that is no system call nothing.
fn made_of(view: &PointView) -> Effect {
    match view {
        PointView::Seen(seen) => effect_of(seen),
        _ => Effect::Passes,
    }
}

impl Walk<'_, '_, '_> {
    /// Notes that registers may come to an address in these ranges.
    fn reach(&mut self, address: u32, bounds: &Bounds) -> Result<(), AllocError> {
        let point = point_at(self.program.header.base, address);
        if self.known.note(point, bounds)? {
            self.open.push(point)?;
        }
        Ok(())
    }

    /// Follows a way that a point leads to.
    fn follow(&mut self, view: &PointView, way: &Option<Edge>) -> Result<(), AllocError> {
        match way {
            Some(way) if leads_to(view, way.target) => self.reach(way.target, &way.bounds),
            _ => Ok(()),
        }
    }

    /// Follows the ways on from an instruction, from these ranges.
    fn leave(&mut self, point: u32, view: &PointView, bounds: &Bounds) -> Result<(), AllocError> {
        if self.thread.word_count() <= point {
            return Ok(());
        }
        decoded_fields_lie_in_their_ranges();
        match decode(self.thread.word(point)) {
            None => Ok(()),
            Some(Instr::Ecall) => match next_of(view) {
                Some(next) => self.reach(next, &after_call(bounds)),
                None => Ok(()),
            },
            Some(instr) => {
                let pc = self.program.header.base.wrapping_add(point.wrapping_mul(4));
                let ways = after(pc, instr, bounds);
                self.follow(view, &ways.taken)?;
                self.follow(view, &ways.fall_through)
            }
        }
    }

    /// Follows the ways on from a point at which an answer is owed, and whether it is given on them.
    fn go_on(&mut self, point: usize) -> Result<bool, AllocError> {
        let view = self.program.points.at(point);
        match made_of(&view) {
            Effect::Receives { replies } => Ok(replies),
            Effect::Drops => Ok(false),
            Effect::Answers => Ok(true),
            Effect::Passes => {
                self.pass(point, &view)?;
                Ok(true)
            }
        }
    }

    /// Follows the ways on from a point at which the answer is owed as before.
    fn pass(&mut self, point: usize, view: &PointView) -> Result<(), AllocError> {
        let Some(ranges) = self.known.at(point) else {
            return Ok(());
        };
        match u32::try_from(point) {
            Ok(number) => self.leave(number, view, &ranges.bounds()),
            Err(_) => Ok(()),
        }
    }

    /// Begins after each receive.
    fn begin(&mut self, badge: u32) -> Result<(), AllocError> {
        let program = self.program;
        for point in 0..program.points.len() {
            if let PointView::Seen(seen) = program.points.at(point) {
                if let Effect::Receives { .. } = effect_of(&seen) {
                    if let Some(next) = seen.next {
                        self.reach(next, &received(badge))?;
                    }
                }
            }
        }
        Ok(())
    }
}

/// What is known of the registers at the points at which an answer may be owed to who calls with this badge; or nothing, where the thread is found not to
/// answer. Memory may be refused.
pub(crate) fn known_for(
    alloc: Global,
    thread: &ThreadRef<'_>,
    program: &ProgramView,
    badge: u32,
) -> Result<Option<Known>, AllocError> {
    let mut walk = Walk {
        thread,
        program,
        known: Known::new(alloc, program.points.len())?,
        open: Vec::new(alloc),
    };
    walk.begin(badge)?;
    for _ in 0..program.points.len().saturating_mul(WIDENINGS) {
        let Some(point) = walk.open.pop() else {
            break;
        };
        if !walk.go_on(point)? {
            return Ok(None);
        }
    }
    Ok(Some(walk.known))
}
