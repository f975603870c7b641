//! What is seen of the points of programs by who does not ask for their rules: what a system call names, and where the ways on lead.

ghost use Rattle.std.specs.Prelude.{◌≡◌, ◌≢◌, IfErr, IfOk, Some, length, option_map};
ghost use Rattle.model.specs.Acceptance.Accepted.{IsWellFormed};
ghost use Rattle.model.specs.Acceptance.Measures.{Measure};
ghost use Rattle.model.specs.Images.Described.{Numbered};
ghost use Rattle.model.specs.Images.Image.{Image};
ghost use Rattle.model.specs.Images.Places.{offset_of};
ghost use Rattle.model.specs.declared.instructions.Instr.TheVariants.{Ecall};
ghost use Rattle.model.specs.declared.instructions.Instr.{Instr as RuleInstr};
ghost use Rattle.model.specs.declared.refusals.Refusal.TheVariants.{OutOfMemory};
ghost use Rattle.program_rules.specs.OfPrograms.{AreViewsFor, AreViewsGiven, IsViewPlaced};
ghost use Rattle.program_rules.specs.Views.{AreProgramViews, AreViews, IsLonger, capability_seen, count_of, is_on, view_at};
ghost use Rattle.program_rules.specs.Visits.{IsKeptBy, IsReachedHere, IsViewHere};
ghost use Rattle.program_rules.specs.declared.at_points.AtPoint.TheVariants as kept;
ghost use Rattle.typestate.specs.Calls.{known_with};
ghost use Rattle.typestate.specs.Differences.{slots_of};
ghost use Rattle.typestate.specs.Promises.{AreOfImage};
ghost use Rattle.typestate.specs.Spaces.{NothingLeadsOutside};

use crate::at_points::AtPoint;
use crate::kept::Known;
use crate::notes::RecordsLeft;
use crate::point_rules::runs_of;
use crate::programs::Program;
use crate::visits::Visit;
use cspace::called_slot;
use format_laws::{certificates_that_fit_keep_their_limits, images_that_fit_keep_their_limits};
use image_reading::ImageRef;
use model::{Access, Cap, Instr, Refusal, Register, SystemCall, ThreadHeader};
use ranges::{Bounds, Edge, after};
use rv32_isa::decode;
use slots::SlotMap;
use std::alloc::{AllocError, Global};
use thread_spaces::{
    GivenThread, PlacedImage, PlacedThread, ThreadParts, offsets_of, programs_have_their_places,
    promises_of,
};
use typestate::{NotedSlots, OwnSlots, PlacedPromises, ShownPart, SlotLog, Space};

/// What is seen of a point with a state.
#[derive(Clone, Copy)]
pub struct SeenPoint {
    /// The system call there, if it is one: by the least value of `a7`, which an accepted program knows.
    pub call: Option<SystemCall>,
    /// At a system call the capability that the least value of `a0` names, or an empty one.
    pub capability: Cap,
    /// The address that a jump or a branch leads to, if it may go there.
    pub taken: Option<u32>,
    /// The address of the next instruction, if the instruction may go on there.
    pub next: Option<u32>,
}

/// What is seen of a point of a program.
#[derive(Clone, Copy, Drop)]
pub enum PointView {
    /// It has no state.
    Unknown,
    /// Some slot there may be one that the thread may not have: no accepted program has such a point.
    Unclear,
    /// It is no system call, and its way leads to the next point.
    GoesOn,
    Seen(SeenPoint),
}

/// The same in few bytes: what is seen is among others, here by its place.
#[derive(Clone, Copy, Drop)]
enum ShortView {
    Unknown,
    Unclear,
    GoesOn,
    Seen(u32),
}

/// What is seen of the points of a program, one after another.
#[derive(Drop)]
pub struct PointViews {
    points: Vec<ShortView>,
    seen: Vec<SeenPoint>,
}

/// What is seen of a thread and of its program.
#[derive(Drop)]
pub struct ProgramView {
    /// Which of the image's threads it is, from 0 on.
    pub number: u32,
    pub header: ThreadHeader,
    /// The offset of its control block from the start of physical memory.
    pub tcb: u32,
    /// Of each point of its program.
    pub points: PointViews,
}

impl PointViews {
    /// Of no point yet.
    fn new(alloc: Global) -> Self
        ensures { (image : Image) (t : Numbered) → AreViews image t 0 result }
    {
        PointViews {
            points: Vec::new(alloc),
            seen: Vec::new(alloc),
        }
    }

    /// How many points there are.
    pub fn len(&self) -> usize
        ensures { result ≡ count_of self.now }
    {
        self.points.len()
    }

    /// What is seen of a point: nothing of one that there is not.
    pub fn at(&self, point: usize) -> PointView
        ensures { result ≡ view_at self.now point }
    {
        match self.points.get(point) {
            Some(ShortView::Unclear) => PointView::Unclear,
            Some(ShortView::GoesOn) => PointView::GoesOn,
            Some(ShortView::Seen(place)) => match self.seen.get(*place as usize) {
                Some(seen) => PointView::Seen(*seen),
                None => PointView::Unknown,
            },
            Some(ShortView::Unknown) | None => PointView::Unknown,
        }
    }

    /// The place that the next point has which is seen.
    fn next_place(&self) -> Result<u32, AllocError>
        ensures { IfOk result (λ place. place ≡ length self.now.seen.items) }
    {
        match u32::try_from(self.seen.len()) {
            Ok(place) => Ok(place),
            Err(_) => Err(AllocError),
        }
    }

    /// Adds what is seen of one more point. Memory may be refused.
    fn push(&mut self, view: PointView) -> Result<(), AllocError>
        ensures { IfOk result (λ _. IsLonger self.old self.new view) }
    {
        let short = match view {
            PointView::Unknown => ShortView::Unknown,
            PointView::Unclear => ShortView::Unclear,
            PointView::GoesOn => ShortView::GoesOn,
            PointView::Seen(seen) => {
                let place = self.next_place()?;
                self.seen.push(seen)?;
                ShortView::Seen(place)
            }
        };
        self.points.push(short)?;
        Ok(())
    }
}

/// Where a way leads, if there is one.
fn target_of(way: &Option<Edge>) -> Option<u32>
    ensures { result ≡ option_map (λ edge. edge.target) way.now }
{
    match way {
        Some(way) => Some(way.target),
        None => None,
    }
}

/// Whether an instruction that is no system call leads to the next one alone, whatever the registers hold.
fn goes_on(instr: Instr) -> bool
    ensures { result ≡ is_on instr }
{
    match instr {
        Instr::Jal { .. } => false,
        Instr::Jalr { .. } => false,
        Instr::Branch { .. } => false,
        Instr::Ebreak => false,
        _ => true,
    }
}

/// The capability that the least value of `a0` names, where no slot leads outside of the thread's CNodes.
fn named(space: &Space<'_, '_>, slots: &NotedSlots<'_>, bounds: &Bounds) -> Cap
    ensures { NothingLeadsOutside space.now.image.now space.now.thread.now (slots_of slots.now) → (measure : Measure)
        → result ≡ capability_seen space.now.image.now space.now.thread.now (known_with bounds.now (slots_of slots.now) measure) }
{
    let own = OwnSlots {
        windows: space.windows,
        slots: *slots,
    };
    match called_slot(&own, space.root, bounds.get(Register::A0).low) {
        Ok(slot) => own.capability(slot),
        Err(_) => Cap::Empty,
    }
}

impl Visit<'_, '_, '_, '_> {
    /// What is seen of the point, at an instruction that is no system call.
    fn plain_view(&self, known: &Known, log: &SlotLog) -> PointView
        requires { IsKeptBy self.now log.now (kept.Known known.now) }
        ensures { (instr : RuleInstr) → self.now.instr ≡ Some instr → instr ≢ Ecall → IsViewHere self.now result }
    {
        let Some(instr) = self.instr else {
            return PointView::Unknown;
        };
        if goes_on(instr) {
            return PointView::GoesOn;
        }
        let ways = after(self.program.address(self.point), instr, &known.bounds);
        PointView::Seen(SeenPoint {
            call: None,
            capability: Cap::Empty,
            taken: target_of(&ways.taken),
            next: target_of(&ways.fall_through),
        })
    }

    /// What is seen of the point at a system call, with slots that are shown.
    fn call_view(&self, known: &Known, log: &SlotLog, shown: &ShownPart) -> PointView
        requires { IsReachedHere self.now log.now shown.now (kept.Known known.now) }
        ensures { self.now.instr ≡ Some Ecall → IsViewHere self.now result }
    {
        if !known.is_clean {
            return PointView::Unclear;
        }
        let program = self.program;
        let slots = shown.slots(program.given.slots);
        PointView::Seen(SeenPoint {
            call: SystemCall::of_number(known.bounds.get(Register::A7).low),
            capability: named(&program.given.space, &slots, &known.bounds),
            taken: None,
            next: Some(program.address(self.point) + 4),
        })
    }

    /// What is seen of the point, by what is kept of it.
    fn view(&self, kept: &AtPoint<Known>, log: &SlotLog, shown: &ShownPart) -> PointView
        requires { IsReachedHere self.now log.now shown.now kept.now }
        ensures { IsViewHere self.now result }
    {
        let AtPoint::Known(known) = kept else {
            return PointView::Unknown;
        };
        match self.instr {
            Some(Instr::Ecall) => self.call_view(known, log, shown),
            Some(_) => self.plain_view(known, log),
            None => PointView::Seen(SeenPoint {
                call: None,
                capability: Cap::Empty,
                taken: None,
                next: None,
            }),
        }
    }
}

impl Program<'_, '_> {
    /// What is seen of each point of the program, one after another: of a point only what leads on is kept. Memory may be refused.
    fn views(&self) -> Result<PointViews, AllocError>
        ensures { IfOk result (AreViewsFor self.now) }
    {
        let mut records = RecordsLeft::of(self);
        let mut log = SlotLog::new(self.alloc);
        let mut shown = ShownPart::new(self.alloc);
        let mut kept = AtPoint::Missing;
        let mut views = PointViews::new(self.alloc);
        'views: for point in 0..self.given.space.thread.word_count() {
            let noted = records.take(point);
            let is_next_noted = records.is_next(point + 1);
            let visit = Visit {
                program: self,
                point,
                instr: decode(self.given.space.thread.word(point)),
                noted: noted.as_ref(),
                is_next_noted,
            };
            visit.reach(&mut kept, &mut log, &mut shown)?;
            views.push(visit.view(&kept, &log, &shown))?;
            visit.pass(&mut kept, &mut log, &shown)?;
        }
        Ok(views)
    }
}

/// What is seen of the points of a program, by what the image gives the thread.
fn views_given(alloc: Global, given: GivenThread<'_, '_>) -> Result<PointViews, Refusal>
    ensures views { IfOk result (AreViewsGiven given.entry) }
    ensures memory { IfErr result (λ refusal. refusal ≡ OutOfMemory) }
{
    let image = given.space.image;
    let thread = given.space.thread;
    let _ = image.header();
    certificates_that_fit_keep_their_limits();
    programs_have_their_places();
    // No rule on loads and stores is asked.
    let loads = runs_of(alloc, image, thread, Access::Load)?;
    let stores = runs_of(alloc, image, thread, Access::Store)?;
    let program = Program {
        given,
        loads: &loads,
        stores: &stores,
        alloc,
    };
    let views = program.views()?;
    Ok(views)
}

/// The offset of a thread's control block.
fn tcb_of(owner: &PlacedThread<'_, '_, '_, '_>) -> u32
    ensures { result ≡ offset_of owner.now.placed.now.image.now owner.now.thread.now.header.tcb }
{
    let placed = owner.placed;
    let image = placed.image;
    let _ = image.header();
    placed.offsets[owner.thread.header().tcb as usize]
}

/// What is seen of a thread of a well-formed image, with the promises of that image.
///
/// # Errors
///
/// Memory may be refused.
pub fn view_of<'a>(
    alloc: Global,
    promises: &PlacedPromises<'a>,
    owner: PlacedThread<'_, '_, '_, 'a>,
) -> Result<ProgramView, Refusal>
    requires { AreOfImage owner.placed.now.image.now promises.now }
    ensures view { IfOk result (IsViewPlaced owner.entry) }
    ensures memory { IfErr result (λ refusal. refusal ≡ OutOfMemory) }
{
    let header = owner.thread.header();
    let tcb = tcb_of(&owner);
    let number = owner.number;
    let parts = ThreadParts::of(alloc, owner)?;
    let points = views_given(alloc, parts.given(promises))?;
    Ok(ProgramView {
        number,
        header,
        tcb,
        points,
    })
}

/// What is seen of the threads of a well-formed image, in their order.
///
/// # Errors
///
/// Memory may be refused.
pub fn views_of_programs(alloc: Global, image: &ImageRef<'_>) -> Result<Vec<ProgramView>, Refusal>
    requires formed { IsWellFormed image.now }
    ensures views { IfOk result (λ views. AreProgramViews image.now 0 image.now.threads views.items) }
    ensures memory { IfErr result (λ refusal. refusal ≡ OutOfMemory) }
{
    let _ = image.header();
    images_that_fit_keep_their_limits();
    let offsets = offsets_of(alloc, image)?;
    let placed = PlacedImage {
        image,
        offsets: &offsets,
    };
    let promises = promises_of(alloc, &placed)?;
    let mut number = 0;
    let mut views = Vec::new(alloc);
    'threads: for thread in image.threads() {
        let owner = PlacedThread {
            placed: &placed,
            number,
            thread: &thread,
        };
        views.push(view_of(alloc, &promises, owner)?)?;
        number += 1;
    }
    Ok(views)
}
