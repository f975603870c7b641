//! The certificates of all threads of an image that has none.

ghost use Rattle.std.specs.Prelude.{◌≡◌, ◌<◌, [], false};
ghost use Rattle.typestate.specs.Promises.{AreOfImage};

use crate::bare_threads::BareThread;
use crate::costs::{Costs, Counting, cost_at};
use crate::flow::Flow;
use crate::forms::Form;
use crate::graph::{Graph, changes};
use crate::loops::Loops;
use crate::needs::{Registers, only};
use crate::prints::Differing;
use crate::tables::{Table, start_bounds};
use crate::ways::Way;
use crate::{Fault, Reason};
use image_reading::{ImageRef, ThreadRef, read};
use model::{Refusal, TermEntry};
use ranges::Bounds;
use std::alloc::Global;
use thread_spaces::{PlacedImage, PlacedThread, ThreadParts, offsets_of, promises_of};
use typestate::{NotedSlot, PlacedPromises};
use wellformed::well_formed;

/// What is noted at a point of a program.
#[derive(Drop)]
pub struct Record {
    pub point: u32,
    /// The constant of the measure.
    pub constant: i64,
    /// Its terms, at most four, their registers rising.
    pub terms: Vec<TermEntry>,
    pub bounds: Bounds,
    /// The slots that differ from the image's.
    pub changes: Vec<NotedSlot>,
}

/// A thread's certificate, with its records in the order of their points.
#[derive(Drop)]
pub struct Certificate {
    /// How many instructions run at most from one wait to the next.
    pub budget: u64,
    pub records: Vec<Record>,
}

/// How much a certificate notes.
#[derive(Clone, Copy, Debug, PartialEq, Eq)]
pub enum Effort {
    /// Records where the rules need one, with the ranges that something rests on.
    Least,
    /// The same records with all ranges that are known.
    AllRanges,
    /// The same records, and others at all points that are reached, with all ranges that are known: as far as the slots in those are
    /// not more than some for each point.
    AllPoints,
}

/// Why an image gets no certificates.
#[derive(Clone, Copy, Debug, PartialEq, Eq)]
pub enum Unfit {
    /// It is not well formed.
    Refused(Refusal),
    /// For what is wrong at a point of a thread's program, both from 0.
    Thread {
        thread: u32,
        point: u32,
        reason: Reason,
    },
    /// Out of memory.
    OutOfMemory,
}

impl Unfit {
    /// What is wrong with a thread.
    pub(crate) fn of_thread(thread: u32, fault: Fault) -> Self {
        match fault {
            Fault::At { point, reason } => Unfit::Thread {
                thread,
                point,
                reason,
            },
            Fault::OutOfMemory => Unfit::OutOfMemory,
        }
    }
}

/// How many terms a measure has at most.
const MOST_TERMS: usize = 4;

/// How many slots a record notes at most.
const MOST_SLOTS: usize = model::MOST_SLOTS as usize;

/// How many slots the records at points that need none have at most for each point of the program, all together.
const SLOTS_A_POINT: usize = 16;

/// The greatest constant and budget.
const GREATEST: u64 = 1 << 62;

/// So many marks, all of which are set, or none.
fn marks_of(alloc: Global, count: u32, are_set: bool) -> Result<Vec<bool>, Fault> {
    let mut marks = Vec::new(alloc);
    'points: for _ in 0..count {
        marks.push(are_set)?;
    }
    Ok(marks)
}

/// All registers for each of so many points.
fn all_registers(alloc: Global, count: u32) -> Result<Vec<Registers>, Fault> {
    let mut all = Vec::new(alloc);
    'points: for _ in 0..count {
        all.push(Registers::all())?;
    }
    Ok(all)
}

/// Whether a point is marked.
fn is_marked(marks: &[bool], point: u32) -> bool {
    match marks.get(point as usize) {
        Some(mark) => *mark,
        None => false,
    }
}

/// The terms of a measure.
fn terms_of(alloc: Global, cost: &Form, point: u32) -> Result<Vec<TermEntry>, Fault> {
    let mut terms = Vec::new(alloc);
    'registers: for register in 1..32u32 {
        let times = cost.coefficient(register);
        if times != 0 {
            let Some(coefficient) = coefficient_of(times) else {
                return Err(Fault::At {
                    point,
                    reason: Reason::NoMeasure,
                });
            };
            terms.push(TermEntry {
                register,
                coefficient,
            })?;
        }
    }
    if MOST_TERMS < terms.len() || GREATEST < cost.constant.unsigned_abs() {
        return Err(Fault::At {
            point,
            reason: Reason::NoMeasure,
        });
    }
    Ok(terms)
}

/// A number as a coefficient.
fn coefficient_of(times: i64) -> Option<i32> {
    if i64::from(i32::MIN) <= times && times <= i64::from(i32::MAX) {
        Some(times as i32)
    } else {
        None
    }
}

/// Sets a mark.
fn set(marks: &mut Vec<bool>, point: u32) {
    if let Some(mark) = marks.get_mut(point as usize) {
        *mark = true;
    }
}

/// Whether a way writes a register that a measure has.
fn writes_term(way: &Way, cost: &Form) -> bool {
    'registers: for register in 1..32u32 {
        if cost.coefficient(register) != 0 && changes(way, register) {
            return true;
        }
    }
    false
}

/// The measure that the rules take for the next point after a way, if it has no record: after a wait the budget, and else one less.
/// None, where the way writes a register of the measure.
fn following(way: &Way, measure: Option<Form>, budget: i64) -> Option<Form> {
    if way.is_wait {
        return Some(Form::constant(budget));
    }
    let measure = measure?;
    if writes_term(way, &measure) {
        None
    } else {
        Some(measure.raised(-1))
    }
}

/// Whether a measure is at least what a point has to have.
fn suffices(graph: &Graph, costs: &Costs, point: u32, measure: Option<Form>) -> bool {
    match (measure, cost_at(costs, point), graph.bounds_at(point)) {
        (Some(measure), Some(cost), Some(bounds)) => cost.minus(&measure).greatest(bounds) <= 0,
        (measure, _, _) => measure.is_some(),
    }
}

/// Marks the points where no measure follows from the point before, or one that is not enough: so after a register of the measure
/// is written, and after a copy on which the measure goes on.
fn mark_behind_writes(graph: &Graph, costs: &Costs, budget: i64, marks: &mut Vec<bool>) {
    let mut measure = None;
    'ways: for way in &graph.ways {
        if way.is_jump {
            continue;
        }
        if is_marked(marks, way.from) {
            measure = cost_at(costs, way.from);
        }
        measure = following(way, measure, budget);
        if !suffices(graph, costs, way.target, measure) {
            set(marks, way.target);
        }
    }
}

/// Which points need records: the entry, those that jumps lead to, and those to which the point before leaves no measure that is
/// enough.
fn marked_points(graph: &Graph, costs: &Costs, budget: i64) -> Result<Vec<bool>, Fault> {
    let mut marks = marks_of(graph.alloc, graph.count, false)?;
    set(&mut marks, graph.entry);
    'targets: for way in &graph.ways {
        if way.is_jump {
            set(&mut marks, way.target);
        }
    }
    mark_behind_writes(graph, costs, budget, &mut marks);
    Ok(marks)
}

/// The least budget: what the entry has to have with the registers at the start, and what points after waits have to have.
fn budget_of(graph: &Graph, costs: &Costs, start: &Bounds) -> u64 {
    let mut most = 1;
    if let Some(cost) = cost_at(costs, graph.entry) {
        most = cost.greatest(start).max(1);
    }
    'waits: for way in &graph.ways {
        if way.is_wait {
            if let Some(cost) = cost_at(costs, way.target) {
                most = most.max(cost.before(way).greatest(&way.before));
            }
        }
    }
    most.unsigned_abs()
}

/// The ranges that are needed at a point, if it is reached.
fn bounds_needed(graph: &Graph, needs: &[Registers], point: u32) -> Option<Bounds> {
    match (graph.bounds_at(point), needs.get(point as usize)) {
        (Some(bounds), Some(needed)) => Some(only(bounds, needed)),
        _ => None,
    }
}

/// The ranges at all points.
fn all_bounds(
    alloc: Global,
    count: u32,
    table: &Table<'_, '_>,
) -> Result<Vec<Option<Bounds>>, Fault> {
    let mut all = Vec::new(alloc);
    'points: for point in 0..count {
        all.push(table.bounds(point))?;
    }
    Ok(all)
}

impl BareThread<'_, '_> {
    /// The thread's certificate.
    fn certificate(&self) -> Result<Certificate, Fault> {
        let Flow { table, ways } = self.flow()?;
        let mut counting = self.counting(&table, ways)?;
        counting.solve_all()?;
        self.certificate_by(counting, &table)
    }

    /// The program's ways and loops, whose costs are not known.
    pub(crate) fn counting(
        &self,
        table: &Table<'_, '_>,
        ways: Vec<Way>,
    ) -> Result<Counting, Fault> {
        let graph = self.graph(table, ways)?;
        let loops = Loops::of(&graph)?;
        Counting::new(graph, loops)
    }

    /// The thread's certificate, by the costs of all loops.
    pub(crate) fn certificate_by(
        &self,
        counting: Counting,
        table: &Table<'_, '_>,
    ) -> Result<Certificate, Fault> {
        let (graph, costs) = counting.finish()?;
        self.certified(&graph, &costs, table)
    }

    /// The graph of the program's ways.
    fn graph(&self, table: &Table<'_, '_>, ways: Vec<Way>) -> Result<Graph, Fault> {
        let bounds = all_bounds(self.alloc, self.count(), table)?;
        let entry = self.given.space.thread.header().entry;
        Graph::new(self.alloc, self.count(), entry, ways, bounds)
    }

    /// Of which registers ranges are noted at each point.
    fn noted(&self, graph: &Graph, costs: &Costs) -> Result<Vec<Registers>, Fault> {
        match self.effort {
            Effort::Least => self.needs(graph, costs),
            Effort::AllRanges | Effort::AllPoints => all_registers(graph.alloc, graph.count),
        }
    }

    /// The record at a point with this cost and these ranges and slots.
    fn record(
        &self,
        point: u32,
        cost: &Form,
        bounds: Bounds,
        changes: Vec<NotedSlot>,
    ) -> Result<Record, Fault> {
        Ok(Record {
            point,
            constant: cost.constant,
            terms: terms_of(self.alloc, cost, point)?,
            bounds,
            changes,
        })
    }

    /// The records at all points that get one.
    fn records(
        &self,
        graph: &Graph,
        costs: &Costs,
        needs: &[Registers],
        table: &Table<'_, '_>,
        marks: &[bool],
    ) -> Result<Vec<Record>, Fault> {
        let mut records = Vec::new(graph.alloc);
        let mut noting = Noting::new(*self, graph.count)?;
        'points: for point in 0..graph.count {
            if let (Some(cost), Some(bounds)) = (
                cost_at(costs, point),
                bounds_needed(graph, needs, point),
            ) {
                if let Some(changes) = noting.changes(table, point, is_marked(marks, point))? {
                    records.push(self.record(point, &cost, bounds, changes)?)?;
                }
            }
        }
        Ok(records)
    }

    /// The thread's certificate, by what its points have to have at least.
    fn certified(
        &self,
        graph: &Graph,
        costs: &Costs,
        table: &Table<'_, '_>,
    ) -> Result<Certificate, Fault> {
        let budget = self.budget(graph, costs)?;
        let marks = marked_points(graph, costs, budget.cast_signed())?;
        let needs = self.noted(graph, costs)?;
        let records = self.records(graph, costs, &needs, table, &marks)?;
        Ok(Certificate { budget, records })
    }

    /// The thread's least budget, if that is not too great.
    fn budget(&self, graph: &Graph, costs: &Costs) -> Result<u64, Fault> {
        let budget = budget_of(graph, costs, &start_bounds(self.given.space.thread));
        if GREATEST < budget {
            return Err(Fault::At {
                point: graph.entry,
                reason: Reason::NoMeasure,
            });
        }
        Ok(budget)
    }
}

/// The slots that records note, from point to point.
#[derive(Drop)]
struct Noting<'a, 's> {
    differing: Differing<'a, 's>,
    /// How many slots records may have at points that need none.
    left: usize,
}

impl<'a, 's> Noting<'a, 's> {
    /// Nothing is noted yet of a thread with so many points.
    fn new(thread: BareThread<'a, 's>, count: u32) -> Result<Self, Fault> {
        let left = match thread.effort {
            Effort::Least | Effort::AllRanges => 0,
            Effort::AllPoints => (count as usize).saturating_mul(SLOTS_A_POINT),
        };
        Ok(Noting {
            differing: Differing::none(thread)?,
            left,
        })
    }

    /// Whether the record at a point notes so many slots: where it needs one they have to fit, and else some have to be left.
    fn takes(&mut self, point: u32, count: usize, is_needed: bool) -> Result<bool, Fault> {
        if !is_needed {
            let fits = count <= MOST_SLOTS && count <= self.left;
            if fits {
                self.left = self.left.saturating_sub(count);
            }
            return Ok(fits);
        }
        if MOST_SLOTS < count {
            return Err(Fault::At {
                point,
                reason: Reason::TooManySlots,
            });
        }
        Ok(true)
    }

    /// The changes of slots that the record at a point notes, if it gets one.
    fn changes(
        &mut self,
        table: &Table<'_, '_>,
        point: u32,
        is_needed: bool,
    ) -> Result<Option<Vec<NotedSlot>>, Fault> {
        if !is_needed && self.left == 0 {
            return Ok(None);
        }
        let Some(state) = table.state(point) else {
            return Ok(None);
        };
        self.differing.go_on(&table.shared.log, state.changes)?;
        let count = self.differing.count();
        if !self.takes(point, count, is_needed)? {
            return Ok(None);
        }
        let noted = self.differing.listed(&table.shared.log)?;
        Ok(Some(noted))
    }
}

/// Whether a thread's certificate has records.
pub(crate) fn has_records(thread: &ThreadRef<'_>) -> bool
    ensures { result ≡ false → thread.now.records ≡ [] }
{
    thread.records().next().is_some()
}

/// The certificate of a thread of a well-formed image, by its number. A thread that has records is refused.
fn certificate_of<'a>(
    alloc: Global,
    placed: &PlacedImage<'_, 'a>,
    promises: &PlacedPromises<'a>,
    number: u32,
    effort: Effort,
) -> Result<Certificate, Fault>
    requires promises { AreOfImage placed.now.image.now promises.now }
    requires number { number < placed.now.image.now.header.threads }
{
    let thread = placed.image.thread(number);
    let owner = PlacedThread {
        placed,
        number,
        thread: &thread,
    };
    let parts = ThreadParts::of(alloc, owner)?;
    let given = parts.given(promises);
    if has_records(given.space.thread) {
        return Err(Fault::At {
            point: 0,
            reason: Reason::NotBare,
        });
    }
    let bare = BareThread {
        given,
        effort,
        alloc,
    };
    bare.certificate()
}

/// The certificates of the threads of an image whose threads have no records, in their order. Nothing is promised of them: the
/// verifier judges the image that has them.
///
/// # Errors
///
/// The image is not well formed, or the first thread for which none is found, and why.
pub fn certificates(
    alloc: Global,
    bytes: &[u8],
    effort: Effort,
) -> Result<Vec<Certificate>, Unfit> {
    let image = match read(bytes) {
        Ok(image) => image,
        Err(refusal) => return Err(Unfit::Refused(refusal)),
    };
    if let Err(refusal) = well_formed(alloc, &image) {
        return Err(Unfit::Refused(refusal));
    }
    let Ok(offsets) = offsets_of(alloc, &image) else {
        return Err(Unfit::OutOfMemory);
    };
    let placed = PlacedImage {
        image: &image,
        offsets: &offsets,
    };
    let Ok(promises) = promises_of(alloc, &placed) else {
        return Err(Unfit::OutOfMemory);
    };
    let mut all = Vec::new(alloc);
    'threads: for number in 0..image.header().threads {
        let certificate = match certificate_of(alloc, &placed, &promises, number, effort) {
            Ok(certificate) => certificate,
            Err(fault) => return Err(Unfit::of_thread(number, fault)),
        };
        if all.push(certificate).is_err() {
            return Err(Unfit::OutOfMemory);
        }
    }
    Ok(all)
}
