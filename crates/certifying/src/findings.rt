//! What is known of threads without certificates, also of those for which none is found: what holds at each point, and all that
//! is wrong.

ghost use Rattle.std.specs.Prelude.{◌≡◌, ◌<◌, [], false};
ghost use Rattle.typestate.specs.Promises.{AreOfImage};

use crate::bare_threads::BareThread;
use crate::certifier::{Record, Unfit, has_records};
use crate::costs::Counting;
use crate::flow::{MOST_VISITS, add_ways};
use crate::prints::Differing;
use crate::tables::Table;
use crate::ways::{State, Way};
use crate::{Effort, Fault, Reason};
use image_reading::{ImageRef, read};
use std::alloc::Global;
use thread_spaces::{PlacedImage, PlacedThread, ThreadParts, offsets_of, promises_of};
use typestate::PlacedPromises;
use wellformed::well_formed;

/// What is wrong at a point of a program.
#[derive(Drop)]
pub struct Finding {
    pub point: u32,
    pub reason: Reason,
    /// The points of the loop that is cut there, if it has no measure.
    pub points: Vec<u32>,
}

/// What is found of a thread.
#[derive(Drop)]
pub struct ThreadFindings {
    /// What is known at the points that are reached, in their order. The measures say nothing.
    pub known: Vec<Record>,
    /// All that is wrong.
    pub wrong: Vec<Finding>,
    /// The least budget, where nothing is wrong.
    pub least: Option<u64>,
}

impl ThreadFindings {
    /// Nothing is found.
    fn new(alloc: Global) -> Self {
        ThreadFindings {
            known: Vec::new(alloc),
            wrong: Vec::new(alloc),
            least: None,
        }
    }
}

/// Whether this is noted of the point already.
fn is_noted(wrong: &[Finding], point: u32, reason: Reason) -> bool {
    'findings: for finding in wrong {
        if finding.point == point && finding.reason == reason {
            return true;
        }
    }
    false
}

/// Notes what is wrong at a point, once. Out of memory is passed on.
fn note(alloc: Global, wrong: &mut Vec<Finding>, fault: Fault) -> Result<(), Fault> {
    let Fault::At { point, reason } = fault else {
        return Err(Fault::OutOfMemory);
    };
    if !is_noted(wrong, point, reason) {
        wrong.push(Finding {
            point,
            reason,
            points: Vec::new(alloc),
        })?;
    }
    Ok(())
}

impl Counting {
    /// Whether a loop has a point inside where something is wrong.
    fn is_around(&self, number: usize, wrong: &[Finding]) -> bool {
        'findings: for finding in wrong {
            if self.loops.has(Some(number), finding.point) {
                return true;
            }
        }
        false
    }

    /// Finds the costs of a loop, and answers whether it has a measure.
    fn has_measure(&mut self, number: usize) -> Result<bool, Fault> {
        match self.solve(number) {
            Ok(()) => Ok(true),
            Err(Fault::At { .. }) => Ok(false),
            Err(Fault::OutOfMemory) => Err(Fault::OutOfMemory),
        }
    }

    /// Notes a loop that has no measure.
    fn note_unmeasured(&self, number: usize, wrong: &mut Vec<Finding>) -> Result<(), Fault> {
        if let Some(one) = self.loops.all.get(number) {
            let points = self.copied_points(Some(number))?;
            wrong.push(Finding {
                point: one.header,
                reason: Reason::NoMeasure,
                points,
            })?;
        }
        Ok(())
    }

    /// Finds the costs of a loop, or notes that it has no measure. A loop around a point where something is wrong is passed over.
    fn note_loop(&mut self, number: usize, wrong: &mut Vec<Finding>) -> Result<(), Fault> {
        if self.is_around(number, wrong) || self.has_measure(number)? {
            return Ok(());
        }
        self.note_unmeasured(number, wrong)
    }

    /// Finds the costs of all loops, and notes those without a measure.
    fn note_loops(&mut self, wrong: &mut Vec<Finding>) -> Result<(), Fault> {
        'loops: for number in (0..self.loops.all.len()).rev() {
            self.note_loop(number, wrong)?;
        }
        Ok(())
    }
}

impl BareThread<'_, '_> {
    /// Follows the ways on from a point if it has changed, and answers which point is looked at next.
    fn follow_one(
        &self,
        table: &mut Table<'_, '_>,
        wrong: &mut Vec<Finding>,
        point: u32,
    ) -> Result<u32, Fault> {
        let next = point.saturating_add(1);
        if !table.take(point) {
            return Ok(next);
        }
        match self.follow(table, point) {
            Ok(changed) => Ok(changed),
            Err(fault) => {
                note(self.alloc, wrong, fault)?;
                Ok(next)
            }
        }
    }

    /// Follows the ways on from all points that change, and goes on where something is wrong.
    fn follow_on(&self, table: &mut Table<'_, '_>, wrong: &mut Vec<Finding>) -> Result<(), Fault> {
        let mut point = 0u32;
        'visits: for _ in 0..MOST_VISITS {
            if self.count() <= point {
                break;
            }
            point = self.follow_one(table, wrong, point)?;
        }
        Ok(())
    }

    /// Adds the ways on from a point if it is reached, or notes what is wrong there.
    fn add_ways_at(
        &self,
        table: &mut Table<'_, '_>,
        wrong: &mut Vec<Finding>,
        all: &mut Vec<Way>,
        point: u32,
    ) -> Result<(), Fault> {
        let Some(state) = table.state(point) else {
            return Ok(());
        };
        match self.ways(point, &state, &mut table.shared) {
            Ok(ways) => add_ways(all, &ways),
            Err(fault) => note(self.alloc, wrong, fault),
        }
    }

    /// The ways on from all points that are reached, but for those where something is wrong, which is noted.
    fn ways_found(
        &self,
        table: &mut Table<'_, '_>,
        wrong: &mut Vec<Finding>,
    ) -> Result<Vec<Way>, Fault> {
        let mut all = Vec::new(self.alloc);
        'points: for point in 0..self.count() {
            self.add_ways_at(table, wrong, &mut all, point)?;
        }
        Ok(all)
    }

    /// Narrows all ranges, where nothing is wrong: no way leads on from a point where something is, so that less might hold in a
    /// loop around it than is known.
    fn narrow_sound(
        &self,
        table: &mut Table<'_, '_>,
        wrong: &mut Vec<Finding>,
    ) -> Result<(), Fault> {
        self.ways_found(table, wrong)?;
        if wrong.is_empty() {
            self.narrow_all(table)?;
        }
        Ok(())
    }

    /// What is known at a point with this state. The slots go on from those of the point before.
    fn known_at(
        &self,
        table: &Table<'_, '_>,
        differing: &mut Differing<'_, '_>,
        point: u32,
        state: &State,
    ) -> Result<Record, Fault> {
        differing.go_on(&table.shared.log, state.changes)?;
        let changes = differing.listed(&table.shared.log)?;
        Ok(Record {
            point,
            constant: 0,
            terms: Vec::new(self.alloc),
            bounds: state.bounds,
            changes,
        })
    }

    /// What is known at all points that are reached.
    fn known(&self, table: &Table<'_, '_>) -> Result<Vec<Record>, Fault> {
        let mut known = Vec::new(self.alloc);
        let mut differing = Differing::none(*self)?;
        'points: for point in 0..self.count() {
            if let Some(state) = table.state(point) {
                known.push(self.known_at(table, &mut differing, point, &state)?)?;
            }
        }
        Ok(known)
    }

    /// The least budget, by the costs of all loops.
    fn least_by(&self, counting: Counting, table: &Table<'_, '_>) -> Result<u64, Fault> {
        let certificate = self.certificate_by(counting, table)?;
        Ok(certificate.budget)
    }

    /// The least budget, or what is wrong with the measures of the program's loops.
    fn least_of(
        &self,
        mut counting: Counting,
        table: &Table<'_, '_>,
        wrong: &mut Vec<Finding>,
    ) -> Result<Option<u64>, Fault> {
        counting.note_loops(wrong)?;
        if !wrong.is_empty() {
            return Ok(None);
        }
        match self.least_by(counting, table) {
            Ok(budget) => Ok(Some(budget)),
            Err(fault) => {
                note(self.alloc, wrong, fault)?;
                Ok(None)
            }
        }
    }

    /// The least budget of a thread in which nothing is wrong so far, or what is wrong with its measures.
    fn least(
        &self,
        table: &mut Table<'_, '_>,
        wrong: &mut Vec<Finding>,
    ) -> Result<Option<u64>, Fault> {
        let ways = self.ways_found(table, wrong)?;
        let counting = self.counting(table, ways)?;
        self.least_of(counting, table, wrong)
    }

    /// Adds all that is found of the thread.
    fn find(&self, table: &mut Table<'_, '_>, findings: &mut ThreadFindings) -> Result<(), Fault> {
        self.follow_on(table, &mut findings.wrong)?;
        self.narrow_sound(table, &mut findings.wrong)?;
        findings.known = self.known(table)?;
        if findings.wrong.is_empty() {
            findings.least = self.least(table, &mut findings.wrong)?;
        }
        Ok(())
    }

    /// What is found of the thread.
    fn found(&self) -> Result<ThreadFindings, Fault> {
        let mut table = self.begun()?;
        let mut findings = ThreadFindings::new(self.alloc);
        self.find(&mut table, &mut findings)?;
        Ok(findings)
    }
}

/// What is found of a thread of a well-formed image, by its number. A thread that has records is refused.
fn findings_of<'a>(
    alloc: Global,
    placed: &PlacedImage<'_, 'a>,
    promises: &PlacedPromises<'a>,
    number: u32,
) -> Result<ThreadFindings, Fault>
    requires promises { AreOfImage placed.now.image.now promises.now }
    requires number { number < placed.now.image.now.header.threads }
{
    let thread = placed.image.thread(number);
    let owner = PlacedThread {
        placed,
        number,
        thread: &thread,
    };
    let parts = ThreadParts::of(alloc, owner)?;
    let given = parts.given(promises);
    if has_records(given.space.thread) {
        return Err(Fault::At {
            point: 0,
            reason: Reason::NotBare,
        });
    }
    let bare = BareThread {
        given,
        effort: Effort::Least,
        alloc,
    };
    bare.found()
}

/// What is found of the threads of an image whose threads have no records, in their order.
///
/// # Errors
///
/// The image is not well formed, a thread has records, or memory ran out.
pub fn findings_in(alloc: Global, bytes: &[u8]) -> Result<Vec<ThreadFindings>, Unfit> {
    let image = match read(bytes) {
        Ok(image) => image,
        Err(refusal) => return Err(Unfit::Refused(refusal)),
    };
    if let Err(refusal) = well_formed(alloc, &image) {
        return Err(Unfit::Refused(refusal));
    }
    let Ok(offsets) = offsets_of(alloc, &image) else {
        return Err(Unfit::OutOfMemory);
    };
    let placed = PlacedImage {
        image: &image,
        offsets: &offsets,
    };
    let Ok(promises) = promises_of(alloc, &placed) else {
        return Err(Unfit::OutOfMemory);
    };
    let mut all = Vec::new(alloc);
    'threads: for number in 0..image.header().threads {
        let found = match findings_of(alloc, &placed, &promises, number) {
            Ok(found) => found,
            Err(fault) => return Err(Unfit::of_thread(number, fault)),
        };
        if all.push(found).is_err() {
            return Err(Unfit::OutOfMemory);
        }
    }
    Ok(all)
}
