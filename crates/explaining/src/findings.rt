//! What is found wrong with a thread that has no certificate.

use crate::loops::Loop;
use crate::reports::Reports;
use crate::scenes::Scene;
use certifying::{Finding, Reason, ThreadFindings};
use model::{MOST_SLOTS, Point, Refusal};
use program_rules::AtPoint;
use source_gaps::push_place;
use std::alloc::AllocError;

/// How many mistakes of a thread are reported at most, unless one point has more.
const MOST_REPORTED: usize = 20;

impl Scene<'_, '_, '_, '_, '_, '_, '_> {
    /// A point of the thread as refusals name it.
    fn place(&self, point: u32) -> Point {
        Point {
            thread: self.given.number,
            point,
        }
    }

    /// Reports of a loop that has no measure.
    fn report_unmeasured(&self, to: &mut String, finding: &Finding) -> Result<(), AllocError> {
        let mut points = Vec::new(self.alloc);
        points.extend_from_slice(&finding.points)?;
        points.sort_unstable();
        let of = Loop {
            header: finding.point,
            points: &points,
        };
        self.report_loop(to, &of)
    }

    /// Reports that a record at a point would have more slots than a record has.
    fn report_many_slots(&self, to: &mut String, point: u32) -> Result<(), AllocError> {
        self.push_rule(to, point, "TooManySlots")?;
        self.push_head(to, point)?;
        write!(
            to,
            "more than {MOST_SLOTS} slots would have to be noted at this point\n  \
             a record is needed there: let at most {MOST_SLOTS} slots differ from what the image lists\n"
        )
    }

    /// Reports what is wrong at a point.
    fn report_finding(&self, to: &mut String, finding: &Finding) -> Result<(), AllocError> {
        let point = finding.point;
        let at = self.place(point);
        match finding.reason {
            Reason::Refused(refusal) => self.report_point(to, point, refusal),
            Reason::LeavesProgram => {
                self.report_named(to, point, Refusal::BadTarget(at), "LeavesProgram")
            }
            Reason::SlotsDiffer => {
                self.report_named(to, point, Refusal::CapNotThere(at), "SlotsDiffer")
            }
            Reason::NoMeasure => self.report_unmeasured(to, finding),
            Reason::TooManySlots => self.report_many_slots(to, point),
            Reason::NotBare => Ok(()),
        }
    }

    /// Reports that the load or store at a point can reach what is not mapped, if it can.
    fn report_reached(&self, to: &mut String, point: u32) -> Result<(), AllocError> {
        match self.state_at(point)? {
            AtPoint::Known(state) if self.reaches_unmapped(point, &state) => {
                self.report_point(to, point, Refusal::NotMapped(self.place(point)))
            }
            _ => Ok(()),
        }
    }

    /// Reports all that is wrong at a point.
    fn report_wrong(
        &self,
        to: &mut String,
        findings: &ThreadFindings,
        point: u32,
    ) -> Result<(), AllocError> {
        for finding in &findings.wrong {
            if finding.point == point {
                self.report_finding(to, finding)?;
            }
        }
        self.report_reached(to, point)
    }

    /// Reports that the budget is below the least, if it is.
    fn report_small_budget(
        &self,
        to: &mut String,
        findings: &ThreadFindings,
    ) -> Result<(), AllocError> {
        let budget = self.thread.budget;
        match findings.least {
            Some(least) if budget < least => {
                let line = self.thread.line;
                let name = self.source.object_name(self.thread.tcb);
                push_place(to, &self.text, line)?;
                write!(
                    to,
                    "BudgetTooSmall: thread {name}: the budget of line {line} is {budget}; {least} is needed: raise it, or write `auto`\n"
                )
            }
            _ => Ok(()),
        }
    }

    /// Reports that more can be wrong from a point on.
    fn report_more(&self, to: &mut String, point: u32) -> Result<(), AllocError> {
        self.push_rule(to, point, "More")?;
        let name = self.source.object_name(self.thread.tcb);
        write!(
            to,
            "thread {name}: more can be wrong from here on: mend what is reported above first\n"
        )
    }

    /// Reports all that is wrong with the thread, in the order of its points. What has the cause of what is reported already is
    /// counted there.
    pub(crate) fn report_findings(
        &self,
        to: &mut String,
        findings: &ThreadFindings,
    ) -> Result<(), AllocError> {
        let mut reports = Reports::new(self.alloc);
        for record in &findings.known {
            if MOST_REPORTED <= reports.count() {
                reports.put(to)?;
                return self.report_more(to, record.point);
            }
            let mut said = String::new(self.alloc);
            self.report_wrong(&mut said, findings, record.point)?;
            reports.add(said, self.line(record.point))?;
        }
        reports.put(to)?;
        self.report_small_budget(to, findings)
    }
}
