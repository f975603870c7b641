//! Reports on points of a thread, of which those with one cause are put once.

use std::alloc::{AllocError, Global};

/// What is said of a point, and how many further ones have its cause.
#[derive(Drop)]
struct Report {
    said: String,
    /// How many further points have its cause, and the line of the last one.
    more: u64,
    last: u64,
}

/// What is said of the points of a thread.
#[derive(Drop)]
pub(crate) struct Reports {
    alloc: Global,
    list: Vec<Report>,
}

/// Whether a line says what a register comes from that can be anything.
fn is_cause(line: &str) -> bool {
    line.starts_with("  x") && line.ends_with(", so it can be anything")
}

/// What everything that is said of a point comes from, if that is one thing and can be anything.
fn cause_of(said: &str) -> Option<&str> {
    let mut cause = None;
    for line in said.lines() {
        if !line.starts_with("  ") && cause.is_some() {
            return None;
        }
        if is_cause(line) {
            cause = Some(line);
        }
    }
    cause
}

/// The rule of the first line of a report: the last word that ends with a colon before the thread is named.
fn rule_of(said: &str) -> &str {
    match said.split_once(": thread ") {
        Some((before, _)) => match before.rsplit_once(' ') {
            Some((_, rule)) => rule,
            None => before,
        },
        None => "",
    }
}

impl Reports {
    /// Nothing is said.
    pub(crate) fn new(alloc: Global) -> Self {
        Reports {
            alloc,
            list: Vec::new(alloc),
        }
    }

    /// How much is said.
    pub(crate) fn count(&self) -> usize {
        self.list.len()
    }

    /// The report with this cause under this rule, if there is one.
    fn with_cause(&mut self, rule: &str, cause: &str) -> Option<&mut Report> {
        for report in self.list.iter_mut() {
            let is_same = rule_of(report.said.as_str()) == rule
                && cause_of(report.said.as_str()) == Some(cause);
            if is_same {
                return Some(report);
            }
        }
        None
    }

    /// What is said of a further point, if anything is, on this line.
    pub(crate) fn add(&mut self, said: String, line: u64) -> Result<(), AllocError> {
        if said.is_empty() {
            return Ok(());
        }
        if let Some(cause) = cause_of(said.as_str()) {
            if let Some(report) = self.with_cause(rule_of(said.as_str()), cause) {
                report.more = report.more.saturating_add(1);
                report.last = line;
                return Ok(());
            }
        }
        self.list.push(Report {
            said,
            more: 0,
            last: line,
        })?;
        Ok(())
    }

    /// Puts all that is said.
    pub(crate) fn put(&self, to: &mut String) -> Result<(), AllocError> {
        for report in &self.list {
            to.push_str(report.said.as_str())?;
            if report.more > 0 {
                let (more, last) = (report.more, report.last);
                write!(to, "  and {more} more such, the last on line {last}\n")?;
            }
        }
        Ok(())
    }
}
