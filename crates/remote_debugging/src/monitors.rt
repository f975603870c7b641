//! What is asked by `monitor`: events, and what the kernel keeps.

use crate::debuggers::Debugger;
use console::read_all;
use debugging::{Halt, NotPut, Stops, run_to_stop};
use model::Event;
use named_runs::{ListFault, named_events};
use std::alloc::AllocError;
use std::rt::Files;

/// What `monitor` takes.
const HELP: &str =
    "irq NAME, tick, write PAGE INDEX WORD, read PAGE INDEX: the event comes next, and is done\nstep N: goes on by N events\n\
     events FILE: does the events of a file\nwhere: how many events are done\nto N: comes to the moment after N events, forwards or back\n\
     part NAME, part all: for which part breakpoints and watches are set\nwaits: what each part waits for\nslots: what the slots of the part hold\n\
     known: what the certificate knows here, beside the values of registers\n";

/// Why nothing was done.
fn not_put(fault: NotPut) -> Result<&'static str, AllocError> {
    match fault {
        NotPut::TooMany => Ok("too many events are before it\n"),
        NotPut::OutOfMemory => Err(AllocError),
    }
}

impl Debugger<'_, '_, '_, '_> {
    /// Does an event now: it is put into the run as the next one.
    fn do_event(&mut self, event: Event, to: &mut String) -> Result<bool, AllocError> {
        if !self.pages.keep(event) {
            to.push_str("the address is that of no word of a device page\n")?;
            return Ok(false);
        }
        if let Err(fault) = self.run.put_next(event) {
            to.push_str(not_put(fault)?)?;
            return Ok(false);
        }
        self.run.go_on();
        Ok(true)
    }

    /// Does the events of a list.
    fn do_events(&mut self, list: &[u8], to: &mut String) -> Result<(), AllocError> {
        match named_events(self.alloc, self.scene.names, list) {
            Ok(events) => {
                for event in &events {
                    if !self.do_event(*event, to)? {
                        break;
                    }
                }
                self.push_where(to)
            }
            Err(ListFault::Line { line, why }) => {
                let why = why.as_str();
                write!(to, "line {line}: {why}\n")
            }
            Err(ListFault::OutOfMemory) => Err(AllocError),
        }
    }

    /// Puts how many events are done.
    fn push_where(&self, to: &mut String) -> Result<(), AllocError> {
        let done = self.run.done();
        write!(to, "{done} events are done\n")
    }

    /// Goes on by so many events, without a stop.
    fn go_by(&mut self, count: u32, to: &mut String) -> Result<(), AllocError> {
        let none = Stops::new(self.alloc);
        let _: Halt = run_to_stop(&mut self.run, &none, None, count as usize, false);
        self.push_where(to)
    }

    /// Sets for which part breakpoints are.
    fn choose_part(&mut self, name: &str, to: &mut String) -> Result<(), AllocError> {
        if name == "all" {
            self.only = None;
            return to.push_str("breakpoints are for all parts\n");
        }
        match self.scene.parts.iter().position(|part| part.name == name) {
            Some(part) => {
                self.only = Some(part);
                self.selected = part;
                write!(to, "breakpoints are for {name}\n")
            }
            None => write!(to, "no part of the system is called `{name}`\n"),
        }
    }

    /// What is asked with a number or a name.
    fn monitor_with<R: Files + Input + AllocGlobal>(
        &mut self,
        rt: &R,
        first: &str,
        rest: &str,
        line: &str,
        to: &mut String,
    ) -> Result<(), AllocError> {
        match first {
            "part" => self.choose_part(rest, to),
            "step" => match rest.parse::<u32>() {
                Ok(count) => self.go_by(count.min(10_000_000), to),
                Err(_) => to.push_str("the form is `step N`\n"),
            },
            "to" => match rest.parse::<u32>() {
                Ok(count) => {
                    self.run.wind_to(count as usize)?;
                    self.push_where(to)
                }
                Err(_) => to.push_str("the form is `to N`\n"),
            },
            "events" => match read_all(rt, rest) {
                Ok(list) => self.do_events(list.as_slice(), to),
                Err(_) => write!(to, "{rest} cannot be read\n"),
            },
            _ => self.do_events(line.as_bytes(), to),
        }
    }

    /// Answers what `monitor` asks.
    pub(crate) fn monitor<R: Files + Input + AllocGlobal>(
        &mut self,
        rt: &R,
        line: &str,
        to: &mut String,
    ) -> Result<(), AllocError> {
        let line = line.trim_ascii();
        match line {
            "waits" => {
                self.find_used()?;
                self.push_waits(to)
            }
            "slots" => self.push_slots(to),
            "known" => self.push_known(to),
            "where" => self.push_where(to),
            "" | "help" => to.push_str(HELP),
            "tick" | "step" => self.do_events(line.as_bytes(), to),
            _ => match line.split_once(' ') {
                Some((first, rest)) => self.monitor_with(rt, first, rest, line, to),
                None => {
                    write!(to, "`{line}` is not known; there are:\n")?;
                    to.push_str(HELP)
                }
            },
        }
    }
}
