//! The sentences of a report: each with what it stands on.

use crate::clauses::Clause;
use crate::findings::{Answer, Door, Facts, Ground, Group, Part, Section, Statement};
use std::alloc::{AllocError, Global};

/// Sentences so far.
#[derive(Drop)]
pub(crate) struct Statements {
    alloc: Global,
    all: Vec<Statement>,
}

/// Names with `, ` between them.
pub(crate) fn joined(alloc: Global, names: &[&str]) -> Result<String, AllocError> {
    let mut all = String::new(alloc);
    for name in names {
        if !all.is_empty() {
            all.push_str(", ")?;
        }
        all.push_str(name)?;
    }
    Ok(all)
}

/// The budget of each part.
fn budgets_said(alloc: Global, parts: &[Part<'_>]) -> Result<String, AllocError> {
    let mut all = String::new(alloc);
    for part in parts {
        if !all.is_empty() {
            all.push_str(", ")?;
        }
        let (name, budget) = (part.name, part.budget);
        write!(&mut all, "{name} {budget}")?;
    }
    Ok(all)
}

/// What is promised of the messages to an endpoint.
fn promise_said(alloc: Global, door: &Door<'_>) -> Result<String, AllocError> {
    let (name, low, high) = (door.name, door.badge_low, door.badge_high);
    let mut said = format!(in alloc; "{name}: badge {low} to {high}")?;
    for (place, word) in door.words.iter().enumerate() {
        let (low, high) = (word.low, word.high);
        write!(&mut said, ", word {place} from {low} to {high}")?;
    }
    Ok(said)
}

/// What is said of a group that takes nothing from the others.
fn free_said(alloc: Global, group: &Group<'_>) -> Result<String, AllocError> {
    let names = joined(alloc, group.parts.as_slice())?;
    let mut said = if group.parts.len() == 1 {
        format!(in alloc;
            "{names} takes nothing from the others: no other part may change what it reads, receives or waits for"
        )?
    } else {
        format!(in alloc;
            "{names} take nothing from the others: no other part may change what they read, receive or wait for"
        )?
    };
    if group.is_above {
        said.push_str("; its priorities are above theirs")?;
    }
    said.push_str(".")?;
    Ok(said)
}

/// What is said of a group that takes what others may change.
fn taking_said(alloc: Global, group: &Group<'_>) -> Result<String, AllocError> {
    let names = joined(alloc, group.parts.as_slice())?;
    let others = joined(alloc, group.others.as_slice())?;
    let verb = if group.parts.len() == 1 {
        "takes"
    } else {
        "take"
    };
    format!(in alloc; "{names} {verb} what others may change: {others}.")
}

impl Statements {
    /// One sentence more.
    fn add(&mut self, section: Section, ground: Ground, text: String) -> Result<(), AllocError> {
        self.all.push(Statement {
            section,
            ground,
            text,
        })?;
        Ok(())
    }

    /// A sentence that is the same for all images.
    fn say(&mut self, section: Section, ground: Ground, text: &str) -> Result<(), AllocError> {
        let text = String::from_str(self.alloc, text)?;
        self.add(section, ground, text)
    }

    /// All of them, in the order of the page.
    fn say_all(&mut self, facts: &Facts<'_>) -> Result<(), AllocError> {
        self.say_what(facts)?;
        self.say_promise(facts)?;
        self.say_responses(facts)?;
        self.say_parts(facts)?;
        self.say_access(facts)?;
        self.say_memory(facts)?;
        self.say_tests(facts)?;
        self.say_premises()
    }

    /// What it is.
    fn say_what(&mut self, facts: &Facts<'_>) -> Result<(), AllocError> {
        let what = Section::What;
        self.say(
            what,
            Ground::Clause(Clause::Accepted),
            "The verifier accepts the bytes of this image: no rule of acceptance is broken.",
        )?;
        self.say(
            what,
            Ground::Clause(Clause::Digest),
            "The digits above are those of the SHA-256 of these bytes.",
        )?;
        let sizes = facts.sizes;
        let (bytes, version) = (sizes.bytes, sizes.version);
        let (parts, objects) = (sizes.parts, sizes.objects);
        let instructions = sizes.instructions;
        let text = format!(in self.alloc;
            "The image is of version {version} and has {bytes} bytes. Parts: {parts}; instructions of their programs: {instructions}; objects: {objects}."
        )?;
        self.add(what, Ground::Count, text)
    }

    /// What holds of each run.
    fn say_promise(&mut self, facts: &Facts<'_>) -> Result<(), AllocError> {
        self.say_run(facts)?;
        let promise = Section::Promise;
        let budgets = budgets_said(self.alloc, facts.declared.parts.as_slice())?;
        let text = format!(in self.alloc;
            "No part takes more steps from one wait to the next than its budget: {budgets}."
        )?;
        self.add(promise, Ground::Clause(Clause::SafeRun), text)?;
        for door in &facts.declared.doors {
            let said = promise_said(self.alloc, door)?;
            let text = format!(in self.alloc;
                "Each message that waits at a door keeps what is promised there: {said}."
            )?;
            self.add(promise, Ground::Clause(Clause::Promises), text)?;
        }
        self.say(
            promise,
            Ground::Clause(Clause::Authority),
            "Each event changes only what authority lets it: over a whole run a byte changes only where a part that ran may write by the image, or where the \
             world wrote a word of a device page.",
        )
    }

    /// That runs are safe, and over which events.
    fn say_run(&mut self, facts: &Facts<'_>) -> Result<(), AllocError> {
        let mut names = Vec::new(self.alloc);
        for device in &facts.declared.devices {
            names.push(device.name)?;
        }
        let devices = joined(self.alloc, names.as_slice())?;
        let count = facts.declared.devices.len();
        let text = if count == 0 {
            String::from_str(
                self.alloc,
                "Over any steps, ticks and interrupts whatever, in any order, the image boots with no kernel error into the state that it describes, and no \
                 event is a fault or an error. It has no device page, so the world writes and reads none.",
            )?
        } else {
            format!(in self.alloc;
                "Over any steps, ticks and interrupts whatever, in any order, and whatever the world writes and reads in its device pages \
                 ({count}: {devices}), the image boots with no kernel error into the state that it describes, and no event is a fault or an error."
            )?
        };
        self.add(Section::Promise, Ground::Clause(Clause::SafeRun), text)
    }

    /// How soon levels rest.
    fn say_responses(&mut self, facts: &Facts<'_>) -> Result<(), AllocError> {
        let place = Section::Responses;
        if facts.responding.rates.is_empty() {
            self.say(
                place,
                Ground::Premise,
                "No rates of interrupts are given, so there are bounds only where no line sets anything going that counts. With --rate LINE:BURST:PERIOD there \
                 may be more.",
            )?;
        }
        for rate in &facts.responding.rates {
            let (line, burst, period) = (rate.line, rate.burst, rate.period);
            let text = format!(in self.alloc;
                "Interrupts of line {line} come at most so often: {burst} in any stretch of steps, and one more for each {period} steps of it. This is what \
                 was given, and not what is proved."
            )?;
            self.add(place, Ground::Premise, text)?;
        }
        for row in &facts.responding.rows {
            let names = joined(self.alloc, row.parts.as_slice())?;
            self.say_response(row.priority, names.as_str(), &row.answer)?;
        }
        self.say_within(facts)
    }

    /// Whether parts deal with interrupts as soon as they are asked to.
    fn say_within(&mut self, facts: &Facts<'_>) -> Result<(), AllocError> {
        for asked in &facts.responding.within {
            let said = asked.said;
            if asked.holds {
                let text = format!(in self.alloc;
                    "Asked by `within`, and so at the rates of the system: {said}."
                )?;
                self.add(Section::Responses, Ground::Clause(Clause::Kept), text)?;
            } else {
                let text = format!(in self.alloc; "Asked by `within`, and not so: {said}.")?;
                self.add(Section::Responses, Ground::Count, text)?;
            }
        }
        Ok(())
    }

    /// How soon a level rests.
    fn say_response(
        &mut self,
        priority: u32,
        names: &str,
        answer: &Answer,
    ) -> Result<(), AllocError> {
        match answer {
            Answer::Bound { steps, later, .. } => {
                let text = format!(in self.alloc;
                    "Of priority {priority} and above ({names}) no more than {steps} steps on end run from the start on, and no more than {later} once they \
                     have rested, whatever the others do, over all events that keep the rates."
                )?;
                self.add(Section::Responses, Ground::Clause(Clause::Responses), text)
            }
            Answer::NoBound { reason } => {
                let text = format!(in self.alloc;
                    "Of priority {priority} and above ({names}) there is no bound: {reason}."
                )?;
                self.add(Section::Responses, Ground::Count, text)
            }
        }
    }

    /// Which parts take nothing from the others.
    fn say_parts(&mut self, facts: &Facts<'_>) -> Result<(), AllocError> {
        for group in &facts.sharing.groups {
            if facts.sharing.groups.len() == 1 {
                let names = joined(self.alloc, group.parts.as_slice())?;
                let text = format!(in self.alloc;
                    "All parts are one group, in which each may change what others take, by others too: {names}."
                )?;
                self.add(Section::Parts, Ground::Count, text)?;
            } else if group.takes_nothing {
                let text = free_said(self.alloc, group)?;
                self.add(Section::Parts, Ground::Clause(Clause::TakesNothing), text)?;
            } else {
                let text = taking_said(self.alloc, group)?;
                self.add(Section::Parts, Ground::Count, text)?;
            }
        }
        Ok(())
    }

    /// What parts may do.
    fn say_access(&mut self, facts: &Facts<'_>) -> Result<(), AllocError> {
        let sizes = facts.sizes;
        let (capabilities, mappings) = (sizes.capabilities, sizes.mappings);
        let text = format!(in self.alloc;
            "The tables are what the image gives its parts at the start, by {capabilities} capabilities and {mappings} mappings."
        )?;
        self.add(Section::Access, Ground::Count, text)?;
        self.say(
            Section::Access,
            Ground::Clause(Clause::Held),
            "After any events no part holds more than the image gave it: each capability in its slots is covered by one that is listed for it, or is to memory \
             that it was given, or a listed handler.",
        )
    }

    /// What memory there is.
    fn say_memory(&mut self, facts: &Facts<'_>) -> Result<(), AllocError> {
        let mut used = 0u64;
        let mut free = 0u64;
        for untyped in &facts.memory.untyped {
            used = used.saturating_add(untyped.used);
            free = free.saturating_add(untyped.free);
        }
        let (memory, slots) = (facts.sizes.memory, facts.sizes.boot_slots);
        let text = format!(in self.alloc;
            "Of {memory} bytes of memory objects and their gaps use {used}, and {free} are free behind the last objects; there are {slots} boot slots."
        )?;
        self.add(Section::Memory, Ground::Count, text)
    }

    /// What runs showed.
    fn say_tests(&mut self, facts: &Facts<'_>) -> Result<(), AllocError> {
        let Some(tests) = &facts.tests else {
            return self.say(
                Section::Tests,
                Ground::Measurement,
                "No list of events was given, so nothing was run.",
            );
        };
        for file in &tests.files {
            let (name, events) = (file.file, file.events);
            let text = format!(in self.alloc; "{name}: {events} events were run.")?;
            self.add(Section::Tests, Ground::Measurement, text)?;
        }
        Ok(())
    }

    /// What all that rests on, and what nothing says.
    fn say_premises(&mut self) -> Result<(), AllocError> {
        for text in RESTS_ON {
            self.say(Section::RestsOn, Ground::Premise, text)?;
        }
        for text in UNSAID {
            self.say(Section::Unsaid, Ground::Premise, text)?;
        }
        Ok(())
    }
}

/// The sentences of a report.
pub(crate) fn statements_of(
    alloc: Global,
    facts: &Facts<'_>,
) -> Result<Vec<Statement>, AllocError> {
    let mut statements = Statements {
        alloc,
        all: Vec::new(alloc),
    };
    statements.say_all(facts)?;
    Ok(statements.all)
}

/// What all sentences that name a clause rest on.
const RESTS_ON: [&str; 5] = [
    "The toolchain: its prover, its compilers, its library, and the contracts of its ported crates; and the C library.",
    "The definitions: that they say of machine, kernel and images what the standards and the manual say is for a reader to judge (docs/DEFINITIONS.md).",
    "The program that wrote this page: the clauses are on the functions that it calls, and what it writes around their answers is tested.",
    "That the bytes that are loaded are these: compare the digits.",
    "Rates of interrupts, where a bound names them: they are given, and no run is tested for them here.",
];

/// What no clause says.
const UNSAID: [&str; 5] = [
    "How long anything takes in seconds: budgets and bounds count instructions.",
    "What the instructions of a part mean to its maker; of a part from C, that they do what the C says is for the C compiler, and is compared by tests alone.",
    "What a part learns: by timing, by who waits before whom, and by pages that are shared.",
    "Whether a part gets a turn, or is waited for in vain, but where a bound says so.",
    "Agreement with real hardware.",
];
