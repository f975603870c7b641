//! The lines of a part before its program.

use crate::declared::Kind;
use crate::faults::{DescriptionFault, Mistake, fault};
use crate::forms;
use crate::names::Names;
use crate::parts::{Budget, Buffer, Held, Part, Pool, Rate, RegisterLine, Sources, View, Within};
use crate::words::{address, listed, number, page_address};
use std::alloc::Global;

/// The greatest badge.
const GREATEST_BADGE: u32 = (1 << 28) - 1;

/// A line, and the names that are declared before it.
#[derive(Clone, Copy)]
pub(crate) struct Place<'a, 'n> {
    pub(crate) alloc: Global,
    pub(crate) line: u64,
    pub(crate) names: &'n Names<'a>,
}

/// The fault of a line that is not of its form.
fn other_form<'a>(line: u64, form: &'static str) -> DescriptionFault<'a> {
    fault(line, Mistake::OtherForm { form })
}

/// A name, and a badge after `as` where one is said.
#[derive(Clone, Copy)]
struct Badged<'a> {
    name: &'a str,
    badge: Option<u32>,
}

impl<'a> Place<'a, '_> {
    /// A name that is declared as this kind.
    fn check(&self, name: &'a str, wanted: Kind) -> Result<(), DescriptionFault<'a>> {
        self.names.check(self.alloc, self.line, name, wanted)
    }

    /// The only word, which is to name something of this kind.
    fn named(
        &self,
        form: &'static str,
        words: &[&'a str],
        wanted: Kind,
    ) -> Result<&'a str, DescriptionFault<'a>> {
        match words {
            [name] => {
                self.check(*name, wanted)?;
                Ok(*name)
            }
            _ => Err(other_form(self.line, form)),
        }
    }

    /// A name of this kind, with a badge or without one.
    fn badged(
        &self,
        form: &'static str,
        words: &[&'a str],
        wanted: Kind,
    ) -> Result<Badged<'a>, DescriptionFault<'a>> {
        match words {
            [name] => {
                self.check(*name, wanted)?;
                Ok(Badged {
                    name: *name,
                    badge: None,
                })
            }
            [name, word, badge] if *word == "as" => {
                self.check(*name, wanted)?;
                Ok(Badged {
                    name: *name,
                    badge: Some(number(self.line, *badge, 0, GREATEST_BADGE)?),
                })
            }
            _ => Err(other_form(self.line, form)),
        }
    }

    /// `waits BELL [line N [every P] [burst B]] ..`
    fn waits(&self, part: &mut Part<'a>, words: &[&'a str]) -> Result<(), DescriptionFault<'a>> {
        match words {
            [bell, rest @ ..] => {
                self.check(*bell, Kind::Bell)?;
                part.hold(self.line, Held::Waits { bell: *bell })?;
                self.interrupts(part, *bell, rest)
            }
            [] => Err(other_form(self.line, forms::WAITS)),
        }
    }

    /// The interrupts that ring a bell, with what is promised of their rates.
    fn interrupts(
        &self,
        part: &mut Part<'a>,
        bell: &'a str,
        words: &[&'a str],
    ) -> Result<(), DescriptionFault<'a>> {
        let mut is_any = false;
        for pair in words.chunks(2) {
            match pair {
                [word, value] if *word == "line" => {
                    self.interrupt(part, bell, *value)?;
                    is_any = true;
                }
                [word, value] if is_any && *word == "every" => {
                    part.set_every(number(self.line, *value, 1, u32::MAX)?);
                }
                [word, value] if is_any && *word == "burst" => {
                    part.set_burst(number(self.line, *value, 1, u32::MAX)?);
                }
                _ => return Err(other_form(self.line, forms::WAITS)),
            }
        }
        Ok(())
    }

    /// An interrupt that rings a bell.
    fn interrupt(
        &self,
        part: &mut Part<'a>,
        bell: &'a str,
        word: &'a str,
    ) -> Result<(), DescriptionFault<'a>> {
        let number = number(self.line, word, 0, 63)?;
        part.rates.push(Rate {
            line: self.line,
            number,
            every: None,
            burst: None,
        })?;
        part.add_slot(self.line, Held::Line { bell, number })
    }

    /// `sees PAGE [ADDRESS]` or `writes PAGE [ADDRESS]`
    fn view(
        &self,
        part: &mut Part<'a>,
        words: &[&'a str],
        writes: bool,
    ) -> Result<(), DescriptionFault<'a>> {
        let form = if writes { forms::WRITES } else { forms::SEES };
        let (page, address) = match words {
            [page] => (*page, None),
            [page, place] => (*page, Some(page_address(self.line, *place)?)),
            _ => return Err(other_form(self.line, form)),
        };
        self.check(page, Kind::Page)?;
        part.add_view(View {
            line: self.line,
            page,
            frames: self.names.frames(page),
            address,
            writes,
        })
    }

    /// `buffer PAGE`
    fn buffer(&self, part: &mut Part<'a>, words: &[&'a str]) -> Result<(), DescriptionFault<'a>> {
        if let Some(buffer) = part.buffer {
            return Err(part.held_already(self.line, "a message buffer", buffer.line));
        }
        part.buffer = Some(Buffer {
            line: self.line,
            page: self.named(forms::BUFFER, words, Kind::Page)?,
        });
        Ok(())
    }

    /// `pool BITS SLOTS [REGION]`
    fn pool(&self, part: &mut Part<'a>, words: &[&'a str]) -> Result<(), DescriptionFault<'a>> {
        if let Some(pool) = part.pool {
            return Err(part.held_already(self.line, "a pool", pool.line));
        }
        let (bits, free, region) = match words {
            [bits, free] => (*bits, *free, None),
            [bits, free, region] => (*bits, *free, Some(address(self.line, *region)?)),
            _ => return Err(other_form(self.line, forms::POOL)),
        };
        let bits = number(self.line, bits, 4, 24)?;
        let free = number(self.line, free, 0, (1 << 14) - 1)?;
        let slot = part.take_slots(free.saturating_add(3));
        part.pool = Some(Pool {
            line: self.line,
            bits,
            free,
            region,
            slot,
        });
        Ok(())
    }

    /// `reg xN VALUE`
    fn register(&self, part: &mut Part<'a>, words: &[&'a str]) -> Result<(), DescriptionFault<'a>> {
        match words {
            [register, value] => {
                part.registers.push(RegisterLine {
                    line: self.line,
                    register: *register,
                    value: *value,
                })?;
                Ok(())
            }
            _ => Err(other_form(self.line, forms::REG)),
        }
    }

    /// `budget N`
    fn budget(&self, part: &mut Part<'a>, words: &[&'a str]) -> Result<(), DescriptionFault<'a>> {
        if let Some(budget) = part.budget {
            return Err(part.held_already(self.line, "a budget", budget.line));
        }
        match words {
            [number] => {
                part.budget = Some(Budget {
                    line: self.line,
                    number: *number,
                });
                Ok(())
            }
            _ => Err(other_form(self.line, forms::BUDGET)),
        }
    }

    /// `within N`
    fn within(&self, part: &mut Part<'a>, words: &[&'a str]) -> Result<(), DescriptionFault<'a>> {
        if let Some(within) = part.within {
            return Err(part.held_already(self.line, "a line `within`", within.line));
        }
        match words {
            [steps] => {
                part.within = Some(Within {
                    line: self.line,
                    steps: number(self.line, *steps, 1, u32::MAX)?,
                });
                Ok(())
            }
            _ => Err(other_form(self.line, forms::WITHIN)),
        }
    }

    /// `program FILE.c .. [pages N] [data N] [stack N]`
    fn program(&self, part: &mut Part<'a>, words: &[&'a str]) -> Result<(), DescriptionFault<'a>> {
        if let Some(sources) = &part.sources {
            return Err(part.held_already(self.line, "a program", sources.line));
        }
        let count = words
            .iter()
            .position(|word| !word.ends_with(".c"))
            .unwrap_or(words.len());
        let (files, sizes) = words.split_at(count);
        if files.is_empty() {
            return Err(other_form(self.line, forms::PROGRAM));
        }
        let mut sources = Sources {
            line: self.line,
            files: listed(self.alloc, files)?,
            pages: 1,
            data: 0,
            stack: 0,
        };
        self.sizes(&mut sources, sizes)?;
        part.sources = Some(sources);
        Ok(())
    }

    /// How many pages a program from C has, its data and its stack.
    fn sizes(
        &self,
        sources: &mut Sources<'a>,
        words: &[&'a str],
    ) -> Result<(), DescriptionFault<'a>> {
        for pair in words.chunks(2) {
            match pair {
                [word, count] if *word == "pages" => {
                    sources.pages = number(self.line, *count, 1, 64)?;
                }
                [word, count] if *word == "data" => {
                    sources.data = number(self.line, *count, 0, 64)?;
                }
                [word, count] if *word == "stack" => {
                    sources.stack = number(self.line, *count, 0, 64)?;
                }
                _ => return Err(other_form(self.line, forms::PROGRAM)),
            }
        }
        Ok(())
    }

    /// What a part may do at bells and doors.
    fn holding(
        &self,
        part: &mut Part<'a>,
        head: &'a str,
        words: &[&'a str],
    ) -> Result<(), DescriptionFault<'a>> {
        let held = match head {
            "rings" => {
                let Badged { name: bell, badge } = self.badged(forms::RINGS, words, Kind::Bell)?;
                Held::Rings { bell, badge }
            }
            "serves" => Held::Serves {
                door: self.named(forms::SERVES, words, Kind::Door)?,
            },
            "calls" => {
                let Badged { name: door, badge } = self.badged(forms::CALLS, words, Kind::Door)?;
                Held::Calls { door, badge }
            }
            "sends" => {
                let Badged { name: door, badge } = self.badged(forms::SENDS, words, Kind::Door)?;
                Held::Sends { door, badge }
            }
            "faults" => {
                let Badged { name: door, badge } = self.badged(forms::FAULTS, words, Kind::Door)?;
                if let Some(other) = part.fault_line() {
                    return Err(part.held_already(self.line, "a fault handler", other));
                }
                Held::Faults { door, badge }
            }
            word => return Err(fault(self.line, Mistake::UnknownLine { word })),
        };
        part.hold(self.line, held)
    }

    /// A line of a part before its program, by its first word and the others.
    pub(crate) fn add(
        &self,
        part: &mut Part<'a>,
        head: &'a str,
        words: &[&'a str],
    ) -> Result<(), DescriptionFault<'a>> {
        match head {
            "waits" => self.waits(part, words),
            "sees" => self.view(part, words, false),
            "writes" => self.view(part, words, true),
            "buffer" => self.buffer(part, words),
            "pool" => self.pool(part, words),
            "reg" => self.register(part, words),
            "budget" => self.budget(part, words),
            "within" => self.within(part, words),
            "program" => self.program(part, words),
            head => self.holding(part, head, words),
        }
    }
}
