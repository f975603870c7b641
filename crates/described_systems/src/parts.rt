//! The parts of a system: each is a thread with an address space and a CNode of its own.

/// What a part holds in a slot of its CNode.
#[derive(Clone, Copy)]
pub enum Held<'a> {
    /// It may wait for a bell.
    Waits { bell: &'a str },
    /// It may acknowledge an interrupt, which rings a bell.
    Line { bell: &'a str, number: u32 },
    /// It may ring a bell, with a badge that is said or chosen.
    Rings { bell: &'a str, badge: Option<u32> },
    /// It may receive at a door.
    Serves { door: &'a str },
    /// It may call at a door.
    Calls { door: &'a str, badge: Option<u32> },
    /// It may send to a door.
    Sends { door: &'a str, badge: Option<u32> },
    /// Its faults are reported at a door.
    Faults { door: &'a str, badge: Option<u32> },
}

impl<'a> Held<'a> {
    /// The name of the bell or the door.
    pub fn name(self) -> &'a str {
        match self {
            Held::Waits { bell } | Held::Line { bell, .. } | Held::Rings { bell, .. } => bell,
            Held::Serves { door }
            | Held::Calls { door, .. }
            | Held::Sends { door, .. }
            | Held::Faults { door, .. } => door,
        }
    }

    /// The interrupt, if it is the handler of one.
    pub fn interrupt(self) -> Option<u32> {
        match self {
            Held::Line { number, .. } => Some(number),
            _ => None,
        }
    }
}

/// A slot of a part's CNode, and what it holds.
#[derive(Clone, Copy)]
pub struct Slot<'a> {
    pub line: u64,
    pub number: u32,
    pub held: Held<'a>,
}

/// `pool BITS SLOTS [REGION]`
#[derive(Clone, Copy)]
pub struct Pool {
    pub line: u64,
    /// The memory is 2^BITS bytes.
    pub bits: u32,
    /// How many slots are left free.
    pub free: u32,
    /// An address in the 4 MiB in which the part may map.
    pub region: Option<u32>,
    /// The slot of the memory. After it are the part's CNode, its root table, and the free slots.
    pub slot: u32,
}

/// `sees PAGE [ADDRESS]` or `writes PAGE [ADDRESS]`
#[derive(Clone, Copy)]
pub struct View<'a> {
    pub line: u64,
    pub page: &'a str,
    /// How many frames the page has.
    pub frames: u32,
    pub address: Option<u32>,
    pub writes: bool,
}

/// `buffer PAGE`
#[derive(Clone, Copy)]
pub struct Buffer<'a> {
    pub line: u64,
    pub page: &'a str,
}

/// An interrupt of a line `waits`, `line N [every P] [burst B]`
#[derive(Clone, Copy)]
pub struct Rate {
    pub line: u64,
    pub number: u32,
    /// After how many instructions there may be one more.
    pub every: Option<u32>,
    /// How many may come at once.
    pub burst: Option<u32>,
}

/// `reg xN VALUE`, which a text has as it is
#[derive(Clone, Copy)]
pub struct RegisterLine<'a> {
    pub line: u64,
    pub register: &'a str,
    pub value: &'a str,
}

/// `budget N`
#[derive(Clone, Copy)]
pub struct Budget<'a> {
    pub line: u64,
    /// The number, or `auto`.
    pub number: &'a str,
}

/// `within N`
#[derive(Clone, Copy)]
pub struct Within {
    pub line: u64,
    pub steps: u32,
}

/// A line of a program.
#[derive(Drop)]
pub struct CodeLine<'a> {
    pub line: u64,
    /// What is before the colon, where the line begins with a label.
    pub label: Option<&'a str>,
    /// The words after the label.
    pub words: Vec<&'a str>,
}

impl CodeLine<'_> {
    /// Whether the line is a word of the program: an instruction, or `word`.
    pub fn is_instruction(&self) -> bool {
        match self.words.first() {
            Some(word) => !matches!(*word, "measure" | "range" | "slot"),
            None => false,
        }
    }
}

/// `program FILE.c .. [pages N] [data N] [stack N]`
#[derive(Drop)]
pub struct Sources<'a> {
    pub line: u64,
    pub files: Vec<&'a str>,
    /// How many pages the program, its data and its stack have.
    pub pages: u32,
    pub data: u32,
    pub stack: u32,
}

/// `part NAME PRIORITY`, up to its line `end`
#[derive(Drop)]
pub struct Part<'a> {
    pub line: u64,
    pub name: &'a str,
    pub priority: u32,
    /// What it holds, from slot 1 on.
    pub slots: Vec<Slot<'a>>,
    pub views: Vec<View<'a>>,
    pub buffer: Option<Buffer<'a>>,
    /// How often its interrupts come.
    pub rates: Vec<Rate>,
    pub pool: Option<Pool>,
    pub registers: Vec<RegisterLine<'a>>,
    pub budget: Option<Budget<'a>>,
    pub within: Option<Within>,
    /// Its program, where that is not from C.
    pub code: Vec<CodeLine<'a>>,
    pub sources: Option<Sources<'a>>,
    /// The first slot that holds nothing.
    pub next_slot: u32,
}
