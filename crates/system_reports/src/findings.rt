//! What a report says, as data. Sentences, counts of the file and measurements are told apart by their types.

use crate::clauses::Clause;
use serde::Serialize;

/// Where a sentence is on the page.
#[derive(Clone, Copy, PartialEq, Eq, Serialize)]
#[serde(rename_all = "snake_case")]
pub enum Section {
    What,
    Promise,
    Responses,
    Parts,
    Access,
    Memory,
    Tests,
    RestsOn,
    Unsaid,
}

/// What a sentence stands on.
#[derive(Clone, Copy, Serialize)]
#[serde(rename_all = "snake_case")]
pub enum Ground {
    /// A proved clause says it of these bytes.
    Clause(Clause),
    /// It is counted in this file.
    Count,
    /// Runs over given events showed it.
    Measurement,
    /// It is what all that rests on, or the limit of what is said.
    Premise,
}

/// A sentence of the page.
#[derive(Drop, Serialize)]
pub struct Statement {
    pub section: Section,
    pub ground: Ground,
    pub text: String,
}

/// Whether the image is accepted.
#[derive(Clone, Copy, Serialize)]
#[serde(rename_all = "snake_case")]
pub enum Verdict {
    Accepted,
    Refused,
}

/// What is reported on, and by what.
#[derive(Drop, Serialize)]
pub struct Subject<'a> {
    /// The file, as it was named.
    pub name: &'a str,
    /// The digits of the SHA-256 of the image, or none where there is no image.
    pub sha256: String,
    /// The program and the kit that verified it.
    pub program: &'a str,
    /// What was typed.
    pub command: &'a str,
}

/// What is counted of an image.
#[derive(Clone, Copy, Serialize)]
pub struct Sizes {
    /// Of the file.
    pub bytes: u64,
    pub version: u32,
    /// In bytes.
    pub memory: u64,
    pub boot_slots: u64,
    pub objects: u32,
    pub capabilities: u32,
    pub mappings: u32,
    pub lines: u32,
    pub promises: u32,
    pub parts: u32,
    /// The words of all programs.
    pub instructions: u64,
}

/// A part: one thread.
#[derive(Drop, Serialize)]
pub struct Part<'a> {
    pub name: &'a str,
    pub priority: u32,
    pub budget: u64,
    /// The words of its program.
    pub instructions: u64,
}

/// The least and the greatest value of a word.
#[derive(Clone, Copy, Serialize)]
pub struct WordRange {
    pub low: u32,
    pub high: u32,
}

/// What is promised of the messages to an endpoint.
#[derive(Drop, Serialize)]
pub struct Door<'a> {
    pub name: &'a str,
    pub badge_low: u32,
    pub badge_high: u32,
    pub words: Vec<WordRange>,
}

/// A page whose words the world writes and sees.
#[derive(Clone, Copy, Serialize)]
pub struct Device<'a> {
    pub name: &'a str,
    pub address: u64,
}

/// A line of the machine, and the bell that it rings.
#[derive(Clone, Copy, Serialize)]
pub struct Line<'a> {
    pub name: &'a str,
    pub number: u32,
    pub bell: &'a str,
    pub badge: u32,
}

/// Parts that may change what the others of them take.
#[derive(Drop, Serialize)]
pub struct Group<'a> {
    pub parts: Vec<&'a str>,
    /// Whether no part outside may change what they take.
    pub takes_nothing: bool,
    /// Whether their priorities are above those of all others.
    pub is_above: bool,
    /// Those outside that may change what they take.
    pub others: Vec<&'a str>,
}

/// How often interrupts of a line come at most.
#[derive(Clone, Copy, Serialize)]
pub struct RateRow {
    pub line: u32,
    pub burst: u64,
    pub period: u64,
}

/// What a bound is made of.
#[derive(Drop, Serialize)]
pub struct Share {
    pub steps: u64,
    pub reason: String,
}

/// A line that is dealt with within the bound, and what an interrupt of it sets going.
#[derive(Drop, Serialize)]
pub struct LineBound {
    pub line: u32,
    pub sets_going: Vec<Share>,
}

/// How soon a level of threads comes to rest.
#[derive(Drop, Serialize)]
#[serde(rename_all = "snake_case")]
pub enum Answer {
    Bound {
        /// From the start on.
        steps: u64,
        /// Once the level has rested.
        later: u64,
        shares: Vec<Share>,
        lines: Vec<LineBound>,
    },
    NoBound {
        reason: String,
    },
}

/// How soon the threads of a priority and above come to rest.
#[derive(Drop, Serialize)]
pub struct ResponseRow<'a> {
    pub priority: u32,
    pub parts: Vec<&'a str>,
    pub answer: Answer,
}

/// What a part may do with an object or a line.
#[derive(Drop, Serialize)]
pub struct Access<'a> {
    pub object: &'a str,
    pub kind: String,
    pub part: &'a str,
    pub may: String,
}

/// Memory that objects are made of.
#[derive(Clone, Copy, Serialize)]
pub struct Untyped<'a> {
    pub name: &'a str,
    pub address: u64,
    pub bytes: u64,
    pub used: u64,
    pub free: u64,
}

/// Where an object lies.
#[derive(Drop, Serialize)]
pub struct Placed<'a> {
    pub name: &'a str,
    pub kind: String,
    pub address: u64,
    pub bytes: u64,
}

/// A list of events that was run.
#[derive(Clone, Copy, Serialize)]
pub struct EventsFile<'a> {
    pub file: &'a str,
    pub events: u64,
}

/// What runs showed of a part.
#[derive(Clone, Copy, Serialize)]
pub struct PartRun<'a> {
    pub part: &'a str,
    /// How many instructions it ran.
    pub ran: u64,
    /// The most from one wait to the next.
    pub longest: u64,
    pub budget: u64,
    /// How many of its instructions ran at all, of how many.
    pub covered: u64,
    pub instructions: u64,
}

/// What runs showed of the threads of a priority and above: for how many steps on end they ran at most.
#[derive(Clone, Copy, Serialize)]
pub struct Level {
    pub priority: u32,
    pub longest: u64,
    /// What is promised of that, where there is a bound.
    pub bound: Option<u64>,
}

/// How many messages were sent to an endpoint.
#[derive(Clone, Copy, Serialize)]
pub struct DoorRun<'a> {
    pub door: &'a str,
    pub messages: u64,
}

/// What runs over lists of events showed.
#[derive(Drop, Serialize)]
pub struct TestRuns<'a> {
    pub files: Vec<EventsFile<'a>>,
    pub parts: Vec<PartRun<'a>>,
    pub levels: Vec<Level>,
    pub doors: Vec<DoorRun<'a>>,
}

/// What the text of an image declares.
#[derive(Drop, Serialize)]
pub struct Declared<'a> {
    pub parts: Vec<Part<'a>>,
    pub doors: Vec<Door<'a>>,
    pub devices: Vec<Device<'a>>,
    pub lines: Vec<Line<'a>>,
}

/// What parts may do, and what of that others take.
#[derive(Drop, Serialize)]
pub struct Sharing<'a> {
    pub groups: Vec<Group<'a>>,
    /// A line for each two parts and each object by which one may change what the other takes: the first thousand.
    pub arrows: Vec<String>,
    /// How many there are.
    pub arrow_count: u64,
    /// In the order of the objects and then of the lines, and in each of the parts.
    pub access: Vec<Access<'a>>,
}

/// How soon a part is to deal with an interrupt by what is asked of it, in words, and whether it does.
#[derive(Clone, Copy, Serialize)]
pub struct AskedWithin<'a> {
    pub said: &'a str,
    pub holds: bool,
}

/// How soon levels of parts come to rest.
#[derive(Drop, Serialize)]
pub struct Responding<'a> {
    /// As they were given.
    pub rates: Vec<RateRow>,
    /// What is asked of parts by `within`, at the rates of their system.
    pub within: Vec<AskedWithin<'a>>,
    /// From the highest priority down.
    pub rows: Vec<ResponseRow<'a>>,
}

/// What lies where.
#[derive(Drop, Serialize)]
pub struct Memory<'a> {
    pub untyped: Vec<Untyped<'a>>,
    pub objects: Vec<Placed<'a>>,
}

/// What is known of an accepted image.
#[derive(Drop, Serialize)]
pub struct Facts<'a> {
    pub sizes: Sizes,
    pub declared: Declared<'a>,
    pub sharing: Sharing<'a>,
    pub responding: Responding<'a>,
    pub memory: Memory<'a>,
    /// What runs showed, if there were any.
    pub tests: Option<TestRuns<'a>>,
    /// For the page alone. It lets no other crate make facts.
    #[serde(skip)]
    pub(crate) picture: String,
}

/// A report on an accepted image, which `report_of` alone makes.
#[derive(Drop, Serialize)]
pub struct SystemReport<'a> {
    /// The version of this form.
    pub format: u32,
    pub verdict: Verdict,
    pub subject: Subject<'a>,
    pub statements: Vec<Statement>,
    pub facts: Facts<'a>,
}

/// A report on what is refused.
#[derive(Drop, Serialize)]
pub struct RefusedReport<'a> {
    /// The version of this form.
    pub format: u32,
    pub verdict: Verdict,
    pub subject: Subject<'a>,
    /// The lines that say why.
    pub explanation: Vec<&'a str>,
}
