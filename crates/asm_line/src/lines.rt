//! What a line says.

ghost use Rattle.std.specs.Prelude.{◌≡◌, ◌<◌, ◌^◌, ◌∷◌, ◌++◌, ℕ, List, Some, decimal};
ghost use Rattle.std.specs.Result.{result_ok};
ghost use Rattle.model.specs.declared.entries.PromisedWord.{PromisedWord};
ghost use Rattle.model.specs.declared.entries.TermEntry.{TermEntry};
ghost use Rattle.model.specs.Images.Listing.{Text, promised_words, term_words};
ghost use Rattle.asm_line.specs.Lines.{promised_first, term_first, word_first};
ghost use Rattle.asm_line.specs.Listed.{IsPromisedWord, IsTerm};

use crate::names::Name;
use crate::sections::{promised_and_rest, word_and_rest};
use crate::thread_lines::term_and_rest;
use crate::words::Words;
use model::{BranchOp, PromisedWord, RangeEntry, Register, RegisterEntry, TermEntry, UntypedEntry};

/// What one line of an image's text says. Names are lent by the text, and what they name is
/// not known here. Numbers are in the ranges that can be checked on a line by itself.
#[derive(Drop)]
pub enum Line<'a> {
    /// Nothing: it is empty, or a comment.
    Blank,
    /// `memory BITS RADIX`
    Memory {
        memory_bits: u32,
        boot_radix: u32,
    },
    /// `untyped NAME OFFSET BITS`
    Untyped {
        name: Name<'a>,
        entry: UntypedEntry,
    },
    /// `object NAME UNTYPED KIND [SIZE]`, the kind by its number
    Object {
        name: Name<'a>,
        untyped: Name<'a>,
        kind: u32,
        size: u32,
    },
    /// `irq NAME LINE NOTIFICATION BADGE`
    Interrupt {
        name: Name<'a>,
        line: u32,
        notification: Name<'a>,
        badge: u32,
    },
    /// `cap CNODE INDEX SOURCE RIGHTS DATA`
    Capability {
        cnode: Name<'a>,
        index: u32,
        source: Name<'a>,
        rights: u32,
        payload: u32,
    },
    /// `table ROOT ADDRESS TABLE`
    Table {
        root: Name<'a>,
        address: u32,
        table: Name<'a>,
    },
    /// `map ROOT ADDRESS FRAME RIGHTS`
    Frame {
        root: Name<'a>,
        address: u32,
        frame: Name<'a>,
        rights: u32,
    },
    /// `data FRAME WORD ..`: the words are read by `next_word`
    Content {
        frame: Name<'a>,
        words: Words<'a>,
    },
    /// `promise ENDPOINT LOW HIGH [LOW HIGH] ..`, the badges first: the words' ranges are read by `next_promised_word`
    Promise {
        endpoint: Name<'a>,
        badge_low: u32,
        badge_high: u32,
        words: Words<'a>,
    },
    /// `thread TCB CNODE GUARD ROOT PRIORITY BUDGET FAULT LABEL BASE`
    Thread(ThreadLine<'a>),
    /// `buffer FRAME`
    Buffer(Name<'a>),
    /// `reg xN VALUE`
    Register(RegisterEntry),
    /// `measure CONSTANT [xN COEFFICIENT] ..`: the terms are read by `next_term`
    Measure {
        constant: i64,
        terms: Words<'a>,
    },
    /// `range xN LOW HIGH`
    Range(RangeEntry),
    /// `slot CNODE INDEX WORD0 WORD1 PARENT INDEX`
    Slot {
        cnode: Name<'a>,
        index: u32,
        word0: u32,
        word1: u32,
        parent: Parent<'a>,
    },
    /// `LABEL:`
    Label(Name<'a>),
    /// `word N` or an instruction, with a label before it or none
    Code {
        label: Option<Name<'a>>,
        code: Code<'a>,
    },
    /// `end`
    End,
}

impl<'a> Words<'a> {
    /// The first of the words of a `data` line that are left, and those after it.
    pub fn next_word(self) -> Option<(u32, Words<'a>)>
        ensures exact { result ≡ result_ok (word_first self.entry) }
        ensures listed { (word : ℕ) (rest : List Text) → word < 2 ^ 32 → self.entry ≡ decimal word ∷ rest → result ≡ Some (word, rest) }
    {
        word_and_rest(self).ok()
    }

    /// The first of the words' ranges of a `promise` line that are left, and those after it.
    pub fn next_promised_word(self) -> Option<(PromisedWord, Words<'a>)>
        ensures exact { result ≡ result_ok (promised_first self.entry) }
        ensures listed { (word : PromisedWord) (rest : List Text) → IsPromisedWord word → self.entry ≡ promised_words word ++ rest
            → result ≡ Some (word, rest) }
    {
        promised_and_rest(self).ok()
    }

    /// The first of the terms of a `measure` line that are left, and the words after it.
    pub fn next_term(self) -> Option<(TermEntry, Words<'a>)>
        ensures exact { result ≡ result_ok (term_first self.entry) }
        ensures listed { (term : TermEntry) (rest : List Text) → IsTerm term → self.entry ≡ term_words term ++ rest → result ≡ Some (term, rest) }
    {
        term_and_rest(self).ok()
    }
}

/// The line with which a thread begins.
#[derive(Drop)]
pub struct ThreadLine<'a> {
    pub tcb: Name<'a>,
    pub cnode: Name<'a>,
    pub guard: u32,
    pub root: Name<'a>,
    pub priority: u32,
    pub budget: u64,
    pub fault: u32,
    pub entry: Name<'a>,
    pub base: u32,
}

/// The parent of a slot that a record notes.
#[derive(Drop)]
pub enum Parent<'a> {
    /// In the boot CNode.
    Boot,
    /// In a slot of a CNode.
    Slot { cnode: Name<'a>, index: u32 },
}

/// What makes a word of a program.
#[derive(Drop)]
pub enum Code<'a> {
    /// The word itself.
    Word(u32),
    /// A jump to a label.
    Jump {
        rd: Register,
        target: Name<'a>,
    },
    /// A branch to a label.
    Branch {
        op: BranchOp,
        rs1: Register,
        rs2: Register,
        target: Name<'a>,
    },
}
