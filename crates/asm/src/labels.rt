//! The labels of each thread, which may be anywhere in it.

ghost use Rattle.std.specs.Prelude.{◌≡◌, ◌≤◌, IfErr, MatchResult, Ok, Err, if◌then◌else◌};
ghost use Rattle.std.specs.Str.Lines.{lines};
ghost use Rattle.asm.specs.declared.faults.Fault.{Fault};
ghost use Rattle.asm.specs.Labels.{begun, closed, in_open, is_first_on, no_labels, place_named, searched_line, with_code, with_label};
ghost use Rattle.asm.specs.Meaning.{labels_of as labels_of_texts, point_known, searched_text, searched_texts};
ghost use Rattle.asm.specs.Outcomes.{Gives, Means};

use crate::faults::{Fault, SourceFault};
use asm_line::{Line, Name, declared_label, parse_line};
use indexmap::IndexMap;
use std::alloc::Global;
use std::marker::Model;

/// Where a label is.
#[derive(Clone, Copy)]
struct Place {
    line: u64,
    /// The number of the instruction after it, from 0.
    point: u32,
}

/// The labels of a thread, each where it comes first.
#[derive(Drop)]
pub(crate) struct Labels<'a> {
    places: IndexMap<&'a str, Place>,
    /// How many words the program has.
    points: u32,
}

impl<'a> Model for Labels<'a> {
    ghost use Rattle.std.specs.Prelude.{map};
    ghost use Rattle.asm.specs.Labels.{FoundLabels};

    ghost Value = { FoundLabels };

    ghost view = { λ l. record { places = map (λ e. (e.0.now, e.1)) l.places.entries; points = l.points } };
}

impl<'a> Labels<'a> {
    pub(crate) fn new(alloc: Global) -> Labels<'a>
        ensures { result ≡ no_labels }
    {
        Labels {
            places: IndexMap::new(alloc),
            points: 0,
        }
    }

    /// Where a label is.
    fn place(&self, name: &str) -> Option<Place>
        ensures { result ≡ place_named self.now name.now }
    {
        self.places.get(name).copied()
    }

    /// Notes a label, unless it is there already.
    fn note(&mut self, name: &Name<'a>, line: u64) -> Result<(), Fault>
        ensures { Gives result (λ _. self.new ≡ with_label self.old name.now line) }
    {
        let text = name.text();
        match self.place(text) {
            Some(_) => Ok(()),
            None => {
                let point = self.points;
                self.places.insert(text, Place { line, point })?;
                Ok(())
            }
        }
    }

    /// Counts a word of the program, which may have a label before it.
    fn add_word(&mut self, label: Option<Name<'a>>, line: u64) -> Result<(), Fault>
        ensures { Gives result (λ _. self.new ≡ with_code self.old label.entry line) }
    {
        if let Some(name) = label {
            self.note(&name, line)?;
        }
        self.points = self.points.saturating_add(1);
        Ok(())
    }

    /// The point that a label names.
    #[tactic(auto, unfolding(crate::specs::Meaning::point_known))]
    pub(crate) fn point(&self, name: &Name<'a>) -> Result<u32, Fault>
        ensures { Means result (λ point. point) (point_known self.now name.now) }
    {
        match self.place(name.text()) {
            Some(place) => Ok(place.point),
            None => Err(Fault::UnknownName),
        }
    }

    /// Whether the label on this line is the first of its name.
    fn is_first(&self, name: &Name<'a>, line: u64) -> bool
        ensures { result ≡ is_first_on self.now name.now line }
    {
        match self.place(name.text()) {
            Some(place) => place.line == line,
            None => false,
        }
    }

    /// The label on this line is to be the first of its name.
    pub(crate) fn check_first(&self, name: &Name<'a>, line: u64) -> Result<(), Fault>
        ensures { result ≡ (if is_first_on self.now name.now line then Ok tt else Err Fault.Duplicate) }
    {
        if self.is_first(name, line) {
            Ok(())
        } else {
            Err(Fault::Duplicate)
        }
    }
}

/// The labels of the threads up to some line.
#[derive(Drop)]
struct Search<'a> {
    threads: Vec<Labels<'a>>,
    /// Those of the thread that is not at its end.
    open: Option<Labels<'a>>,
}

impl<'a> Model for Search<'a> {
    ghost use Rattle.asm.specs.Labels.{Searched};

    ghost Value = { Searched };

    ghost view = { λ s. record { threads = s.threads.items; open_labels = s.open } };
}

impl<'a> Search<'a> {
    fn close(&mut self) -> Result<(), Fault>
        ensures { Gives result (λ _. self.new ≡ closed self.old) }
    {
        if let Some(labels) = self.open.take() {
            self.threads.push(labels)?;
        }
        Ok(())
    }

    /// Begins a thread, unless there is one that is not at its end.
    fn begin(&mut self, alloc: Global)
        ensures { self.new ≡ begun self.old }
    {
        if self.open.is_none() {
            self.open = Some(Labels::new(alloc));
        }
    }

    /// Notes a label of the thread that is not at its end.
    fn note(&mut self, name: &Name<'a>, line: u64) -> Result<(), Fault>
        ensures { Gives result (λ _. self.new ≡ in_open (λ labels. with_label labels name.now line) self.old) }
    {
        match &mut self.open {
            Some(labels) => labels.note(name, line),
            None => Ok(()),
        }
    }

    /// Counts a word of the thread that is not at its end.
    fn add_word(&mut self, label: Option<Name<'a>>, line: u64) -> Result<(), Fault>
        ensures { Gives result (λ _. self.new ≡ in_open (λ labels. with_code labels label.entry line) self.old) }
    {
        match &mut self.open {
            Some(labels) => labels.add_word(label, line),
            None => Ok(()),
        }
    }

    fn add(&mut self, alloc: Global, line: Line<'a>, number: u64) -> Result<(), Fault>
        ensures { Gives result (λ _. self.new ≡ searched_line self.old number line.entry) }
    {
        match line {
            Line::Thread(_) => {
                self.begin(alloc);
                Ok(())
            }
            Line::End => self.close(),
            Line::Label(name) => self.note(&name, number),
            Line::Code { label, code: _ } => self.add_word(label, number),
            _ => Ok(()),
        }
    }
}

/// Adds the labels on a line, also where the line is at fault otherwise: the fault is reported there, and not where the label is used.
#[tactic(auto, unfolding(crate::specs::Meaning::searched_text))]
fn search_line<'a>(
    search: &mut Search<'a>,
    alloc: Global,
    text: &'a str,
    number: u64,
) -> Result<(), Fault>
    ensures { Gives result (λ _. search.new ≡ searched_text search.old number text.now) }
{
    match parse_line(text) {
        Ok(said) => search.add(alloc, said, number),
        Err(_) => match declared_label(text) {
            Some(name) => search.note(&name, number),
            None => Ok(()),
        },
    }
}

/// Adds the labels on all lines of a text.
fn search_text<'a>(search: &mut Search<'a>, alloc: Global, text: &'a str) -> Result<(), SourceFault>
    ensures fault { IfErr result (λ fault. (1 ≤ fault.line) × (1 ≤ fault.kind) × (fault.kind ≤ 5)) }
    ensures meant { MatchResult result (λ _. search.new ≡ closed (searched_texts 0 search.old (lines text.now))) (λ fault. fault.kind ≡ 5) }
{
    let mut number = 0u64;
    'lines: for line in text.lines() {
        number = number.saturating_add(1);
        if let Err(fault) = search_line(search, alloc, line, number) {
            return Err(fault.at(number));
        }
    }
    match search.close() {
        Ok(()) => Ok(()),
        Err(fault) => Err(fault.at(number.max(1))),
    }
}

/// The labels of each thread of a text, up to its line `end`.
///
/// # Errors
///
/// Out of memory. A line at fault is reported where lines are added.
pub(crate) fn labels_of<'a>(alloc: Global, text: &'a str) -> Result<Vec<Labels<'a>>, SourceFault>
    ensures fault { IfErr result (λ fault. (1 ≤ fault.line) × (1 ≤ fault.kind) × (fault.kind ≤ 5)) }
    ensures meant { MatchResult result (λ labels. labels.items ≡ labels_of_texts (lines text.now)) (λ fault. fault.kind ≡ 5) }
{
    let mut search = Search {
        threads: Vec::new(alloc),
        open: None,
    };
    match search_text(&mut search, alloc, text) {
        Ok(()) => {
            drop(search.open);
            Ok(search.threads)
        }
        Err(fault) => {
            drop(search);
            Err(fault)
        }
    }
}
