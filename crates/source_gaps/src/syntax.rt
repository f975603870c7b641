//! What is wrong with a text that makes no image.

use crate::forms::{WORDS, form_of, long_form};
use crate::lines::{Text, push_line};
use crate::words::{
    Wanted, has_upper_case, push_size_fault, push_upper_case, push_word_fault, wanted_by,
};
use asm::SourceFault;
use asm_line::parse_line;
use source_texts::{has_automatic_budget, word_at};
use source_words::Nearest;
use std::alloc::{AllocError, Global};

/// A text, and the line of it that is at fault.
#[derive(Clone, Copy, Drop)]
struct Fault<'f, 't> {
    alloc: Global,
    text: Text<'f, 't>,
    number: u64,
    line: &'t str,
    /// How many words are before the one that says what the line is: a label or none.
    before: usize,
}

/// Whether a word is a label.
fn is_label(word: &str) -> bool {
    word.len() > 1 && word.ends_with(':')
}

/// The label that a word declares.
fn label_in(word: &str) -> Option<&str> {
    match word.split_once(':') {
        Some((name, "")) if !name.is_empty() => Some(name),
        _ => None,
    }
}

/// Which words of a line name what was declared before.
fn names_at(keyword: &str) -> &'static [usize] {
    match keyword {
        "object" => &[2],
        "irq" => &[3],
        "cap" | "table" | "map" => &[1, 3],
        "data" | "promise" | "buffer" => &[1],
        "thread" => &[1, 2, 4],
        "slot" => &[1, 5],
        _ => &[],
    }
}

/// Which word of a line names a label.
fn label_at(keyword: &str) -> Option<usize> {
    match keyword {
        "thread" => Some(8),
        "jal" => Some(2),
        "beq" | "bne" | "blt" | "bge" | "bltu" | "bgeu" => Some(3),
        _ => None,
    }
}

/// The word with which lines begin that is most like another.
fn nearest_word(keyword: &str) -> Option<&'static str> {
    let mut nearest = Nearest::to(keyword);
    for word in &WORDS {
        nearest.consider(keyword, *word);
    }
    nearest.name
}

/// The name that a line declares, if it is one of untyped memory, of an object or of an interrupt.
fn declared_on(line: &str) -> Option<&str> {
    match word_at(line, 0)? {
        "untyped" | "object" | "irq" => word_at(line, 1),
        _ => None,
    }
}

/// Considers the label that a word declares, if it declares one.
fn consider_label<'a>(nearest: &mut Nearest<'a>, name: &str, word: &'a str) {
    if let Some(candidate) = label_in(word) {
        nearest.consider(name, candidate);
    }
}

/// How many words of a line are before the one that says what it is: a label or none.
fn words_before(line: &str) -> usize {
    match word_at(line, 0) {
        Some(word) if is_label(word) => 1,
        _ => 0,
    }
}

/// Why a line that begins with a word is out of its place.
fn place_words(keyword: &str) -> &'static str {
    match keyword {
        "range" | "slot" =>
            "out of its place: it belongs after a line `measure`, before the instruction\n",
        "memory" => "out of its place: it comes first, once\n",
        "measure" => "out of its place: it belongs inside a thread, before an instruction\n",
        "untyped" | "object" | "irq" | "cap" | "table" | "map" | "data" | "promise" =>
            "out of its place: a text begins with `memory`, and a declaration belongs to no thread: `end` ends one\n",
        "thread" =>
            "out of its place: a text begins with `memory`, and the thread before ends with `end`, as this one does\n",
        "end" =>
            "out of its place: it ends a thread, and no `measure` may wait for its instruction\n",
        "" => "the text ends here: it begins with `memory`, and each thread ends with `end`\n",
        _ => "out of its place: it belongs between a line `thread` and its `end`\n",
    }
}

/// What is out of its range in a line that begins with a word.
fn range_words(keyword: &str) -> &'static str {
    match keyword {
        "object" =>
            "objects come in the order of their untyped memories, and there are at most 4096\n",
        "end" =>
            "a thread has at least one instruction; a text has at least one thread, and untyped memory\n",
        "measure" =>
            "an instruction has one `measure`, with each register once and at most 4 terms\n",
        "data" => "a frame begins with at most 1024 words\n",
        "promise" =>
            "a lowest value is at most its highest one, badges are below 0x10000000, and at most 8 words are promised\n",
        "buffer" => "a thread has at most one message buffer\n",
        "memory" | "" => "a text has untyped memory and at least one thread\n",
        _ =>
            "a number is out of its range, the target is too far away, or there are too many such lines\n",
    }
}

impl<'t> Fault<'_, 't> {
    /// A word of the line, counted from the one that says what the line is.
    fn word(&self, place: usize) -> Option<&'t str> {
        word_at(self.line, self.before.saturating_add(place))
    }

    /// The word that says what the line is.
    fn keyword(&self) -> &'t str {
        self.word(0).unwrap_or("")
    }

    /// The line before this one on which a name is declared.
    fn declared_at(&self, name: &str) -> Option<u64> {
        let mut number = 0u64;
        for line in self.text.content.lines() {
            number = number.saturating_add(1);
            if number >= self.number {
                return None;
            }
            if declared_on(line) == Some(name) {
                return Some(number);
            }
        }
        None
    }

    /// The first line with a label, of this thread or of any.
    fn label_line(&self, name: &str) -> Option<u64> {
        let mut number = 0u64;
        let mut found = None;
        for line in self.text.content.lines() {
            number = number.saturating_add(1);
            match word_at(line, 0) {
                Some("thread") if number <= self.number => found = None,
                Some("end") if number > self.number => return found,
                Some(word) if found.is_none() && label_in(word) == Some(name) => found = Some(
                    number,
                ),
                _ => {}
            }
        }
        found
    }

    /// The declared name that is most like another.
    fn nearest_name(&self, name: &str) -> Option<&'t str> {
        let mut nearest = Nearest::to(name);
        let mut number = 0u64;
        for line in self.text.content.lines() {
            number = number.saturating_add(1);
            if number < self.number {
                if let Some(candidate) = declared_on(line) {
                    nearest.consider(name, candidate);
                }
            }
        }
        nearest.name
    }

    /// The label of the thread at hand that is most like another.
    fn nearest_label(&self, name: &str) -> Option<&'t str> {
        let mut nearest = Nearest::to(name);
        let mut number = 0u64;
        for line in self.text.content.lines() {
            number = number.saturating_add(1);
            match word_at(line, 0) {
                Some("thread") if number <= self.number => nearest = Nearest::to(name),
                Some("end") if number > self.number => return nearest.name,
                Some(word) => consider_label(&mut nearest, name, word),
                None => {}
            }
        }
        nearest.name
    }

    /// Puts a name that is like the wanted one, and ends the line.
    fn push_nearest(&self, to: &mut String, nearest: Option<&str>) -> Result<(), AllocError> {
        match nearest {
            Some(name) => write!(to, "; did you mean `{name}`?\n"),
            None => to.push_str("\n"),
        }
    }

    /// The form of the line.
    fn push_form(&self, to: &mut String) -> Result<(), AllocError> {
        let keyword = self.keyword();
        let Some(form) = form_of(keyword) else {
            return Ok(());
        };
        let (operands, ranges) = (form.operands, form.ranges);
        let between = if operands.is_empty() { "" } else { " " };
        write!(to, "  form: `{keyword}{between}{operands}`; {ranges}\n")
    }

    /// Puts what is wrong with the word at a place where the form has `token`, and answers whether something is.
    fn push_wrong_at(
        &self,
        to: &mut String,
        token: &str,
        place: usize,
    ) -> Result<bool, AllocError> {
        match self.word(place) {
            Some(word) => push_word_fault(to, token, word),
            None => {
                write!(to, "{token} is missing\n")?;
                Ok(true)
            }
        }
    }

    /// Puts that the form ends before the word at a place, if there is one, and answers whether there is.
    fn push_extra_at(&self, to: &mut String, place: usize) -> Result<bool, AllocError> {
        match self.word(place) {
            Some(word) => {
                write!(to, "`{word}` is one word too many\n")?;
                Ok(true)
            }
            None => Ok(false),
        }
    }

    /// Puts the first word of the line that is not as its form has it, and answers whether there is one.
    fn push_wrong_word(&self, to: &mut String) -> Result<bool, AllocError> {
        match form_of(self.keyword()) {
            Some(form) => self.push_wrong_operand(to, form.operands),
            None => Ok(false),
        }
    }

    /// Puts the first word of the line that is not as these operands of its form, and answers whether there is one.
    fn push_wrong_operand(&self, to: &mut String, operands: &str) -> Result<bool, AllocError> {
        let mut place = 0usize;
        for token in operands.split_whitespace() {
            place = place.saturating_add(1);
            if wanted_by(token) == Wanted::Rest {
                return self.push_wrong_rest(to);
            }
            if self.push_wrong_at(to, token, place)? {
                return Ok(true);
            }
        }
        self.push_extra_at(to, place.saturating_add(1))
    }

    /// Puts what is wrong with what a form leaves open, and answers whether something is.
    fn push_wrong_rest(&self, to: &mut String) -> Result<bool, AllocError> {
        if self.keyword() != "object" {
            return Ok(false);
        }
        push_size_fault(to, self.word(3).unwrap_or(""), self.word(4))
    }

    /// A line that has not the form of those that begin with its word.
    fn push_other_form(&self, to: &mut String) -> Result<(), AllocError> {
        if !self.push_wrong_word(to)? {
            to.push_str("not of the form that such a line has\n")?;
        }
        self.push_form(to)
    }

    /// A word with which no line begins.
    fn push_no_keyword(&self, to: &mut String, keyword: &str) -> Result<(), AllocError> {
        if has_upper_case(keyword) {
            return push_upper_case(to, keyword);
        }
        if let Some(long) = long_form(keyword) {
            return write!(to, "there is no `{keyword}`: write {long}\n");
        }
        write!(to, "no line begins with `{keyword}`")?;
        self.push_nearest(to, nearest_word(keyword))
    }

    /// The thread that no line has ended before this one, by the line that begins it.
    fn open_thread(&self) -> Option<(u64, &'t str)> {
        let mut number = 0u64;
        let mut open = None;
        for line in self.text.content.lines() {
            number = number.saturating_add(1);
            if number >= self.number {
                return open;
            }
            match word_at(line, 0) {
                Some("thread") => open = Some((number, line)),
                Some("end") => open = None,
                _ => {}
            }
        }
        open
    }

    /// Whether the line belongs to no thread: where one is open, its end is missing.
    fn ends_threads(&self) -> bool {
        matches!(
            self.keyword(),
            "memory"
                | "untyped"
                | "object"
                | "irq"
                | "cap"
                | "table"
                | "map"
                | "data"
                | "promise"
                | "thread"
        )
    }

    /// Whether no line after this one says anything.
    fn is_last(&self) -> bool {
        let mut number = 0u64;
        for line in self.text.content.lines() {
            number = number.saturating_add(1);
            if number > self.number && word_at(line, 0).is_some() {
                return false;
            }
        }
        true
    }

    /// A line that is out of its place.
    fn push_out_of_place(&self, to: &mut String) -> Result<(), AllocError> {
        let keyword = self.keyword();
        if keyword == "thread" && self.is_last() {
            let name = self.word(1).unwrap_or("");
            let line = self.number;
            return write!(
                to,
                "thread {name} (line {line}) has no instruction and no `end`\n"
            );
        }
        if let Some((line, begins)) = self.open_thread() {
            let name = word_at(begins, 1).unwrap_or("");
            if self.ends_threads() {
                return write!(
                    to,
                    "thread {name} (line {line}) has no `end` before this line\n"
                );
            }
            if self.is_last() && keyword != "end" {
                return write!(to, "thread {name} (line {line}) has no `end`\n");
            }
        }
        to.push_str(place_words(keyword))
    }

    /// Puts what other languages have and a text has not: other comments, and other letters. Answers whether it is there.
    fn push_foreign(&self, to: &mut String) -> Result<bool, AllocError> {
        if !self.line.is_ascii() {
            to.push_str("only ASCII, also in comments\n")?;
            return Ok(true);
        }
        let said = match self.line.split_once('#') {
            Some((said, _)) => said,
            None => self.line,
        };
        for mark in [";", "//", "/*"] {
            if said.contains(mark) {
                write!(to, "`#` begins a comment, and not `{mark}`\n")?;
                return Ok(true);
            }
        }
        Ok(false)
    }

    /// Whether the line is one of the text form, but for a budget that is to be found.
    fn is_line(&self) -> Result<bool, AllocError> {
        if !has_automatic_budget(self.line) {
            return Ok(parse_line(self.line).is_ok());
        }
        let mut ignored = String::new(self.alloc);
        Ok(!self.push_wrong_word(&mut ignored)?)
    }

    /// A line that is none of the text form, or is out of its place.
    fn push_syntax(&self, to: &mut String) -> Result<(), AllocError> {
        if self.push_foreign(to)? {
            return Ok(());
        }
        if self.is_line()? {
            return self.push_out_of_place(to);
        }
        let keyword = self.keyword();
        if self.before == 1 {
            let label = word_at(self.line, 0).unwrap_or("");
            if has_upper_case(label) {
                return push_upper_case(to, label);
            }
        }
        if form_of(keyword).is_some() {
            return self.push_other_form(to);
        }
        self.push_no_keyword(to, keyword)
    }

    /// The first name of the line that nothing before it has.
    fn unknown_name(&self) -> Option<&'t str> {
        for place in names_at(self.keyword()) {
            let name = self.word(*place).unwrap_or("");
            if name != "boot" && self.declared_at(name).is_none() {
                return Some(name);
            }
        }
        None
    }

    /// The label that the line names, if no line has it.
    fn unknown_label(&self) -> Option<&'t str> {
        let place = label_at(self.keyword())?;
        let name = self.word(place).unwrap_or("");
        match self.label_line(name) {
            Some(_) => None,
            None => Some(name),
        }
    }

    /// A name that nothing before the line has.
    fn push_unknown_name(&self, to: &mut String, name: &str) -> Result<(), AllocError> {
        write!(to, "nothing is named `{name}` before this line")?;
        self.push_nearest(to, self.nearest_name(name))
    }

    /// A label that no line has.
    fn push_unknown_label(&self, to: &mut String, name: &str) -> Result<(), AllocError> {
        write!(to, "no line of the thread has the label `{name}`")?;
        self.push_nearest(to, self.nearest_label(name))
    }

    /// A name that nothing has.
    fn push_unknown(&self, to: &mut String) -> Result<(), AllocError> {
        if let Some(name) = self.unknown_name() {
            return self.push_unknown_name(to, name);
        }
        if let Some(name) = self.unknown_label() {
            return self.push_unknown_label(to, name);
        }
        to.push_str(
            "a name is of another sort than is wanted: untyped memory, objects and interrupt lines are three sorts\n",
        )?;
        self.push_form(to)
    }

    /// The name or the label that the line declares, and the line on which it is declared before.
    fn declared_before(&self) -> (&'t str, Option<u64>) {
        let first = word_at(self.line, 0).unwrap_or("");
        match label_in(first) {
            Some(label) => (label, self.label_line(label)),
            None => {
                let name = word_at(self.line, 1).unwrap_or("");
                (name, self.declared_at(name))
            }
        }
    }

    /// A name or a label that is there already.
    fn push_duplicate(&self, to: &mut String) -> Result<(), AllocError> {
        let (name, line) = self.declared_before();
        match line {
            Some(line) => write!(
                to,
                "`{name}` is declared on line {line}: choose another name\n"
            ),
            None => write!(to, "`{name}` is there already: choose another name\n"),
        }
    }

    /// Whether a word of a line is that of this one.
    fn has_word_of(&self, line: &str, place: usize) -> bool {
        word_at(line, place) == self.word(place)
    }

    /// Whether a line that begins with the same word has the same key as this one.
    fn has_key_of(&self, line: &str) -> bool {
        match self.keyword() {
            "cap" | "table" | "map" | "slot" => self.has_word_of(line, 1)
                && self.has_word_of(line, 2),
            "data" | "promise" | "buffer" | "reg" | "range" | "thread" => self.has_word_of(line, 1),
            "irq" => self.has_word_of(line, 2),
            _ => false,
        }
    }

    /// Whether a line begins with the same word and key as this one.
    fn is_same_key(&self, line: &str) -> bool {
        word_at(line, words_before(line)) == self.word(0) && self.has_key_of(line)
    }

    /// Whether a line begins an order in which keys like that of this one may come again.
    fn is_begun_by(&self, line: &str) -> bool {
        let keyword = word_at(line, 0).unwrap_or("");
        match self.keyword() {
            "buffer" | "reg" => keyword == "thread",
            "range" | "slot" => keyword == "measure",
            _ => false,
        }
    }

    /// The last line before this one with the same key, up to the last line that begins an order of its own.
    fn same_key_line(&self) -> Option<u64> {
        let mut number = 0u64;
        let mut found = None;
        for line in self.text.content.lines() {
            number = number.saturating_add(1);
            if number >= self.number {
                return found;
            }
            if self.is_begun_by(line) {
                found = None;
            } else if self.is_same_key(line) {
                found = Some(number);
            }
        }
        found
    }

    /// A number out of its range, or what is there already.
    fn push_range(&self, to: &mut String) -> Result<(), AllocError> {
        if parse_line(self.line).is_err() && !has_automatic_budget(self.line) {
            if !self.push_wrong_word(to)? {
                to.push_str("a number is out of its range\n")?;
            }
            return self.push_form(to);
        }
        if let Some(line) = self.same_key_line() {
            return write!(to, "line {line} says this already\n");
        }
        to.push_str(range_words(self.keyword()))?;
        self.push_form(to)
    }
}

/// Puts what is wrong with a text that makes no image.
///
/// # Errors
///
/// Out of memory.
pub fn report_fault(
    alloc: Global,
    to: &mut String,
    text: Text<'_, '_>,
    found: SourceFault,
) -> Result<(), AllocError> {
    let line = text.line(found.line);
    let fault = Fault {
        alloc,
        text,
        number: found.line,
        line,
        before: words_before(line),
    };
    push_line(to, &text, found.line, "")?;
    match found.kind {
        1 => fault.push_syntax(to),
        2 => fault.push_unknown(to),
        3 => fault.push_duplicate(to),
        _ => fault.push_range(to),
    }
}
