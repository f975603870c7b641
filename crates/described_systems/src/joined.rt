//! A description with the files that it names, as one text.

use crate::words::words_of;
use indexmap::IndexMap;
use std::alloc::{AllocError, Global};

/// Where a line is.
#[derive(Clone, Copy, PartialEq, Eq)]
pub struct Place<'a> {
    pub file: &'a str,
    /// Counted from 1.
    pub line: u64,
}

/// Where a line of the whole text comes from.
#[derive(Clone, Copy)]
struct Origin {
    /// The number of the file.
    file: usize,
    line: u64,
}

/// The bytes of a file that a line of the whole text names.
#[derive(Drop)]
struct Content {
    line: u64,
    bytes: Vec<u8>,
}

/// A number that is given for a name.
#[derive(Drop)]
struct Given {
    name: String,
    number: String,
}

/// A description with the files that it includes in their places.
#[derive(Drop)]
pub struct Joined {
    alloc: Global,
    text: String,
    /// The names of all files. The first is that of the description.
    files: Vec<String>,
    /// Where each line comes from.
    origins: Vec<Origin>,
    contents: Vec<Content>,
    given: Vec<Given>,
}

/// A file that a line names.
#[derive(Clone, Copy, PartialEq, Eq)]
pub enum Named<'a> {
    /// Lines of a description.
    Lines(&'a str),
    /// The bytes of a page.
    Bytes(&'a str),
}

/// The word after `from`.
fn after_from<'a>(words: &[&'a str]) -> Option<&'a str> {
    for pair in words.windows(2) {
        if let [word, file] = pair {
            if *word == "from" {
                return Some(*file);
            }
        }
    }
    None
}

/// The file that a line of a description names: `include FILE`, or a page's `from FILE`.
///
/// # Errors
///
/// Memory may be refused.
pub fn named_on<'a>(alloc: Global, line: &'a str) -> Result<Option<Named<'a>>, AllocError> {
    let words = words_of(alloc, line)?;
    Ok(match words.as_slice() {
        [head, file] if *head == "include" => Some(Named::Lines(*file)),
        [head, _, rest @ ..] if *head == "page" || *head == "device" => {
            match after_from(rest) {
                Some(file) => Some(Named::Bytes(file)),
                None => None,
            }
        }
        _ => None,
    })
}

impl Joined {
    /// No lines of a description from a file of this name.
    fn new(alloc: Global, file: &str) -> Result<Self, AllocError> {
        let mut joined = Joined {
            alloc,
            text: String::new(alloc),
            files: Vec::new(alloc),
            origins: Vec::new(alloc),
            contents: Vec::new(alloc),
            given: Vec::new(alloc),
        };
        joined.add_file(file)?;
        Ok(joined)
    }

    /// A description from a file of this name.
    ///
    /// # Errors
    ///
    /// Memory may be refused.
    pub fn of(alloc: Global, file: &str, text: &str) -> Result<Self, AllocError> {
        let mut joined = Joined::new(alloc, file)?;
        joined.add_lines(0, text)?;
        Ok(joined)
    }

    /// A file more: its number.
    fn add_file(&mut self, file: &str) -> Result<usize, AllocError> {
        let number = self.files.len();
        self.files.push(String::from_str(self.alloc, file)?)?;
        Ok(number)
    }

    /// A line more.
    fn add_line(&mut self, origin: Origin, line: &str) -> Result<(), AllocError> {
        self.text.push_str(line)?;
        self.text.push_str("\n")?;
        self.origins.push(origin)?;
        Ok(())
    }

    /// All lines of a file.
    fn add_lines(&mut self, file: usize, text: &str) -> Result<(), AllocError> {
        let mut number = 0u64;
        for line in text.lines() {
            number = number.saturating_add(1);
            self.add_line(Origin { file, line: number }, line)?;
        }
        Ok(())
    }

    /// The whole text.
    pub fn text(&self) -> &str {
        self.text.as_str()
    }

    /// The name of a file, by its number.
    fn file_name(&self, number: usize) -> &str {
        match self.files.get(number) {
            Some(file) => file.as_str(),
            None => "",
        }
    }

    /// Where a line of the whole text, counted from 1, comes from.
    pub fn place(&self, line: u64) -> Place<'_> {
        let found = match usize::try_from(line) {
            Ok(number) => self.origins.get(number.saturating_sub(1)),
            Err(_) => None,
        };
        match found {
            Some(origin) => Place {
                file: self.file_name(origin.file),
                line: origin.line,
            },
            None => Place {
                file: self.file_name(0),
                line,
            },
        }
    }

    /// Puts where a line of the whole text comes from.
    ///
    /// # Errors
    ///
    /// Memory may be refused.
    pub fn push_place(&self, to: &mut String, line: u64) -> Result<(), AllocError> {
        let Place { file, line } = self.place(line);
        write!(to, "{file}:{line}")
    }

    /// Puts where a line comes from for who reads of another one: the file alone where that is another.
    pub(crate) fn push_beside(
        &self,
        to: &mut String,
        line: u64,
        other: u64,
    ) -> Result<(), AllocError> {
        let place = self.place(other);
        if self.place(line).file == place.file {
            let number = place.line;
            write!(to, "on line {number}")
        } else {
            to.push_str("in ")?;
            self.push_place(to, other)
        }
    }

    /// The same with the lines of a file in the place of the line that includes it, which counts from 1.
    ///
    /// # Errors
    ///
    /// Memory may be refused.
    pub fn include(&self, at: u64, file: &str, content: &str) -> Result<Joined, AllocError> {
        let mut joined = Joined::new(self.alloc, self.file_name(0))?;
        for name in self.files.iter().skip(1) {
            joined.add_file(name.as_str())?;
        }
        let included = joined.add_file(file)?;
        let mut number = 0u64;
        for (line, origin) in self.text.lines().zip(&self.origins) {
            number = number.saturating_add(1);
            if number == at {
                joined.add_lines(included, content)?;
            } else {
                joined.add_line(*origin, line)?;
            }
        }
        Ok(joined)
    }

    /// Puts the bytes of the file that a line of the whole text names.
    ///
    /// # Errors
    ///
    /// Memory may be refused.
    pub fn put_bytes(&mut self, line: u64, file: &str, bytes: Vec<u8>) -> Result<(), AllocError> {
        self.add_file(file)?;
        self.contents.push(Content { line, bytes })?;
        Ok(())
    }

    /// The names of all files: that of the description, and then those that it names.
    pub fn files(&self) -> &[String] {
        self.files.as_slice()
    }

    /// The bytes of the file that a line of the whole text names, if they were put there.
    pub(crate) fn bytes_on(&self, line: u64) -> Option<&[u8]> {
        for content in &self.contents {
            if content.line == line {
                return Some(content.bytes.as_slice());
            }
        }
        None
    }

    /// A number for a name in the place of that which a line `let` says.
    ///
    /// # Errors
    ///
    /// Memory may be refused.
    pub fn define(&mut self, name: &str, number: &str) -> Result<(), AllocError> {
        let name = String::from_str(self.alloc, name)?;
        let number = String::from_str(self.alloc, number)?;
        self.given.push(Given { name, number })?;
        Ok(())
    }

    /// The number that is given for a name. The last one counts.
    pub(crate) fn given(&self, name: &str) -> Option<&str> {
        for given in self.given.iter().rev() {
            if given.name.as_str() == name {
                return Some(given.number.as_str());
            }
        }
        None
    }

    /// The first name for which a number is given and that is none of these.
    pub(crate) fn given_in_vain(&self, numbers: &IndexMap<&str, &str>) -> Option<&str> {
        for given in &self.given {
            if numbers.get(given.name.as_str()).is_none() {
                return Some(given.name.as_str());
            }
        }
        None
    }
}
