//! Where the lines of a text come from, as their comments say.

/// Whether a file is one of C, or a description of a system.
fn is_source(file: &str) -> bool {
    file.ends_with(".c") || file.ends_with(".h") || file.ends_with(".sys")
}

/// Whether a word is a place in such a file, as `FILE.c:12`.
fn is_source_place(word: &str) -> bool {
    match word.split_once(':') {
        Some((file, number)) => is_source(file) && number.parse::<u32>().is_ok(),
        None => false,
    }
}

/// The place in a file of C or a description that a line comes from, as its comment says.
pub fn source_place(line: &str) -> Option<&str> {
    let (_, comment) = line.split_once('#')?;
    let word = comment.split_whitespace().next()?;
    if is_source_place(word) {
        Some(word)
    } else {
        None
    }
}
