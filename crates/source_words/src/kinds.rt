//! What a file is by its first word.

/// What a file that is no image can be.
#[derive(Clone, Copy, Debug, PartialEq, Eq)]
pub enum SourceKind {
    /// The text of an image.
    Text,
    /// A description of a system.
    Description,
}

/// Whether a word begins a line of a description that is outside of its parts, or a part.
pub fn declares(word: &str) -> bool {
    matches!(
        word,
        "page" | "device" | "bell" | "door" | "promise" | "let" | "include" | "part"
    )
}

/// The first word of a line, if it says something before a comment.
fn first_word_of(line: &str) -> Option<&str> {
    let said = match line.split_once('#') {
        Some((said, _)) => said,
        None => line,
    };
    for word in said.split(|character| matches!(character, ' ' | '\t' | ',')) {
        if !word.is_empty() {
            return Some(word);
        }
    }
    None
}

/// The first word of a text.
fn first_word(text: &str) -> Option<&str> {
    for line in text.lines() {
        if let Some(word) = first_word_of(line) {
            return Some(word);
        }
    }
    None
}

/// What bytes are by their first word, if they begin as a text of an image or as a description does.
pub fn kind_of(bytes: &[u8]) -> Option<SourceKind> {
    let text = std::str::from_utf8(bytes).ok()?;
    match first_word(text)? {
        "memory" => Some(SourceKind::Text),
        word if declares(word) => Some(SourceKind::Description),
        _ => None,
    }
}
