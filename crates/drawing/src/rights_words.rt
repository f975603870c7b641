//! Rights in words.

/// What a mapping with these rights lets its thread do.
pub(crate) fn mapping_words(rights: u32) -> &'static str {
    match rights {
        2 => "read",
        3 => "read, write",
        4 => "execute",
        6 => "read, execute",
        7 => "read, write, execute",
        _ => "no use",
    }
}

/// What a capability to a frame with these rights lets its thread map.
pub(crate) fn frame_words(rights: u32) -> &'static str {
    match rights {
        1 => "may map (write)",
        2 => "may map to read",
        3 => "may map to read, write",
        _ => "may map (no right)",
    }
}
