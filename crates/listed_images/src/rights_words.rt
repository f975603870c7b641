//! Rights in words.

/// What a mapping with these rights lets a thread do.
pub(crate) fn mapping_words(rights: u32) -> &'static str {
    match rights & 7 {
        1 => "write",
        2 => "read",
        3 => "read, write",
        4 => "execute",
        5 => "write, execute",
        6 => "read, execute",
        7 => "read, write, execute",
        _ => "no right",
    }
}

/// What a capability to a frame with these rights lets its holder do.
pub(crate) fn frame_words(rights: u32) -> &'static str {
    match rights & 3 {
        1 => "map to write",
        2 => "map to read",
        3 => "map to read, write",
        _ => "no right",
    }
}

/// What a capability to an endpoint with these rights lets its holder do.
pub(crate) fn endpoint_words(rights: u32) -> &'static str {
    match rights & 11 {
        1 => "send",
        2 | 10 => "receive",
        3 => "send, receive",
        9 => "call",
        11 => "call, receive",
        _ => "no right",
    }
}

/// What a capability to a notification with these rights lets its holder do.
pub(crate) fn notification_words(rights: u32) -> &'static str {
    match rights & 3 {
        1 => "signal",
        2 => "wait",
        3 => "signal, wait",
        _ => "no right",
    }
}
