//! How much of each thing an image has at most, as `specs/Images/Image.antt` says in its formats.

/// The untyped memories of an image; it has at least one.
pub const MOST_UNTYPEDS: u32 = 64;

/// The objects of an image.
pub const MOST_OBJECTS: u32 = 4096;

/// The capabilities that an image lists.
pub const MOST_CAPABILITIES: u32 = 16384;

/// The interrupts of an image.
pub const MOST_INTERRUPTS: u32 = 64;

/// The page tables that an image maps.
pub const MOST_TABLES: u32 = 1024;

/// The frames that an image maps.
pub const MOST_FRAMES: u32 = 4096;

/// The frames whose first words an image lists.
pub const MOST_CONTENTS: u32 = 4096;

/// The words that a frame begins with: those of a page; it has at least one.
pub const MOST_CONTENT_WORDS: u32 = 1024;

/// The promises of an image.
pub const MOST_PROMISES: u32 = 4096;

/// The threads of an image; it has at least one.
pub const MOST_THREADS: u32 = 64;

/// The registers that a thread starts with, and those that a record has ranges of: all but the zero register.
pub const MOST_REGISTERS: u32 = 31;

/// The words of a thread's program; it has at least one.
pub const MOST_WORDS: u32 = 65536;

/// The slots that a record notes.
pub const MOST_SLOTS: u32 = 256;
