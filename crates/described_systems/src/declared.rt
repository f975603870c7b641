//! What a description declares, with its lines.

use crate::parts::Part;
use indexmap::IndexMap;

/// What a name is declared as.
#[derive(Clone, Copy, PartialEq, Eq)]
pub enum Kind {
    /// A page of memory.
    Page,
    /// A page that the world writes and reads, too.
    Device,
    /// A notification.
    Bell,
    /// An endpoint.
    Door,
    Part,
    /// A number.
    Number,
}

impl Kind {
    /// The word with which it is declared.
    pub fn word(self) -> &'static str {
        match self {
            Kind::Page => "page",
            Kind::Device => "device",
            Kind::Bell => "bell",
            Kind::Door => "door",
            Kind::Part => "part",
            Kind::Number => "number",
        }
    }

    /// Whether what is declared as this is taken where the other kind is wanted: a device page is a page.
    pub(crate) fn serves_as(self, wanted: Kind) -> bool {
        self == wanted || (self == Kind::Device && wanted == Kind::Page)
    }
}

/// `page NAME [pages N] [from FILE | WORD ..]`, `device` likewise, `bell NAME` or `door NAME`
#[derive(Drop)]
pub struct Declaration<'a> {
    pub line: u64,
    pub name: &'a str,
    pub kind: Kind,
    /// How many frames a page has, one after the other.
    pub frames: u32,
    /// The words that a page begins with.
    pub words: Vec<&'a str>,
    /// The bytes that it begins with in the place of words.
    pub bytes: Option<&'a [u8]>,
}

/// `promise DOOR LOW HIGH ..`
#[derive(Drop)]
pub struct Promise<'a> {
    pub line: u64,
    pub door: &'a str,
    /// The least and the greatest value of each word of a message, one after the other.
    pub bounds: Vec<&'a str>,
}

/// All that a description says.
#[derive(Drop)]
pub struct System<'a> {
    /// Pages, device pages, bells and doors, in the order of their lines.
    pub declared: Vec<Declaration<'a>>,
    pub promises: Vec<Promise<'a>>,
    /// The numbers that have names, as they are written, by these.
    pub numbers: IndexMap<&'a str, &'a str>,
    /// The parts, in the order of their lines. There is one at least.
    pub parts: Vec<Part<'a>>,
}
