//! What a thread may do, in the words of a maker.

use std::alloc::AllocError;

/// What is done to an object.
#[derive(Clone, Copy, Debug, PartialEq, Eq, Hash)]
pub(crate) enum Deed {
    Send,
    Call,
    Receive,
    Signal,
    Wait,
    Acknowledge,
    MakeObjects,
    ChangeSlots,
    Control,
    MapToRead,
    MapToWrite,
    MapTable,
    MapUnder,
    Read,
    Write,
    Execute,
    /// It is where the thread's faults are reported.
    ReportFaults,
    /// It is the thread's message buffer.
    Buffer,
}

/// Something that a thread may do.
#[derive(Clone, Copy, Debug, PartialEq, Eq, Hash)]
pub(crate) struct Thing<'n> {
    pub(crate) deed: Deed,
    /// The name of what it is done to. It is empty where that has a number alone.
    pub(crate) name: &'n str,
    /// The badge, the size, the line of an interrupt, or the address of a capability; else 0.
    pub(crate) number: u32,
    /// Whether it is done to a device page, whose words the world writes and reads.
    pub(crate) is_device: bool,
}

impl Deed {
    /// What precedes the name, and before it what says of a page that it is one.
    fn words(self) -> &'static str {
        match self {
            Deed::Send => "send to ",
            Deed::Call => "call ",
            Deed::Receive => "receive from ",
            Deed::Signal => "signal ",
            Deed::Wait => "wait for ",
            Deed::Acknowledge => "acknowledge interrupt ",
            Deed::MakeObjects => "make objects of ",
            Deed::ChangeSlots => "change the slots of ",
            Deed::Control => "control ",
            Deed::MapToRead => "map to read ",
            Deed::MapToWrite => "map to write ",
            Deed::MapTable => "map the page table ",
            Deed::MapUnder => "map under ",
            Deed::Read => "read the ",
            Deed::Write => "write the ",
            Deed::Execute => "execute the ",
            Deed::ReportFaults => "report its faults to ",
            Deed::Buffer => "pass long messages in ",
        }
    }

    /// What says of a page, before its name, that it is one.
    fn page_words(self, is_device: bool) -> &'static str {
        match self {
            Deed::Read | Deed::Write | Deed::Execute if is_device => "device page ",
            Deed::Read | Deed::Write | Deed::Execute => "page ",
            _ if is_device => "the device page ",
            _ => "",
        }
    }
}

impl<'n> Thing<'n> {
    /// A deed that is done to something with this name.
    pub(crate) fn to(deed: Deed, name: &'n str) -> Self {
        Thing {
            deed,
            name,
            number: 0,
            is_device: false,
        }
    }

    /// A deed that is done to a page, which may be a device page.
    pub(crate) fn to_page(deed: Deed, name: &'n str, is_device: bool) -> Self {
        Thing {
            is_device,
            ..Thing::to(deed, name)
        }
    }

    /// A deed with a number.
    pub(crate) fn with_number(deed: Deed, name: &'n str, number: u32) -> Self {
        Thing {
            number,
            ..Thing::to(deed, name)
        }
    }

    /// The same with a call in place of a message, if this is a message.
    pub(crate) fn as_call(self) -> Option<Self> {
        match self.deed {
            Deed::Send => Some(Thing {
                deed: Deed::Call,
                ..self
            }),
            _ => None,
        }
    }

    /// Puts it after `may`.
    pub(crate) fn put(&self, text: &mut String) -> Result<(), AllocError> {
        text.push_str(self.deed.words())?;
        text.push_str(self.deed.page_words(self.is_device))?;
        text.push_str(self.name)?;
        let number = self.number;
        match self.deed {
            Deed::Send | Deed::Call | Deed::Signal if number != 0 => {
                write!(text, " with badge {number}")
            }
            Deed::Acknowledge => write!(text, "{number}"),
            Deed::MakeObjects => write!(text, ", {number} bytes"),
            Deed::ChangeSlots => write!(text, ", {number} slots"),
            Deed::ReportFaults if number != 0 => write!(text, "capability {number:#x}"),
            _ => Ok(()),
        }
    }
}
