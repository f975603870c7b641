//! Why an image is refused.

ghost use Rattle.std.specs.Prelude.{◌≡◌};
ghost use Rattle.model.specs.declared.refusals.Refusal.{Refusal};
ghost use Rattle.model.specs.Shared.Refusals.{refusal_number, refusal_name, refusal_items};

use crate::KError;
use std::alloc::{AllocError, AllocFailed};

/// A point of a thread's program: the thread's number in the image and the number of the word in its
/// program, both from 0.
#[derive(Clone, Copy, Debug, PartialEq, Eq)]
pub struct Point {
    pub thread: u32,
    pub point: u32,
}

/// Why an image is refused. `offset` is the place of a byte in the file, from 0. `docs/MANUAL.md` says
/// what to do about each.
#[derive(Clone, Copy, Debug, PartialEq, Eq)]
pub enum Refusal {
    /// The file does not begin with the magic bytes.
    Magic,
    /// The version is not known.
    Version,
    /// The file ends inside the field at `offset`.
    Truncated { offset: u64 },
    /// The image is over at `offset`, and bytes follow.
    Trailing { offset: u64 },
    /// The field at `offset` is outside its range, or not in order.
    Limit { offset: u64 },
    /// An untyped is misaligned, passes the end of memory, or overlaps what lies before it.
    UntypedOverlap { untyped: u32 },
    /// An object does not fit after those before it in its untyped.
    NoRoom { object: u32 },
    /// The boot CNode has too few slots. `object` is the number of objects.
    BadObject { object: u32 },
    /// A capability or, numbered on, an interrupt does not fit what it names.
    BadCap { item: u32 },
    /// An earlier thread reaches a CNode that this one reaches.
    SharedCSpace { thread: u32 },
    /// An earlier thread has this one's root table, or a reached CNode holds another.
    SharedVSpace { thread: u32 },
    /// A table, frame mapping or, numbered on, a content does not fit what it names.
    BadMapping { item: u32 },
    /// A page with execute can be written.
    WritableCode { item: u32 },
    /// A thread's objects, program or entry do not fit.
    BadThread { thread: u32 },
    /// A word is no instruction, or EBREAK.
    IllegalInstruction(Point),
    /// A jump to an address from a register.
    ComputedJump(Point),
    /// An edge leads to no point with a state.
    BadTarget(Point),
    /// A register can leave its range on an edge.
    RangeNotKept(Point),
    /// A load or store can reach a byte without the right.
    NotMapped(Point),
    /// The measure does not fall on an edge, or can be below 1.
    MeasureNotFalling(Point),
    /// The measure after a wait, or at the entry, can be above the budget.
    OverBudget(Point),
    /// A register of a system call has no single value.
    CallNotConstant(Point),
    /// A slot does not hold what a call, or the next state, needs.
    CapNotThere(Point),
    /// A system call would be refused, or may not be made.
    CallRefused(Point, KError),
    /// A pool would be lost.
    PoolLost(Point),
    /// A message does not keep the promise of its endpoint.
    PromiseNotKept(Point),
    /// A promise is not of an endpoint; `item` numbers promises after contents.
    BadPromise { item: u32 },
    /// A thread's buffer is no frame, an earlier thread's, a capability's source, or code.
    BadBuffer { thread: u32 },
    /// Memory for the verification was refused.
    OutOfMemory,
}

impl Refusal {
    /// The refusal's number.
    pub fn number(self) -> u8
        ensures { result ≡ refusal_number self }
    {
        match self {
            Refusal::Magic => 1,
            Refusal::Version => 2,
            Refusal::Truncated { .. } => 3,
            Refusal::Trailing { .. } => 4,
            Refusal::Limit { .. } => 5,
            Refusal::UntypedOverlap { .. } => 6,
            Refusal::NoRoom { .. } => 7,
            Refusal::BadObject { .. } => 8,
            Refusal::BadCap { .. } => 9,
            Refusal::SharedCSpace { .. } => 10,
            Refusal::SharedVSpace { .. } => 11,
            Refusal::BadMapping { .. } => 12,
            Refusal::WritableCode { .. } => 13,
            Refusal::BadThread { .. } => 14,
            Refusal::IllegalInstruction(_) => 15,
            Refusal::ComputedJump(_) => 16,
            Refusal::BadTarget(_) => 17,
            Refusal::RangeNotKept(_) => 18,
            Refusal::NotMapped(_) => 19,
            Refusal::MeasureNotFalling(_) => 20,
            Refusal::OverBudget(_) => 21,
            Refusal::CallNotConstant(_) => 22,
            Refusal::CapNotThere(_) => 23,
            Refusal::CallRefused(..) => 24,
            Refusal::PoolLost(_) => 25,
            Refusal::PromiseNotKept(_) => 28,
            Refusal::BadPromise { .. } => 29,
            Refusal::BadBuffer { .. } => 30,
            Refusal::OutOfMemory => 26,
        }
    }

    /// The refusal's name, as it is printed.
    pub fn name(self) -> &'static str
        ensures { result.now ≡ refusal_name self }
    {
        match self {
            Refusal::Magic => "Magic",
            Refusal::Version => "Version",
            Refusal::Truncated { .. } => "Truncated",
            Refusal::Trailing { .. } => "Trailing",
            Refusal::Limit { .. } => "Limit",
            Refusal::UntypedOverlap { .. } => "UntypedOverlap",
            Refusal::NoRoom { .. } => "NoRoom",
            Refusal::BadObject { .. } => "BadObject",
            Refusal::BadCap { .. } => "BadCap",
            Refusal::SharedCSpace { .. } => "SharedCSpace",
            Refusal::SharedVSpace { .. } => "SharedVSpace",
            Refusal::BadMapping { .. } => "BadMapping",
            Refusal::WritableCode { .. } => "WritableCode",
            Refusal::BadThread { .. } => "BadThread",
            Refusal::IllegalInstruction(_) => "IllegalInstruction",
            Refusal::ComputedJump(_) => "ComputedJump",
            Refusal::BadTarget(_) => "BadTarget",
            Refusal::RangeNotKept(_) => "RangeNotKept",
            Refusal::NotMapped(_) => "NotMapped",
            Refusal::MeasureNotFalling(_) => "MeasureNotFalling",
            Refusal::OverBudget(_) => "OverBudget",
            Refusal::CallNotConstant(_) => "CallNotConstant",
            Refusal::CapNotThere(_) => "CapNotThere",
            Refusal::CallRefused(..) => "CallRefused",
            Refusal::PoolLost(_) => "PoolLost",
            Refusal::PromiseNotKept(_) => "PromiseNotKept",
            Refusal::BadPromise { .. } => "BadPromise",
            Refusal::BadBuffer { .. } => "BadBuffer",
            Refusal::OutOfMemory => "OutOfMemory",
        }
    }

    /// The two items that say where: an offset and 0, an item and 0, or a thread and a point.
    pub fn items(self) -> (u64, u64)
        ensures { result ≡ refusal_items self }
    {
        match self {
            Refusal::Magic | Refusal::Version | Refusal::OutOfMemory => (0, 0),
            Refusal::Truncated { offset }
            | Refusal::Trailing { offset }
            | Refusal::Limit { offset } => (offset, 0),
            Refusal::UntypedOverlap { untyped: item }
            | Refusal::NoRoom { object: item }
            | Refusal::BadObject { object: item }
            | Refusal::BadCap { item }
            | Refusal::SharedCSpace { thread: item }
            | Refusal::SharedVSpace { thread: item }
            | Refusal::BadMapping { item }
            | Refusal::BadPromise { item }
            | Refusal::BadBuffer { thread: item }
            | Refusal::WritableCode { item }
            | Refusal::BadThread { thread: item } => (u64::from(item), 0),
            Refusal::IllegalInstruction(at)
            | Refusal::ComputedJump(at)
            | Refusal::BadTarget(at)
            | Refusal::RangeNotKept(at)
            | Refusal::NotMapped(at)
            | Refusal::MeasureNotFalling(at)
            | Refusal::OverBudget(at)
            | Refusal::CallNotConstant(at)
            | Refusal::CapNotThere(at)
            | Refusal::CallRefused(at, _)
            | Refusal::PoolLost(at)
            | Refusal::PromiseNotKept(at) => (u64::from(at.thread), u64::from(at.point)),
        }
    }
}

impl From<AllocError> for Refusal {
    ghost from_gives = { λ _ refusal. refusal ≡ Refusal.OutOfMemory };

    fn from(_refused: AllocError) -> Refusal {
        Refusal::OutOfMemory
    }
}

impl<T: Drop> From<AllocFailed<T>> for Refusal {
    ghost from_gives = { λ _ refusal. refusal ≡ Refusal.OutOfMemory };

    fn from(_refused: AllocFailed<T>) -> Refusal {
        Refusal::OutOfMemory
    }
}
