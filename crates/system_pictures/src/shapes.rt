//! Boxes and arrows as SVG.

use crate::words::{push_said, shortened};
use model::{ObjectKind, ObjectType};
use std::alloc::{AllocError, Global};

/// Where the columns begin, and how wide they are.
pub(crate) const THREADS: u32 = 8;

pub(crate) const THREAD_WIDTH: u32 = 216;

pub(crate) const OBJECTS: u32 = 356;

pub(crate) const OBJECT_WIDTH: u32 = 204;

pub(crate) const OUTSIDES: u32 = 620;

pub(crate) const OUTSIDE_WIDTH: u32 = 104;

/// How wide a picture is.
pub(crate) const WIDTH: u32 = 732;

/// How the signs of a picture look. Without colours they are told apart by their dashes.
pub(crate) const STYLE: &str =
    "<style>.mp text{font:10px Helvetica,Arial,sans-serif;fill:#000}.mp .n{font-size:12px;font-weight:bold}.mp .s{fill:#444}.mp .e{text-anchor:end}\
     .mp rect{stroke:#222;fill:#fff}.mp .t{fill:#e6edf6}.mp .d{fill:#e3f1e1}.mp .b{fill:#fbf4d9}.mp .p{fill:#f8e9de}.mp .m{fill:#eee}.mp .x{fill:#f1e1ea}\
     .mp path{fill:none;stroke:#222}.mp .ad{stroke:#2f6b2a;stroke-width:1.5}.mp .ab{stroke:#8a6a0a;stroke-dasharray:6 3}.mp .ap{stroke:#9a5222}\
     .mp .am{stroke:#555;stroke-dasharray:2 3}.mp .ax{stroke:#7a2f60;stroke-width:1.2}.mp .h{fill:#222;stroke:none}</style>\n";

/// What the signs mean.
pub(crate) const LEGEND: &str =
    "threads from the highest priority down; a head is where something goes; doors: thick lines, bells: dashes, pages: thin lines, all else: dots";

/// The sort of an object, which its look is for.
#[derive(Clone, Copy, Debug, PartialEq, Eq)]
pub(crate) enum Sort {
    Door,
    Bell,
    Page,
    Other,
}

/// The sort of an object of a kind.
pub(crate) fn sort_of(kind: Option<ObjectType>) -> Sort {
    match kind {
        Some(ObjectType::Object(ObjectKind::Endpoint)) => Sort::Door,
        Some(ObjectType::Object(ObjectKind::Notification)) => Sort::Bell,
        Some(ObjectType::Object(ObjectKind::Frame)) => Sort::Page,
        _ => Sort::Other,
    }
}

impl Sort {
    /// The class of its box.
    fn box_class(self) -> &'static str {
        match self {
            Sort::Door => "d",
            Sort::Bell => "b",
            Sort::Page => "p",
            Sort::Other => "m",
        }
    }

    /// The class of arrows to and from it.
    fn arrow_class(self) -> &'static str {
        match self {
            Sort::Door => "ad",
            Sort::Bell => "ab",
            Sort::Page => "ap",
            Sort::Other => "am",
        }
    }
}

/// A box, by its left and upper edge.
#[derive(Clone, Copy)]
pub(crate) struct Frame {
    pub(crate) left: u32,
    pub(crate) top: u32,
    pub(crate) width: u32,
    pub(crate) height: u32,
}

/// Puts a box of a class.
pub(crate) fn push_frame(to: &mut String, class: &str, frame: Frame) -> Result<(), AllocError> {
    let Frame {
        left,
        top,
        width,
        height,
    } = frame;
    write!(
        to,
        "<rect class=\"{class}\" x=\"{left}\" y=\"{top}\" width=\"{width}\" height=\"{height}\" rx=\"4\"/>\n"
    )
}

/// Puts the box of an object of this sort.
pub(crate) fn push_object_frame(
    to: &mut String,
    sort: Sort,
    frame: Frame,
) -> Result<(), AllocError> {
    push_frame(to, sort.box_class(), frame)
}

/// Puts words of a class, at most so many characters, at a place.
pub(crate) fn push_words(
    alloc: Global,
    to: &mut String,
    class: &str,
    left: u32,
    base: u32,
    said: &str,
    most: usize,
) -> Result<(), AllocError> {
    write!(to, "<text class=\"{class}\" x=\"{left}\" y=\"{base}\">")?;
    push_said(to, shortened(alloc, said, most)?.as_str())?;
    to.push_str("</text>\n")
}

/// A line from one column to the next, with a head at each end to which something goes.
#[derive(Clone, Copy)]
pub(crate) struct Line {
    pub(crate) left: u32,
    pub(crate) from: u32,
    pub(crate) right: u32,
    pub(crate) to: u32,
    pub(crate) left_head: bool,
    pub(crate) right_head: bool,
}

/// Puts an arrow to or from an object of this sort.
pub(crate) fn push_arrow(to: &mut String, sort: Sort, line: Line) -> Result<(), AllocError> {
    push_line(to, sort.arrow_class(), line)
}

/// Puts a line of a class.
pub(crate) fn push_line(to: &mut String, class: &str, line: Line) -> Result<(), AllocError> {
    let Line {
        left,
        from,
        right,
        to: end,
        ..
    } = line;
    let middle = left / 2 + right / 2;
    write!(
        to,
        "<path class=\"{class}\" d=\"M{left} {from}C{middle} {from} {middle} {end} {right} {end}\"/>\n"
    )?;
    if line.left_head {
        write!(to, "<path class=\"h\" d=\"M{left} {from}l7 -3v6z\"/>\n")?;
    }
    if line.right_head {
        write!(to, "<path class=\"h\" d=\"M{right} {end}l-7 -3v6z\"/>\n")?;
    }
    Ok(())
}
