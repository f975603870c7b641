//! Where the cells of a chart are: in bands below one another, each read from left to right.

use crate::cells::{Cell, Shape};
use crate::words::shown_length;
use trace_lines::Mark;

/// How much there is at least before the lanes of a band, for their names.
pub(crate) const LEAST_LEFT: u32 = 92;

/// How wide the lanes of a band are.
pub(crate) const WIDTH: u32 = 1060;

/// The height of a lane, and of what is above the lanes of a band.
pub(crate) const LANE: u32 = 26;

pub(crate) const HEAD: u32 = 40;

/// What lies between two bands.
const GAP: u32 = 12;

/// What is above the first band, and below the last one.
pub(crate) const TOP: u32 = 8;

pub(crate) const FOOT: u32 = 34;

/// How many bits a count has: long runs are drawn much shorter than they are.
fn bits(count: u32) -> u32 {
    32 - count.leading_zeros()
}

/// How wide a cell is.
pub(crate) fn width_of(shape: Shape) -> u32 {
    match shape {
        Shape::Idle { count } | Shape::Run { count, .. } => bits(count)
            .saturating_mul(4)
            .saturating_add(4),
        Shape::Tick => 10,
        Shape::Interrupt(0..=9) => 30,
        Shape::Interrupt(_) => 38,
        Shape::Event { mark, .. } => match mark {
            Mark::Wait => 8,
            Mark::Plain | Mark::Completed => 12,
            Mark::Put(_) | Mark::Refused(_) | Mark::Faulted(_) => 18,
        },
        Shape::World { word, .. } => shown_length(word).saturating_mul(5).saturating_add(14),
    }
}

/// The place where the next cell begins.
#[derive(Clone, Copy, Debug)]
pub(crate) struct Place {
    pub(crate) band: u32,
    pub(crate) x: u32,
}

impl Place {
    /// The place after a cell that is here.
    pub(crate) fn behind(self, cell: &Cell) -> Self {
        Place {
            band: self.band,
            x: self.x.saturating_add(width_of(cell.shape)),
        }
    }
}

/// Where the bands of a chart are, and their lanes.
#[derive(Clone, Copy, Debug)]
pub(crate) struct Layout {
    /// Where the lanes begin.
    pub(crate) left: u32,
    /// How many lanes there are: of threads, and after them of words.
    pub(crate) lanes: usize,
}

impl Layout {
    /// Where the lanes end.
    pub(crate) fn right(&self) -> u32 {
        self.left.saturating_add(WIDTH)
    }

    /// The first place of all.
    pub(crate) fn first(&self) -> Place {
        Place {
            band: 0,
            x: self.left,
        }
    }

    /// Where a cell is that comes next: at this place, or in the next band.
    pub(crate) fn place_of(&self, cell: &Cell, place: Place) -> Place {
        if place.behind(cell).x <= self.right() {
            place
        } else {
            Place {
                band: place.band.saturating_add(1),
                x: self.left,
            }
        }
    }

    /// How many bands the cells need, at least one.
    pub(crate) fn bands_of(&self, cells: &[Cell]) -> u32 {
        let mut place = self.first();
        for cell in cells {
            place = self.place_of(cell, place).behind(cell);
        }
        place.band.saturating_add(1)
    }

    /// The height of a band.
    fn band_height(&self) -> u32 {
        lanes_height(self.lanes).saturating_add(HEAD + GAP)
    }

    /// Where a band begins.
    pub(crate) fn band_top(&self, band: u32) -> u32 {
        band.saturating_mul(self.band_height()).saturating_add(TOP)
    }

    /// Where a lane of a band begins.
    pub(crate) fn lane_top(&self, band: u32, lane: usize) -> u32 {
        self.band_top(band)
            .saturating_add(HEAD)
            .saturating_add(lanes_height(lane))
    }
}

/// The height of so many lanes. What is beyond 4096 of them is drawn at one place.
fn lanes_height(lanes: usize) -> u32 {
    LANE * lanes.min(4096) as u32
}
