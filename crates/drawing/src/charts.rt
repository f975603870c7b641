//! A trace as a chart.

use crate::answers::{AnswerBar, AnswerCount, LineAnswer, begin, carry, count, no_bars};
use crate::cells::{Cell, Cells, Shape, Window, cells_of};
use crate::faults::DrawingFault;
use crate::lane_names::{LaneName, left_of, said_of_rest};
use crate::layouts::{FOOT, HEAD, LANE, Layout, WIDTH, width_of};
use crate::signs::{ANSWER_LEGEND, LEGEND, STYLE, WORLD_LEGEND, WORLD_STYLE, push_said};
use crate::threads::Rest;
use crate::words::shown_word;
use named_traces::TextNames;
use sinks::{Sink, put_all};
use source_texts::TextFault;
use std::alloc::{AllocError, Global};
use trace_lines::Mark;

/// What is to be drawn of a trace.
#[derive(Clone, Copy, Debug)]
pub struct ChartRequest<'a> {
    /// The text of the image whose trace it is. Its certificates may be missing, budgets may be `auto`, and lines `program FILE ..`
    /// may be in the place of instructions.
    pub text: Option<&'a str>,
    /// The first event that is drawn, from 1.
    pub from: Option<u64>,
    /// The last event that is drawn.
    pub to: Option<u64>,
    /// The threads that deal with interrupts within so many instructions, as far as that is known.
    pub answers: &'a [LineAnswer],
}

/// The colours of the lanes.
const COLOURS: [&str; 6] = [
    "#3b78b5", "#c9752d", "#4e9a47", "#8a5aa8", "#b84f6d", "#5f7f86",
];

/// The colour of what the world does.
pub(crate) const WORLD: &str = "#8d3b70";

/// How high the curve of a word is at most, and how far its foot is below the top of its lane.
const CURVE: u32 = 14;

const CURVE_FOOT: u32 = 22;

/// How far apart the numbers of lines are at least.
const BETWEEN_NUMBERS: u32 = 90;

/// A thread's lane, and since where it rests.
#[derive(Clone, Copy, Debug)]
struct Lane {
    rest: Rest,
    since: u32,
}

/// The value of a word, if an event said it, and since where it is drawn.
#[derive(Clone, Copy, Debug)]
struct WordLane {
    value: Option<u32>,
    since: u32,
}

/// A chart that is being drawn.
#[derive(Drop)]
pub(crate) struct Canvas<'c, 't> {
    pub(crate) alloc: Global,
    pub(crate) cells: &'c Cells,
    text: Option<&'c TextNames<'t>>,
    names: &'c [LaneName],
    pub(crate) layout: Layout,
    lanes: Vec<Lane>,
    words: Vec<WordLane>,
    pub(crate) bars: Vec<AnswerBar>,
    pub(crate) counts: Vec<AnswerCount>,
    /// The band at hand.
    pub(crate) band: u32,
    /// From where on the next number of a line may be.
    number_from: u32,
    pub(crate) svg: String,
}

/// The colour of a lane.
fn colour(lane: usize) -> &'static str {
    COLOURS[lane % COLOURS.len()]
}

/// A character that may be in the chart for a byte.
fn is_shown(byte: u8) -> bool {
    byte > b' ' && byte < 127 && byte != b'<' && byte != b'>' && byte != b'&'
}

impl Canvas<'_, '_> {
    /// Where the bar of a lane begins.
    fn bar_top(&self, lane: usize) -> u32 {
        self.layout.lane_top(self.band, lane).saturating_add(6)
    }

    /// The frame of the band at hand: the names of its lanes.
    fn push_band(&mut self) -> Result<(), AllocError> {
        let left = self.layout.left;
        let tick_line = self.layout.band_top(self.band).saturating_add(31);
        write!(
            self.svg,
            "<text class=\"n\" x=\"{left}\" y=\"{tick_line}\" text-anchor=\"end\" dx=\"-8\">events</text>\n"
        )?;
        for lane in 0..self.names.len() {
            self.push_lane(lane)?;
            self.push_name(lane)?;
        }
        Ok(())
    }

    /// The ground of a lane.
    fn push_lane(&mut self, lane: usize) -> Result<(), AllocError> {
        let (x, y) = (self.layout.left, self.layout.lane_top(self.band, lane));
        let fill = if lane % 2 == 0 { "#f6f7f9" } else { "#eceff3" };
        write!(
            self.svg,
            "<rect x=\"{x}\" y=\"{y}\" width=\"{WIDTH}\" height=\"{LANE}\" fill=\"{fill}\"/>\n"
        )
    }

    /// What is written beside a lane.
    fn push_name(&mut self, lane: usize) -> Result<(), AllocError> {
        let Some(LaneName { name, below }) = self.names.get(lane) else {
            return Ok(());
        };
        let top = self.layout.lane_top(self.band, lane);
        if below.is_empty() {
            return self.push_first_name(lane, name, top.saturating_add(17));
        }
        self.push_first_name(lane, name, top.saturating_add(12))?;
        self.push_below(below, top.saturating_add(22))
    }

    /// The thread or word of a lane.
    fn push_first_name(&mut self, lane: usize, name: &str, base: u32) -> Result<(), AllocError> {
        let is_thread = lane < self.lanes.len();
        let (left, fill) = (
            self.layout.left,
            if is_thread { colour(lane) } else { WORLD },
        );
        write!(
            self.svg,
            "<text class=\"t\" x=\"{left}\" y=\"{base}\" dx=\"-8\" fill=\"{fill}\">{name}</text>\n"
        )
    }

    /// What is written in small letters below a name.
    fn push_below(&mut self, below: &str, base: u32) -> Result<(), AllocError> {
        let left = self.layout.left;
        write!(
            self.svg,
            "<text class=\"n\" x=\"{left}\" y=\"{base}\" dx=\"-8\" text-anchor=\"end\" style=\"font-size:9px\">{below}</text>\n"
        )
    }

    /// How a thread rested up to here in the band at hand.
    fn push_rest(&mut self, lane: usize, until: u32) -> Result<(), AllocError> {
        let Some(Lane { rest, since }) = self.lanes.get(lane).copied() else {
            return Ok(());
        };
        if until <= since {
            return Ok(());
        }
        let y = self.bar_top(lane).saturating_add(7);
        let class = match rest {
            Rest::Ready => "r",
            Rest::Waits { .. } => "w",
            Rest::Faulted { .. } => "f",
        };
        let from = since.saturating_add(1);
        write!(
            self.svg,
            "<path class=\"{class}\" d=\"M{from} {y}H{until}\"/>\n"
        )?;
        self.push_place(lane, rest, from, y, until - since)
    }

    /// Where a thread waits or faulted, above its line, if there is room.
    fn push_place(
        &mut self,
        lane: usize,
        rest: Rest,
        x: u32,
        y: u32,
        room: u32,
    ) -> Result<(), AllocError> {
        let Some((thread, _)) = self.cells.threads.get_index(lane) else {
            return Ok(());
        };
        let base = y.saturating_sub(3);
        match said_of_rest(self.alloc, self.text, *thread, rest, room)? {
            Some(said) => self.push_small(&said, x, base),
            None => Ok(()),
        }
    }

    /// What is said in small letters.
    pub(crate) fn push_small(&mut self, said: &str, x: u32, base: u32) -> Result<(), AllocError> {
        write!(
            self.svg,
            "<text class=\"l\" x=\"{x}\" y=\"{base}\" dx=\"3\">"
        )?;
        push_said(&mut self.svg, said)?;
        self.svg.push_str("</text>\n")
    }

    /// The thread of a lane runs from here to there, and then rests like this.
    fn run(&mut self, lane: usize, from: u32, until: u32, rest: Rest) -> Result<(), AllocError> {
        self.push_rest(lane, from)?;
        if let Some(lane) = self.lanes.get_mut(lane) {
            lane.rest = rest;
            lane.since = until;
        }
        Ok(())
    }

    /// How the threads rest, and the values of the words, up to here in the band at hand.
    fn push_ends(&mut self, until: u32) -> Result<(), AllocError> {
        for lane in 0..self.lanes.len() {
            self.push_rest(lane, until)?;
        }
        for row in 0..self.words.len() {
            self.push_value(row, until)?;
        }
        Ok(())
    }

    /// Where the lane of a word begins in the band at hand.
    fn row_top(&self, row: usize) -> u32 {
        let lane = self.lanes.len().saturating_add(row);
        self.layout.lane_top(self.band, lane)
    }

    /// How high a value of a word is drawn.
    fn height_of(&self, row: usize, value: u32) -> u32 {
        let height = match self.cells.words.get_index(row) {
            Some((_, run)) => run.height(value, CURVE),
            None => 0,
        };
        self.row_top(row)
            .saturating_add(CURVE_FOOT)
            .saturating_sub(height)
    }

    /// The value of a word up to here in the band at hand.
    fn push_value(&mut self, row: usize, until: u32) -> Result<(), AllocError> {
        let Some(word) = self.words.get(row).copied() else {
            return Ok(());
        };
        match word.value {
            Some(value) if word.since < until => {
                let (since, y) = (word.since, self.height_of(row, value));
                write!(self.svg, "<path class=\"v\" d=\"M{since} {y}H{until}\"/>\n")
            }
            _ => Ok(()),
        }
    }

    /// The world writes or reads a word: a mark above, and the value from here on.
    fn push_world(
        &mut self,
        row: usize,
        x: u32,
        value: u32,
        writes: bool,
    ) -> Result<(), AllocError> {
        let middle = x.saturating_add(6);
        self.push_value(row, middle)?;
        if let Some(word) = self.words.get_mut(row) {
            word.value = Some(value);
            word.since = middle;
        }
        let y = self.height_of(row, value);
        self.push_sign(middle, y, writes)?;
        let base = self.row_top(row).saturating_add(11);
        let shown = shown_word(self.alloc, value)?;
        self.push_small(&shown, middle, base)
    }

    /// The mark of a word that is written, an arrow down to its value, or read, an arrow up from it.
    fn push_sign(&mut self, x: u32, y: u32, writes: bool) -> Result<(), AllocError> {
        let base = self.layout.band_top(self.band).saturating_add(32);
        let head = if writes {
            "l-4 -8h8z"
        } else {
            "m-4 0h8l-4 -8z"
        };
        write!(
            self.svg,
            "<path class=\"y\" d=\"M{x} {base}V{y}\"/><path fill=\"{WORLD}\" d=\"M{x} {base}{head}\"/>\
             <circle cx=\"{x}\" cy=\"{y}\" r=\"2.5\" fill=\"{WORLD}\"/>\n"
        )
    }

    /// Ends the band at hand, up to where its last cell ends, and begins the next one.
    fn turn(&mut self, until: u32) -> Result<(), AllocError> {
        self.push_ends(until)?;
        self.push_answers(until)?;
        carry(&mut self.bars, self.layout.left);
        self.band = self.band.saturating_add(1);
        self.number_from = 0;
        for lane in &mut self.lanes {
            lane.since = self.layout.left;
        }
        for word in &mut self.words {
            word.since = self.layout.left;
        }
        self.push_band()
    }

    /// The number of a cell's first line, if the one before it is not too near.
    fn push_number(&mut self, cell: &Cell, x: u32) -> Result<(), AllocError> {
        if x < self.number_from {
            return Ok(());
        }
        self.number_from = x.saturating_add(BETWEEN_NUMBERS);
        let top = self.layout.band_top(self.band);
        let base = top.saturating_add(12);
        let line = cell.line;
        write!(
            self.svg,
            "<text class=\"n\" x=\"{x}\" y=\"{base}\">{line}</text>\n"
        )?;
        let low = top.saturating_add(HEAD);
        let high = top.saturating_add(15);
        write!(self.svg, "<path class=\"g\" d=\"M{x} {high}V{low}\"/>\n")
    }

    /// A bar in a lane.
    fn push_bar(&mut self, lane: usize, x: u32, width: u32, fill: &str) -> Result<(), AllocError> {
        let y = self.bar_top(lane);
        write!(
            self.svg,
            "<rect x=\"{x}\" y=\"{y}\" width=\"{width}\" height=\"14\" fill=\"{fill}\"/>\n"
        )
    }

    /// An instruction with a mark.
    fn push_event(
        &mut self,
        lane: usize,
        x: u32,
        width: u32,
        mark: Mark,
    ) -> Result<(), AllocError> {
        match mark {
            Mark::Plain => self.push_bar(lane, x, width, colour(lane)),
            Mark::Wait => self.push_wait(lane, x, width),
            Mark::Completed => self.push_completed(lane, x, width),
            Mark::Put(byte) => self.push_put(lane, x, width, byte),
            Mark::Refused(number) => self.push_refused(lane, x, width, number),
            Mark::Faulted(number) => self.push_faulted(lane, x, width, number),
        }
    }

    /// A byte that is put: a bar with the byte in it.
    fn push_put(&mut self, lane: usize, x: u32, width: u32, byte: u8) -> Result<(), AllocError> {
        self.push_written(lane, x, width, "#222")?;
        self.push_byte(byte)
    }

    /// A call that is refused: a bar with the number of the error in it.
    fn push_refused(
        &mut self,
        lane: usize,
        x: u32,
        width: u32,
        number: u8,
    ) -> Result<(), AllocError> {
        self.push_written(lane, x, width, "#d02f2f")?;
        write!(self.svg, "e{number}</text>\n")
    }

    /// A fault: a bar with its number in it.
    fn push_faulted(
        &mut self,
        lane: usize,
        x: u32,
        width: u32,
        number: u8,
    ) -> Result<(), AllocError> {
        self.push_written(lane, x, width, "#7d0f0f")?;
        write!(self.svg, "f{number}</text>\n")
    }

    /// A wait: a bar with an edge at its end.
    fn push_wait(&mut self, lane: usize, x: u32, width: u32) -> Result<(), AllocError> {
        self.push_bar(lane, x, width, colour(lane))?;
        let edge = x.saturating_add(width).saturating_sub(2);
        let high = self.bar_top(lane).saturating_sub(4);
        write!(
            self.svg,
            "<rect x=\"{edge}\" y=\"{high}\" width=\"3\" height=\"22\" fill=\"#222\"/>\n"
        )
    }

    /// A call that is done: a bar with a dot.
    fn push_completed(&mut self, lane: usize, x: u32, width: u32) -> Result<(), AllocError> {
        self.push_bar(lane, x, width, colour(lane))?;
        let middle = x.saturating_add(width / 2);
        let centre = self.bar_top(lane).saturating_add(7);
        write!(
            self.svg,
            "<circle cx=\"{middle}\" cy=\"{centre}\" r=\"3\" fill=\"#fff\"/>\n"
        )
    }

    /// A bar in which something is written, up to there.
    fn push_written(
        &mut self,
        lane: usize,
        x: u32,
        width: u32,
        fill: &str,
    ) -> Result<(), AllocError> {
        self.push_bar(lane, x, width, fill)?;
        let middle = x.saturating_add(width / 2);
        let base = self.bar_top(lane).saturating_add(11);
        write!(self.svg, "<text class=\"b\" x=\"{middle}\" y=\"{base}\">")
    }

    /// A byte, as what it shows or as two digits, and the end of what is written.
    fn push_byte(&mut self, byte: u8) -> Result<(), AllocError> {
        if is_shown(byte) {
            self.svg.push(char::from(byte))?;
        } else {
            write!(self.svg, "{byte:02x}")?;
        }
        self.svg.push_str("</text>\n")
    }

    /// A tick or an interrupt, above the lanes, with a line down through them.
    fn push_above(&mut self, x: u32, interrupt: Option<u8>) -> Result<(), AllocError> {
        let top = self.layout.band_top(self.band);
        let low = self.layout.lane_top(self.band, self.lanes.len());
        let (high, base) = (top.saturating_add(24), top.saturating_add(32));
        let middle = x.saturating_add(4);
        match interrupt {
            None => write!(
                self.svg,
                "<path class=\"k\" d=\"M{middle} {base}V{low}\"/><path fill=\"#555\" d=\"M{middle} {base}l-4 -8h8z\"/>\n"
            ),
            Some(number) => {
                let label = x.saturating_add(9);
                write!(
                    self.svg,
                    "<path class=\"i\" d=\"M{middle} {high}V{low}\"/><text class=\"q\" x=\"{label}\" y=\"{base}\">irq {number}</text>\n"
                )
            }
        }
    }

    /// A cell at a place of the band at hand.
    fn push_cell(&mut self, cell: &Cell, x: u32) -> Result<(), AllocError> {
        self.push_number(cell, x)?;
        let width = width_of(cell.shape);
        let end = x.saturating_add(width);
        match cell.shape {
            Shape::Tick => self.push_above(x, None),
            Shape::Interrupt(number) => {
                begin(&mut self.bars, number, x.saturating_add(4));
                self.push_above(x, Some(number))
            }
            Shape::Idle { count: steps } => {
                count(&mut self.bars, steps);
                self.push_idle(x, width)
            }
            Shape::Run { lane, count: steps } => {
                count(&mut self.bars, steps);
                self.run(lane, x, end, Rest::Ready)?;
                self.push_bar(lane, x, width, colour(lane))
            }
            Shape::World { row, word, writes } => self.push_world(row, x, word, writes),
            Shape::Event { lane, pc, mark } => {
                count(&mut self.bars, 1);
                self.run(lane, x, end, Rest::after(mark, pc))?;
                self.push_event(lane, x, width, mark)?;
                self.end_answers(lane, mark, end)
            }
        }
    }

    /// A time in which nobody runs.
    fn push_idle(&mut self, x: u32, width: u32) -> Result<(), AllocError> {
        let top = self.layout.lane_top(self.band, 0);
        let low = self.layout.lane_top(self.band, self.lanes.len());
        let height = low.saturating_sub(top);
        write!(
            self.svg,
            "<rect class=\"o\" x=\"{x}\" y=\"{top}\" width=\"{width}\" height=\"{height}\"/>\n"
        )
    }

    /// All cells, and how the threads rest at the end.
    fn push_cells(&mut self) -> Result<(), AllocError> {
        let cells = self.cells;
        let mut place = self.layout.first();
        self.push_band()?;
        for cell in &cells.cells {
            let at = self.layout.place_of(cell, place);
            if at.band != self.band {
                self.turn(place.x)?;
            }
            self.push_cell(cell, at.x)?;
            place = at.behind(cell);
        }
        self.push_ends(place.x)?;
        self.push_answers(place.x)
    }
}

/// How the threads rest where a chart begins.
fn first_lanes(alloc: Global, cells: &Cells, left: u32) -> Result<Vec<Lane>, AllocError> {
    let mut lanes = Vec::new(alloc);
    for thread in cells.threads.values() {
        lanes.push(Lane {
            rest: thread.rest,
            since: left,
        })?;
    }
    Ok(lanes)
}

/// The words where a chart begins.
fn first_words(alloc: Global, cells: &Cells, left: u32) -> Result<Vec<WordLane>, AllocError> {
    let mut words = Vec::new(alloc);
    for run in cells.words.values() {
        words.push(WordLane {
            value: run.first,
            since: left,
        })?;
    }
    Ok(words)
}

/// What is written beside the lanes.
fn lane_names(
    alloc: Global,
    cells: &Cells,
    text: Option<&TextNames<'_>>,
) -> Result<Vec<LaneName>, AllocError> {
    let mut names = Vec::new(alloc);
    for (address, run) in &cells.threads {
        names.push(LaneName::of(alloc, text, *address, run)?)?;
    }
    for (address, run) in &cells.words {
        names.push(LaneName::of_word(alloc, text, *address, run)?)?;
    }
    Ok(names)
}

/// What is before the first band of a chart that is so wide, whose last band ends there, and which has words of the world or none.
fn push_head(svg: &mut String, right: u32, foot: u32, has_words: bool) -> Result<(), AllocError> {
    let (width, height) = (right.saturating_add(8), foot.saturating_add(FOOT));
    write!(
        svg,
        "<svg xmlns=\"http://www.w3.org/2000/svg\" width=\"{width}\" height=\"{height}\" viewBox=\"0 0 {width} {height}\">\n"
    )?;
    svg.push_str(STYLE)?;
    svg.push_str(if has_words { WORLD_STYLE } else { "" })?;
    svg.push_str("<rect width=\"100%\" height=\"100%\" fill=\"#fff\"/>\n")
}

/// What the signs mean, and the end of the chart, which has words of the world, and bars of interrupts, or none.
fn push_legend(
    svg: &mut String,
    x: u32,
    y: u32,
    has_words: bool,
    has_bars: bool,
) -> Result<(), AllocError> {
    write!(svg, "<g transform=\"translate({x} {y})\">")?;
    svg.push_str(if has_words { WORLD_LEGEND } else { "" })?;
    svg.push_str(if has_bars { ANSWER_LEGEND } else { "" })?;
    svg.push_str(LEGEND)
}

impl Canvas<'_, '_> {
    /// The whole chart.
    fn push_all(&mut self) -> Result<(), AllocError> {
        let foot = self
            .layout
            .band_top(self.layout.bands_of(&self.cells.cells));
        let has_words = !self.words.is_empty();
        push_head(&mut self.svg, self.layout.right(), foot, has_words)?;
        self.push_cells()?;
        let (x, y) = (self.layout.left, foot.saturating_add(6));
        push_legend(&mut self.svg, x, y, has_words, !self.bars.is_empty())
    }
}

/// The chart of cells, with what a text says of them, and how soon threads deal with interrupts.
fn chart_of(
    alloc: Global,
    cells: &Cells,
    text: Option<&TextNames<'_>>,
    answers: &[LineAnswer],
) -> Result<String, AllocError> {
    let names = lane_names(alloc, cells, text)?;
    let layout = Layout {
        left: left_of(&names),
        lanes: names.len(),
    };
    let mut canvas = Canvas {
        alloc,
        cells,
        text,
        names: &names,
        layout,
        lanes: first_lanes(alloc, cells, layout.left)?,
        words: first_words(alloc, cells, layout.left)?,
        bars: no_bars(alloc, answers)?,
        counts: Vec::new(alloc),
        band: 0,
        number_from: 0,
        svg: String::new(alloc),
    };
    canvas.push_all()?;
    Ok(canvas.svg)
}

/// What a text says, if there is one.
fn names_in<'t>(alloc: Global, text: Option<&'t str>) -> Result<Option<TextNames<'t>>, TextFault> {
    match text {
        Some(text) => Ok(Some(TextNames::read(alloc, text)?)),
        None => Ok(None),
    }
}

/// Puts a trace as a picture (SVG): a lane for each thread, in the order in which they first run, with what it did and where it waits,
/// and ticks, interrupts and what the world writes (an arrow down) and reads (an arrow up) above; below the threads a row for each word
/// that the world writes or reads, with its values. Long runs of one thread are drawn shorter, and what does not fit beside it is put in
/// the next band. Below the lane of a thread that deals with interrupts there is a bar from each interrupt to its next wait, with how many
/// instructions that took, and how many at most. With the text of the image threads have their names, with the most instructions from one
/// wait to the next and the budget, where they wait or faulted is said by label and line, and the lines of the trace may have its names.
/// Of the events before and after those that are drawn it is read who runs.
///
/// # Errors
///
/// The first line that is none of a text, or none of a trace; an output that takes no more, or memory refused. Only the second has put
/// anything.
pub fn chart<S: Sink>(
    alloc: Global,
    trace: &[u8],
    request: &ChartRequest<'_>,
    output: &mut S,
) -> Result<(), DrawingFault> {
    let names = names_in(alloc, request.text)?;
    let window = Window {
        from: request.from.unwrap_or(1),
        to: request.to.unwrap_or(u64::MAX),
    };
    let cells = cells_of(alloc, trace, names.as_ref(), window)?;
    let chart = chart_of(alloc, &cells, names.as_ref(), request.answers)?;
    put_all(output, chart.as_bytes())?;
    Ok(())
}
