//! Threads of a text.

/// The record of a point, by its line `measure`.
#[derive(Clone, Copy, Debug)]
pub struct RecordLine {
    /// The number of its point, from 0.
    pub point: usize,
    pub line: u64,
}

/// `buffer FRAME`
#[derive(Clone, Copy, Debug)]
pub struct BufferLine {
    pub line: u64,
    pub frame: usize,
}

/// A thread of a text, from its line `thread` to its line `end`.
#[derive(Drop)]
pub struct SourceThread<'a> {
    pub line: u64,
    /// The numbers of its objects.
    pub tcb: usize,
    pub cnode: usize,
    pub root: usize,
    pub guard: u32,
    pub priority: u32,
    pub budget: u64,
    /// The capability address of its fault handler, or 0 for none.
    pub fault: u32,
    /// The frame of its message buffer and the line of that, if it has one.
    pub buffer: Option<BufferLine>,
    /// The label that it starts at.
    pub entry: &'a str,
    pub base: u32,
    /// The lines of its points: its instructions and words, from 0.
    pub points: Vec<u64>,
    /// Its records, in the order of their points.
    pub records: Vec<RecordLine>,
}

impl SourceThread<'_> {
    /// The line of the record of a point, if it has one.
    pub fn record_line(&self, point: usize) -> Option<u64> {
        for record in &self.records {
            if record.point == point {
                return Some(record.line);
            }
        }
        None
    }

    /// The line of a point, or of the thread if it has no such point.
    pub fn point_line(&self, point: usize) -> u64 {
        match self.points.get(point) {
            Some(line) => *line,
            None => self.line,
        }
    }
}
