//! Which part of a list each object owns, where those that one object owns are side by side.

use std::alloc::{AllocError, Global};

/// So many entries in a row.
#[derive(Clone, Copy)]
struct Span {
    first: usize,
    count: usize,
}

/// What each object owns of a list, by the object's number.
#[derive(Drop)]
pub(crate) struct Spans {
    spans: Vec<Span>,
}

impl Spans {
    /// So many objects own nothing.
    pub(crate) fn none(alloc: Global, objects: usize) -> Result<Spans, AllocError> {
        let mut spans = Vec::new(alloc);
        for _ in 0..objects {
            spans.push(Span { first: 0, count: 0 })?;
        }
        Ok(Spans { spans })
    }

    /// The entry with this number is an object's. It follows the object's other ones.
    pub(crate) fn note(&mut self, owner: u32, number: usize) {
        if let Some(span) = self.spans.get_mut(owner as usize) {
            if span.count == 0 {
                span.first = number;
            }
            span.count = span.count.saturating_add(1);
        }
    }

    /// What an object owns of the list.
    pub(crate) fn of<'l, T>(&self, list: &'l [T], owner: u32) -> &'l [T] {
        match self.spans.get(owner as usize) {
            Some(span) => {
                let (_, rest) = list.split_at(span.first.min(list.len()));
                rest.split_at(span.count.min(rest.len())).0
            }
            None => list.split_at(0).0,
        }
    }
}
