//! Which points of a program are of which run: there are few spans where there are few runs.

ghost use Rattle.std.specs.Prelude.{◌≡◌, IfOk};
ghost use Rattle.responses.specs.Outlines.{Gives, run_from};

use std::alloc::{AllocError, Global};

/// From a point on, up to where the next span begins, points are of this run, by its place.
#[derive(Clone, Copy)]
pub(crate) struct Span {
    pub(crate) first: u32,
    pub(crate) run: u32,
}

/// The run of a point.
pub(crate) fn run_at(spans: &[Span], point: u32) -> u32
    ensures { result ≡ run_from 0 spans.now point }
{
    let mut run = 0;
    for span in spans {
        if span.first <= point {
            run = span.run;
        }
    }
    run
}

/// The spans of points, by the run of each.
pub(crate) fn spans_of(alloc: Global, places: &[u32]) -> Result<Vec<Span>, AllocError>
    ensures { IfOk result (λ spans. Gives places.now (run_from 0 spans.items)) }
{
    let mut spans = Vec::new(alloc);
    let mut run = 0;
    for point in 0..places.len() {
        if places[point] == run {
            continue;
        }
        let Ok(first) = u32::try_from(point) else {
            return Err(AllocError);
        };
        run = places[point];
        spans.push(Span { first, run })?;
    }
    Ok(spans)
}
