//! What is known at a point.

/// What is known at a point, or what one leaves for the next.
#[derive(Clone, Copy, Drop)]
pub enum AtPoint<T> {
    Known(T),
    /// There is no state.
    Missing,
    /// There is none only because the instruction before writes a register of the measure.
    Unmeasured,
}
