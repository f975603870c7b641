//! What system calls leave, by the rules of acceptance.

use crate::Fault;
use crate::bare_threads::BareThread;
use crate::shared::{Called, Shared};
use crate::ways::State;
use model::Point;

impl BareThread<'_, '_> {
    /// What the system call at a point leaves, where these changes are made to the slots of the image. In the state in which it was
    /// looked at last it is not asked again.
    pub(crate) fn called(
        &self,
        point: u32,
        state: &State,
        shared: &mut Shared<'_, '_>,
    ) -> Result<Called, Fault> {
        if let Some(called) = shared.called(point, &state.bounds, state.changes) {
            return Ok(called);
        }
        let at = Point {
            thread: self.given.number,
            point,
        };
        let (behind, made) = shared.asked(at, state)?;
        shared.note(point, state, &behind, &made)
    }
}
