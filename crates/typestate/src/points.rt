//! The slots at a point, as what differs from the image's.

ghost use Rattle.std.specs.Prelude.{[]};
ghost use Rattle.std.specs.Option.{option_map_or};
ghost use Rattle.typestate.specs.Orders.{AreNarrow, Rise};
ghost use Rattle.typestate.specs.Pages.{ArePaged};
ghost use Rattle.typestate.specs.Unlinked.{AreUnlinked};

use crate::{Changes, MappedPages, NotedSlot};

/// The full slots of a thread's CNodes at a point: those that the image lists, with changes made. The keys of both rise. What the
/// image lists has no parents and no mappings: only changes bring them.
/// A change to a slot that holds nothing empties it.
#[derive(Clone, Copy)]
pub struct NotedSlots<'s> {
    pub image: &'s [NotedSlot],
    pub changes: &'s Changes,
    /// The changes by the pages that their slots map: none where no change brings a mapping.
    pub pages: Option<&'s MappedPages>,
    ghost rising: { Rise image.now },
    ghost ordered: { Rise changes.now },
    ghost narrow: { AreNarrow changes.now },
    ghost unlinked: { AreUnlinked image.now },
    ghost paged: { ArePaged changes.now (option_map_or (λ p. p.now.slots.keys) pages []) },
}
