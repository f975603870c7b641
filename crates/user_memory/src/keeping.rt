//! Leaves of pages that are kept, so that walks to them are short.

ghost use Rattle.std.specs.Prelude.{◌≡◌};
ghost use Rattle.std.specs.Option.{ForSome};
ghost use Rattle.packed_slots.specs.cached_slots.Mappings.{LeavesAgree};

use model::Access;
use packed_slots::WalkStore;

/// Keeps the leaf of the page of an address under a root table, if there is one, unless the place of the address is known, or
/// the leaf is kept and allows such an access.
#[inline]
pub(crate) fn keep_page<S: WalkStore>(
    store: &mut S,
    root: Option<u32>,
    address: u32,
    access: Access,
    place: Option<u32>,
)
    requires { ForSome root (LeavesAgree (S.slots store.old) (S.memory store.old)) }
    ensures { store.new ≡ store.old }
{
    if place.is_some() {
        return;
    }
    let Some(root) = root else {
        return;
    };
    if store.kept_place(root, address, access).is_none() {
        store.keep_leaf(root, address);
    }
}
