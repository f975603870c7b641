//! Entries in rising order of their keys.

ghost use Rattle.std.specs.Prelude.{◌≡◌, ◌≤◌, length};
ghost use Rattle.model.specs.Images.Image.{pair_key};
ghost use Rattle.asm.specs.Keys.{has_key, is_before, place_of, sorted_with};
ghost use Rattle.asm.specs.Outcomes.{Means};

use crate::declarations::Capability;
use crate::faults::Fault;
use image_reading::{Keyed, pair_key};

impl Keyed for Capability {
    ghost key = { λ e. pair_key e.cnode e.index };

    fn key(&self) -> u64 {
        pair_key(self.cnode, self.index)
    }
}

/// Whether the entry at a place has a lesser key.
fn is_before<E: Keyed>(entries: &[E], key: u64, place: usize) -> bool
    ensures { result ≡ is_before E.key key entries.now place }
{
    match entries.get(place) {
        Some(entry) => entry.key() < key,
        None => true,
    }
}

/// Where an entry with this key belongs: after the last one whose key is less. No more entries are looked at than have
/// to move.
fn place_of<E: Keyed>(entries: &[E], key: u64) -> usize
    ensures bound { result ≤ length entries.now }
    ensures place { result ≡ place_of E.key key entries.now }
{
    let mut place = entries.len();
    'places: while 0 < place && !is_before(entries, key, place - 1) {
        place -= 1;
    }
    place
}

/// Whether the entry at a place has this key.
fn has_key<E: Keyed>(entries: &[E], place: usize, key: u64) -> bool
    ensures { result ≡ has_key E.key key entries.now place }
{
    match entries.get(place) {
        Some(entry) => entry.key() == key,
        None => false,
    }
}

/// Puts an entry where its key belongs, among no more than `most`. One whose key comes after all others goes to
/// the end.
///
/// # Errors
///
/// `Range` if there are `most` entries or one has the key already, and `Memory`.
#[tactic(auto, unfolding(crate::specs::Keys::sorted_with))]
pub(crate) fn insert<E: Keyed + Drop>(
    entries: &mut Vec<E>,
    most: usize,
    entry: E,
) -> Result<(), Fault>
    ensures { Means result (λ _. entries.new.items) (sorted_with E.key most entry entries.old.items) }
{
    let key = entry.key();
    if most <= entries.len() {
        return Err(Fault::Range);
    }
    let place = place_of(entries, key);
    if has_key(entries, place, key) {
        return Err(Fault::Range);
    }
    entries.insert(place, entry)?;
    Ok(())
}
