//! The CNodes that the image gives a thread: its root, and those that capabilities listed in such CNodes name.

ghost use Rattle.std.specs.Prelude.{ℕ, ◌≡◌, IfErr, IfOk, OnOk, fold, if◌then◌else◌};
ghost use Rattle.model.specs.declared.refusals.Refusal.TheVariants.{OutOfMemory};
ghost use Rattle.model.specs.Acceptance.ThreadRules.{is_cnode_source, is_member, reached};
ghost use Rattle.wellformed.specs.Answering.{with_listed, with_number};

use crate::number_sets::NumberSet;
use crate::object_types::is_cnode_source;
use image_reading::{ImageRef, ThreadRef, capability_of, header_of, listed_in};
use model::{CapabilityEntry, Refusal};
use std::alloc::Global;

/// One CNode more, if the capability leads to one.
fn follow(
    image: &ImageRef<'_>,
    entry: CapabilityEntry,
    found: &mut NumberSet,
) -> Result<(), Refusal>
    ensures found { OnOk result (found.new ≡ (if is_cnode_source image.now entry.source then with_number entry.source found.old else found.old)) }
    ensures memory { IfErr result (λ refusal. refusal ≡ OutOfMemory) }
{
    if is_cnode_source(image, entry.source) {
        return found.insert(entry.source);
    }
    Ok(())
}

/// The CNodes that the capabilities of one CNode lead to.
fn follow_listed(image: &ImageRef<'_>, cnode: u32, found: &mut NumberSet) -> Result<(), Refusal>
    ensures found { OnOk result (found.new ≡ fold (with_listed image.now cnode) found.old image.now.capabilities) }
    ensures memory { IfErr result (λ refusal. refusal ≡ OutOfMemory) }
{
    let listed = listed_in(image, cnode);
    for item in listed.first..listed.end {
        follow(image, capability_of(image, item), found)?;
    }
    Ok(())
}

/// The CNodes that a thread reaches. The capabilities of each are followed once, in the order in which the CNodes were found.
pub(crate) fn reached(
    alloc: Global,
    image: &ImageRef<'_>,
    thread: &ThreadRef<'_>,
) -> Result<NumberSet, Refusal>
    ensures found { IfOk result (λ found. (n : ℕ) → is_member n found ≡ is_member n (reached image.now thread.now)) }
    ensures memory { IfErr result (λ refusal. refusal ≡ OutOfMemory) }
{
    let mut found = NumberSet::new(alloc);
    found.insert(thread.header().cnode)?;
    // Each CNode but the root is some capability's source.
    for place in 0..header_of(image).capabilities as usize + 1 {
        if found.len() <= place {
            return Ok(found);
        }
        follow_listed(image, found.at(place), &mut found)?;
    }
    Ok(found)
}
