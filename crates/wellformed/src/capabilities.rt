//! Capabilities and interrupts: whether they fit what they name.

ghost use Rattle.std.specs.Prelude.{◌≡◌, ◌+◌, ◌<◌, [], OnOk, map};
ghost use Rattle.model.specs.declared.refusals.Refusal.TheVariants.{BadCap};
ghost use Rattle.model.specs.Acceptance.Rules.{first_broken, refuse_if};
ghost use Rattle.model.specs.Acceptance.ThreadRules.{is_member};
ghost use Rattle.model.specs.Acceptance.WellFormed.{capability_rules, does_not_fit, is_listed_before, signals_nothing};
ghost use Rattle.model.specs.Images.Described.{numbered};
ghost use Rattle.wellformed.specs.Answering.{Answers, AreNamed};

use crate::number_sets::NumberSet;
use crate::object_types::{
    has_slot, is_notification, is_page_table, is_thread, is_untyped, may_have, source_type, type_at,
};
use image_reading::{ImageRef, header_of};
use model::{CapabilityEntry, InterruptEntry, Refusal};

/// Whether capability `item` does not fit. Threads and page tables are no sources, and untyped memory is one once.
#[tactic(auto, unfolding(model::specs::Acceptance::WellFormed::does_not_fit))]
fn does_not_fit(
    image: &ImageRef<'_>,
    item: u32,
    entry: CapabilityEntry,
    sources: &NumberSet,
) -> bool
    requires { is_member entry.source sources.now ≡ is_listed_before image.now item entry.source }
    ensures { result ≡ does_not_fit image.now (item, entry) }
{
    let source = source_type(image, entry.source);
    !has_slot(image, entry.cnode, entry.index)
        || is_thread(source)
        || is_page_table(source)
        || (is_untyped(source) && sources.contains(entry.source))
        || !may_have(source, entry.rights, entry.payload)
}

/// The capabilities, in their order. Puts what they name as sources into the set.
fn check_listed(image: &ImageRef<'_>, sources: &mut NumberSet) -> Result<(), Refusal>
    requires { sources.old ≡ [] }
    ensures rules { Answers (first_broken (map (λ c. refuse_if (does_not_fit image.now c) (BadCap c.0)) (numbered image.now.capabilities))) result }
    ensures sources { OnOk result (AreNamed (λ c. c.source) image.now.capabilities sources.new) }
{
    for item in 0..header_of(image).capabilities {
        let entry = image.capability(item);
        if does_not_fit(image, item, entry, sources) {
            return Err(Refusal::BadCap { item });
        }
        sources.insert(entry.source)?;
    }
    Ok(())
}

/// Whether an interrupt signals no notification.
fn signals_nothing(image: &ImageRef<'_>, entry: InterruptEntry) -> bool
    ensures { result ≡ signals_nothing image.now entry }
{
    !is_notification(type_at(image, entry.notification))
}

/// The interrupts, in their order, numbered on after the capabilities.
fn check_interrupts(image: &ImageRef<'_>) -> Result<(), Refusal>
    ensures { Answers (first_broken (map (λ i. refuse_if (signals_nothing image.now i.1) (BadCap (image.now.header.capabilities + i.0)))
        (numbered image.now.interrupts))) result }
{
    let header = header_of(image);
    for number in 0..header.interrupts {
        if signals_nothing(image, image.interrupt(number)) {
            return Err(Refusal::BadCap {
                item: header.capabilities + number,
            });
        }
    }
    Ok(())
}

/// The rules on capabilities and interrupts. Puts what capabilities name as sources into the set.
#[tactic(auto, unfolding(model::specs::Acceptance::WellFormed::capability_rules))]
pub(crate) fn check_capabilities(
    image: &ImageRef<'_>,
    sources: &mut NumberSet,
) -> Result<(), Refusal>
    requires { sources.old ≡ [] }
    ensures rules { Answers (first_broken (capability_rules image.now)) result }
    ensures sources { OnOk result (AreNamed (λ c. c.source) image.now.capabilities sources.new) }
{
    check_listed(image, sources)?;
    check_interrupts(image)
}
