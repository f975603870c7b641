//! The CNodes that an image gives a thread, in the order in which they are found.

ghost use Rattle.std.specs.Prelude.{ℕ, ◌≡◌, ◌==◌, ◌<◌, ◌||◌, [], true, IfErr, IfOk, OnOk, Some, fold, length, slice_get};
ghost use Rattle.model.specs.declared.entries.CapabilityEntry.{CapabilityEntry};
ghost use Rattle.model.specs.declared.refusals.Refusal.TheVariants.{OutOfMemory};
ghost use Rattle.model.specs.Acceptance.ThreadRules.{is_cnode_source, reached, with_named};
ghost use Rattle.thread_spaces.specs.Reaching.{AwaitsListed, AwaitsMore, Begins, Follows, IsWithin, awaits, is_among};

use image_reading::{ImageRef, ThreadRef, capability_of, header_of, listed_in};
use model::Refusal;
use std::alloc::Global;
use std::collections::btree_set::BTreeSet;
use wellformed::{NumberSet, is_cnode_source};

/// A round over the capabilities of an image, by their numbers: the place that it has come to, those from there on that may lead
/// to another CNode, and those before it that may do so in the next round.
#[derive(Drop)]
struct Round {
    place: u32,
    ahead: BTreeSet<u32>,
    passed: BTreeSet<u32>,
}

/// Puts a number among others. Memory may be refused.
fn put(numbers: &mut BTreeSet<u32>, number: u32) -> Result<(), Refusal>
    ensures put { OnOk result ((n : ℕ) → is_among numbers.new.keys n ≡ (number == n || is_among numbers.old.keys n)) }
    ensures memory { IfErr result (λ refusal. refusal ≡ OutOfMemory) }
{
    numbers.insert(number)?;
    Ok(())
}

impl Round {
    /// A round that follows none so far.
    fn new(alloc: Global) -> Round
        ensures place { result.place ≡ 0 }
        ensures ahead { result.ahead.keys ≡ [] }
        ensures passed { result.passed.keys ≡ [] }
    {
        Round {
            place: 0,
            ahead: BTreeSet::new(alloc),
            passed: BTreeSet::new(alloc),
        }
    }

    /// Awaits a capability, if it leads to a CNode. Memory may be refused.
    fn await_one(&mut self, image: &ImageRef<'_>, number: u32) -> Result<(), Refusal>
        requires number { number < length image.now.capabilities }
        requires within { IsWithin image.now self.old }
        ensures within { OnOk result (IsWithin image.now self.new) }
        ensures more { OnOk result (AwaitsMore self.old self.new) }
        ensures one { OnOk result ((c : CapabilityEntry) → slice_get image.now.capabilities number ≡ Some c → is_cnode_source image.now c.source ≡ true
            → awaits self.new number ≡ true) }
        ensures memory { IfErr result (λ refusal. refusal ≡ OutOfMemory) }
    {
        if !is_cnode_source(image, capability_of(image, number).source) {
            return Ok(());
        }
        if number < self.place {
            put(&mut self.passed, number)
        } else {
            put(&mut self.ahead, number)
        }
    }

    /// Awaits the capabilities of a CNode that lead to CNodes. Memory may be refused.
    fn await_listed(&mut self, image: &ImageRef<'_>, cnode: u32) -> Result<(), Refusal>
        requires within { IsWithin image.now self.old }
        ensures within { OnOk result (IsWithin image.now self.new) }
        ensures more { OnOk result (AwaitsMore self.old self.new) }
        ensures listed { OnOk result (AwaitsListed image.now cnode self.new) }
        ensures memory { IfErr result (λ refusal. refusal ≡ OutOfMemory) }
    {
        let listed = listed_in(image, cnode);
        for number in listed.first..listed.end {
            self.await_one(image, number)?;
        }
        Ok(())
    }

    /// Follows a capability: one CNode more, whose capabilities are awaited, if it is in one that is found and leads to
    /// one that is not. Memory may be refused.
    fn follow(
        &mut self,
        image: &ImageRef<'_>,
        number: u32,
        found: &mut NumberSet,
    ) -> Result<(), Refusal>
        requires number { number < length image.now.capabilities }
        requires within { IsWithin image.now self.old }
        ensures within { OnOk result (IsWithin image.now self.new) }
        ensures more { OnOk result (AwaitsMore self.old self.new) }
        ensures found { OnOk result (Follows image.now number found.old found.new self.new) }
        ensures memory { IfErr result (λ refusal. refusal ≡ OutOfMemory) }
    {
        let entry = capability_of(image, number);
        if !found.contains(entry.cnode)
            || !is_cnode_source(image, entry.source)
            || found.contains(entry.source)
        {
            return Ok(());
        }
        found.insert(entry.source)?;
        self.await_listed(image, entry.source)
    }

    /// Goes round to the end, and answers the next round. Memory may be refused.
    fn go(mut self, image: &ImageRef<'_>, found: &mut NumberSet) -> Result<Round, Refusal>
        requires { Begins image.now found.old self }
        ensures found { OnOk result (found.new ≡ fold (with_named image.now) found.old image.now.capabilities) }
        ensures next { IfOk result (λ next. Begins image.now found.new next) }
        ensures memory { IfErr result (λ refusal. refusal ≡ OutOfMemory) }
    {
        let _ = header_of(image);
        'round: while let Some(number) = self.ahead.pop_first() {
            self.place = number + 1;
            self.follow(image, number, found)?;
        }
        Ok(Round {
            place: 0,
            ahead: self.passed,
            passed: self.ahead,
        })
    }
}

/// The CNodes that a thread reaches. A round over the capabilities that may lead on finds more, until there are none. Each
/// CNode's are looked up once, when it is found.
///
/// # Errors
///
/// Memory may be refused.
pub fn reached_of(
    alloc: Global,
    image: &ImageRef<'_>,
    thread: &ThreadRef<'_>,
) -> Result<NumberSet, Refusal>
    ensures found { IfOk result (λ found. found ≡ reached image.now thread.now) }
    ensures memory { IfErr result (λ refusal. refusal ≡ OutOfMemory) }
{
    let root = thread.header().cnode;
    let mut found = NumberSet::new(alloc);
    found.insert(root)?;
    let mut round = Round::new(alloc);
    round.await_listed(image, root)?;
    'rounds: for _ in 0..header_of(image).capabilities {
        if round.ahead.is_empty() {
            return Ok(found);
        }
        round = round.go(image, &mut found)?;
    }
    Ok(found)
}
