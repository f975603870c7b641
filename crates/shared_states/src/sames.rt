//! Trees that were found to hold the same.

ghost use Rattle.std.specs.Prelude.{◌≡◌, ◌<◌, ◌≢◌, IfOk, IfSome, List};
ghost use Rattle.shared_states.specs.Entries.{AreNoted, AreSame, IsIn};
ghost use Rattle.shared_states.specs.declared.entries.Entry.{Entry};

use std::alloc::{AllocError, Global};

/// A tree of a height that another one was found to hold the same as.
#[derive(Clone, Copy)]
struct Same {
    height: u32,
    tree: u32,
}

/// Of trees, those made before them that were found to hold the same: so no two are compared twice, whatever is between them.
#[derive(Drop)]
pub(crate) struct Sames {
    found: Vec<Option<Same>>,
}

impl Sames {
    /// None so far.
    pub(crate) fn new(alloc: Global) -> Self
        ensures { (entries : List Entry) → AreNoted entries result }
    {
        Sames {
            found: Vec::new(alloc),
        }
    }

    /// The tree that was found to hold the same as one of this height.
    fn next(&self, height: u32, tree: u32) -> Option<u32>
        ensures before { IfSome result (λ next. next < tree) }
        ensures same { IfSome result (λ next. (entries : List Entry) → AreNoted entries self.now → AreSame entries height tree next) }
        ensures within { IfSome result (λ next. (entries : List Entry) → AreNoted entries self.now → IsIn entries next) }
    {
        match self.found.get(tree as usize) {
            Some(Some(same)) => {
                if same.height == height && same.tree < tree {
                    Some(same.tree)
                } else {
                    None
                }
            }
            _ => None,
        }
    }

    /// Notes another tree that holds the same as one of this height of which one was noted.
    fn shorten(&mut self, height: u32, tree: u32, other: u32)
        ensures { (entries : List Entry) → IsIn entries other → AreSame entries height tree other → AreNoted entries self.old → AreNoted entries self.new }
    {
        let place = tree as usize;
        if place < self.found.len() {
            self.found[place] = Some(Same {
                height,
                tree: other,
            });
        }
    }

    /// Goes from a tree to the one that was found to hold the same as the next one, so that the way is half as long the next time.
    fn halve(&mut self, height: u32, tree: u32, next: u32)
        requires { (entries : List Entry) → AreNoted entries self.old → AreSame entries height tree next }
        ensures { (entries : List Entry) → AreNoted entries self.old → AreNoted entries self.new }
    {
        if let Some(after) = self.next(height, next) {
            self.shorten(height, tree, after);
        }
    }

    /// The first tree that was found to hold the same as one of this height.
    pub(crate) fn first(&mut self, height: u32, tree: u32) -> u32
        ensures same { (entries : List Entry) → AreNoted entries self.old → AreSame entries height tree result }
        ensures within { (entries : List Entry) → IsIn entries tree → IsIn entries result }
        ensures noted { (entries : List Entry) → AreNoted entries self.old → AreNoted entries self.new }
    {
        let mut first = tree;
        while let Some(next) = self.next(height, first) {
            self.halve(height, first, next);
            first = next;
        }
        first
    }

    /// Notes that two trees of a height hold the same. Memory may be refused.
    pub(crate) fn note(&mut self, height: u32, one: u32, other: u32) -> Result<(), AllocError>
        ensures { (entries : List Entry) → IsIn entries one → IsIn entries other → AreSame entries height one other → AreNoted entries self.old
            → AreNoted entries self.new }
    {
        let later = one.max(other);
        let tree = one.min(other);
        let place = later as usize;
        if self.found.len() <= place {
            self.found.resize(place + 1, None)?;
        }
        self.found[place] = Some(Same { height, tree });
        Ok(())
    }
}
