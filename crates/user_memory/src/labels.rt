//! Who takes the labels of steps.

ghost use Rattle.std.specs.Prelude.{◌≡◌, ◌++◌, Bool, List, true};
ghost use Rattle.model.specs.declared.labels.Label.{Label};

use model::{Label, Outcome};

/// Takes the labels of steps, one after another, while it wants more.
pub trait Labels {
    /// What it keeps: labels, or bytes that are printed of them.
    ghost Item: { Type 0 };

    /// What it keeps of a label.
    ghost kept: { Label → List Item };

    /// All that it has kept so far.
    ghost seen: { Self → List Item };

    /// Whether it wants more.
    ghost wants: { Self → Bool };

    /// Whether it wants more.
    fn wants_more(&self) -> bool
        ensures { result ≡ wants self.now };

    /// Takes one more.
    fn put(&mut self, label: Label)
        requires { wants self.old ≡ true }
        ensures { seen self.new ≡ seen self.old ++ kept label };

    /// Takes the label of a plain instruction, which most steps are: a thread, by its address, ran it at a program counter.
    fn plain(&mut self, thread: u32, pc: u32)
        requires { wants self.old ≡ true }
        ensures { seen self.new ≡ seen self.old ++ kept (Label.Ran thread pc Outcome.Plain) }
    {
        self.put(Label::Ran {
            thread,
            pc,
            outcome: Outcome::Plain,
        });
    }
}
