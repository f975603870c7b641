//! Labels that were seen.

ghost use Rattle.std.specs.Prelude.{◌≡◌, ◌≤◌, ◌∷◌, [], length, nat_lt, take};
ghost use Rattle.model.specs.declared.labels.Label.{Label};

use kernel::Labels;
use model::Label;

/// The labels of up to 64 steps.
#[derive(Drop)]
pub(crate) struct Seen {
    labels: [Label; 64],
    count: usize,
    ghost most: { count ≤ 64 },
}

impl Seen {
    /// None yet.
    pub(crate) fn new() -> Self {
        Seen {
            labels: [Label::Idle; 64],
            count: 0,
        }
    }

    /// All of them.
    pub(crate) fn labels(&self) -> &[Label] {
        &self.labels[..self.count]
    }
}

impl Labels for Seen {
    ghost Item = { Label };

    ghost kept = { λ label. label ∷ [] };

    ghost seen = { λ it. take it.count it.labels };

    ghost wants = { λ it. nat_lt it.count 64 };

    fn wants_more(&self) -> bool {
        self.count < 64
    }

    fn put(&mut self, label: Label) {
        self.labels[self.count] = label;
        self.count += 1;
    }
}
