//! Laws on runs: the slots of one key are side by side.

ghost use Rattle.std.specs.Prelude.{ℕ};
ghost use Rattle.slots.specs.preorder.Laws.{ChangesKeepRuns, NeighboursTell, RunsEndBeside};

/// Runs stay after each change.
pub fn changes_keep_runs()
    ensures { ChangesKeepRuns ℕ }
{}

/// Another slot has the key of a slot exactly if one of its neighbours has.
pub fn neighbours_tell()
    ensures { NeighboursTell ℕ }
{}

/// A key among the descendants of a root and beside them is at the root or at the first slot after them.
pub fn runs_end_beside()
    ensures { RunsEndBeside ℕ }
{}
