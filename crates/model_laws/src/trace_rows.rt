//! Rows on the trace of `solo`, and on the state that loading leaves.

ghost use Rattle.std.specs.Prelude.{◌≡◌, ◌++◌, [], ◌∷◌, map, replicate};
ghost use Rattle.std.specs.List.{range_with_len};
ghost use Rattle.model.specs.Images.Described.{described};
ghost use Rattle.model.specs.Kernel.Steps.{trace};
ghost use Rattle.model.specs.declared.events.Event.TheVariants.{Step};
ghost use Rattle.model.specs.declared.labels.Label.TheVariants.{Idle, Raised, Ran};
ghost use Rattle.model.specs.declared.labels.Outcome.TheVariants.{Waited};
ghost use Rattle.model_laws.specs.Worker.{first_round, loop_image, loop_slots};
ghost use Rattle.model_laws.specs.Solo.{booted_or, ran_at, solo_events, solo_image, solo_loop, solo_slots, solo_start};

/// 25 steps, an interrupt and a step.
#[tactic(auto, unfolding(crate::proofs::Opened::opened))]
pub fn solo_waits_and_wakes()
    ensures { trace (described solo_image) solo_events
        ≡ solo_start ++ solo_loop ++ ran_at 0x100C ∷ ran_at 0x1010 ∷ Ran 0x8000C000 0x1014 Waited
        ∷ Idle ∷ Raised 3 ∷ ran_at 0x1018 ∷ [] }
{}

/// Loading leaves the slots that are described.
#[tactic(auto, unfolding(crate::proofs::Opened::opened))]
pub fn solo_boots_as_described()
    ensures slots { map (booted_or solo_image).slots solo_slots ≡ map (described solo_image).slots solo_slots }
    ensures objects { map (booted_or solo_image).objects (0x8000 ∷ 0x9000 ∷ 0xA000 ∷ 0xB000 ∷ 0xC000 ∷ 0xC200 ∷ 0xC300 ∷ 0xC310 ∷ [])
        ≡ map (described solo_image).objects (0x8000 ∷ 0x9000 ∷ 0xA000 ∷ 0xB000 ∷ 0xC000 ∷ 0xC200 ∷ 0xC300 ∷ 0xC310 ∷ []) }
    ensures bytes { map (booted_or solo_image).bytes (range_with_len 0x8000 32) ≡ map (described solo_image).bytes (range_with_len 0x8000 32) }
    ensures ready { (booted_or solo_image).ready 100 ≡ (described solo_image).ready 100 }
{}

/// The first round of the worker's loop: two invocations are carried out, and the Send waits.
#[tactic(auto, unfolding(crate::proofs::Opened::opened))]
pub fn loop_runs()
    ensures { trace (described loop_image) (replicate 25 Step) ≡ first_round }
{}

/// Loading the worker leaves the slots that are described: its pool is moved, its CNode has a guard.
#[tactic(auto, unfolding(crate::proofs::Opened::opened))]
pub fn loop_boots_as_described()
    ensures { map (booted_or loop_image).slots loop_slots ≡ map (described loop_image).slots loop_slots }
{}
