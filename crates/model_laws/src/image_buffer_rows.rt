//! Rows on the message buffers of images: which are refused, and what is in the slot of one. The image is `solo`, whose code page is
//! object 0, whose data page is object 3, and whose thread is object 4.

ghost use Rattle.std.specs.Prelude.{◌≡◌, [], ◌∷◌, None, Some, true, false, length};
ghost use Rattle.model.specs.declared.capabilities.Cap.TheVariants.{Frame};
ghost use Rattle.model.specs.declared.refusals.Refusal.TheVariants.{BadBuffer};
ghost use Rattle.model.specs.Acceptance.Accepted.{first_in, phases};
ghost use Rattle.model.specs.Acceptance.ThreadRules.{is_bad_buffer};
ghost use Rattle.model.specs.Capabilities.Rights.{rights};
ghost use Rattle.model.specs.Images.BootCalls.{all_calls, loader_call};
ghost use Rattle.model.specs.Images.Described.{described};
ghost use Rattle.model.specs.Images.Image.{no_buffer};
ghost use Rattle.model_laws.specs.Buffered.{buffered, buffered_and_held, buffered_and_mapped, buffered_twice, call_of};
ghost use Rattle.model_laws.specs.Solo.{booted_or};
ghost use Rattle.model_laws.specs.Variants.{capability, frame};

/// A buffer is a frame that is mapped to read and write, or not at all: no other object, no code, no capability's source.
#[tactic(auto, unfolding(crate::proofs::Opened::opened))]
pub fn buffers_fit()
    ensures data { first_in (phases (buffered 3)) ≡ None }
    ensures code { first_in (phases (buffered 0)) ≡ Some (BadBuffer 0) }
    ensures root { first_in (phases (buffered 1)) ≡ Some (BadBuffer 0) }
    ensures cnode { first_in (phases (buffered 5)) ≡ Some (BadBuffer 0) }
    ensures held { first_in (phases (buffered_and_held (capability 5 1 3 2 0))) ≡ Some (BadBuffer 0) }
    ensures none { first_in (phases (buffered no_buffer)) ≡ None }
{}

/// Of two threads with one buffer the second is refused. To map it is allowed, but not with execute, under no root table.
#[tactic(auto, unfolding(crate::proofs::Opened::opened))]
pub fn a_buffer_is_one_threads_and_no_code()
    ensures first { is_bad_buffer buffered_twice 0 3 ≡ false }
    ensures second { is_bad_buffer buffered_twice 1 3 ≡ true }
    ensures another { is_bad_buffer buffered_twice 1 6 ≡ true }
    ensures unmapped { is_bad_buffer (buffered_and_mapped (frame 1 0x1000 0 4 ∷ [])) 0 3 ≡ false }
    ensures executed { is_bad_buffer (buffered_and_mapped (frame 1 0x1000 0 4 ∷ frame 1 0x2000 3 6 ∷ [])) 0 3 ≡ true }
    ensures elsewhere { is_bad_buffer (buffered_and_mapped (frame 1 0x1000 0 4 ∷ frame 1 0x2000 3 3 ∷ frame 7 0x2000 3 4 ∷ [])) 0 3 ≡ true }
    ensures shared { is_bad_buffer (buffered_and_mapped (frame 1 0x1000 0 4 ∷ frame 1 0x2000 3 3 ∷ frame 7 0x2000 3 2 ∷ [])) 0 3 ≡ false }
{}

/// The loader sets the buffer after Configure and before SetPriority, by the original of the frame, in boot slot 4; without a buffer
/// it makes no such call.
#[tactic(auto, unfolding(crate::proofs::Opened::opened))]
pub fn the_loader_sets_a_buffer()
    ensures calls { length (all_calls (buffered 3)) ≡ 22 }
    ensures configure { call_of (buffered 3) 17 ≡ Some (loader_call 5 2 (0 ∷ 6 ∷ 32 ∷ 2 ∷ 32 ∷ 28 ∷ [])) }
    ensures set { call_of (buffered 3) 18 ≡ Some (loader_call 5 21 (4 ∷ 32 ∷ [])) }
    ensures priority { call_of (buffered 3) 19 ≡ Some (loader_call 5 3 (100 ∷ [])) }
    ensures none { length (all_calls (buffered no_buffer)) ≡ 21 }
{}

/// The described thread holds in its slot 2 a capability to the frame, with all rights, not mapped, below the original. The loader
/// leaves the same there.
#[tactic(auto, unfolding(crate::proofs::Opened::opened))]
pub fn a_buffer_is_described()
    ensures slot { (described (buffered 3)).slots 0xC02
        ≡ Some (record { capability = Frame 0xB000 (rights 3) None; parent = Some 4 }) }
    ensures booted { (booted_or (buffered 3)).slots 0xC02
        ≡ Some (record { capability = Frame 0xB000 (rights 3) None; parent = Some 4 }) }
{}
