//! Rows on device pages: which words are theirs, what the world may do, and that they are no code. The image is `solo`, with its data
//! page at 0xB000 as a device page; its code page is at 0x8000.

ghost use Rattle.std.specs.Prelude.{◌≡◌, None, Some, true, false};
ghost use Rattle.model.specs.declared.events.Event.TheVariants.{Irq, Read, Step, Tick, Write};
ghost use Rattle.model.specs.declared.refusals.Refusal.TheVariants.{WritableCode};
ghost use Rattle.model.specs.Acceptance.Accepted.{first_in, phases};
ghost use Rattle.model.specs.Acceptance.Devices.{KeepsDevices, is_device_word};
ghost use Rattle.model_laws.specs.DevicePages.{code_device, device};
ghost use Rattle.model_laws.specs.Solo.{solo_image};
ghost use Rattle.model_laws.specs.Variants.{frame, with_frames};

/// All four bytes of a word are in one device page: from its first byte to the fourth before its end, aligned or not.
#[tactic(auto, unfolding(crate::proofs::Opened::opened))]
pub fn a_device_word_is_in_a_device_page()
    ensures first { is_device_word (device 3) 0xB000 ≡ true }
    ensures unaligned { is_device_word (device 3) 0xB123 ≡ true }
    ensures last { is_device_word (device 3) 0xBFFC ≡ true }
    ensures over { is_device_word (device 3) 0xBFFD ≡ false }
    ensures end { is_device_word (device 3) 0xC000 ≡ false }
    ensures before { is_device_word (device 3) 0xAFFC ≡ false }
    ensures into { is_device_word (device 3) 0xAFFF ≡ false }
    ensures code { is_device_word (device 3) 0x8000 ≡ false }
    ensures plain { is_device_word solo_image 0xB000 ≡ false }
    ensures other { is_device_word code_device 0x8000 ≡ true }
{}

/// The world writes and looks at device pages alone, by addresses from 0x80000000 on. Other events are free.
#[tactic(auto, unfolding(crate::proofs::Opened::opened))]
pub fn the_world_keeps_to_device_pages()
    ensures writes { KeepsDevices (device 3) (Write 0x8000_B000 7) }
    ensures writes_last { KeepsDevices (device 3) (Write 0x8000_BFFC 0xFFFF_FFFF) }
    ensures writes_over { KeepsDevices (device 3) (Write 0x8000_BFFD 7) → ⊥ }
    ensures writes_code { KeepsDevices (device 3) (Write 0x8000_8000 7) → ⊥ }
    ensures writes_low { KeepsDevices (device 3) (Write 0xB000 7) → ⊥ }
    ensures looks { KeepsDevices (device 3) (Read 0x8000_BFFC) }
    ensures looks_over { KeepsDevices (device 3) (Read 0x8000_BFFD) → ⊥ }
    ensures looks_at_code { KeepsDevices (device 3) (Read 0x8000_8000) → ⊥ }
    ensures steps { KeepsDevices (device 3) Step }
    ensures ticks { KeepsDevices (device 3) Tick }
    ensures interrupts { KeepsDevices (device 3) (Irq 3) }
{}

/// A device page is no code: with execute it is refused, whatever else reaches it. To read and to write it may be mapped.
#[tactic(auto, unfolding(crate::proofs::Opened::opened))]
pub fn device_pages_are_no_code()
    ensures read { first_in (phases (device 2)) ≡ None }
    ensures written { first_in (phases (device 3)) ≡ None }
    ensures executed { first_in (phases (device 4)) ≡ Some (WritableCode 2) }
    ensures read_and_executed { first_in (phases (device 6)) ≡ Some (WritableCode 2) }
    ensures program { first_in (phases code_device) ≡ Some (WritableCode 1) }
    ensures plain { first_in (phases (with_frames (frame 1 0x1000 0 4) (frame 1 0x2000 3 6))) ≡ None }
{}
