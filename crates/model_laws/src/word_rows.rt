//! Rows on the words of capabilities.

ghost use Rattle.std.specs.Prelude.{◌≡◌, None, Some};
ghost use Rattle.model.specs.Capabilities.CapabilityFields.{unpacked};
ghost use Rattle.model.specs.Capabilities.Rights.{rights};
ghost use Rattle.model.specs.declared.capabilities.Cap.TheVariants.{CNode, Empty, Frame, InterruptControl, InterruptHandler, PageTable};

/// Words that represent a capability.
#[tactic(auto, unfolding(crate::proofs::Opened::opened))]
pub fn words_stand_for()
    ensures empty { unpacked 0 0 ≡ Some Empty }
    ensures frame { unpacked 0x01100036 0 ≡ Some (Frame 0x11000 (rights 3) None) }
    ensures mapped { unpacked 0x01100636 0x00006013
        ≡ Some (Frame 0x11000 (rights 3) (Some (record { root = 0x9000; page = 3; rights = rights 3 }))) }
    ensures cnode { unpacked 0x00C20045 0x0000001C ≡ Some (CNode 0xC200 4 28) }
    ensures table { unpacked 0x00A00007 0x00800013 ≡ Some (PageTable 0xA000 (Some (record { root = 0x9000; region = 1 }))) }
    ensures control { unpacked 9 0 ≡ Some InterruptControl }
    ensures handler { unpacked 10 63 ≡ Some (InterruptHandler 63) }
{}

/// Words that represent none: a kind or a bit that is not named, a value outside its range.
#[tactic(auto, unfolding(crate::proofs::Opened::opened))]
pub fn words_stand_for_nothing()
    ensures kind { unpacked 11 0 ≡ None }
    ensures empty { unpacked 0 1 ≡ None }
    ensures frame { unpacked 0x01100236 0 ≡ None }
    ensures unaligned { unpacked 0x01108036 0 ≡ None }
    ensures unreadable { unpacked 0x01100236 0x00006013 ≡ None }
    ensures even { unpacked 0x01100636 0x00006012 ≡ None }
    ensures guard { unpacked 0x00C20045 0x0000001D ≡ None }
    ensures inside { unpacked 0x00A00007 0x00006013 ≡ None }
    ensures handler { unpacked 10 64 ≡ None }
{}
