//! The calls that capabilities have: the table of their labels, their names and how many words they list.
//! seL4 Reference Manual, "seL4 API Reference"; labels and words are our own.

ghost use Rattle.std.specs.Prelude.{◌≡◌, IfSome, None};
ghost use Rattle.invoke.specs.Methods.{label_of};
ghost use Rattle.model.specs.declared.capabilities.Cap.{Cap};
ghost use Rattle.model.specs.Kernel.CallForms.{form_of};

/// A call that a kind of capability has.
#[derive(Clone, Copy)]
pub enum Method {
    /// New objects in untyped memory.
    Retype,
    /// Fault address, capability space and address space of a thread.
    Configure,
    /// The priority of a thread.
    SetPriority,
    /// One register of a thread.
    SetRegister,
    /// A thread runs from now on.
    Resume,
    /// A thread runs no more.
    Suspend,
    /// A copy of a capability.
    Copy,
    /// A copy of a capability with a badge or a guard word.
    Mint,
    /// Another slot for a capability.
    Move,
    /// Another slot for a capability, with a guard word.
    Mutate,
    /// The removal of a capability.
    Delete,
    /// The removal of all that was derived from a capability.
    Revoke,
    /// A frame in an address space.
    MapFrame,
    /// A frame out of its address space.
    UnmapFrame,
    /// A page table in an address space.
    MapTable,
    /// A page table out of its address space.
    UnmapTable,
    /// The handler of an interrupt line.
    GetHandler,
    /// An interrupt line may be raised again.
    Acknowledge,
    /// The notification that an interrupt line signals.
    SetNotification,
    /// An interrupt line signals nothing any more.
    Clear,
    /// The frame of a thread's message buffer.
    SetBuffer,
}

impl Method {
    /// Its label, its name, and how many words it lists.
    fn row(self) -> (u32, &'static str, usize)
        ensures label { result.0 ≡ label_of self }
        ensures words { (capability : Cap) → IfSome (form_of capability (label_of self)) (λ form. form.count ≡ result.2) }
    {
        match self {
            Method::Retype => (1, "Retype", 6),
            Method::Configure => (2, "Configure", 5),
            Method::SetPriority => (3, "SetPriority", 1),
            Method::SetRegister => (4, "SetRegister", 2),
            Method::Resume => (5, "Resume", 0),
            Method::Suspend => (6, "Suspend", 0),
            Method::Copy => (7, "Copy", 5),
            Method::Mint => (8, "Mint", 6),
            Method::Move => (9, "Move", 4),
            Method::Mutate => (10, "Mutate", 5),
            Method::Delete => (11, "Delete", 2),
            Method::Revoke => (12, "Revoke", 2),
            Method::MapFrame => (13, "Map", 4),
            Method::UnmapFrame => (14, "Unmap", 0),
            Method::MapTable => (15, "Map", 3),
            Method::UnmapTable => (16, "Unmap", 0),
            Method::GetHandler => (17, "Get", 3),
            Method::Acknowledge => (18, "Ack", 0),
            Method::SetNotification => (19, "SetNotification", 2),
            Method::Clear => (20, "Clear", 0),
            Method::SetBuffer => (21, "SetBuffer", 2),
        }
    }

    /// The label by which messages ask for it, 1 to 21.
    pub fn label(self) -> u32
        ensures { result ≡ label_of self }
    {
        self.row().0
    }

    /// Its name in docs/MANUAL.md; page tables and frames have calls of one name.
    pub fn name(self) -> &'static str {
        self.row().1
    }

    /// How many words it lists.
    pub fn words(self) -> usize
        ensures { (capability : Cap) → IfSome (form_of capability (label_of self)) (λ form. form.count ≡ result) }
    {
        self.row().2
    }

    /// The call of a label. No capability has one of another label.
    pub fn of_label(label: u32) -> Option<Method>
        ensures found { IfSome result (λ method. label_of method ≡ label) }
        ensures missing { (capability : Cap) → result ≡ None → form_of capability label ≡ None }
    {
        Some(match label {
            1 => Method::Retype,
            2 => Method::Configure,
            3 => Method::SetPriority,
            4 => Method::SetRegister,
            5 => Method::Resume,
            6 => Method::Suspend,
            7 => Method::Copy,
            8 => Method::Mint,
            9 => Method::Move,
            10 => Method::Mutate,
            11 => Method::Delete,
            12 => Method::Revoke,
            13 => Method::MapFrame,
            14 => Method::UnmapFrame,
            15 => Method::MapTable,
            16 => Method::UnmapTable,
            17 => Method::GetHandler,
            18 => Method::Acknowledge,
            19 => Method::SetNotification,
            20 => Method::Clear,
            21 => Method::SetBuffer,
            _ => return None,
        })
    }
}
