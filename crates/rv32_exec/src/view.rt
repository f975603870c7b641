//! Memory as a program sees it.

ghost use Rattle.std.specs.Prelude.{◌≡◌, ℕ, ◌<◌, ◌^◌, IfOk, MatchResult, Ok, Err};
ghost use Rattle.model.specs.Machine.ProgramMemory.{Content, FitsSize, IsNamed, place_at, put_byte, loaded, stored};

use model::{Access, AccessSize, MemoryFault};

/// Memory as a program sees it. Its addresses name places, one for each byte, for the accesses that
/// have the right there. Two addresses may name one place.
///
/// `place`, `byte` and `set_byte` say what a memory is. The rest follows byte by byte, and a memory that
/// knows a faster way writes its own `fetch`, `load` or `store`. Where that way does not serve, these
/// may call `number` and `set_number`.
pub trait View {
    /// What the addresses name, and the bytes in the places.
    ghost content: { Self → Content };

    /// What else the owner of the memory holds. No access changes it.
    ghost Rest: { Type 0 };

    ghost rest: { Self → Rest };

    /// The place that an address names for an access.
    ///
    /// # Errors
    ///
    /// The address has no such right: a fault at that address.
    fn place(&self, address: u32, access: Access) -> Result<u32, MemoryFault>
        ensures { result ≡ place_at (content self.now) access address };

    /// The byte in a place that some address names.
    fn byte(&self, place: u32) -> u8
        requires { IsNamed (content self.now) place }
        ensures { result ≡ (content self.now).byte place };

    /// Puts a byte into a place that some address names, and changes no other.
    fn set_byte(&mut self, place: u32, value: u8)
        requires { IsNamed (content self.old) place }
        ensures content { content self.new ≡ put_byte (content self.old) place value }
        ensures rest { rest self.new ≡ rest self.old };

    /// The number at an address, lowest byte first.
    ///
    /// # Errors
    ///
    /// One of its bytes has no such right: a fault at the first.
    fn number(&self, address: u32, size: AccessSize, access: Access) -> Result<u32, MemoryFault>
        ensures value { result ≡ loaded (content self.now) access size address }
        ensures range { IfOk result (FitsSize size) }
    {
        match size {
            AccessSize::Byte => {
                let place = self.place(address, access)?;
                Ok(u32::from(self.byte(place)))
            }
            AccessSize::Halfword => {
                let first = self.place(address, access)?;
                let second = self.place(address.wrapping_add(1), access)?;
                let bytes = [self.byte(first), self.byte(second)];
                Ok(u32::from(u16::from_le_bytes(bytes)))
            }
            AccessSize::Word => {
                let first = self.place(address, access)?;
                let next = address.wrapping_add(1);
                let second = self.place(next, access)?;
                let next = next.wrapping_add(1);
                let third = self.place(next, access)?;
                let fourth = self.place(next.wrapping_add(1), access)?;
                let bytes = [
                    self.byte(first),
                    self.byte(second),
                    self.byte(third),
                    self.byte(fourth),
                ];
                Ok(u32::from_le_bytes(bytes))
            }
        }
    }

    /// The number at an address, for an instruction that loads it.
    ///
    /// # Errors
    ///
    /// One of its bytes may not be read: a fault at the first.
    fn load(&self, address: u32, size: AccessSize) -> Result<u32, MemoryFault>
        ensures value { result ≡ loaded (content self.now) Access.Load size address }
        ensures range { IfOk result (FitsSize size) }
    {
        self.number(address, size, Access::Load)
    }

    /// The word at an address, to be run.
    ///
    /// # Errors
    ///
    /// One of its bytes may not be run: a fault at the first.
    fn fetch(&self, address: u32) -> Result<u32, MemoryFault>
        ensures { result ≡ loaded (content self.now) Access.Fetch AccessSize.Word address }
    {
        self.number(address, AccessSize::Word, Access::Fetch)
    }

    /// Puts the low bytes of a number at an address, lowest byte first.
    ///
    /// # Errors
    ///
    /// One of them may not be written: a fault at the first. Nothing changes then.
    fn set_number(&mut self, address: u32, size: AccessSize, value: u32) -> Result<(), MemoryFault>
        ensures content { MatchResult
            result
            (λ _. stored (content self.old) size address value ≡ Ok (content self.new))
            (λ fault. (stored (content self.old) size address value ≡ Err fault)
            × (content self.new ≡ content self.old)) }
        ensures rest { rest self.new ≡ rest self.old }
    {
        match size {
            AccessSize::Byte => {
                let place = self.place(address, Access::Store)?;
                self.set_byte(place, value.to_le_bytes()[0]);
            }
            AccessSize::Halfword => {
                let first = self.place(address, Access::Store)?;
                let second = self.place(address.wrapping_add(1), Access::Store)?;
                let [low, high, _, _] = value.to_le_bytes();
                self.set_byte(first, low);
                self.set_byte(second, high);
            }
            AccessSize::Word => {
                let first = self.place(address, Access::Store)?;
                let next = address.wrapping_add(1);
                let second = self.place(next, Access::Store)?;
                let next = next.wrapping_add(1);
                let third = self.place(next, Access::Store)?;
                let fourth = self.place(next.wrapping_add(1), Access::Store)?;
                let bytes = value.to_le_bytes();
                self.set_byte(first, bytes[0]);
                self.set_byte(second, bytes[1]);
                self.set_byte(third, bytes[2]);
                self.set_byte(fourth, bytes[3]);
            }
        }
        Ok(())
    }

    /// Stores the low bytes of a number at an address, for an instruction that stores it.
    ///
    /// # Errors
    ///
    /// One of them may not be written: a fault at the first. Nothing changes then.
    fn store(&mut self, address: u32, size: AccessSize, value: u32) -> Result<(), MemoryFault>
        ensures content { MatchResult
            result
            (λ _. stored (content self.old) size address value ≡ Ok (content self.new))
            (λ fault. (stored (content self.old) size address value ≡ Err fault)
            × (content self.new ≡ content self.old)) }
        ensures rest { rest self.new ≡ rest self.old }
    {
        self.set_number(address, size, value)
    }
}
